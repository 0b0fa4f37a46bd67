//! The content of a representation.
ghost use Rattle.std.specs.Prelude.{◌≡◌};
ghost use Rattle.decide_preconditions.specs.Contents.{divisible_len, is_divisible, limits_of};

use crate::boundary::Boundary;
use crate::limits::RangeLimits;
use headers::HeaderValue;

/// The content of a current representation: its length, its media type, and which ranges are sent.
#[derive(Debug, Drop)]
pub struct Content {
    /// The length in bytes, if it is known.
    pub len: Option<u64>,
    /// The media type, as the field line of `Content-Type`, if it is known.
    pub media_type: Option<HeaderValue>,
    /// Which ranges are sent, if any. If the length isn't known, none are.
    pub ranges: Option<RangeLimits>,
}

/// What a server knows when it responds.
#[derive(Clone, Copy)]
pub struct Sending<'a> {
    /// The time, in seconds since 1970.
    pub present: u64,
    /// The content of the current representation.
    pub content: &'a Content,
    /// The boundary between several parts of it.
    pub boundary: &'a Boundary,
}

impl Content {
    // Whether ranges of it are sent.
    pub(crate) fn is_divisible(&self) -> bool
        ensures { result ≡ is_divisible self.now }
    {
        self.len.is_some() && self.ranges.is_some()
    }

    // Of how many bytes ranges are sent.
    pub(crate) fn divisible_len(&self) -> u64
        ensures { result ≡ divisible_len self.now }
    {
        match (self.len, self.ranges) {
            (Some(len), Some(_)) => len,
            _ => 0,
        }
    }

    pub(crate) fn limits(&self) -> RangeLimits
        ensures { result ≡ limits_of self.now }
    {
        match self.ranges {
            Some(limits) => limits,
            None => RangeLimits::usual(),
        }
    }
}
