//! What a response carries of a representation, as C hands it in.
ghost use Rattle.std.specs.Prelude.{◌≡◌};
ghost use Rattle.c_decisions.specs.Contents.{IsBoundaryOf, IsContentOf, limits_of};

use crate::numbers::known;
use crate::texts::optional_value;
use c_parts::Failure;
use decide_preconditions::{Boundary, Content, RangeLimits};
use headers::Refused;
use std::alloc::Global;

/// The content of a representation, as C passes it in.
#[repr(C)]
#[derive(Clone, Copy)]
pub struct ContentParts<'a> {
    /// Its media type, as the line of `Content-Type`, or empty if it isn't known.
    pub media_type: &'a [u8],
    /// The boundary between several parts.
    pub boundary: &'a [u8],
    /// How many bytes it has, if `has_length`.
    pub length: u64,
    /// Whether that is known. If not, no ranges are sent.
    pub has_length: bool,
    /// Whether ranges of it are sent.
    pub sends_ranges: bool,
}

/// Returns the usual limits, if ranges are sent.
pub fn limits_of(sends_ranges: bool) -> Option<RangeLimits>
    ensures { result ≡ limits_of sends_ranges }
{
    if sends_ranges {
        Some(RangeLimits::usual())
    } else {
        None
    }
}

/// What the parts say. Rejected if the media type can't be a field line.
pub fn content_of(alloc: Global, parts: &ContentParts<'_>) -> Result<Content, Failure>
    ensures { IsContentOf parts.now result }
{
    let media_type = optional_value(alloc, parts.media_type)?;
    Ok(Content {
        len: known(parts.has_length, parts.length),
        media_type,
        ranges: limits_of(parts.sends_ranges),
    })
}

/// Makes a boundary of these bytes (RFC 2046, section 5.1.1).
pub fn boundary_of(alloc: Global, text: &[u8]) -> Result<Boundary, Failure>
    ensures { IsBoundaryOf text.now result }
{
    let Ok(text) = str::from_utf8(text) else {
        return Err(Failure::Refused);
    };
    match Boundary::new(alloc, text) {
        Ok(boundary) => Ok(boundary),
        Err(Refused::Invalid(_)) => Err(Failure::Refused),
        Err(Refused::Memory(_)) => Err(Failure::Memory),
    }
}
