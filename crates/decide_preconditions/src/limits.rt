//! Limits on the parts of a response.
ghost use Rattle.std.specs.Prelude.{◌≡◌};
ghost use Rattle.decide_preconditions.specs.Limits.{usual_limits};

/// Which ranges a server sends as several parts (RFC 9110, sections 14.2, 15.3.7.2 and 17.15).
#[derive(Clone, Copy, Debug, PartialEq, Eq)]
pub struct RangeLimits {
    /// Ranges with at most this many bytes between them are sent as one part.
    pub gap: u64,
    /// The greatest number of bytes that a part adds to a `multipart/byteranges` beside its own
    /// bytes. These are the boundary, its header fields, and its share of the last boundary. Range
    /// is ignored if those of all parts together are more than the length of the representation.
    pub head: u64,
    /// The greatest number of parts. Range is ignored if there are more.
    pub parts: u64,
}

/// What a server knows when it selects ranges.
#[derive(Clone, Copy, Debug, PartialEq, Eq)]
pub struct RangeFacts {
    /// The time, in seconds since 1970.
    pub present: u64,
    /// The length of the current representation in bytes, or 0 if no ranges of it are sent.
    pub len: u64,
    /// Which ranges are sent.
    pub limits: RangeLimits,
}

impl RangeLimits {
    /// Returns limits that suit most servers, so that no response is longer than twice the
    /// representation. The gap is 80 bytes, which is less than the cost of a part. A part costs 512
    /// bytes, which is enough for each `Boundary` and a media type of up to 255 bytes. There are at
    /// most 100 parts.
    pub fn usual() -> RangeLimits
        ensures { result ≡ usual_limits }
    {
        RangeLimits {
            gap: 80,
            head: 512,
            parts: 100,
        }
    }
}
