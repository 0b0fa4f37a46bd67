//! Requests, as a caller hands them in.
ghost use Rattle.std.{specs.Prelude.{◌≡◌, MatchResult}, specs.Str.IsUtf8};
ghost use Rattle.c_pass.specs.Reading.{FailsText};

use c_parts::Failure;

/// A request to a cache.
#[repr(C)]
#[derive(Clone, Copy)]
pub struct CacheRequest<'a> {
    /// The key of its target, in UTF-8: its URI, as a text that is made the same way each time.
    pub target: &'a [u8],
    /// Its method.
    pub method: &'a [u8],
    /// Its header section.
    pub section: &'a [u8],
}

/// The key of a target.
pub(crate) fn read_target(bytes: &[u8]) -> Result<&str, Failure>
    ensures { MatchResult result (λ text. (text.now ≡ bytes.now) × IsUtf8 bytes.now) (FailsText bytes.now) }
{
    match str::from_utf8(bytes) {
        Ok(text) => Ok(text),
        Err(_) => Err(Failure::Refused),
    }
}
