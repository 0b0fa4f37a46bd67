//! What a server knows of the target of a request.
ghost use Rattle.c_decisions.specs.Targets.{IsDateOf, IsResourceOf, IsTagOf};

use c_parts::{Failure, read_field};
use decide_preconditions::{TargetState, Validators};
use headers::{ETag, LastModified};
use std::alloc::Global;

/// The first second after the dates of HTTP.
const END_OF_DATES: u64 = 253_402_300_800;

/// What a server knows about the target of a request, as C passes it in.
#[repr(C)]
#[derive(Clone, Copy)]
pub struct TargetFacts<'a> {
    /// The entity tag of its current representation, or empty if that has none.
    pub etag: &'a [u8],
    /// When its current representation was last modified, in seconds since the start of 1970, if
    /// `has_last_modified`.
    pub last_modified: u64,
    /// When the request is answered, in seconds since the start of 1970: a date with a year of two
    /// digits depends on it (RFC 9110, section 5.6.7).
    pub present: u64,
    /// Whether it has a current representation.
    pub exists: bool,
    /// Whether it is known when that was last modified.
    pub has_last_modified: bool,
    /// Whether that date is a strong validator (RFC 9110, section 8.8.2.2).
    pub is_date_strong: bool,
}

fn read_tag(alloc: Global, text: &[u8]) -> Result<Option<ETag>, Failure>
    ensures { IsTagOf text.now result }
{
    match read_field::<ETag>(alloc, text) {
        Ok(etag) => Ok(Some(etag)),
        Err(Failure::Absent) => Ok(None),
        Err(failure) => Err(failure),
    }
}

/// Returns the date of a time, if it is known.
pub fn read_date(is_known: bool, second: u64) -> Result<Option<LastModified>, Failure>
    ensures { IsDateOf is_known second result }
{
    if !is_known {
        return Ok(None);
    }
    if second >= END_OF_DATES {
        return Err(Failure::Refused);
    }
    Ok(Some(LastModified::from_unix_secs(second)))
}

/// Makes the resource of what is known about the target.
pub fn read_resource(alloc: Global, target: &TargetFacts<'_>) -> Result<TargetState, Failure>
    ensures { IsResourceOf target.now result }
{
    if !target.exists {
        return Ok(TargetState::Missing);
    }
    let etag = read_tag(alloc, target.etag)?;
    let last_modified = read_date(target.has_last_modified, target.last_modified)?;
    Ok(TargetState::Current(Validators {
        etag,
        last_modified,
        is_date_strong: target.is_date_strong,
    }))
}
