//! The field Date that a cache sets.
ghost use Rattle.std.specs.Prelude.{◌≡◌, IfOk, codes};
ghost use Rattle.headers.specs.LineMap.{field_of};
ghost use Rattle.cache_policy.specs.Dating.{date_lines};

use headers::{Date, Encoded, encoding};
use http_header::DATE;
use std::alloc::{AllocError, Global};

/// The first second of the year 10000, since 1970.
pub const END_OF_DATES: u64 = 253_402_300_800;

/// Returns the field Date with this second since 1970, for a response without one (RFC 9110, section
/// 6.6.1). It has no field line if the second is after the year 9999, since that can't be written.
/// Fails only if an allocation fails.
pub fn date_field(alloc: Global, second: u64) -> Result<Encoded, AllocError>
    ensures { IfOk result (λ field. field_of field ≡ (codes "date", date_lines second)) }
{
    if second < END_OF_DATES {
        return encoding(alloc, &Date::from_unix_secs(second));
    }
    Ok(Encoded {
        name: DATE,
        lines: Vec::new(alloc),
    })
}
