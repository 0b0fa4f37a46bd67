//! The field Age of a stored response.
ghost use Rattle.std.specs.Prelude.{◌≡◌, ◌∷◌, [], IfOk, codes, decimal};
ghost use Rattle.headers.specs.LineMap.{field_of, lines_at};
ghost use Rattle.cache_policy.specs.{Age.age_at, Fields.capped};

use cache_policy::{Times, current_age};
use headers::{Encoded, HeaderMap, HeaderValue};
use http_header::AGE;
use std::alloc::{AllocError, Global};

/// Returns the field Age of a stored response that is served without validation, for `set_all` on
/// its fields: its current age in seconds (RFC 9111, section 5.1). An age past 2^64 - 1 is replaced
/// by that (section 1.2.2), so it never wraps. Fails only if an allocation fails.
pub fn age_field(alloc: Global, response: &HeaderMap, times: Times) -> Result<Encoded, AllocError>
    ensures { IfOk result (λ field.
        field_of field ≡ (codes "age", decimal (capped (age_at times (lines_at response.now))) ∷ [])) }
{
    age_field_of(alloc, current_age(response, times))
}

/// Returns the field Age with this number of seconds, for a response whose current age is known (RFC
/// 9111, section 5.1). Fails only if an allocation fails.
pub fn age_field_of(alloc: Global, seconds: u64) -> Result<Encoded, AllocError>
    ensures { IfOk result (λ field. field_of field ≡ (codes "age", decimal seconds ∷ [])) }
{
    let age = HeaderValue::from_u64(alloc, seconds)?;
    Ok(Encoded {
        name: AGE,
        lines: vec![in alloc; age]?,
    })
}
