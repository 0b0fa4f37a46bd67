//! The age of a response.
ghost use Rattle.std.specs.Prelude.{◌≡◌};
ghost use Rattle.headers_map.specs.LineMap.{lines_at};
ghost use Rattle.cache_fields.{specs.Age.{age_at, apparent_age}, specs.Fields.capped};

use crate::fields::{age_value, date};
use http_header::{DATE, HeaderMap};

/// The times of a response, in seconds since 1970 by the cache's own clock (RFC 9111, section
/// 4.2.3).
#[derive(Clone, Copy, Debug, PartialEq, Eq)]
pub struct Times {
    /// When the request was made that the response answered.
    pub request: u64,
    /// When the response was received.
    pub response: u64,
    /// The present.
    pub now: u64,
}

/// Returns the age of a response in seconds at `times.now` (RFC 9111, section 4.2.3). An age past
/// 2^64 - 1 is replaced by that, and a negative difference counts as 0.
pub fn current_age(response: &HeaderMap, times: Times) -> u64
    ensures { result ≡ capped (age_at times (lines_at response.now)) }
{
    let response_delay = times.response.saturating_sub(times.request);
    let corrected_age_value = age_value(response).saturating_add(response_delay);
    let corrected_initial_age = apparent_age(response, times).max(corrected_age_value);
    let resident_time = times.now.saturating_sub(times.response);
    corrected_initial_age.saturating_add(resident_time)
}

// How old the response was when it came, by its Date.
fn apparent_age(response: &HeaderMap, times: Times) -> u64
    ensures { result ≡ capped (apparent_age times (lines_at response.now)) }
{
    match date(response, DATE, times.response) {
        Some(made) => made.age_at(times.response),
        None => 0,
    }
}
