//! The dates and the age that the fields of a message state.
ghost use Rattle.std.specs.Prelude.{◌≡◌, ◌∷◌, []};
ghost use Rattle.headers_map.specs.LineMap.{lines_at};
ghost use Rattle.cache_fields.specs.Fields.{age_of, age_value, date_in};

use headers_syntax::trim;
use http_header::{AGE, HeaderMap, HeaderName, HeaderValue};
use rfc_fields::{number, only_value};
use rfc_values::{Timestamp, read_date};

/// Parses a field that has exactly one field line as a date (RFC 9110, section 5.6.7). `now`
/// decides a year of two digits.
pub fn date(message: &HeaderMap, name: HeaderName, now: u64) -> Option<Timestamp>
    ensures { result ≡ date_in now name (lines_at message.now) }
{
    let line = only_value(&message.get_all(name))?;
    read_date(trim(line.as_bytes()), now)
}

// The number of Age: 0 without the field, or if it is no number.
pub(crate) fn age_value(message: &HeaderMap) -> u64
    ensures { result ≡ age_value (lines_at message.now) }
{
    match message.get_all(AGE).iter().next() {
        Some(line) => age_in(line),
        None => 0,
    }
}

// The number of the first member of a line of Age.
fn age_in(line: &HeaderValue) -> u64
    ensures { result ≡ age_of (line.now.bytes ∷ []) }
{
    let line = line.as_bytes();
    let end = line
        .iter()
        .position(|byte| *byte == b',')
        .unwrap_or(line.len());
    number(trim(&line[..end])).unwrap_or(0)
}
