//! Conditional requests to validate a stored response.
ghost use Rattle.std.specs.Prelude.{◌≡◌, ◌∷◌, [], IfOk, codes, option_map};
ghost use Rattle.headers.specs.{LineMap.field_of, LineMap.fields_of, LineMap.lines_at, Lines.lines_of};
ghost use Rattle.cache_policy.specs.Validating.{IsCanonical, dated_line, sent_date, since_lines, tag_lines};
ghost use Rattle.cache_policy.specs.Validating.{validation_fields};

use crate::dating::END_OF_DATES;
use headers::{
    ETag, Encoded, Header, HeaderMap, HeaderValue, IfModifiedSince, Refused, canonical, encoding,
    trim,
};
use http_header::{IF_MODIFIED_SINCE, IF_NONE_MATCH, LAST_MODIFIED};
use rfc_fields::only_value;
use rfc_values::{Timestamp, read_date};
use std::alloc::{AllocError, Global};

/// Returns the fields that make a request validate a stored response (RFC 9111, section 4.3.1), for
/// `set_all` on the request's own. If-None-Match has the entity tag of the response,
/// If-Modified-Since the date of its Last-Modified. `received` is when the response was received,
/// in seconds since 1970, which decides a year of two digits.
///
/// A validator that the response doesn't have, or that can't be parsed, is a field without field
/// lines. So the request's own two fields are replaced or removed, and a 304 is about the stored
/// response alone. A date before 1970 is sent as it came, any other as an IMF-fixdate.
pub fn validation_fields(
    alloc: Global,
    response: &HeaderMap,
    received: u64,
) -> Result<Vec<Encoded>, AllocError>
    ensures { IfOk result (λ fields.
        fields_of fields.items ≡ validation_fields received (lines_at response.now)) }
{
    let by_tag = tag_field(alloc, response)?;
    let by_date = since_field(alloc, response, received)?;
    Ok(vec![in alloc; by_tag, by_date]?)
}

fn tag_field(alloc: Global, response: &HeaderMap) -> Result<Encoded, AllocError>
    ensures { IfOk result (λ field. field_of field ≡ (codes "if-none-match", tag_lines (lines_at response.now))) }
{
    let lines = canonical_lines::<ETag>(alloc, response)?;
    Ok(Encoded {
        name: IF_NONE_MATCH,
        lines,
    })
}

fn since_field(alloc: Global, response: &HeaderMap, received: u64) -> Result<Encoded, AllocError>
    ensures { IfOk result (λ field.
        field_of field ≡ (codes "if-modified-since", since_lines received (lines_at response.now))) }
{
    match dated_line(response, received) {
        Some((line, date)) => sent_date(alloc, line, date),
        None => Ok(Encoded {
            name: IF_MODIFIED_SINCE,
            lines: Vec::new(alloc),
        }),
    }
}

// The only field line of Last-Modified with the date that it is.
fn dated_line(response: &HeaderMap, received: u64) -> Option<(&HeaderValue, Timestamp)>
    ensures { option_map (λ dated. (dated.0.now.bytes, dated.1)) result
        ≡ dated_line received (lines_at response.now) }
{
    let line = only_value(&response.get_all(LAST_MODIFIED))?;
    match read_date(trim(line.as_bytes()), received) {
        Some(date) => Some((line, date)),
        None => None,
    }
}

// If-Modified-Since with the date of a line.
fn sent_date(alloc: Global, line: &HeaderValue, date: Timestamp) -> Result<Encoded, AllocError>
    ensures { IfOk result (λ field.
        field_of field ≡ (codes "if-modified-since", sent_date line.now.bytes date ∷ [])) }
{
    match date.unix_seconds() {
        Some(seconds) if seconds < END_OF_DATES => {
            encoding(alloc, &IfModifiedSince::from_unix_secs(seconds))
        }
        _ => Ok(Encoded {
            name: IF_MODIFIED_SINCE,
            lines: vec![in alloc; line.clone()?]?,
        }),
    }
}

// The encoding of a header of the response. There is no field line if the response doesn't have the
// header, or it can't be parsed.
fn canonical_lines<H: Header>(
    alloc: Global,
    response: &HeaderMap,
) -> Result<Vec<HeaderValue>, AllocError>
    ensures { IfOk result (λ lines.
        IsCanonical H.reads H.writes (lines_at response.now H.field_name) (lines_of lines.items)) }
{
    match canonical::<H>(alloc, response) {
        Ok(Some(Encoded { lines, .. })) => Ok(lines),
        Ok(None) => Ok(Vec::new(alloc)),
        Err(Refused::Invalid(_)) => Ok(Vec::new(alloc)),
        Err(Refused::Memory(refused)) => Err(refused),
    }
}
