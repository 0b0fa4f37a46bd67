//! Dates, content ranges and entity tags, formatted.
ghost use Rattle.std.specs.Prelude.{◌≡◌, MatchBool};
ghost use Rattle.headers.specs.EntityTag.{is_tag_byte};
ghost use Rattle.http_header.specs.Token.{AllPass};
ghost use Rattle.c_parts.specs.Formats.{FormatsContentRange, FormatsDate, FormatsTag, IsContentOf};
ghost use Rattle.c_parts.specs.Formats.{number_if, range_if};

use crate::status::Failure;
use headers::{ContentRange, Date, HeaderValue, encoding};
use std::alloc::Global;
use std::ops::Bound;

/// A content range, as C passes it in. A flag is 0 if its numbers are unknown.
#[repr(C)]
#[derive(Clone, Copy)]
pub struct ContentRangeParts {
    /// The first position of the range.
    pub first: u64,
    /// Its last position, included.
    pub last: u64,
    /// The complete length in bytes.
    pub length: u64,
    /// Whether there is a range.
    pub has_range: u8,
    /// Whether the length is known.
    pub has_length: u8,
}

// The first second that no date has: 10000-01-01T00:00:00.
const END_OF_DATES: u64 = 253_402_300_800;

/// A date as IMF-fixdate (RFC 9110, section 5.6.7). Rejected past the year 9999.
pub fn format_date(alloc: Global, second: u64) -> Result<HeaderValue, Failure>
    ensures { FormatsDate second result }
{
    if second >= END_OF_DATES {
        return Err(Failure::Refused);
    }
    let mut written = encoding(alloc, &Date::from_unix_secs(second))?.lines;
    match written.pop() {
        Some(line) => Ok(line),
        None => unreachable!(),
    }
}

fn number_if(flag: u8, number: u64) -> Option<u64>
    ensures { result ≡ number_if flag number }
{
    if flag == 0 { None } else { Some(number) }
}

fn range_if(parts: &ContentRangeParts) -> Option<(u64, u64)>
    ensures { result ≡ range_if parts.entry.now }
{
    if parts.has_range == 0 {
        None
    } else {
        Some((parts.first, parts.last))
    }
}

// The content range that is said, if it is one.
fn content_of(parts: &ContentRangeParts) -> Option<ContentRange>
    ensures { IsContentOf parts.entry.now result }
{
    let length = number_if(parts.has_length, parts.length);
    match (range_if(parts), length) {
        (Some((first, last)), length) => {
            if first > last || length.is_some_and(|length| last >= length) {
                return None;
            }
            ContentRange::bytes((Bound::Included(first), Bound::Included(last)), length).ok()
        }
        (None, Some(length)) => Some(ContentRange::unsatisfied_bytes(length)),
        (None, None) => None,
    }
}

/// A content range (RFC 9110, section 14.4). Rejected if a range has its first position past its
/// last, or its last not below the length, or if neither a range nor a length is said.
pub fn format_content_range(
    alloc: Global,
    parts: &ContentRangeParts,
) -> Result<HeaderValue, Failure>
    ensures { FormatsContentRange parts.entry.now result }
{
    let Some(range) = content_of(parts) else {
        return Err(Failure::Refused);
    };
    let mut written = encoding(alloc, &range)?.lines;
    match written.pop() {
        Some(line) => Ok(line),
        None => unreachable!(),
    }
}

fn is_tag_byte(byte: u8) -> bool
    ensures { result ≡ is_tag_byte byte }
{
    byte == 0x21 || (0x23..=0x7E).contains(&byte) || byte >= 0x80
}

fn are_tag_bytes(opaque: &[u8]) -> bool
    ensures { MatchBool result (AllPass is_tag_byte opaque.now) (¬ (AllPass is_tag_byte opaque.now)) }
{
    opaque.iter().all(|byte| is_tag_byte(*byte))
}

/// Makes the entity tag with this opaque part (RFC 9110, section 8.8.3). Rejected if a byte of it
/// isn't allowed there.
pub fn format_tag(alloc: Global, is_weak: bool, opaque: &[u8]) -> Result<Vec<u8>, Failure>
    ensures { FormatsTag is_weak opaque.now result }
{
    if !are_tag_bytes(opaque) {
        return Err(Failure::Refused);
    }
    let mut text = Vec::new(alloc);
    if is_weak {
        text.extend_from_slice(b"W/")?;
    }
    text.push(b'"')?;
    text.extend_from_slice(opaque)?;
    text.push(b'"')?;
    Ok(text)
}
