//! The header `content-range`.
ghost use Rattle.std.{specs.Prelude.{◌≡◌, Some, None, IfOk, string_bytes, if◌then◌else◌}, specs.Result.result_ok};
ghost use Rattle.http_header.specs.FieldValue.{plain_value};
ghost use Rattle.headers_syntax.{specs.Number.number, specs.HeaderLaws.written_by};
ghost use Rattle.headers_ranges.specs.ContentBytes.{FitsOption, built, content_bytes, content_text, first_position};
ghost use Rattle.headers_ranges.specs.ContentBytes.{in_bytes, is_ordered, last_position, of_parts, positions};
ghost use Rattle.headers_ranges.{specs.ContentBytes.{read_or_star, sized}, specs.ContentRange.content_range_grammar};

use crate::cut::cut_once;
use bytes::Bytes;
use headers_core::{AsHeaderValue, Error, Header, Refused, first, parse_number, read_text};
use http_header::{CONTENT_RANGE, HeaderName, HeaderValue};
use std::alloc::{AllocError, Global};
use std::fmt;
use std::marker::Model;
use std::ops::Bound;

/// The header `Content-Range`: the part of a representation that a message carries (RFC 9110,
/// section 14.4). The first field line is decoded: the unit `bytes`, a range of positions or `*`,
/// and the complete length or `*`. Positions and lengths count bytes, and are below 2^64. `decode`
/// rejects any other value, and never allocates. Headers are compared by the positions and the
/// length.
#[derive(Clone, Debug, Drop, PartialEq)]
pub struct ContentRange {
    range: Option<(u64, u64)>,
    complete_length: Option<u64>,
}

impl Model for ContentRange {
    ghost use Rattle.headers_ranges.specs.ContentBytes.{ContentBytes, FitsContent};

    ghost Value = { ContentBytes };

    ghost view = { λ content. record { range = content.range; length = content.complete_length } };

    ghost invariant = { λ content. FitsContent (record { range = content.range; length = content.complete_length }) };

    ghost inverse = { λ content. record { range = content.range; complete_length = content.length } };
}

/// The error of bounds that have no first or no last position.
#[derive(Clone, Copy, Debug, PartialEq, Eq)]
pub struct InvalidContentRange;

impl fmt::Display for InvalidContentRange {
    ghost use Rattle.std.specs.Prelude.{Some, codes};

    ghost output = { λ _. Some (codes "InvalidContentRange") };

    ghost styled_output = { λ _ _. Some (codes "InvalidContentRange") };

    fn fmt<W: fmt::Write>(&self, f: &mut fmt::Formatter<W>) -> fmt::Result {
        f.write_str("InvalidContentRange")
    }
}

impl std::error::Error for InvalidContentRange {}

// The position at which a range starts.
fn first_position(start: Bound<u64>) -> Option<u64>
    ensures value { result ≡ first_position start }
    ensures fits { FitsOption result }
{
    match start {
        Bound::Included(first) => Some(first),
        Bound::Excluded(before) => before.checked_add(1),
        Bound::Unbounded => Some(0),
    }
}

// The position at which a range ends.
fn last_position(end: Bound<u64>, complete_length: Option<u64>) -> Option<u64>
    ensures value { result ≡ last_position end complete_length }
    ensures fits { FitsOption result }
{
    match end {
        Bound::Included(last) => Some(last),
        Bound::Excluded(end) => end.checked_sub(1),
        Bound::Unbounded => complete_length?.checked_sub(1),
    }
}

// A range of two positions in order, or `*`.
fn read_range(text: &str) -> Option<Option<(u64, u64)>>
    ensures { result ≡ read_or_star positions text.now }
{
    if text == "*" {
        return Some(None);
    }
    let (first, last) = cut_once(text, '-')?;
    let first = parse_number(first)?;
    let last = parse_number(last)?;
    if last < first {
        return None;
    }
    Some(Some((first, last)))
}

// A length, or `*`.
fn read_length(text: &str) -> Option<Option<u64>>
    ensures { result ≡ read_or_star number text.now }
{
    if text == "*" {
        return Some(None);
    }
    Some(Some(parse_number(text)?))
}

impl ContentRange {
    /// Makes the header of a range between two bounds, which count bytes from 0 (RFC 9110, section
    /// 14.4). An unbounded start is position 0, and an unbounded end is the last position of the
    /// representation. `InvalidContentRange` if there is no first or no last position. A start past
    /// the end is accepted, but its encoding is rejected when it is decoded.
    pub fn bytes(
        range: (Bound<u64>, Bound<u64>),
        complete_length: Option<u64>,
    ) -> Result<ContentRange, InvalidContentRange>
        ensures { result_ok result ≡ built range complete_length }
    {
        let first = first_position(range.0);
        let last = last_position(range.1, complete_length);
        match first.zip(last) {
            Some(range) => Ok(ContentRange {
                range: Some(range),
                complete_length,
            }),
            None => Err(InvalidContentRange),
        }
    }

    /// Makes the header of a response that no range can be satisfied: `*` and the complete length.
    pub fn unsatisfied_bytes(complete_length: u64) -> ContentRange
        ensures { result ≡ record { range = None; length = Some complete_length } }
    {
        ContentRange {
            range: None,
            complete_length: Some(complete_length),
        }
    }

    /// Returns the first and the last position, both included, or `None` if the range is `*`.
    pub fn bytes_range(&self) -> Option<(u64, u64)>
        ensures { result ≡ self.now.range }
    {
        self.range
    }

    /// Returns the complete length in bytes, or `None` if it is unknown.
    pub fn bytes_len(&self) -> Option<u64>
        ensures { result ≡ self.now.length }
    {
        self.complete_length
    }

    // A range and a length.
    fn sized(range: &str, length: &str) -> Option<ContentRange>
        ensures { result ≡ sized (range.now, length.now) }
    {
        Some(ContentRange {
            range: read_range(range)?,
            complete_length: read_length(length)?,
        })
    }

    // What follows the unit, which must be `bytes`.
    fn in_bytes(unit: &str, rest: &str) -> Option<ContentRange>
        ensures { result ≡ in_bytes (unit.now, rest.now) }
    {
        if unit != "bytes" {
            return None;
        }
        let (range, length) = cut_once(rest, '/')?;
        ContentRange::sized(range, length)
    }

    // Reads a line.
    fn from_val(value: &HeaderValue) -> Option<ContentRange>
        ensures { result ≡ content_bytes value.now.bytes }
    {
        let text = read_text(value)?;
        let (unit, rest) = cut_once(text, ' ')?;
        ContentRange::in_bytes(unit, rest)
    }

    // The encoding.
    fn to_value(&self, alloc: Global) -> Result<HeaderValue, AllocError>
        ensures { IfOk result (λ value. value ≡ plain_value (content_text self.now)) }
    {
        let text = print_content(alloc, self.range, self.complete_length)?;
        Ok(HeaderValue::from_known_valid(Bytes::from_string(text)?))
    }
}

// The text of a range, or none, and a length, or none.
#[tactic(auto, using(crate::proofs::ContentLemmas::range_joined), unfolding(crate::specs::ContentBytes::content_text))]
fn print_content(
    alloc: Global,
    range: Option<(u64, u64)>,
    complete_length: Option<u64>,
) -> Result<String, AllocError>
    ensures { IfOk result (λ text. string_bytes text ≡ content_text (of_parts (range, complete_length))) }
{
    // The most that is printed: 8 bytes and three times 20 digits.
    let mut text = String::with_capacity(alloc, 68)?;
    match (range, complete_length) {
        (Some((first, last)), Some(length)) => write!(text, "bytes {first}-{last}/{length}")?,
        (Some((first, last)), None) => write!(text, "bytes {first}-{last}/*")?,
        (None, Some(length)) => write!(text, "bytes */{length}")?,
        (None, None) => write!(text, "bytes */*")?,
    }
    Ok(text)
}

/// Theorem: which content ranges survive a round trip. All do that have no range, or whose first
/// position is at most the last. The encoding of any other is rejected.
pub fn content_ranges_read_back(range: &ContentRange)
    ensures { content_range_grammar.value_of (written_by content_range_grammar range.now)
        ≡ (if is_ordered range.now then Some range.now else None) }
{
    let _range = &range.range;
}

impl Header for ContentRange {
    ghost use Rattle.std.specs.Prelude.{true, codes};
    ghost use Rattle.headers_syntax.specs.HeaderLaws.{SameBy, ReadsBy, written_by};
    ghost use Rattle.headers_ranges.specs.ContentRange.{content_range_grammar};
    ghost use Rattle.headers_ranges.specs.ContentRangeLaws.{content_range_laws};

    ghost field_name = { codes "content-range" };

    ghost free = { true };

    ghost same = { SameBy content_range_grammar };

    ghost reads = { ReadsBy content_range_grammar };

    ghost writes = { written_by content_range_grammar };

    ghost laws = { content_range_laws };

    fn name() -> HeaderName {
        CONTENT_RANGE
    }

    fn decode<I: Iterator>(_alloc: Global, values: &mut I) -> Result<ContentRange, Refused<Error>>
    where
        I::Item: AsHeaderValue,
    {
        let line = first(values).ok_or(Error::invalid())?;
        Ok(ContentRange::from_val(line.as_header_value()).ok_or(Error::invalid())?)
    }

    fn encode(&self, alloc: Global, values: &mut Vec<HeaderValue>) -> Result<(), AllocError> {
        values.push(self.to_value(alloc)?)?;
        Ok(())
    }
}
