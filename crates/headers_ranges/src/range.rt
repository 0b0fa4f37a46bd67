//! The header `range`.
ghost use Rattle.std.specs.Prelude.{◌≡◌, ◌↔◌, ◌<◌, ◌^◌, ℕ, true, All, Any, IfOk, Some, None, drop, length};
ghost use Rattle.std.{specs.Prelude.{string_bytes, if◌then◌else◌}, specs.List.{filter_map, list_any}};
ghost use Rattle.http_header.specs.FieldValue.{plain_value};
ghost use Rattle.headers_syntax.{specs.Text.is_text, specs.HeaderLaws.{ReadsBy, written_by}};
ghost use Rattle.headers_ranges.specs.ByteRanges.{Spec, bytes_unit, specs, gives, Covers, GivesCovered, LiesIn};
ghost use Rattle.headers_ranges.specs.ByteRanges.{IsWithin, bytes_from_to, is_range_line, is_valid_spec, range_text};
ghost use Rattle.headers_ranges.specs.Range.{IsValueOf, range_grammar};

use crate::satisfiable::{Satisfiable, has_valid_spec};
use headers_core::{AsHeaderValue, Error, Header, HeaderValueString, Refused, first, push_clone};
use http_header::{HeaderName, HeaderValue, RANGE};
use std::alloc::{AllocError, Global};
use std::fmt;
use std::marker::Model;
use std::ops::Bound;

/// The header `Range`: the byte ranges that a request asks for (RFC 9110, section 14.2). The first
/// field line is stored. `decode` rejects a line that isn't text that begins with `bytes=`, and may
/// run out of memory. Headers are compared by their bytes.
#[derive(Debug, Drop, PartialEq)]
pub struct Range {
    text: HeaderValueString,
}

impl Model for Range {
    ghost use Rattle.std.specs.Prelude.{◌≡◌, true};
    ghost use Rattle.http_header.specs.FieldValue.{FieldValue};
    ghost use Rattle.headers_ranges.specs.ByteRanges.{is_range_line};

    ghost Value = { FieldValue };

    ghost view = { λ range. range.text };

    ghost invariant = { λ range. is_range_line range.text.bytes ≡ true };

    ghost inverse = { λ text. record { text = text } };
}

/// The error of bounds that no byte range can express.
#[derive(Clone, Copy, Debug, PartialEq, Eq)]
pub struct InvalidRange;

impl fmt::Display for InvalidRange {
    ghost use Rattle.std.specs.Prelude.{Some, codes};

    ghost output = { λ _. Some (codes "InvalidRange") };

    ghost styled_output = { λ _ _. Some (codes "InvalidRange") };

    fn fmt<W: fmt::Write>(&self, f: &mut fmt::Formatter<W>) -> fmt::Result {
        f.write_str("InvalidRange")
    }
}

impl std::error::Error for InvalidRange {}

impl Range {
    /// Makes the header of one range between two bounds, which count bytes from 0 (RFC 9110,
    /// section 14.1.2). The start must be `Included`; the end may be any bound. `Invalid` if the
    /// start is another bound, or if the end is `Excluded(0)`; `Memory` if an allocation fails.
    pub fn bytes(
        alloc: Global,
        range: (Bound<u64>, Bound<u64>),
    ) -> Result<Range, Refused<InvalidRange>>
        ensures { IsValueOf (range_text range) result }
    {
        let Bound::Included(first) = range.0 else {
            return Err(Refused::Invalid(InvalidRange));
        };
        match range.1 {
            Bound::Included(last) => Ok(Range::between(alloc, first, last)?),
            Bound::Excluded(0) => Err(Refused::Invalid(InvalidRange)),
            Bound::Excluded(end) => Ok(Range::between(alloc, first, end - 1)?),
            Bound::Unbounded => Ok(Range::starting_at(alloc, first)?),
        }
    }

    /// Starts an iterator over the ranges that a representation of this many bytes can satisfy (RFC
    /// 9110, section 14.1.2). They are in the order of the request. Each is a first and a last
    /// position below the length, both included. A part that is no range, or that covers no
    /// position, is skipped.
    pub fn satisfiable_ranges(&self, len: u64) -> Satisfiable<'_>
        ensures ranges { result ≡ filter_map (gives len) (specs self.now.bytes) }
        ensures each { (spec : Spec) → GivesCovered len spec }
        ensures covered { (p : ℕ) → Any (LiesIn p) result ↔ Any (Covers len p) (specs self.now.bytes) }
        ensures within { All (IsWithin len) result }
        ensures count { length result < 2 ^ 64 }
    {
        Satisfiable::new(self.rest(), len)
    }

    /// Returns whether at least one range of the request is valid (RFC 9110, section 14.1.1). A
    /// range is valid if its first position isn't past its last one. If none is, a server ignores
    /// the field.
    pub fn has_valid_spec(&self) -> bool
        ensures { result ≡ list_any is_valid_spec (specs self.now.bytes) }
    {
        has_valid_spec(self.rest())
    }

    /// Copies the header. Fails only if an allocation fails.
    pub fn clone(&self, alloc: Global) -> Result<Range, AllocError>
        ensures { IfOk result (λ range. range ≡ self.now) }
    {
        Ok(Range {
            text: self.text.clone(alloc)?,
        })
    }

    // The range from one position to another.
    fn between(alloc: Global, first: u64, last: u64) -> Result<Range, AllocError>
        ensures { IfOk result (λ range. range ≡ plain_value (bytes_from_to first (Some last))) }
    {
        Range::from_text(alloc, format!(in alloc; "bytes={first}-{last}")?)
    }

    // The range from a position on.
    fn starting_at(alloc: Global, first: u64) -> Result<Range, AllocError>
        ensures { IfOk result (λ range. range ≡ plain_value (bytes_from_to first None)) }
    {
        Range::from_text(alloc, format!(in alloc; "bytes={first}-")?)
    }

    // The range of a text.
    fn from_text(alloc: Global, text: String) -> Result<Range, AllocError>
        requires { is_range_line (string_bytes text) ≡ true }
        ensures { IfOk result (λ range. range ≡ plain_value (string_bytes text)) }
    {
        match HeaderValueString::from_str(alloc, &text) {
            Ok(text) => Ok(Range { text }),
            Err(Refused::Memory(error)) => Err(error),
            Err(Refused::Invalid(_)) => unreachable!(),
        }
    }

    // What follows `bytes=`.
    #[tactic(auto, unfolding(crate::specs::ByteRanges::is_range_line))]
    fn rest(&self) -> &str
        ensures value { result.now ≡ drop (length bytes_unit) self.now.bytes }
        ensures text { is_text result.now ≡ true }
    {
        self.text.as_str().strip_prefix("bytes=").unwrap()
    }

    // A copy of the value, if it is text that begins with `bytes=`.
    #[tactic(auto, unfolding(crate::specs::ByteRanges::is_range_line))]
    fn from_val(alloc: Global, value: &HeaderValue) -> Result<Option<Range>, AllocError>
        ensures { IfOk result (λ found. found ≡ (if is_range_line value.now.bytes then Some value.now else None)) }
    {
        match HeaderValueString::from_val(alloc, value) {
            Ok(text) if text.as_str().starts_with("bytes=") => Ok(Some(Range { text })),
            Ok(_) | Err(Refused::Invalid(_)) => Ok(None),
            Err(Refused::Memory(error)) => Err(error),
        }
    }
}

/// Theorem: every value of `Range` survives a round trip.
pub fn ranges_read_back(range: &Range)
    ensures { ReadsBy range_grammar (written_by range_grammar range.now) range.now }
{
    let _text = &range.text;
}

impl Header for Range {
    ghost use Rattle.std.specs.Prelude.{false, codes};
    ghost use Rattle.headers_syntax.specs.HeaderLaws.{SameBy, ReadsBy, written_by};
    ghost use Rattle.headers_ranges.{specs.Range.range_grammar, specs.RangeLaws.range_laws};

    ghost field_name = { codes "range" };

    ghost free = { false };

    ghost same = { SameBy range_grammar };

    ghost reads = { ReadsBy range_grammar };

    ghost writes = { written_by range_grammar };

    ghost laws = { range_laws };

    fn name() -> HeaderName {
        RANGE
    }

    fn decode<I: Iterator>(alloc: Global, values: &mut I) -> Result<Range, Refused<Error>>
    where
        I::Item: AsHeaderValue,
    {
        let line = first(values).ok_or(Error::invalid())?;
        Ok(Range::from_val(alloc, line.as_header_value())?.ok_or(Error::invalid())?)
    }

    fn encode(&self, _alloc: Global, values: &mut Vec<HeaderValue>) -> Result<(), AllocError> {
        push_clone(values, self.text.as_value())
    }
}
