//! The byte ranges that a representation can satisfy.
ghost use Rattle.std.{specs.Prelude.{◌≡◌, ◌<◌, ◌^◌, true, length, IfSome}, specs.List.{filter_map, list_any}};
ghost use Rattle.std.specs.Iterator.{YieldsFirst, YieldsFirstBy, item_count};
ghost use Rattle.headers_syntax.specs.Text.{is_text};
ghost use Rattle.headers_ranges.specs.ByteRanges.{ByteRange, gives, half, pieces, ranges_in, pieces_left, spec_of};
ghost use Rattle.headers_ranges.specs.ByteRanges.{plain_rest, is_valid_spec};

use crate::cut::cut_once;
use headers_core::parse_number;
use std::marker::Model;
use std::ops::Bound;

/// The two sides of a dash, each a number or nothing.
type Spec = (Option<u64>, Option<u64>);

/// An iterator over the ranges of a `Range` that a representation of some length can satisfy (RFC
/// 9110, section 14.1.2). It never allocates, and stays ended.
#[derive(Drop)]
pub struct Satisfiable<'a> {
    rest: Option<&'a str>,
    len: u64,
}

impl<'a> Model for Satisfiable<'a> {
    ghost use Rattle.std.specs.Prelude.{◌≡◌, true, List};
    ghost use Rattle.headers_ranges.specs.ByteRanges.{ByteRange, ranges_in, plain_rest};

    ghost Value = { List ByteRange };

    ghost view = { λ s. ranges_in s.len s.rest };

    ghost invariant = { λ s. plain_rest s.rest ≡ true };
}

// The next piece between commas.
fn next_piece<'a>(rest: &mut Option<&'a str>) -> Option<&'a str>
    requires { plain_rest rest.old ≡ true }
    ensures steps { YieldsFirstBy (λ piece. piece.now) pieces_left rest.old result rest.new }
    ensures plain { plain_rest rest.new ≡ true }
    ensures text { IfSome result (λ piece. is_text piece.now ≡ true) }
{
    let text = (*rest)?;
    match cut_once(text, ',') {
        Some((piece, after)) => {
            *rest = Some(after);
            Some(piece)
        }
        None => {
            *rest = None;
            Some(text)
        }
    }
}

// The number of a half, or nothing if the half is empty.
fn half(text: &str) -> Option<Option<u64>>
    ensures { result ≡ half text.now }
{
    if text.is_empty() {
        return Some(None);
    }
    Some(Some(parse_number(text)?))
}

// The halves of a piece.
fn spec_of(piece: &str) -> Option<Spec>
    requires { is_text piece.now ≡ true }
    ensures { result ≡ spec_of piece.now }
{
    let (first, last) = cut_once(piece.trim_ascii(), '-')?;
    half(first).zip(half(last))
}

// Whether the grammar has the spec.
fn is_valid_spec(spec: Spec) -> bool
    ensures { result ≡ is_valid_spec spec }
{
    match spec {
        (Some(first), Some(last)) => first <= last,
        (None, None) => false,
        _ => true,
    }
}

/// Returns whether some piece of the text is a valid range specification.
pub(crate) fn has_valid_spec(text: &str) -> bool
    requires { is_text text.now ≡ true }
    ensures { result ≡ list_any is_valid_spec (filter_map spec_of (pieces text.now)) }
{
    let mut rest = Some(text);
    while let Some(piece) = next_piece(&mut rest) {
        if let Some(spec) = spec_of(piece)
            && is_valid_spec(spec)
        {
            return true;
        }
    }
    false
}

// The range of the positions that a spec covers.
fn covered(spec: Spec, len: u64) -> Option<(Bound<u64>, Bound<u64>)>
    ensures { result ≡ gives len spec }
{
    let end = len.checked_sub(1)?;
    let (first, last) = match spec {
        (Some(first), Some(last)) => (first, last.min(end)),
        (Some(first), None) => (first, end),
        (None, Some(0)) | (None, None) => return None,
        (None, Some(count)) => (len.saturating_sub(count), end),
    };
    if first > last {
        return None;
    }
    Some((Bound::Included(first), Bound::Included(last)))
}

// The next range.
fn next_range(rest: &mut Option<&str>, len: u64) -> Option<(Bound<u64>, Bound<u64>)>
    requires { plain_rest rest.old ≡ true }
    ensures steps { YieldsFirst (ranges_in len) rest.old result rest.new }
    ensures plain { plain_rest rest.new ≡ true }
{
    while let Some(piece) = next_piece(rest) {
        if let Some(spec) = spec_of(piece)
            && let Some(range) = covered(spec, len)
        {
            return Some(range);
        }
    }
    None
}

impl<'a> Satisfiable<'a> {
    /// Starts an iterator over the ranges in what follows `bytes=`.
    pub(crate) fn new(rest: &'a str, len: u64) -> Satisfiable<'a>
        requires { is_text rest.now ≡ true }
        ensures ranges { result ≡ filter_map (gives len) (filter_map spec_of (pieces rest.now)) }
        ensures count { length result < 2 ^ 64 }
    {
        Satisfiable {
            rest: Some(rest),
            len,
        }
    }

    /// Returns the next range, if one is left: its first and its last position, both included.
    pub fn next(&mut self) -> Option<(Bound<u64>, Bound<u64>)>
        ensures { YieldsFirst (λ left. left) self.old result self.new }
    {
        next_range(&mut self.rest, self.len)
    }
}

impl<'a> Iterator for Satisfiable<'a> {
    type Item = (Bound<u64>, Bound<u64>);

    ghost next_gives = { YieldsFirst (λ left. left) };

    ghost remaining = { item_count (λ left. left) };

    fn next(&mut self) -> Option<(Bound<u64>, Bound<u64>)> {
        self.next()
    }
}
