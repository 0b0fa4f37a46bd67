//! The range-set of a Range, in bytes (RFC 9110, sections 14.1.1 and 14.1.2).
ghost use Rattle.std.specs.{Prelude.{◌≡◌, ℕ, true, IfOk, is_some, length, nat_le, nat_lt}, Char.is_ascii_digit};
ghost use Rattle.std.specs.{Iterator.YieldsFirstBy, Bool.MatchBool, List.{filter_map, list_all, list_any}};
ghost use Rattle.std.specs.{Option.option_and_then, Str.Parse.digits_value};
ghost use Rattle.decide_preconditions.specs.{Selection.IsAsked, NumeralOrder.{is_below, is_ordered, without_zeros}};
ghost use Rattle.decide_preconditions.specs.RangeSets.{capped, elements, is_numeral, is_range_set, is_range_spec};
ghost use Rattle.decide_preconditions.specs.RangeSets.{part_in, part_of, part_to, selects_some, spec_between, Suffix};
ghost use Rattle.headers.specs.ByteRanges.{pieces_left};

use crate::part::Part;
use headers::trim;
use rfc_fields::cut;
use std::alloc::{AllocError, Global};
use std::marker::Model;

// The next piece between commas.
fn next_piece<'a>(rest: &mut Option<&'a [u8]>) -> Option<&'a [u8]>
    ensures { YieldsFirstBy (λ piece. piece.now) pieces_left rest.old result rest.new }
{
    let text = (*rest)?;
    match cut(b',', text) {
        Some((piece, after)) => {
            *rest = Some(after);
            Some(piece)
        }
        None => {
            *rest = None;
            Some(text)
        }
    }
}

/// An iterator over the elements of a range-set, without the blanks around them. Empty ones are
/// skipped.
#[derive(Drop)]
pub(crate) struct Elements<'a> {
    rest: Option<&'a [u8]>,
}

impl<'a> Model for Elements<'a> {
    ghost use Rattle.std.specs.Prelude.{List, ℕ};
    ghost use Rattle.decide_preconditions.specs.RangeSets.{elements_left};

    ghost Value = { List (List ℕ) };

    ghost view = { λ elements. elements_left elements.rest };
}

impl<'a> Elements<'a> {
    pub(crate) fn new(text: &'a [u8]) -> Elements<'a>
        ensures { result ≡ elements text.now }
    {
        Elements { rest: Some(text) }
    }

    pub(crate) fn next(&mut self) -> Option<&'a [u8]>
        ensures { YieldsFirstBy (λ element. element.now) (λ left. left) self.old result self.new }
    {
        while let Some(piece) = next_piece(&mut self.rest) {
            let element = trim(piece);
            if !element.is_empty() {
                return Some(element);
            }
        }
        None
    }
}

fn are_digits(text: &[u8]) -> bool
    ensures { result ≡ list_all is_ascii_digit text.now }
{
    text.iter().all(|byte| byte.is_ascii_digit())
}

// Whether a text is one digit or more.
fn is_numeral(text: &[u8]) -> bool
    ensures { result ≡ is_numeral text.now }
{
    !text.is_empty() && are_digits(text)
}

// The number of a numeral, or the greatest one in place of what is greater.
fn capped_value(digits: &[u8]) -> u64
    requires { is_numeral digits.now ≡ true }
    ensures { result ≡ capped digits.now }
{
    let mut number: u64 = 0;
    for byte in digits {
        number = number
            .saturating_mul(10)
            .saturating_add(u64::from(byte.saturating_sub(b'0')));
    }
    number
}

// The digits from the first one on that isn't zero.
#[tactic(auto, unfolding(crate::specs::NumeralOrder::without_zeros))]
fn without_zeros(digits: &[u8]) -> &[u8]
    ensures { result.now ≡ without_zeros digits.now }
{
    let mut rest = digits;
    while let [b'0', after @ ..] = rest {
        rest = after;
    }
    rest
}

// Whether the first difference of as many digits, if there is one, is a lower digit of the first.
#[tactic(auto, unfolding(crate::specs::NumeralOrder::is_below))]
fn is_below(first: &[u8], last: &[u8]) -> bool
    ensures { result ≡ is_below first.now last.now }
{
    let mut digits = first;
    let mut others = last;
    while let [digit, after @ ..] = digits {
        let [other, after_other @ ..] = others else {
            return false;
        };
        if *digit != *other {
            return *digit < *other;
        }
        digits = after;
        others = after_other;
    }
    true
}

// Whether the first of two numerals, without zeros before them, is no greater than the second.
fn is_ordered(first: &[u8], last: &[u8]) -> bool
    ensures { result ≡ is_ordered first.now last.now }
{
    if first.len() == last.len() {
        is_below(first, last)
    } else {
        first.len() < last.len()
    }
}

// Whether the first of two numerals is no greater than the second.
fn is_at_most(first: &[u8], last: &[u8]) -> bool
    requires first { is_numeral first.now ≡ true }
    requires last { is_numeral last.now ≡ true }
    ensures { result ≡ nat_le (digits_value 10 first.now) (digits_value 10 last.now) }
{
    is_ordered(without_zeros(first), without_zeros(last))
}

// Whether an element is a valid range-spec.
pub(crate) fn is_range_spec(element: &[u8]) -> bool
    ensures { result ≡ is_range_spec element.now }
{
    match cut(b'-', element) {
        Some((first, last)) => is_spec_between(first, last),
        None => false,
    }
}

fn is_spec_between(first: &[u8], last: &[u8]) -> bool
    ensures { result ≡ is_some (spec_between first.now last.now) }
{
    if first.is_empty() {
        return is_numeral(last);
    }
    if last.is_empty() {
        return is_numeral(first);
    }
    is_numeral(first) && is_numeral(last) && is_at_most(first, last)
}

// Whether a text has an element.
fn has_element(text: &[u8]) -> bool
    ensures { result ≡ nat_lt 0 (length (elements text.now)) }
{
    Elements::new(text).next().is_some()
}

// Whether each element is a valid range-spec.
fn are_range_specs(text: &[u8]) -> bool
    ensures { result ≡ list_all is_range_spec (elements text.now) }
{
    let mut left = Elements::new(text);
    while let Some(element) = left.next() {
        if !is_range_spec(element) {
            return false;
        }
    }
    true
}

/// Returns whether a text is a range-set: it has at least one range-spec, and all are valid.
pub(crate) fn is_range_set(text: &[u8]) -> bool
    ensures { result ≡ is_range_set text.now }
{
    has_element(text) && are_range_specs(text)
}

// The part between two positions, as far as it lies below the length.
fn part_to(len: u64, first: u64, last: u64) -> Option<Part>
    ensures { result ≡ part_to len first last }
{
    if first <= last && first < len {
        Some(Part {
            first,
            last: last.min(len - 1),
        })
    } else {
        None
    }
}

// The part of the last bytes.
fn part_of_suffix(len: u64, count: u64) -> Option<Part>
    ensures { result ≡ part_of len (Suffix count) }
{
    if count > 0 && len > 0 {
        Some(Part {
            first: len.saturating_sub(count),
            last: len - 1,
        })
    } else {
        None
    }
}

// The part that an element selects, if it is a valid range-spec and satisfiable.
fn part_in(len: u64, element: &[u8]) -> Option<Part>
    ensures { result ≡ part_in len element.now }
{
    if !is_range_spec(element) {
        return None;
    }
    let (first, last) = cut(b'-', element)?;
    part_between(len, first, last)
}

fn part_between(len: u64, first: &[u8], last: &[u8]) -> Option<Part>
    ensures { result ≡ option_and_then (part_of len) (spec_between first.now last.now) }
{
    if !is_spec_between(first, last) {
        return None;
    }
    if first.is_empty() {
        return part_of_suffix(len, capped_value(last));
    }
    let from = capped_value(first);
    if last.is_empty() {
        return part_to(len, from, u64::MAX);
    }
    part_to(len, from, capped_value(last))
}

// Whether some range-spec of a range-set selects a part.
fn is_satisfiable(len: u64, set: &[u8]) -> bool
    ensures { result ≡ list_any (selects_some len) (elements set.now) }
{
    let mut left = Elements::new(set);
    while let Some(element) = left.next() {
        if part_in(len, element).is_some() {
            return true;
        }
    }
    false
}

/// Returns whether a range-set asks for no position of a representation of this length.
pub(crate) fn is_unsatisfiable(len: u64, set: &[u8]) -> bool
    ensures { MatchBool result ((p : ℕ) → ¬ (IsAsked len set.now p)) ((p : ℕ) × IsAsked len set.now p) }
{
    !is_satisfiable(len, set)
}

/// Returns the parts that the range-specs of a range-set select, in order.
pub(crate) fn parts_in(alloc: Global, len: u64, set: &[u8]) -> Result<Vec<Part>, AllocError>
    ensures { IfOk result (λ parts. parts.items ≡ filter_map (part_in len) (elements set.now)) }
{
    let mut parts = Vec::new(alloc);
    let mut left = Elements::new(set);
    while let Some(element) = left.next() {
        if let Some(part) = part_in(len, element) {
            parts.push(part)?;
        }
    }
    Ok(parts)
}
