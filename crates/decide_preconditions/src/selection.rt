//! The part of a representation that a request selects.
ghost use Rattle.std.specs.Prelude.{◌≡◌, ◌↔◌, ◌+◌, ◌*◌, ℕ, List, Any, IfOk, MatchOption, OnErr, bytes_eq, codes, map};
ghost use Rattle.std.specs.{Prelude.{nat_eq, nat_lt, option_map}, Char.to_ascii_lowercase};
ghost use Rattle.{rfc_values.specs.Calendar.unix_epoch, headers.specs.LineMap.lines_at};
ghost use Rattle.decide_preconditions.specs.{Limits.are_too_many, Parts.{AreCoalesced, Holds, IsJoined}};
ghost use Rattle.decide_preconditions.specs.Selection.{has_bytes_unit, if_range_lets, is_exactly, is_modified_at};
ghost use Rattle.decide_preconditions.specs.Selection.{range_set_of, set_asked, Applies, AsksForSome, IsAsked, Selects};

use crate::limits::{RangeFacts, RangeLimits};
use crate::part::{Part, coalesce};
use crate::range_set::{is_range_set, is_unsatisfiable, parts_in};
use crate::resource::Validators;
use crate::tags::{Comparison, is_tag, is_tag_of, only_text};
use headers::HeaderMap;
use http::Method;
use http_header::{IF_RANGE, RANGE};
use rfc_fields::{RequestHead, has_line};
use rfc_values::{Timestamp, read_date};
use std::alloc::{AllocError, Global};

/// The part of the current representation that a request selects.
#[derive(Debug, Drop)]
pub enum Selection {
    /// All of it: the response is 200.
    Whole,
    /// These parts, in order, no two of which overlap or are close to each other: the response is
    /// 206.
    Parts(Vec<Part>),
    /// None of it: the response is 416, with `ContentRange::unsatisfied_bytes`.
    Unsatisfiable,
}

/// Selects the part of a representation that a request asks for in `Range` and `If-Range` (RFC
/// 9110, sections 13.2.2, step 5, and 14.2). A server calls this when `evaluate` returns `Perform`.
///
/// `Range` is ignored unless the method is GET, the field has one line, its unit is bytes, each of
/// its ranges is valid, the representation has content, `If-Range` is absent or true, and the parts
/// are within the limits. The call can run out of memory only if Range asks for some byte.
pub fn select(
    alloc: Global,
    request: &RequestHead<'_>,
    current: &Validators,
    facts: &RangeFacts,
) -> Result<Selection, AllocError>
    ensures selects { IfOk result (Selects facts.now.present request.now.method.now (lines_at request.now.fields.now)
        current.now facts.now.len facts.now.limits) }
    ensures memory { OnErr result (AsksForSome facts.now.present request.now.method.now
        (lines_at request.now.fields.now) current.now facts.now.len facts.now.limits) }
{
    let RangeFacts {
        present,
        len,
        limits,
    } = *facts;
    let Some(set) = applying_set(request, current, present, len) else {
        return Ok(Selection::Whole);
    };
    if is_unsatisfiable(len, set) {
        return Ok(Selection::Unsatisfiable);
    }
    let parts = parts_asked(alloc, set, len, limits.gap)?;
    if are_too_many(&limits, len, parts.as_slice()) {
        return Ok(Selection::Whole);
    }
    Ok(Selection::Parts(parts))
}

fn are_too_many(limits: &RangeLimits, len: u64, parts: &[Part]) -> bool
    ensures { result ≡ are_too_many limits.now len parts.now }
{
    let count = parts.len() as u64;
    count > 1 && (count > limits.parts || is_product_above(len, count, limits.head))
}

fn is_product_above(limit: u64, count: u64, size: u64) -> bool
    ensures { result ≡ nat_lt limit (count * size) }
{
    match count.checked_mul(size) {
        Some(product) => product > limit,
        None => true,
    }
}

// The range-set of Range, if it applies to the request.
fn applying_set<'a>(
    request: &RequestHead<'a>,
    current: &Validators,
    present: u64,
    len: u64,
) -> Option<&'a [u8]>
    ensures { MatchOption result
        ((set : List ℕ) → ¬ (Applies present request.now.method.now (lines_at request.now.fields.now) current.now
        len set))
        (λ set. Applies present request.now.method.now (lines_at request.now.fields.now) current.now len set.now) }
{
    let RequestHead { method, fields } = *request;
    if *method != Method::GET || len == 0 || !if_range_lets(fields, current, present) {
        return None;
    }
    set_asked(fields)
}

// The range-set of the only line of Range, if its unit is bytes and it is valid.
fn set_asked(request: &HeaderMap) -> Option<&[u8]>
    ensures { option_map (λ set. set.now) result ≡ set_asked (lines_at request.now) }
{
    range_set_of(only_text(&request.get_all(RANGE))?)
}

fn range_set_of(text: &[u8]) -> Option<&[u8]>
    ensures { option_map (λ set. set.now) result ≡ range_set_of text.now }
{
    if text.len() < 6 || !has_bytes_unit(text) {
        return None;
    }
    let set = &text[6..];
    if is_range_set(set) { Some(set) } else { None }
}

fn has_bytes_unit(text: &[u8]) -> bool
    ensures { result ≡ has_bytes_unit text.now }
{
    text.len() >= 6 && is_bytes_unit(&text[..6])
}

fn is_bytes_unit(text: &[u8]) -> bool
    ensures { result ≡ bytes_eq (map to_ascii_lowercase text.now) (codes "bytes=") }
{
    text.eq_ignore_ascii_case(b"bytes=")
}

// Whether If-Range is absent, or its only line is true.
fn if_range_lets(request: &HeaderMap, current: &Validators, present: u64) -> bool
    ensures { result ≡ if_range_lets present (lines_at request.now) current.now }
{
    let field = request.get_all(IF_RANGE);
    if !has_line(&field) {
        return true;
    }
    match only_text(&field) {
        Some(text) => is_exactly(current, text, present),
        None => false,
    }
}

// Whether the representation is exactly the one that is named.
fn is_exactly(current: &Validators, text: &[u8], present: u64) -> bool
    ensures { result ≡ is_exactly present current.now text.now }
{
    if is_tag(text) {
        return is_tag_of(Comparison::Strong, current.etag.as_ref(), text);
    }
    current.is_date_strong && is_modified_at(read_date(text, present), current)
}

fn is_modified_at(date: Option<Timestamp>, current: &Validators) -> bool
    ensures { result ≡ is_modified_at date current.now.last_modified }
{
    let Some(date) = date else {
        return false;
    };
    match &current.last_modified {
        Some(modified) => is_second(date, modified.unix_secs()),
        None => false,
    }
}

fn is_second(date: Timestamp, seconds: u64) -> bool
    ensures { result ≡ nat_eq date (unix_epoch + seconds) }
{
    !date.is_before(seconds) && !date.is_after(seconds)
}

// The positions that a range-set asks for, as coalesced parts.
fn parts_asked(alloc: Global, set: &[u8], len: u64, gap: u64) -> Result<Vec<Part>, AllocError>
    ensures coalesced { IfOk result (λ parts. AreCoalesced len gap parts.items) }
    ensures covers { IfOk result (λ parts. (p : ℕ) → Any (Holds p) parts.items
        ↔ IsJoined gap (IsAsked len set.now) p) }
{
    let parts = parts_in(alloc, len, set)?;
    Ok(coalesce(len, gap, parts))
}
