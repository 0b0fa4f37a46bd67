//! What is asked of a section.
ghost use Rattle.decide_negotiation.{specs.Choice.Chooses, specs.Qualities.quality_in};
ghost use Rattle.c_handles.{specs.Handles.{OnHeld, section_in}, specs.Sections.{EvaluatesOf, FindsOf, RespondsOf}};
ghost use Rattle.c_handles.{specs.Sections.{SelectsOf, lines_under}, specs.Views.IsSame};

use crate::view::{Lent, View};
use c_decisions::{
    ContentParts, Responded, Selected, TargetFacts, boundary_of, code_of, content_of, given,
    read_method, read_resource, show_response, show_selection, values_of,
};
use c_parts::Failure;
use decide_negotiation::{Dimension, negotiate};
use decide_preconditions::{RangeFacts, RangeLimits, RequestHead, Sending, TargetState};
use headers::HeaderMap;
use std::alloc::Global;

fn evaluate_of(
    alloc: Global,
    fields: &HeaderMap,
    method: &[u8],
    target: &TargetFacts<'_>,
) -> Result<u16, Failure>
    ensures { EvaluatesOf fields.now method.now target.now result }
{
    let method = read_method(alloc, method)?;
    let resource = read_resource(alloc, target)?;
    let head = RequestHead {
        method: &method,
        fields,
    };
    let answer = decide_preconditions::evaluate(&head, &resource, target.present);
    Ok(code_of(answer))
}

fn evaluate_in(
    alloc: Global,
    lent: &Lent,
    method: &[u8],
    target: &TargetFacts<'_>,
) -> Result<u16, Failure>
    ensures { OnHeld (λ fields. EvaluatesOf fields method.now target.now) (section_in lent.now.loan.held) result }
{
    match lent.section() {
        Some(fields) => evaluate_of(alloc, fields, method, target),
        None => Err(Failure::Absent),
    }
}

/// Evaluates the preconditions of a request with these fields (RFC 9110, section 13.2.2): 0 if the
/// method is performed, 304 or 412.
pub fn evaluate(
    alloc: Global,
    section: &mut View,
    method: &[u8],
    target: &TargetFacts<'_>,
) -> Result<u16, Failure>
    ensures same { IsSame section.old section.new }
    ensures answer { OnHeld (λ fields. EvaluatesOf fields method.now target.now) (section_in section.old.held) result }
{
    let lent = section.take();
    let answer = evaluate_in(alloc, &lent, method, target);
    section.put(lent);
    answer
}

fn select_of(
    alloc: Global,
    fields: &HeaderMap,
    method: &[u8],
    target: &TargetFacts<'_>,
    length: u64,
) -> Result<Selected, Failure>
    ensures { SelectsOf fields.now method.now target.now length result }
{
    let method = read_method(alloc, method)?;
    let TargetState::Current(current) = read_resource(alloc, target)? else {
        return Err(Failure::Absent);
    };
    let head = RequestHead {
        method: &method,
        fields,
    };
    let limits = RangeLimits::usual();
    let facts = RangeFacts {
        present: target.present,
        len: length,
        limits,
    };
    let selection = decide_preconditions::select(alloc, &head, &current, &facts)?;
    Ok(show_selection(alloc, &selection)?)
}

fn select_in(
    alloc: Global,
    lent: &Lent,
    method: &[u8],
    target: &TargetFacts<'_>,
    length: u64,
) -> Result<Selected, Failure>
    ensures { OnHeld (λ fields. SelectsOf fields method.now target.now length) (section_in lent.now.loan.held) result }
{
    match lent.section() {
        Some(fields) => select_of(alloc, fields, method, target, length),
        None => Err(Failure::Absent),
    }
}

/// Which part of a representation of `length` bytes a request with these fields selects (RFC 9110,
/// sections 13.2.2 and 14.2).
pub fn select(
    alloc: Global,
    section: &mut View,
    method: &[u8],
    target: &TargetFacts<'_>,
    length: u64,
) -> Result<Selected, Failure>
    ensures same { IsSame section.old section.new }
    ensures answer { OnHeld (λ fields. SelectsOf fields method.now target.now length)
        (section_in section.old.held) result }
{
    let lent = section.take();
    let answer = select_in(alloc, &lent, method, target, length);
    section.put(lent);
    answer
}

fn respond_of(
    alloc: Global,
    fields: &HeaderMap,
    method: &[u8],
    target: &TargetFacts<'_>,
    parts: &ContentParts<'_>,
) -> Result<Responded, Failure>
    ensures { RespondsOf fields.now method.now target.now parts.now result }
{
    let method = read_method(alloc, method)?;
    let resource = read_resource(alloc, target)?;
    let content = content_of(alloc, parts)?;
    let boundary = boundary_of(alloc, parts.boundary)?;
    let head = RequestHead {
        method: &method,
        fields,
    };
    let sending = Sending {
        present: target.present,
        content: &content,
        boundary: &boundary,
    };
    let answer = decide_preconditions::respond(alloc, &head, &resource, &sending)?;
    Ok(show_response(alloc, answer, decide_preconditions::is_known_by(fields))?)
}

fn respond_in(
    alloc: Global,
    lent: &Lent,
    method: &[u8],
    target: &TargetFacts<'_>,
    parts: &ContentParts<'_>,
) -> Result<Responded, Failure>
    ensures { OnHeld (λ fields. RespondsOf fields method.now target.now parts.now)
        (section_in lent.now.loan.held) result }
{
    match lent.section() {
        Some(fields) => respond_of(alloc, fields, method, target, parts),
        None => Err(Failure::Absent),
    }
}

/// The response to a request with these fields, for a representation (RFC 9110, sections 13.2.2 and
/// 14.2), within the usual limits.
pub fn respond(
    alloc: Global,
    section: &mut View,
    method: &[u8],
    target: &TargetFacts<'_>,
    parts: &ContentParts<'_>,
) -> Result<Responded, Failure>
    ensures same { IsSame section.old section.new }
    ensures answer { OnHeld (λ fields. RespondsOf fields method.now target.now parts.now)
        (section_in section.old.held) result }
{
    let lent = section.take();
    let answer = respond_in(alloc, &lent, method, target, parts);
    section.put(lent);
    answer
}

fn choose_of<D: Dimension>(
    alloc: Global,
    fields: &HeaderMap,
    offers: &[u8],
) -> Result<usize, Failure>
    ensures { FindsOf (Chooses (quality_in D.gives (lines_under fields.now D.NAME))) offers.now result }
{
    let offers = values_of(alloc, offers)?;
    given(negotiate::<D>(fields, offers.as_slice()))
}

fn choose_in<D: Dimension>(alloc: Global, lent: &Lent, offers: &[u8]) -> Result<usize, Failure>
    ensures { OnHeld (λ fields. FindsOf (Chooses (quality_in D.gives (lines_under fields D.NAME))) offers.now)
        (section_in lent.now.loan.held) result }
{
    match lent.section() {
        Some(fields) => choose_of::<D>(alloc, fields, offers),
        None => Err(Failure::Absent),
    }
}

/// The place, counted from 0, of the offer that a request with these fields prefers (RFC 9110, section
/// 12.5). The offers are one a line, the preferred one first. `Absent` if none is acceptable.
pub fn choose<D: Dimension>(
    alloc: Global,
    section: &mut View,
    offers: &[u8],
) -> Result<usize, Failure>
    ensures same { IsSame section.old section.new }
    ensures place { OnHeld (λ fields. FindsOf (Chooses (quality_in D.gives (lines_under fields D.NAME))) offers.now)
        (section_in section.old.held) result }
{
    let lent = section.take();
    let place = choose_in::<D>(alloc, &lent, offers);
    section.put(lent);
    place
}
