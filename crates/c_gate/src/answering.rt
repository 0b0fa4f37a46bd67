//! How a request is answered.
ghost use Rattle.std.specs.Prelude.{◌≡◌, ◌++◌, IfOk, codes, option_copied, option_map};
ghost use Rattle.headers.specs.LineMap.{lines_at};
ghost use Rattle.http1.specs.Head.{pairs};
ghost use Rattle.http1_typed.specs.Parts.{reason_of};
ghost use Rattle.gateway_exchange.specs.Steps.{Passes};
ghost use Rattle.c_gate.specs.Answers.{AddsLines, AddsSection, header_lines};
ghost use Rattle.c_gate.specs.Answers.{AnswersNumber, EndsPieces, IsStated, PushesPiece, Responds, RespondsWith};
ghost use Rattle.c_gate.specs.Answers.{is_head, kept_lines, may_state, size_of, stated_lines, write_failure};
ghost use Rattle.c_gate.specs.Calls.{Does, OnGate};
ghost use Rattle.gateway_messages.specs.FieldLines.{fields_of};

use crate::calling::change;
use c_decisions::read_status;
use c_handles::{Handle, HeldGate};
use c_parts::{Failure, HashKeys, read_map};
use gateway_exchange::AskedRequest;
use gateway_messages::FieldLine;
use headers::{ContentLength, HeaderMap, HeaderMapExt, HeaderValue};
use http::{Method, StatusCode};
use http1::{BodySize, Header, WriteError};
use std::alloc::{AllocError, Global};

fn failure_of(error: WriteError) -> Failure
    ensures { result ≡ write_failure error }
{
    match error {
        WriteError::OutOfMemory => Failure::Memory,
        _ => Failure::Refused,
    }
}

fn answer_in(gate: &mut HeldGate, status: u16) -> Result<(), Failure>
    ensures { AnswersNumber status gate.old gate.new result }
{
    let status = read_status(status)?;
    gate.connection.answer(status);
    Ok(())
}

/// Answers the request that waits by a status, without content. Rejected if that is no number from 100 to 999.
pub fn answer(alloc: Global, handle: &mut Handle, status: u16) -> Result<(), Failure>
    ensures { OnGate (AnswersNumber status) handle.old.held handle.new.held result }
{
    change(alloc, handle, |gate| answer_in(gate, status))
}

fn pass_in(gate: &mut HeldGate) -> Result<(), Failure>
    ensures { Does Passes gate.old gate.new result }
{
    gate.connection.pass();
    Ok(())
}

/// Forwards the origin's response that waits.
pub fn pass(alloc: Global, handle: &mut Handle) -> Result<(), Failure>
    ensures { OnGate (Does Passes) handle.old.held handle.new.held result }
{
    change(alloc, handle, pass_in)
}

fn added_of(alloc: Global, fields: &HeaderMap) -> Result<Vec<FieldLine>, AllocError>
    ensures { IfOk result (λ added. fields_of added.items ≡ header_lines fields.now) }
{
    let mut added = Vec::new(alloc);
    for (name, value) in fields.iter() {
        added.push(FieldLine {
            name: name.clone()?,
            value: value.clone()?,
        })?;
    }
    Ok(added)
}

fn add_lines(gate: &mut HeldGate, added: Vec<FieldLine>) -> Result<(), Failure>
    ensures { AddsLines (fields_of added.items) gate.old gate.new result }
{
    match gate.connection.add_fields(added) {
        Ok(()) => Ok(()),
        Err(error) => Err(failure_of(error)),
    }
}

fn add_in(
    alloc: Global,
    gate: &mut HeldGate,
    section: &[u8],
    keys: &HashKeys,
) -> Result<(), Failure>
    ensures { AddsSection section.now gate.old gate.new result }
{
    let fields = read_map(alloc, section, keys)?;
    let added = added_of(alloc, &fields)?;
    add_lines(gate, added)
}

/// Adds these field lines to the origin's response that waits, after those that are forwarded. Rejected if none waits,
/// a line of the section is no field, or one is a field that `add_fields` rejects.
pub fn add(
    alloc: Global,
    handle: &mut Handle,
    section: &[u8],
    keys: &HashKeys,
) -> Result<(), Failure>
    ensures { OnGate (AddsSection section.now) handle.old.held handle.new.held result }
{
    change(alloc, handle, |gate| add_in(alloc, gate, section, keys))
}

// The field lines of a map except those of Content-Length.
fn kept_lines<'a>(alloc: Global, fields: &'a HeaderMap) -> Result<Vec<Header<'a>>, AllocError>
    ensures { IfOk result (λ lines. pairs lines.items ≡ kept_lines fields.now) }
{
    let mut lines = Vec::new(alloc);
    for (name, value) in fields.iter() {
        if name.as_str() != "content-length" {
            lines.push(Header {
                name: name.as_str().as_bytes(),
                value: value.as_bytes(),
            })?;
        }
    }
    Ok(lines)
}

// The number, in plain form, that all field lines of Content-Length state, if there is one and it may be stated.
fn stated_value(
    alloc: Global,
    fields: &HeaderMap,
    may_state: bool,
) -> Result<Option<HeaderValue>, AllocError>
    ensures { IfOk result (λ stated. IsStated may_state (lines_at fields.now (codes "content-length"))
        (option_map (λ value. value.bytes) stated)) }
{
    if !may_state {
        return Ok(None);
    }
    match fields.typed_get::<ContentLength>(alloc) {
        Some(length) => Ok(Some(HeaderValue::from_u64(alloc, length.0)?)),
        None => Ok(None),
    }
}

// The field lines that are sent: those that are kept, then Content-Length, if a number is stated.
fn lines_of<'a>(
    alloc: Global,
    fields: &'a HeaderMap,
    stated: Option<&'a HeaderValue>,
) -> Result<Vec<Header<'a>>, AllocError>
    ensures { IfOk result (λ lines. pairs lines.items ≡ kept_lines fields.now
        ++ stated_lines (option_map (λ value. value.bytes) (option_copied stated.entry))) }
{
    let mut lines = kept_lines(alloc, fields)?;
    if let Some(value) = stated {
        lines.push(Header {
            name: b"content-length",
            value: value.as_bytes(),
        })?;
    }
    Ok(lines)
}

fn reason_of(status: StatusCode) -> &'static [u8]
    ensures { result.now ≡ reason_of status }
{
    status.canonical_reason().unwrap_or("").as_bytes()
}

fn is_head(asked: Option<&AskedRequest>) -> bool
    ensures { result ≡ is_head (option_map (λ a. a.now) asked.entry) }
{
    match asked {
        Some(request) => request.head.method == Method::HEAD,
        None => false,
    }
}

// A response to HEAD and a 304 have no content, whatever length their fields state (RFC 9110, sections 9.3.2 and
// 15.4.5).
fn size_of(gate: &HeldGate, status: StatusCode, length: u64) -> BodySize
    ensures { result ≡ size_of gate.now.connection.asked status length }
{
    if is_head(gate.connection.request()) || status == StatusCode::NOT_MODIFIED {
        BodySize::Empty
    } else {
        BodySize::Known(length)
    }
}

// Content-Length may be sent to HEAD and in a 304, and not in a 204 (RFC 9110, section 8.6).
fn may_state(gate: &HeldGate, status: StatusCode) -> bool
    ensures { result ≡ may_state gate.now.connection.asked status }
{
    status != StatusCode::NO_CONTENT && size_of(gate, status, 0) == BodySize::Empty
}

fn respond_with(
    gate: &mut HeldGate,
    status: StatusCode,
    lines: &[Header<'_>],
    length: u64,
) -> Result<(), Failure>
    ensures { RespondsWith status length (pairs lines.now) gate.old gate.new result }
{
    let size = size_of(gate, status, length);
    match gate
        .connection
        .respond(status, reason_of(status), lines, size)
    {
        Ok(()) => Ok(()),
        Err(error) => Err(failure_of(error)),
    }
}

fn respond_in(
    alloc: Global,
    gate: &mut HeldGate,
    status: u16,
    section: &[u8],
    length: u64,
    keys: &HashKeys,
) -> Result<(), Failure>
    ensures { Responds status length section.now gate.old gate.new result }
{
    let status = read_status(status)?;
    let fields = read_map(alloc, section, keys)?;
    let stated = stated_value(alloc, &fields, may_state(gate, status))?;
    let lines = lines_of(alloc, &fields, stated.as_ref())?;
    respond_with(gate, status, lines.as_slice(), length)
}

/// Begins a response of the caller's, with these fields but Content-Length, and so much content. Rejected if none is
/// due, the status is no number from 100 to 999, a line of the section is no field, or the response can't be sent.
pub fn respond(
    alloc: Global,
    handle: &mut Handle,
    status: u16,
    section: &[u8],
    length: u64,
    keys: &HashKeys,
) -> Result<(), Failure>
    ensures { OnGate (Responds status length section.now) handle.old.held handle.new.held result }
{
    change(
        alloc,
        handle,
        |gate| respond_in(alloc, gate, status, section, length, keys),
    )
}

fn push_in(gate: &mut HeldGate, piece: &[u8]) -> Result<(), Failure>
    ensures { PushesPiece piece.now gate.old gate.new result }
{
    match gate.connection.push(piece) {
        Ok(()) => Ok(()),
        Err(error) => Err(failure_of(error)),
    }
}

/// Adds a piece to the content of that response. Rejected if there is none, or it has more content then.
pub fn push(alloc: Global, handle: &mut Handle, piece: &[u8]) -> Result<(), Failure>
    ensures { OnGate (PushesPiece piece.now) handle.old.held handle.new.held result }
{
    change(alloc, handle, |gate| push_in(gate, piece))
}

fn end_in(gate: &mut HeldGate) -> Result<(), Failure>
    ensures { EndsPieces gate.old gate.new result }
{
    match gate.connection.end(&[]) {
        Ok(()) => Ok(()),
        Err(error) => Err(failure_of(error)),
    }
}

/// Ends that response. Rejected if there is none, or content is missing.
pub fn end(alloc: Global, handle: &mut Handle) -> Result<(), Failure>
    ensures { OnGate EndsPieces handle.old.held handle.new.held result }
{
    change(alloc, handle, end_in)
}
