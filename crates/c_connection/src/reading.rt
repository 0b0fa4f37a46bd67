//! Calls that read what a connection has.
ghost use Rattle.std.specs.Prelude.{◌≡◌, ◌↔◌, IfErr, IfOk, IsTrue, Ok, Err, Some, option_map};
ghost use Rattle.c_handles.{specs.Handles.{OnHeld, connection_in}, specs.Views.IsSame};
ghost use Rattle.c_parts.specs.Endings.{Writes, done};
ghost use Rattle.c_pass.specs.Validating.{map_text};
ghost use Rattle.c_connection.specs.Calls.{AreFields, IsField, IsLate, IsRangeNext, IsRejection, IsText, IsVersion};
ghost use Rattle.c_connection.specs.Calls.{OnAsked, OnName, Shows, front_of, is_found, planned};

use crate::calling::ask;
use c_handles::{HeldConnection, Lent, View};
use c_parts::{DONE, Failure, copy_into, read_name};
use headers_section::print_line;
use http::Version;
use http_header::{HeaderMap, HeaderName};
use server_connection::OpenRange;
use std::alloc::{AllocError, Global};

/// Bytes that a connection has.
#[derive(Clone, Copy)]
pub enum Text<'n> {
    /// The method of the request that waits.
    Method,
    /// The path of its target.
    Path,
    /// The query of its target.
    Query,
    /// The first line of its field of this name, in any case.
    Field(&'n [u8]),
    /// Its content.
    Content,
    /// The first bytes that wait to be written, at most so many.
    Output(usize),
    /// The response 408 (RFC 9110, section 15.5.9), if a request has begun and isn't received whole, and nothing waits
    /// to be written. The host sends it, and closes.
    TimeOut,
}

const TIMED_OUT: &[u8] =
    b"HTTP/1.1 408 Request Timeout\r\nconnection: close\r\ncontent-length: 0\r\n\r\n";

// What was found of the request that waits.
fn asked<'h>(held: &HeldConnection, found: Option<&'h [u8]>) -> Result<&'h [u8], Failure>
    ensures given { IfOk result (λ bytes.
        OnAsked (is_found (option_map (λ text. text.now) found.entry)) held.now (Ok bytes.now)) }
    ensures failed { IfErr result (λ failure.
        OnAsked (is_found (option_map (λ text. text.now) found.entry)) held.now (Err failure)) }
{
    if !held.connection.is_asking() {
        return Err(Failure::Refused);
    }
    match found {
        Some(bytes) => Ok(bytes),
        None => Err(Failure::Absent),
    }
}

/// The first bytes, at most so many.
pub fn front_of(bytes: &[u8], most: usize) -> &[u8]
    ensures { result.now ≡ front_of bytes.now most }
{
    &bytes[..bytes.len().min(most)]
}

fn is_late(held: &HeldConnection) -> bool
    ensures { IsTrue result ↔ IsLate held.now }
{
    let connection = &held.connection;
    connection.is_receiving() && held.has_begun && connection.output().is_empty()
}

fn line_of<'h>(held: &'h HeldConnection, name: &HeaderName) -> Result<&'h [u8], Failure>
    ensures given { IfOk result (λ bytes. OnName (Ok name.now) held.now (Ok bytes.now)) }
    ensures failed { IfErr result (λ failure. OnName (Ok name.now) held.now (Err failure)) }
{
    match held.connection.request().headers().get(name) {
        Some(value) => asked(held, Some(value.as_bytes())),
        None => asked(held, None),
    }
}

fn field_of<'h>(alloc: Global, held: &'h HeldConnection, name: &[u8]) -> Result<&'h [u8], Failure>
    ensures given { IfOk result (λ bytes. IsField name.now held.now (Ok bytes.now)) }
    ensures failed { IfErr result (λ failure. IsField name.now held.now (Err failure)) }
{
    match read_name(alloc, name) {
        Ok(name) => line_of(held, &name),
        Err(failure) => Err(failure),
    }
}

fn text_of<'h>(alloc: Global, held: &'h HeldConnection, text: Text<'_>) -> Result<&'h [u8], Failure>
    ensures given { IfOk result (λ bytes. IsText text.entry held.now (Ok bytes.now)) }
    ensures failed { IfErr result (λ failure. IsText text.entry held.now (Err failure)) }
{
    let request = held.connection.request();
    match text {
        Text::Method => asked(held, Some(request.method().as_str().as_bytes())),
        Text::Path => asked(held, Some(request.uri().path().as_bytes())),
        Text::Query => match request.uri().query() {
            Some(query) => asked(held, Some(query.as_bytes())),
            None => asked(held, None),
        },
        Text::Field(name) => field_of(alloc, held, name),
        Text::Content => asked(held, Some(request.body().as_slice())),
        Text::Output(most) => Ok(front_of(held.connection.output(), most)),
        Text::TimeOut => {
            if is_late(held) {
                Ok(TIMED_OUT)
            } else {
                Err(Failure::Absent)
            }
        }
    }
}

fn write_in(alloc: Global, lent: &Lent, text: Text<'_>, room: &mut [u8], written: &mut usize) -> u8
    ensures { Writes (λ bytes. bytes) (λ _. done) (OnHeld (IsText text.entry) (connection_in lent.now.loan.held))
        room.old room.new written.old written.new result }
{
    let Some(held) = lent.connection() else {
        return Failure::Absent.status();
    };
    match text_of(alloc, held, text) {
        Ok(bytes) => copy_into(bytes, DONE, room, written),
        Err(failure) => failure.status(),
    }
}

/// Writes these bytes. Rejected if they are of the request that waits and none waits. `Absent` if there are none.
pub fn write_text(
    alloc: Global,
    view: &mut View,
    text: Text<'_>,
    room: &mut [u8],
    written: &mut usize,
) -> u8
    ensures { Shows text.entry view.old view.new room.old room.new written.old written.new result }
{
    let lent = view.take();
    let status = write_in(alloc, &lent, text, room, written);
    view.put(lent);
    status
}

/// The field lines of a map, each as `name: value` and a line end. Fails only if an allocation fails.
pub fn lines_of_map(alloc: Global, map: &HeaderMap) -> Result<Vec<u8>, AllocError>
    ensures { IfOk result (λ text. text.items ≡ map_text map.now) }
{
    let mut text = Vec::new(alloc);
    for (name, value) in map.iter() {
        print_line(&mut text, name, value)?;
    }
    Ok(text)
}

fn fields_in(alloc: Global, held: &HeldConnection) -> Result<Vec<u8>, Failure>
    ensures { AreFields held.now result }
{
    if !held.connection.is_asking() {
        return Err(Failure::Refused);
    }
    match lines_of_map(alloc, held.connection.request().headers()) {
        Ok(text) => Ok(text),
        Err(_) => Err(Failure::Memory),
    }
}

/// The field lines of the request that waits, each with a byte 10 after it. Those of one name come together, in their
/// order. Rejected if no request waits.
pub fn fields_of(alloc: Global, view: &mut View) -> Result<Vec<u8>, Failure>
    ensures same { IsSame view.old view.new }
    ensures fields { OnHeld AreFields (connection_in view.old.held) result }
{
    ask(view, |held| fields_in(alloc, held))
}

fn version_in(held: &HeldConnection) -> Result<u8, Failure>
    ensures { IsVersion held.now result }
{
    if !held.connection.is_asking() {
        return Err(Failure::Refused);
    }
    if held.connection.request().version() == Version::HTTP_10 {
        Ok(10)
    } else {
        Ok(11)
    }
}

/// The version of HTTP of the request that waits: 10 or 11. Rejected if none waits.
pub fn version_of(view: &mut View) -> Result<u8, Failure>
    ensures same { IsSame view.old view.new }
    ensures version { OnHeld IsVersion (connection_in view.old.held) result }
{
    ask(view, |held| version_in(held))
}

fn range_in(held: &HeldConnection) -> Result<OpenRange, Failure>
    ensures { IsRangeNext held.now result }
{
    match held.connection.range() {
        Some(extent) => Ok(extent),
        None => Err(Failure::Absent),
    }
}

/// The range of what the host has open that is to be written once no bytes wait. `Absent` also if there is none.
pub fn range_of(view: &mut View) -> Result<OpenRange, Failure>
    ensures same { IsSame view.old view.new }
    ensures range { OnHeld IsRangeNext (connection_in view.old.held) result }
{
    ask(view, |held| range_in(held))
}

/// The status by which the connection rejected what it received. `Absent` also if it rejected nothing.
pub fn rejection_of(view: &mut View) -> Result<u16, Failure>
    ensures same { IsSame view.old view.new }
    ensures status { OnHeld IsRejection (connection_in view.old.held) result }
{
    ask(view, |held| match held.rejection {
        0 => Err(Failure::Absent),
        rejection => Ok(rejection),
    })
}

/// The status of the plan, and how long its content is.
pub fn planned_of(view: &mut View) -> Result<(u16, u64), Failure>
    ensures same { IsSame view.old view.new }
    ensures planned { OnHeld (λ held answer. answer ≡ Ok (planned held)) (connection_in view.old.held) result }
{
    ask(view, |held| Ok((held.plan.status.as_u16(), held.plan.len)))
}
