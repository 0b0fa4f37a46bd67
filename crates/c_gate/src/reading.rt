//! What a connection has.
ghost use Rattle.std.specs.Prelude.{◌≡◌, ◌++◌, Err, IfErr, IfOk, None, Ok, OnOk, Some, length, option_map};
ghost use Rattle.http_header.specs.Token.{lowercase};
ghost use Rattle.c_parts.specs.Endings.{Writes, done};
ghost use Rattle.c_parts.specs.declared.status.Failure.TheVariants.{Absent};
ghost use Rattle.c_handles.specs.Handles.{OnHeld};
ghost use Rattle.c_gate.specs.Calls.{gate_in};
ghost use Rattle.c_gate.specs.Texts.{AreFields, IsAnswered, IsField, IsFront, IsKey, IsText, OnName};
ghost use Rattle.c_gate.specs.Texts.{Shows, key_text, outputs_in, own_answer};

use crate::calling::ask;
use c_connection::{front_of, lines_of_map};
use c_handles::{Handle, Held, HeldGate};
use c_parts::{DONE, Failure, copy_into, read_name};
use gateway_exchange::AskedRequest;
use gateway_hops::Scheme;
use headers::HeaderName;
use std::alloc::{AllocError, Global};

/// Bytes that a connection has.
#[derive(Clone, Copy)]
pub enum GateText<'n> {
    /// The method of the request that waits, or is passed on.
    Method,
    /// Its target, as it is sent.
    Target,
    /// The host and the port that it is for.
    Authority,
    /// The first line of its field of this name, in any case.
    Field(&'n [u8]),
    /// The piece of a response that was passed to the client last.
    Piece,
}

fn asked(gate: &HeldGate) -> Result<&AskedRequest, Failure>
    ensures given { IfOk result (λ a. gate.now.connection.asked ≡ Some a.now) }
    ensures failed { IfErr result (λ failure. (failure ≡ Absent) × (gate.now.connection.asked ≡ None)) }
{
    match gate.connection.request() {
        Some(request) => Ok(request),
        None => Err(Failure::Absent),
    }
}

fn line_of<'h>(gate: &'h HeldGate, name: &HeaderName) -> Result<&'h [u8], Failure>
    ensures given { IfOk result (λ line. OnName (Ok name.now) gate.now.connection.asked (Ok line.now)) }
    ensures failed { IfErr result (λ failure. OnName (Ok name.now) gate.now.connection.asked (Err failure)) }
{
    match asked(gate)?.head.fields.get(name) {
        Some(value) => Ok(value.as_bytes()),
        None => Err(Failure::Absent),
    }
}

fn field_of<'h>(alloc: Global, gate: &'h HeldGate, name: &[u8]) -> Result<&'h [u8], Failure>
    ensures given { IfOk result (λ line. IsField name.now gate.now.connection.asked (Ok line.now)) }
    ensures failed { IfErr result (λ failure. IsField name.now gate.now.connection.asked (Err failure)) }
{
    match read_name(alloc, name) {
        Ok(name) => line_of(gate, &name),
        Err(failure) => Err(failure),
    }
}

fn text_of<'h>(alloc: Global, gate: &'h HeldGate, text: GateText<'_>) -> Result<&'h [u8], Failure>
    ensures given { IfOk result (λ bytes. IsText text.entry gate.now (Ok bytes.now)) }
    ensures failed { IfErr result (λ failure. IsText text.entry gate.now (Err failure)) }
{
    match text {
        GateText::Method => Ok(asked(gate)?.head.method.as_str().as_bytes()),
        GateText::Target => Ok(asked(gate)?.outgoing.target.as_slice()),
        GateText::Authority => Ok(asked(gate)?.authority()),
        GateText::Field(name) => field_of(alloc, gate, name),
        GateText::Piece => Ok(gate.connection.piece()),
    }
}

fn write_in(
    alloc: Global,
    held: &Held,
    text: GateText<'_>,
    room: &mut [u8],
    written: &mut usize,
) -> u8
    ensures { Writes (λ bytes. bytes) (λ _. done) (OnHeld (IsText text.entry) (gate_in (Some held.now)))
        room.old room.new written.old written.new result }
{
    let Held::Gate(gate) = held else {
        return Failure::Absent.status();
    };
    match text_of(alloc, gate, text) {
        Ok(bytes) => copy_into(bytes, DONE, room, written),
        Err(failure) => failure.status(),
    }
}

/// Writes these bytes. `Absent` if there are none.
pub fn write_text(
    alloc: Global,
    handle: &mut Handle,
    text: GateText<'_>,
    room: &mut [u8],
    written: &mut usize,
) -> u8
    ensures { Shows text.entry handle.old.held handle.new.held room.old room.new written.old written.new result }
{
    let Some(held) = handle.take(alloc) else {
        return Failure::Absent.status();
    };
    let status = write_in(alloc, &held, text, room, written);
    handle.put(held);
    status
}

// What waits to be written to the client, and to the origin.
fn outputs_of(held: &Held) -> Option<(&[u8], &[u8])>
    ensures { option_map (λ waiting. (waiting.0.now, waiting.1.now)) result ≡ outputs_in (Some held.now) }
{
    match held {
        Held::Gate(gate) => {
            Some((
                gate.connection.client_output(),
                gate.connection.origin_output(),
            ))
        }
        Held::Tunnel(tunnel) => Some((tunnel.client_output(), tunnel.origin_output())),
        _ => None,
    }
}

fn write_front(
    to_client: &[u8],
    to_origin: &[u8],
    side: u8,
    room: &mut [u8],
    written: &mut usize,
) -> u8
    ensures { Writes (λ bytes. bytes) (λ _. done)
        (IsFront side (length room.old) (to_client.now, to_origin.now))
        room.old room.new written.old written.new result }
{
    let most = room.len();
    match side {
        0 => copy_into(front_of(to_client, most), DONE, room, written),
        1 => copy_into(front_of(to_origin, most), DONE, room, written),
        _ => Failure::Refused.status(),
    }
}

fn write_output_in(held: &Held, side: u8, room: &mut [u8], written: &mut usize) -> u8
    ensures { Writes (λ bytes. bytes) (λ _. done)
        (OnHeld (IsFront side (length room.old)) (outputs_in (Some held.now)))
        room.old room.new written.old written.new result }
{
    match outputs_of(held) {
        Some((to_client, to_origin)) => write_front(to_client, to_origin, side, room, written),
        None => Failure::Absent.status(),
    }
}

/// Writes the first bytes that wait for the side of this number, as many as there is room for: 0 for the client, 1 for
/// the origin. Rejected if it is another.
pub fn write_output(
    alloc: Global,
    handle: &mut Handle,
    side: u8,
    room: &mut [u8],
    written: &mut usize,
) -> u8
    ensures same { handle.new.held ≡ handle.old.held }
    ensures output { Writes (λ bytes. bytes) (λ _. done)
        (OnHeld (IsFront side (length room.old)) (outputs_in handle.old.held))
        room.old room.new written.old written.new result }
{
    let Some(held) = handle.take(alloc) else {
        return Failure::Absent.status();
    };
    let status = write_output_in(&held, side, room, written);
    handle.put(held);
    status
}

fn fields_in(alloc: Global, gate: &HeldGate) -> Result<Vec<u8>, Failure>
    ensures { AreFields gate.now result }
{
    match gate.connection.request() {
        Some(request) => Ok(lines_of_map(alloc, &request.head.fields)?),
        None => Err(Failure::Absent),
    }
}

/// The field lines of the request that waits, or is passed on, each with a byte 10 after it.
pub fn fields_of(alloc: Global, handle: &mut Handle) -> Result<Vec<u8>, Failure>
    ensures same { handle.new.held ≡ handle.old.held }
    ensures fields { OnHeld AreFields (gate_in handle.old.held) result }
{
    ask(alloc, handle, |gate| fields_in(alloc, gate))
}

fn push_lowercase(text: &mut Vec<u8>, bytes: &[u8]) -> Result<(), AllocError>
    ensures { OnOk result (text.new.items ≡ text.old.items ++ lowercase bytes.now) }
{
    for byte in bytes {
        text.push(byte.to_ascii_lowercase())?;
    }
    Ok(())
}

fn key_text(alloc: Global, scheme: Scheme, request: &AskedRequest) -> Result<Vec<u8>, AllocError>
    ensures { IfOk result (λ text. text.items ≡ key_text scheme request.now) }
{
    let mut text = Vec::new(alloc);
    text.extend_from_slice(scheme.as_str().as_bytes())?;
    text.extend_from_slice(b"://")?;
    push_lowercase(&mut text, request.authority())?;
    text.extend_from_slice(request.outgoing.target.as_slice())?;
    Ok(text)
}

fn key_in(alloc: Global, gate: &HeldGate) -> Result<Vec<u8>, Failure>
    ensures { IsKey gate.now result }
{
    match gate.connection.request() {
        Some(request) => Ok(key_text(alloc, gate.scheme, request)?),
        None => Err(Failure::Absent),
    }
}

/// The URI of the target of the request that waits, or is passed on (RFC 9110, section 7.1): the same text for each
/// request for it.
pub fn key_of(alloc: Global, handle: &mut Handle) -> Result<Vec<u8>, Failure>
    ensures same { handle.new.held ≡ handle.old.held }
    ensures key { OnHeld IsKey (gate_in handle.old.held) result }
{
    ask(alloc, handle, |gate| key_in(alloc, gate))
}

fn response_in(alloc: Global, gate: &HeldGate) -> Result<(u16, Vec<u8>), Failure>
    ensures { IsAnswered gate.now result }
{
    match gate.connection.response() {
        Some(response) => Ok((
            response.status.as_u16(),
            lines_of_map(alloc, &response.fields)?,
        )),
        None => Err(Failure::Absent),
    }
}

/// The status and the field lines of the response that waits, or is passed on.
pub fn response_of(alloc: Global, handle: &mut Handle) -> Result<(u16, Vec<u8>), Failure>
    ensures same { handle.new.held ≡ handle.old.held }
    ensures response { OnHeld IsAnswered (gate_in handle.old.held) result }
{
    ask(alloc, handle, |gate| response_in(alloc, gate))
}

fn own_in(gate: &HeldGate) -> Result<u16, Failure>
    ensures { result ≡ own_answer gate.now.connection.own }
{
    match gate.connection.own() {
        Some(own) => Ok(own.status().as_u16()),
        None => Err(Failure::Absent),
    }
}

/// The status of the last answer, if it was the gateway's own.
pub fn own_of(alloc: Global, handle: &mut Handle) -> Result<u16, Failure>
    ensures same { handle.new.held ≡ handle.old.held }
    ensures own { OnHeld (λ gate answer. answer ≡ own_answer gate.connection.own) (gate_in handle.old.held) result }
{
    ask(alloc, handle, own_in)
}
