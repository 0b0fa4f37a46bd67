//! How a request goes to an origin.
ghost use Rattle.std.specs.Prelude.{◌≡◌, IfOk, None, Some};
ghost use Rattle.http_header.specs.HeaderMap.{get};
ghost use Rattle.gateway_exchange.specs.Steps.{AsksAgain};
ghost use Rattle.c_gate.specs.Calls.{Does, OnGate};
ghost use Rattle.c_gate.specs.Origins.{Forwards, ForwardsIn, IsOpenedWith, IsTaken, LastAfterNext, SetsConditions};
ghost use Rattle.c_gate.specs.Origins.{TakesOver, fits};

use crate::calling::change;
use c_handles::{Handle, Held, HeldGate};
use c_parts::{Failure, HashKeys, read_map};
use gateway_connection::OriginConnection;
use headers::{HeaderMap, HeaderName, HeaderValue};
use http_header::{IF_MODIFIED_SINCE, IF_NONE_MATCH};
use std::alloc::{AllocError, Global};

// The first line of a field, if the map has it.
fn line_of(map: &HeaderMap, name: HeaderName) -> Result<Option<HeaderValue>, AllocError>
    ensures { IfOk result (λ line. line ≡ get map.now name) }
{
    match map.get(name) {
        Some(value) => Ok(Some(value.clone()?)),
        None => Ok(None),
    }
}

fn set_in(
    alloc: Global,
    gate: &mut HeldGate,
    section: &[u8],
    keys: &HashKeys,
) -> Result<(), Failure>
    ensures { SetsConditions section.now gate.old gate.new result }
{
    let fields = read_map(alloc, section, keys)?;
    let etags = line_of(&fields, IF_NONE_MATCH)?;
    let since = line_of(&fields, IF_MODIFIED_SINCE)?;
    Ok(gate.connection.set_conditions(etags, since)?)
}

/// Puts the conditions of a section in place of those of the request that waits. Rejected if a line of it is no field.
pub fn set_conditions(
    alloc: Global,
    handle: &mut Handle,
    section: &[u8],
    keys: &HashKeys,
) -> Result<(), Failure>
    ensures { OnGate (SetsConditions section.now) handle.old.held handle.new.held result }
{
    change(alloc, handle, |gate| set_in(alloc, gate, section, keys))
}

// Whether the one is a gateway's connection, and the other one to an origin.
fn fits(gate: &Held, origin: &Held) -> bool
    ensures { result ≡ fits gate.now origin.now }
{
    match (gate, origin) {
        (Held::Gate(_), Held::GateOrigin(_)) => true,
        _ => false,
    }
}

fn forward_in(held: &mut Held, origin: Held) -> Result<(), Failure>
    ensures { ForwardsIn held.old held.new origin result }
{
    let Held::GateOrigin(connection) = origin else {
        return Err(Failure::Absent);
    };
    match held {
        Held::Gate(gate) => {
            gate.connection.forward(connection, true);
            Ok(())
        }
        _ => Err(Failure::Absent),
    }
}

/// Sends the request that waits over a connection to an origin, whose handle is closed then.
pub fn forward(alloc: Global, handle: &mut Handle, origin: &mut Handle) -> Result<(), Failure>
    ensures { Forwards handle.old.held handle.new.held origin.old.held origin.new.held result }
{
    let Some(connection) = origin.take(alloc) else {
        return Err(Failure::Absent);
    };
    let Some(mut held) = handle.take(alloc) else {
        origin.put(connection);
        return Err(Failure::Absent);
    };
    if !fits(&held, &connection) {
        origin.put(connection);
        handle.put(held);
        return Err(Failure::Absent);
    }
    let answer = forward_in(&mut held, Box::into_inner(connection));
    handle.put(held);
    answer
}

fn again_in(gate: &mut HeldGate) -> Result<(), Failure>
    ensures { Does AsksAgain gate.old gate.new result }
{
    gate.connection.again();
    Ok(())
}

/// Drops the response that waits, and asks again without conditions.
pub fn again(alloc: Global, handle: &mut Handle) -> Result<(), Failure>
    ensures { OnGate (Does AsksAgain) handle.old.held handle.new.held result }
{
    change(alloc, handle, again_in)
}

fn close_after_in(gate: &mut HeldGate) -> Result<(), Failure>
    ensures { Does LastAfterNext gate.old gate.new result }
{
    gate.connection.close_after();
    Ok(())
}

/// Says that the connection ends after the next response.
pub fn closes_after(alloc: Global, handle: &mut Handle) -> Result<(), Failure>
    ensures { OnGate (Does LastAfterNext) handle.old.held handle.new.held result }
{
    change(alloc, handle, close_after_in)
}

fn take_in(gate: &mut HeldGate) -> Result<OriginConnection, Failure>
    ensures { IsTaken gate.old gate.new result }
{
    match gate.connection.take_origin() {
        Some(connection) => Ok(connection),
        None => Err(Failure::Absent),
    }
}

fn put_origin(
    alloc: Global,
    handle: &mut Handle,
    connection: OriginConnection,
) -> Result<(), Failure>
    requires { handle.old.held ≡ None }
    ensures { IsOpenedWith (Some connection) handle.new.held result }
{
    handle.put(Box::new(alloc, Held::GateOrigin(connection))?);
    Ok(())
}

/// Opens a closed handle with the origin's connection, once the exchange is over. `Absent` if no further request may go
/// over it. Rejected if the handle is open.
pub fn take_origin(alloc: Global, handle: &mut Handle, origin: &mut Handle) -> Result<(), Failure>
    ensures { TakesOver handle.old.held handle.new.held origin.old.held origin.new.held result }
{
    if let Some(had) = origin.take(alloc) {
        origin.put(had);
        return Err(Failure::Refused);
    }
    let connection = change(alloc, handle, take_in)?;
    put_origin(alloc, origin, connection)
}
