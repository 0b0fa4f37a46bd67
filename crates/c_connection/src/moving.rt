//! Calls that move a connection on.
ghost use Rattle.std.specs.Prelude.{◌≡◌};
ghost use Rattle.c_handles.specs.Handles.{Opens};
ghost use Rattle.c_connection.specs.Calls.{Finishes, HandsOut, IsConnectionHeld, IsRejectedBy, OnConnection, Receives};
ghost use Rattle.c_connection.specs.Calls.{Responds, Wants, event_number};

use crate::calling::change;
use crate::host::HostHistory;
use c_handles::{Handle, Held, HeldConnection};
use c_parts::{Failure, HashKeys};
use http_server::{Config, Reason};
use server_connection::{Event, ResponsePlan, ServerConnection, rejection_status};
use std::alloc::Global;
use std::hash::RandomState;
use std::mem::replace;

fn new_connection(alloc: Global, keys: &HashKeys, most_content: usize) -> Result<Held, Failure>
    ensures { IsConnectionHeld most_content result }
{
    // The keys are always given.
    let Ok(keys) = RandomState::new(keys) else {
        return Err(Failure::Memory);
    };
    let mut config = Config::default();
    config.max_body_len = most_content;
    Ok(Held::Connection(HeldConnection {
        connection: ServerConnection::new::<HostHistory>(alloc, keys, config),
        plan: ResponsePlan::new(alloc),
        has_begun: false,
        rejection: 0,
    }))
}

/// Opens a closed handle with a connection that has received nothing. A request whose content is longer than so many
/// bytes is rejected. Names of fields come from outside: so the keys should be random. Rejected if the handle is open.
pub fn open_connection(
    alloc: Global,
    handle: &mut Handle,
    most_content: usize,
    keys: &HashKeys,
) -> Result<(), Failure>
    ensures { Opens (IsConnectionHeld most_content) handle.old.held handle.new.held result }
{
    c_handles::open(alloc, handle, new_connection(alloc, keys, most_content))
}

fn receive_in(held: &mut HeldConnection, bytes: &[u8]) -> Result<(), Failure>
    ensures { Receives bytes.now held.old held.new result }
{
    if !held.connection.is_receiving() {
        return Err(Failure::Refused);
    }
    match held.connection.receive::<HostHistory>(bytes) {
        Ok(()) => {
            held.has_begun = true;
            Ok(())
        }
        Err(_) => Err(Failure::Memory),
    }
}

/// Receives all of these bytes, or none. Rejected if the connection doesn't want input.
pub fn receive(alloc: Global, handle: &mut Handle, bytes: &[u8]) -> Result<(), Failure>
    ensures { OnConnection (Receives bytes.now) handle.old.held handle.new.held result }
{
    change(alloc, handle, |held| receive_in(held, bytes))
}

fn finish_in(held: &mut HeldConnection) -> Result<(), Failure>
    ensures { Finishes held.old held.new result }
{
    if !held.connection.is_receiving() {
        return Err(Failure::Refused);
    }
    held.connection.finish_input::<HostHistory>();
    Ok(())
}

/// Says that the input ends here. Rejected if the connection doesn't want input.
pub fn finish_input(alloc: Global, handle: &mut Handle) -> Result<(), Failure>
    ensures { OnConnection Finishes handle.old.held handle.new.held result }
{
    change(alloc, handle, finish_in)
}

fn event_number(event: Event) -> u8
    ensures { result ≡ event_number event }
{
    match event {
        Event::NeedsInput => 0,
        Event::Request => 1,
        Event::Output => 2,
        Event::Closed(_) => 3,
        Event::Aborted => 4,
    }
}

// The status by which a connection that says so rejected what it received, or 0.
fn rejection_by(event: Event) -> u16
    ensures { IsRejectedBy event result }
{
    match event {
        Event::Closed(Reason::Refused(why)) => rejection_status(why).as_u16(),
        _ => 0,
    }
}

fn next_in(held: &mut HeldConnection) -> Result<u8, Failure>
    ensures { Wants held.old held.new result }
{
    let event = held.connection.next::<HostHistory>();
    held.rejection = rejection_by(event);
    Ok(event_number(event))
}

/// Does what needs nothing of the host, and returns the number of what the connection wants then.
pub fn next(alloc: Global, handle: &mut Handle) -> Result<u8, Failure>
    ensures { OnConnection Wants handle.old.held handle.new.held result }
{
    change(alloc, handle, next_in)
}

fn respond_in(alloc: Global, held: &mut HeldConnection) -> Result<(), Failure>
    ensures { Responds held.old held.new result }
{
    if !held.connection.is_asking() {
        return Err(Failure::Refused);
    }
    let plan = replace(&mut held.plan, ResponsePlan::new(alloc));
    held.has_begun = false;
    held.connection.respond::<HostHistory>(plan);
    Ok(())
}

/// Answers the request that waits, by the plan. Rejected if none waits.
pub fn respond(alloc: Global, handle: &mut Handle) -> Result<(), Failure>
    ensures { OnConnection Responds handle.old.held handle.new.held result }
{
    change(alloc, handle, |held| respond_in(alloc, held))
}

fn sent_in(held: &mut HeldConnection, count: u64) -> Result<(), Failure>
    ensures { HandsOut count held.old held.new result }
{
    let connection = &mut held.connection;
    let offered = match connection.range() {
        Some(extent) if connection.output().is_empty() => extent.len,
        _ => connection.output().len() as u64,
    };
    if count > offered {
        return Err(Failure::Refused);
    }
    connection.sent::<HostHistory>(count as usize);
    Ok(())
}

/// Says that so many of the bytes that the connection offers were written. Rejected if it offers fewer.
pub fn sent(alloc: Global, handle: &mut Handle, count: u64) -> Result<(), Failure>
    ensures { OnConnection (HandsOut count) handle.old.held handle.new.held result }
{
    change(alloc, handle, |held| sent_in(held, count))
}
