//! One connection over a reader and a writer that block.
ghost use Rattle.std.{specs.Prelude.{◌≡◌, ℕ, List, [], is_ok}, specs.Io.KnownBytes.{Appends, Consumes}};
ghost use Rattle.http_server.specs.declared.state.Config.{Config};
ghost use Rattle.server_connection.specs.Connection.{Exchanged, HasRested, IsReached, IsSaid, Turns, WaitsAtRest};
ghost use Rattle.server_connection.specs.Machine.{IsNextRange, Leads, Moves};

use crate::connection::{Event, ServerConnection};
use crate::handler::Handler;
use crate::machine::Phase;
use crate::piece::OpenRange;
use crate::plan::ResponsePlan;
use crate::refusal::rejection_status;
use http_server::{Config, Reason, State};
use std::alloc::Global;
use std::hash::RandomState;
use std::io;
use std::io::{ErrorKind, Read, Write};

/// So many bytes of a range are read at a time.
const PIECE_LEN: usize = 64 * 1024;

/// Reads requests, answers them by the plans of a handler and writes the responses, until the
/// connection ends. The keys are for the header maps, since the client chooses the names.
///
/// The connection ends with `Err` if a response can't be sent to its end: what the handler has open
/// is shorter than the plan says or can't be read, or an allocation fails. It also does if a
/// handler can't plan because an allocation fails, or if its plan is no response that `http1`
/// sends.
pub fn serve_exchanges<H: Handler, R: Read, W: Write>(
    alloc: Global,
    keys: RandomState,
    config: Config,
    handler: &mut H,
    reader: &mut R,
    writer: &mut W,
) -> io::Result<()>
    ensures { (received : List ℕ) × (sent : List ℕ)
        × Consumes (R.remaining reader.old) (R.remaining reader.new) received
        × Appends (W.contents writer.old) (W.contents writer.new) sent
        × Exchanged H.plans H.gives config handler.old handler.new received sent (is_ok result)
        × WaitsAtRest H.plans H.gives config handler.old handler.new received sent (R.remaining reader.new) }
{
    let mut connection = ServerConnection::new::<H>(alloc, keys, config);
    let mut buffer = vec![in alloc; 0; PIECE_LEN]?;
    // A loop is proved to end, so this one counts its turns.
    for _ in 0..u64::MAX {
        if turn(&mut connection, handler, &mut buffer, reader, writer)? {
            return ending(connection.is_done::<H>());
        }
    }
    Err(ErrorKind::TimedOut.into())
}

// Does what the connection wants once. Returns whether it is done.
fn turn<H: Handler, R: Read, W: Write>(
    connection: &mut ServerConnection,
    handler: &mut H,
    buffer: &mut [u8],
    reader: &mut R,
    writer: &mut W,
) -> io::Result<bool>
    ensures { Turns H.plans H.gives (R.remaining reader.old) (R.remaining reader.new)
        (W.contents writer.old) (W.contents writer.new)
        connection.old.machine handler.old connection.new.machine handler.new }
{
    match next(connection, handler) {
        Event::Request => {
            answer(connection, handler);
            Ok(false)
        }
        Event::Output => send(connection, handler, buffer, writer),
        Event::NeedsInput => {
            // The peer may be waiting for what a buffered writer holds.
            writer.flush()?;
            connection.machine.read_from(reader)?;
            Ok(false)
        }
        Event::Closed(_) => {
            writer.flush()?;
            Ok(!connection.machine.drop_content(reader))
        }
        Event::Aborted => {
            writer.flush()?;
            Ok(true)
        }
    }
}

// Asks the connection what it wants, and tells the handler of a rejection.
fn next<H: Handler>(connection: &mut ServerConnection, handler: &H) -> Event
    ensures moves { Moves H.plans H.gives connection.old.machine handler.now [] [] connection.new.machine handler.now }
    ensures said { IsSaid connection.new.machine result }
    ensures rests { result ≡ Event.NeedsInput → (config : Config) (first : H) (received sent : List ℕ)
        → IsReached H.plans H.gives config first connection.old.machine handler.now received sent
        → HasRested H.plans H.gives first connection.new.machine handler.now received sent }
    ensures ended { connection.new.machine.ended ≡ connection.old.machine.ended }
{
    let was_open = connection.machine.is_open();
    let event = connection.next::<H>();
    if was_open {
        note(handler, connection.machine.state);
    }
    event
}

fn note<H: Handler>(handler: &H, state: State) {
    if let State::Closing(Reason::Refused(why)) = state {
        handler.note_rejection(rejection_status(why));
    }
}

fn answer<H: Handler>(connection: &mut ServerConnection, handler: &mut H)
    requires { connection.old.machine.phase ≡ Phase.Asking }
    ensures { Leads H.plans H.gives connection.old.machine handler.old connection.new.machine handler.new }
{
    let mut plan = ResponsePlan::new(connection.machine.alloc);
    match handler.plan(&connection.machine.request, &mut plan) {
        Ok(()) => connection.machine.respond::<H>(plan),
        Err(_) => connection.machine.give_up::<H>(),
    }
}

// Writes once; or reads once from what the handler has open, so that a short content goes with its head.
fn send<H: Handler, W: Write>(
    connection: &mut ServerConnection,
    handler: &H,
    buffer: &mut [u8],
    writer: &mut W,
) -> io::Result<bool>
    ensures { (sent : List ℕ) × Appends (W.contents writer.old) (W.contents writer.new) sent
        × Moves H.plans H.gives connection.old.machine handler.now [] sent connection.new.machine handler.now
        × (connection.new.machine.ended ≡ connection.old.machine.ended) }
{
    if let Some(extent) = connection.machine.range_to_read() {
        fill(connection, handler, extent, buffer);
        return Ok(false);
    }
    match connection.machine.write_to(writer)? {
        0 => Err(ErrorKind::WriteZero.into()),
        _ => Ok(false),
    }
}

fn fill<H: Handler>(
    connection: &mut ServerConnection,
    handler: &H,
    extent: OpenRange,
    buffer: &mut [u8],
)
    requires { IsNextRange connection.old.machine extent }
    ensures { Leads H.plans H.gives connection.old.machine handler.now connection.new.machine handler.now }
{
    let most = extent.len.min(buffer.len() as u64) as usize;
    match handler.read(extent.start, &mut buffer[..most]) {
        Ok(0) | Err(_) => connection.machine.cut_off(),
        Ok(count) => connection.machine.fill::<H>(&buffer[..count]),
    }
}

fn ending(is_done: bool) -> io::Result<()>
    ensures { is_ok result ≡ is_done }
{
    if is_done {
        Ok(())
    } else {
        Err(ErrorKind::ConnectionAborted.into())
    }
}
