//! A server's connection, behind a handle.
ghost use Rattle.std.specs.Prelude.{◌≡◌, None, Ok, length};
ghost use Rattle.server_connection.specs.declared.piece.Piece.TheVariants.{Literal, Range};
ghost use Rattle.c_parts.specs.Endings.{Gives, Writes, done};
ghost use Rattle.c_handles.{specs.Handles.{OnHeld, Opens, connection_in}, specs.Views.IsSame};
ghost use Rattle.c_connection.specs.Calls.{AreFields, Finishes, HandsOut, IsConnectionHeld, IsRangeNext, IsRejection};
ghost use Rattle.c_connection.specs.Calls.{IsVersion, OnConnection};
ghost use Rattle.c_connection.{specs.Calls.{Receives, Responds, Shows, Wants, planned}, specs.Plans.AddsField};
ghost use Rattle.c_connection.specs.Plans.{AddsPiece, Begins};
ghost use Rattle.c_connection.specs.declared.reading.Text.TheVariants.{Content, Field, Method, Output, Path, Query};
ghost use Rattle.c_connection.specs.declared.reading.Text.TheVariants.{TimeOut};
ghost use Rattle.c_library.{specs.CacheStore.Ends, specs.Connections.TellsBoth};

use crate::giving::give;
use crate::store::ended;
use c_connection::{
    Text, add_bytes, add_field, add_range, begin, fields_of, finish_input, next, open_connection,
    planned_of, range_of, receive, rejection_of, respond, sent, version_of, write_text,
};
use c_handles::{Handle, View, close};
use c_parts::{DONE, HashKeys, copy_into};
use std::alloc::Global;

/// Opens a closed handle with a connection that has received nothing.
#[unsafe(no_mangle)]
pub extern "C" fn typed_headers_connection_new(
    alloc: Global,
    connection: &mut Handle,
    most_content: usize,
    keys: &HashKeys,
) -> u8
    ensures { Ends (Opens (IsConnectionHeld most_content) connection.old.held connection.new.held) result }
{
    ended(open_connection(alloc, connection, most_content, keys))
}

/// Closes a handle, and frees what it has.
#[unsafe(no_mangle)]
pub extern "C" fn typed_headers_connection_free(alloc: Global, connection: &mut Handle) -> u8
    ensures { (result ≡ 0) × (connection.new.held ≡ None) }
{
    close(alloc, connection);
    DONE
}

/// Does what needs nothing of the host, and says what the connection wants then.
#[unsafe(no_mangle)]
pub extern "C" fn typed_headers_connection_next(
    alloc: Global,
    connection: &mut Handle,
    event: &mut u8,
) -> u8
    ensures { Gives (OnConnection Wants connection.old.held connection.new.held) event.old event.new result }
{
    give(next(alloc, connection), event)
}

/// Receives all of these bytes, or none.
#[unsafe(no_mangle)]
pub extern "C" fn typed_headers_connection_receive(
    alloc: Global,
    connection: &mut Handle,
    input: &[u8],
) -> u8
    ensures { Ends (OnConnection (Receives input.now) connection.old.held connection.new.held) result }
{
    ended(receive(alloc, connection, input))
}

/// Says that the input ends here.
#[unsafe(no_mangle)]
pub extern "C" fn typed_headers_connection_finish_input(
    alloc: Global,
    connection: &mut Handle,
) -> u8
    ensures { Ends (OnConnection Finishes connection.old.held connection.new.held) result }
{
    ended(finish_input(alloc, connection))
}

/// Writes the method of the request that waits.
#[unsafe(no_mangle)]
pub extern "C" fn typed_headers_connection_method(
    alloc: Global,
    connection: &mut View,
    room: &mut [u8],
    written: &mut usize,
) -> u8
    ensures { Shows Method connection.old connection.new
        room.old room.new written.old written.new result }
{
    write_text(alloc, connection, Text::Method, room, written)
}

/// Writes the path of its target.
#[unsafe(no_mangle)]
pub extern "C" fn typed_headers_connection_path(
    alloc: Global,
    connection: &mut View,
    room: &mut [u8],
    written: &mut usize,
) -> u8
    ensures { Shows Path connection.old connection.new
        room.old room.new written.old written.new result }
{
    write_text(alloc, connection, Text::Path, room, written)
}

/// Writes the query of its target.
#[unsafe(no_mangle)]
pub extern "C" fn typed_headers_connection_query(
    alloc: Global,
    connection: &mut View,
    room: &mut [u8],
    written: &mut usize,
) -> u8
    ensures { Shows Query connection.old connection.new
        room.old room.new written.old written.new result }
{
    write_text(alloc, connection, Text::Query, room, written)
}

/// Writes the first line of its field of this name.
#[unsafe(no_mangle)]
pub extern "C" fn typed_headers_connection_field(
    alloc: Global,
    connection: &mut View,
    name: &[u8],
    room: &mut [u8],
    written: &mut usize,
) -> u8
    ensures { Shows (Field name.entry) connection.old connection.new
        room.old room.new written.old written.new result }
{
    write_text(alloc, connection, Text::Field(name), room, written)
}

/// Writes its field lines.
#[unsafe(no_mangle)]
pub extern "C" fn typed_headers_connection_fields(
    alloc: Global,
    connection: &mut View,
    room: &mut [u8],
    written: &mut usize,
) -> u8
    ensures same { IsSame connection.old connection.new }
    ensures fields { Writes (λ text. text.items) (λ _. done) (OnHeld AreFields (connection_in connection.old.held))
        room.old room.new written.old written.new result }
{
    match fields_of(alloc, connection) {
        Ok(text) => copy_into(text.as_slice(), DONE, room, written),
        Err(failure) => failure.status(),
    }
}

/// The version of HTTP that it has.
#[unsafe(no_mangle)]
pub extern "C" fn typed_headers_connection_version(connection: &mut View, version: &mut u8) -> u8
    ensures same { IsSame connection.old connection.new }
    ensures version { Gives (OnHeld IsVersion (connection_in connection.old.held)) version.old version.new result }
{
    give(version_of(connection), version)
}

/// Writes its content.
#[unsafe(no_mangle)]
pub extern "C" fn typed_headers_connection_content(
    alloc: Global,
    connection: &mut View,
    room: &mut [u8],
    written: &mut usize,
) -> u8
    ensures { Shows Content connection.old connection.new
        room.old room.new written.old written.new result }
{
    write_text(alloc, connection, Text::Content, room, written)
}

/// Begins the plan again, with this status.
#[unsafe(no_mangle)]
pub extern "C" fn typed_headers_connection_plan(
    alloc: Global,
    connection: &mut Handle,
    status: u16,
) -> u8
    ensures { Ends (OnConnection (Begins status) connection.old.held connection.new.held) result }
{
    ended(begin(alloc, connection, status))
}

/// Adds a field line to the plan.
#[unsafe(no_mangle)]
pub extern "C" fn typed_headers_connection_plan_field(
    alloc: Global,
    connection: &mut Handle,
    name: &[u8],
    value: &[u8],
) -> u8
    ensures { Ends (OnConnection (AddsField name.now value.now) connection.old.held connection.new.held) result }
{
    ended(add_field(alloc, connection, name, value))
}

/// Adds bytes to the content of the plan.
#[unsafe(no_mangle)]
pub extern "C" fn typed_headers_connection_plan_bytes(
    alloc: Global,
    connection: &mut Handle,
    content: &[u8],
) -> u8
    ensures { Ends (OnConnection (AddsPiece (Literal content.now)) connection.old.held connection.new.held) result }
{
    ended(add_bytes(alloc, connection, content))
}

/// Adds bytes of what the host has open to the content of the plan.
#[unsafe(no_mangle)]
pub extern "C" fn typed_headers_connection_plan_range(
    alloc: Global,
    connection: &mut Handle,
    start: u64,
    length: u64,
) -> u8
    ensures { Ends (OnConnection (AddsPiece (Range (record { start = start; len = length })))
        connection.old.held connection.new.held) result }
{
    ended(add_range(alloc, connection, start, length))
}

/// Answers the request that waits, by the plan.
#[unsafe(no_mangle)]
pub extern "C" fn typed_headers_connection_respond(alloc: Global, connection: &mut Handle) -> u8
    ensures { Ends (OnConnection Responds connection.old.held connection.new.held) result }
{
    ended(respond(alloc, connection))
}

/// Copies the first bytes that wait to be written.
#[unsafe(no_mangle)]
pub extern "C" fn typed_headers_connection_output(
    alloc: Global,
    connection: &mut View,
    room: &mut [u8],
    written: &mut usize,
) -> u8
    ensures { Shows (Output (length room.old)) connection.old connection.new
        room.old room.new written.old written.new result }
{
    let most = room.len();
    write_text(alloc, connection, Text::Output(most), room, written)
}

/// The range of what the host has open that is to be written once no bytes wait.
#[unsafe(no_mangle)]
pub extern "C" fn typed_headers_connection_range(
    connection: &mut View,
    start: &mut u64,
    length: &mut u64,
) -> u8
    ensures same { IsSame connection.old connection.new }
    ensures range { TellsBoth (λ extent. extent.start) (λ extent. extent.len)
        (OnHeld IsRangeNext (connection_in connection.old.held))
        start.old start.new length.old length.new result }
{
    match range_of(connection) {
        Ok(extent) => {
            *start = extent.start;
            *length = extent.len;
            DONE
        }
        Err(failure) => failure.status(),
    }
}

/// Says that so many of the bytes that the connection offers were written.
#[unsafe(no_mangle)]
pub extern "C" fn typed_headers_connection_sent(
    alloc: Global,
    connection: &mut Handle,
    count: u64,
) -> u8
    ensures { Ends (OnConnection (HandsOut count) connection.old.held connection.new.held) result }
{
    ended(sent(alloc, connection, count))
}

/// Writes the response to a client that is too slow.
#[unsafe(no_mangle)]
pub extern "C" fn typed_headers_connection_time_out(
    alloc: Global,
    connection: &mut View,
    room: &mut [u8],
    written: &mut usize,
) -> u8
    ensures { Shows TimeOut connection.old connection.new
        room.old room.new written.old written.new result }
{
    write_text(alloc, connection, Text::TimeOut, room, written)
}

/// The status by which the connection rejected what came.
#[unsafe(no_mangle)]
pub extern "C" fn typed_headers_connection_rejection(connection: &mut View, status: &mut u16) -> u8
    ensures same { IsSame connection.old connection.new }
    ensures status { Gives (OnHeld IsRejection (connection_in connection.old.held)) status.old status.new result }
{
    give(rejection_of(connection), status)
}

/// The status of the plan, and how long its content is.
#[unsafe(no_mangle)]
pub extern "C" fn typed_headers_connection_planned(
    connection: &mut View,
    status: &mut u16,
    length: &mut u64,
) -> u8
    ensures same { IsSame connection.old connection.new }
    ensures planned { TellsBoth (λ facts. facts.0) (λ facts. facts.1)
        (OnHeld (λ held answer. answer ≡ Ok (planned held)) (connection_in connection.old.held))
        status.old status.new length.old length.new result }
{
    match planned_of(connection) {
        Ok((code, count)) => {
            *status = code;
            *length = count;
            DONE
        }
        Err(failure) => failure.status(),
    }
}
