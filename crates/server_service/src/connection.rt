//! A store served over one connection.
ghost use Rattle.std.{specs.Prelude.{◌≡◌, ◌-◌, ℕ, List, is_ok}, specs.Io.KnownBytes.{Appends, Consumes}};
ghost use Rattle.server_connection.specs.Connection.{Exchanged, WaitsAtRest};
ghost use Rattle.server_service.{specs.Answer.{IsAnswer, IsSameSite}, specs.File.gives_of};

use crate::service::FileService;
use crate::store::FileStore;
use http_server::Config;
use server_connection::serve_exchanges;
use std::hash::RandomState;
use std::io;
use std::io::{Read, Write};

/// Reads requests, answers them from a store and writes the responses, until the connection is done.
/// The keys are for the header maps, whose names the other end chooses.
///
/// What is written is, request by request, a response that `IsAnswer` says. Of a file in memory exactly the
/// bytes of its ranges are sent; of one that is read while it is sent, as many as the response says, but no
/// contract says which. Where the result is an error, the last response may be cut off. Each whole request is
/// answered before more input is awaited, unless the connection closes, and the input ends only where that of
/// the reader does.
///
/// The connection ends with an error if a file ends before its length, if reading or writing fails, and when
/// out of memory. That it does so is not proved.
pub fn serve_store<S: FileStore, R: Read, W: Write>(
    keys: RandomState,
    config: Config,
    service: &mut FileService<S>,
    reader: &mut R,
    writer: &mut W,
) -> io::Result<()>
    ensures { (received : List ℕ) × (sent : List ℕ)
        × Consumes (R.remaining reader.old) (R.remaining reader.new) received
        × Appends (W.contents writer.old) (W.contents writer.new) sent
        × Exchanged
        (λ before request plan after.
        IsAnswer (S.tells before.store) before.left before.site (S.has before.store) request plan after.source
        × IsSameSite before.site after.site × (after.store ≡ before.store) × (after.left ≡ before.left - 1))
        (λ now. gives_of now.source) config service.old service.new received sent (is_ok result)
        × WaitsAtRest
        (λ before request plan after.
        IsAnswer (S.tells before.store) before.left before.site (S.has before.store) request plan after.source
        × IsSameSite before.site after.site × (after.store ≡ before.store) × (after.left ≡ before.left - 1))
        (λ now. gives_of now.source) config service.old service.new received sent (R.remaining reader.new) }
{
    serve_exchanges(service.alloc, keys, config, service, reader, writer)
}
