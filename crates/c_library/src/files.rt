//! A service of a folder's files, behind a handle.
ghost use Rattle.std.specs.Prelude.{◌≡◌, None};
ghost use Rattle.c_parts.specs.Endings.{Gives, Writes, done};
ghost use Rattle.c_handles.{specs.Handles.{Opens, connection_in, files_in}, specs.Views.IsSame};
ghost use Rattle.c_connection.specs.Files.{IsFilesHeld, IsPathNext, Plans};
ghost use Rattle.c_library.specs.CacheStore.{Ends};

use crate::giving::give;
use crate::store::ended;
use c_connection::{next_path, open_files, plan_files};
use c_files::{Facts, FilesOptions};
use c_handles::{Handle, View, close};
use c_parts::{DONE, HashKeys, copy_into};
use std::alloc::Global;

/// Opens a closed handle with a service of files.
#[unsafe(no_mangle)]
pub extern "C" fn typed_headers_files_new(
    alloc: Global,
    files: &mut Handle,
    options: &FilesOptions<'_>,
    keys: &HashKeys,
) -> u8
    ensures { Ends (Opens (IsFilesHeld options.now keys.now) files.old.held files.new.held) result }
{
    ended(open_files(alloc, files, options, keys))
}

/// Closes a handle, and frees what it has.
#[unsafe(no_mangle)]
pub extern "C" fn typed_headers_files_free(alloc: Global, files: &mut Handle) -> u8
    ensures { (result ≡ 0) × (files.new.held ≡ None) }
{
    close(alloc, files);
    DONE
}

/// Writes the path that is to be opened next for the request that waits.
#[unsafe(no_mangle)]
pub extern "C" fn typed_headers_files_path(
    alloc: Global,
    files: &mut View,
    connection: &mut View,
    found: &[Facts],
    room: &mut [u8],
    written: &mut usize,
) -> u8
    ensures same_files { IsSame files.old files.new }
    ensures same_connection { IsSame connection.old connection.new }
    ensures path { Writes (λ bytes. bytes) (λ _. done) (IsPathNext found.now (files_in files.old.held)
        (connection_in connection.old.held)) room.old room.new written.old written.new result }
{
    match next_path(alloc, files, connection, found) {
        Ok(path) => copy_into(path.as_bytes(), DONE, room, written),
        Err(failure) => failure.status(),
    }
}

/// Makes the plan of the response to the request that waits.
#[unsafe(no_mangle)]
pub extern "C" fn typed_headers_files_plan(
    alloc: Global,
    files: &mut Handle,
    connection: &mut Handle,
    found: &[Facts],
    now: u64,
    is_last: bool,
    source: &mut usize,
) -> u8
    ensures { Gives (Plans found.now now is_last files.old.held files.new.held connection.old.held connection.new.held)
        source.old source.new result }
{
    give(
        plan_files(alloc, files, connection, found, now, is_last),
        source,
    )
}
