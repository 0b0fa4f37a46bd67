//! Calls on a service of files, for the request that waits on a connection.
ghost use Rattle.std.{specs.Prelude.{◌≡◌, Some, string_bytes}, specs.Result.result_map_both};
ghost use Rattle.c_handles.{specs.Handles.{Opens, connection_in, files_in}, specs.Views.IsSame};
ghost use Rattle.c_connection.specs.Files.{IsFilesHeld, IsPathNext, Plans};

use c_files::{Facts, FilesOptions, new_files, path_for, plan_response, settings_of};
use c_handles::{Handle, Held, Lent, View};
use c_parts::{Failure, HashKeys};
use std::alloc::Global;

fn new_service(alloc: Global, options: &FilesOptions<'_>, keys: &HashKeys) -> Result<Held, Failure>
    ensures { IsFilesHeld options.now keys.now result }
{
    let settings = settings_of(alloc, options)?;
    match new_files(alloc, settings, keys) {
        Ok(files) => Ok(Held::Files(files)),
        Err(_) => Err(Failure::Memory),
    }
}

/// Opens a closed handle with a service. Rejected if it is open, or if a setting is none.
pub fn open_files(
    alloc: Global,
    handle: &mut Handle,
    options: &FilesOptions<'_>,
    keys: &HashKeys,
) -> Result<(), Failure>
    ensures { Opens (IsFilesHeld options.now keys.now) handle.old.held handle.new.held result }
{
    let made = new_service(alloc, options, keys);
    c_handles::open(alloc, handle, made)
}

fn next_path_in(
    alloc: Global,
    files: &Lent,
    connection: &Lent,
    found: &[Facts],
) -> Result<String, Failure>
    ensures { IsPathNext found.now (files_in files.now.loan.held) (connection_in connection.now.loan.held)
        (result_map_both string_bytes (λ failure. failure) result) }
{
    let Some(files) = files.files() else {
        return Err(Failure::Absent);
    };
    match connection.connection() {
        Some(held) => path_for(alloc, files, &held.connection, found),
        None => Err(Failure::Absent),
    }
}

/// The path that is to be opened next for the request that waits, after those where this was found. `Absent` if
/// nothing is left to open, or if a handle is closed; `Refused` if no request waits.
pub fn next_path(
    alloc: Global,
    files: &mut View,
    connection: &mut View,
    found: &[Facts],
) -> Result<String, Failure>
    ensures same_files { IsSame files.old files.new }
    ensures same_connection { IsSame connection.old connection.new }
    ensures path { IsPathNext found.now (files_in files.old.held) (connection_in connection.old.held)
        (result_map_both string_bytes (λ failure. failure) result) }
{
    let service = files.take();
    let held = connection.take();
    let path = next_path_in(alloc, &service, &held, found);
    files.put(service);
    connection.put(held);
    path
}

fn plan_in(
    alloc: Global,
    files: &mut Held,
    connection: &mut Held,
    found: &[Facts],
    now: u64,
    is_last: bool,
) -> Result<usize, Failure>
    ensures { Plans found.now now is_last (Some files.old) (Some files.new)
        (Some connection.old) (Some connection.new) result }
{
    match (files, connection) {
        (Held::Files(service), Held::Connection(held)) => {
            let plan = &mut held.plan;
            plan_response(alloc, service, &held.connection, plan, found, now, is_last)
        }
        _ => Err(Failure::Absent),
    }
}

/// Makes the plan of the response to the request that waits, as `plan_response` says. `Absent` if a handle is closed.
pub fn plan_files(
    alloc: Global,
    files: &mut Handle,
    connection: &mut Handle,
    found: &[Facts],
    now: u64,
    is_last: bool,
) -> Result<usize, Failure>
    ensures { Plans found.now now is_last files.old.held files.new.held connection.old.held connection.new.held result }
{
    let Some(mut service) = files.take(alloc) else {
        return Err(Failure::Absent);
    };
    let Some(mut held) = connection.take(alloc) else {
        files.put(service);
        return Err(Failure::Absent);
    };
    let answer = plan_in(alloc, &mut service, &mut held, found, now, is_last);
    files.put(service);
    connection.put(held);
    answer
}
