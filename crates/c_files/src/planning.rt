//! The plan of a response.
ghost use Rattle.std.specs.Prelude.{◌≡◌};
ghost use Rattle.http.specs.Request.{head_of};
ghost use Rattle.http_uri.specs.Uri.{uri_path};
ghost use Rattle.c_files.specs.Plans.{IsReadyFor, PlansFor, number_of};

use crate::entry::Facts;
use crate::held::HeldFiles;
use crate::known::KnownFiles;
use crate::paths::{next_path, suffix_at};
use crate::tag::is_unchanged;
use c_parts::{Failure, HashKeys};
use server_connection::{Handler, ResponsePlan, ServerConnection};
use server_files::store_path;
use server_service::{Reader, Source};
use std::alloc::Global;

// The number of the open file that a response is about, or how many entries there are.
fn number_of(source: &Option<Source>, count: usize) -> usize
    ensures { result ≡ number_of source.now count }
{
    match source {
        Some(Source::Opened(opened)) => match opened.reader {
            Reader::Caller(place) => place,
            Reader::System(_) => count,
        },
        Some(Source::Kept(_)) | None => count,
    }
}

fn path_of(connection: &ServerConnection) -> &str
    ensures { result.now ≡ uri_path (head_of connection.now.machine.request).uri }
{
    connection.request().uri().path()
}

// Makes what the plan asks for of the files at the path that the target names, if it names one.
fn learn_files(
    alloc: Global,
    known: &mut KnownFiles,
    keys: &HashKeys,
    named: &Option<String>,
    found: &[Facts],
    now: u64,
) {
    let Some(named) = named else {
        return;
    };
    for (place, facts) in found.iter().enumerate() {
        let Some(suffix) = suffix_at(place) else {
            return;
        };
        if facts.is_file() && is_unchanged(now, facts) {
            known.learn(alloc, keys, facts, named.as_str(), suffix);
        }
    }
}

// Tells the service what was found. `REFUSED` if a path is left to open.
fn tell(
    alloc: Global,
    files: &mut HeldFiles,
    path: &str,
    found: &[Facts],
    now: u64,
    is_last: bool,
) -> Result<(), Failure>
    ensures { IsReadyFor path.now found.now now is_last files.old files.new result }
{
    let negotiates = files.service.site.resource.negotiation.coding;
    let named = store_path(alloc, path)?;
    if next_path(alloc, negotiates, &named, found)?.is_some() {
        return Err(Failure::Refused);
    }
    files.service.store.entries = Vec::from_slice(alloc, found)?;
    let store = &mut files.service.store;
    learn_files(alloc, &mut store.known, &store.keys, &named, found, now);
    files.service.store.named = named;
    files.service.store.time = now;
    files.service.left = if is_last { 1 } else { 2 };
    Ok(())
}

/// Makes the plan of the response to the request that waits, by what was found at the paths that were to be opened, and
/// by the time. Returns the place of the file that it is about, or how many entries there are. `Refused` if no request
/// waits or a path is left to open.
pub fn plan_response(
    alloc: Global,
    files: &mut HeldFiles,
    connection: &ServerConnection,
    plan: &mut ResponsePlan,
    found: &[Facts],
    now: u64,
    is_last: bool,
) -> Result<usize, Failure>
    ensures { PlansFor found.now now is_last connection.now files.old files.new plan.old plan.new result }
{
    if !connection.is_asking() {
        return Err(Failure::Refused);
    }
    tell(alloc, files, path_of(connection), found, now, is_last)?;
    plan.clear();
    files.service.plan(connection.request(), plan)?;
    Ok(number_of(&files.service.source, found.len()))
}
