//! Which path is to be opened next.
ghost use Rattle.std.{specs.Prelude.{◌≡◌, true, IfOk, IfSome, option_map, string_bytes}, specs.Result.result_map_both};
ghost use Rattle.server_files.specs.Path.{is_plain};
ghost use Rattle.c_files.specs.Paths.{IsPathFor, is_wanted, next_path, plain_path, suffix_at};

use crate::entry::Facts;
use crate::held::HeldFiles;
use c_parts::Failure;
use server_connection::ServerConnection;
use server_files::{is_plain, store_path};
use std::alloc::{AllocError, Global};

/// What the path at a place has appended.
pub(crate) fn suffix_at(place: usize) -> Option<&'static str>
    ensures { option_map (λ suffix. suffix.now) result ≡ suffix_at place }
{
    match place {
        0 => Some(""),
        1 => Some(".br"),
        2 => Some(".gz"),
        _ => None,
    }
}

// Whether another path is wanted, after those where this was found.
fn is_wanted(negotiates: bool, found: &[Facts]) -> bool
    ensures { result ≡ is_wanted negotiates found.now }
{
    match found.get(0) {
        Some(first) => negotiates && first.is_file(),
        None => true,
    }
}

// A path with this appended, if it is plain.
fn plain_path(alloc: Global, named: &str, suffix: &str) -> Result<Option<String>, AllocError>
    ensures path { IfOk result (λ path. option_map string_bytes path ≡ plain_path named.now suffix.now) }
    ensures plain { IfOk result (λ path. IfSome path (λ text. is_plain (string_bytes text) ≡ true)) }
{
    let mut path = String::from_str(alloc, named)?;
    path.push_str(suffix)?;
    if is_plain(path.as_str()) {
        Ok(Some(path))
    } else {
        Ok(None)
    }
}

/// The path that is to be opened after those where this was found, if the target names this one.
pub(crate) fn next_path(
    alloc: Global,
    negotiates: bool,
    named: &Option<String>,
    found: &[Facts],
) -> Result<Option<String>, AllocError>
    ensures path { IfOk result (λ path. option_map string_bytes path
        ≡ next_path negotiates (option_map string_bytes named.now) found.now) }
    ensures plain { IfOk result (λ path. IfSome path (λ text. is_plain (string_bytes text) ≡ true)) }
{
    let Some(named) = named else {
        return Ok(None);
    };
    if !is_wanted(negotiates, found) {
        return Ok(None);
    }
    match suffix_at(found.len()) {
        Some(suffix) => plain_path(alloc, named.as_str(), suffix),
        None => Ok(None),
    }
}

/// The path that is to be opened next for the request that waits, after those where this was found. `Absent` if nothing
/// is left to open; `Refused` if no request waits.
pub fn path_for(
    alloc: Global,
    files: &HeldFiles,
    connection: &ServerConnection,
    found: &[Facts],
) -> Result<String, Failure>
    ensures { IsPathFor found.now files.now connection.now (result_map_both string_bytes (λ failure. failure) result) }
{
    if !connection.is_asking() {
        return Err(Failure::Refused);
    }
    let negotiates = files.service.site.resource.negotiation.coding;
    let named = store_path(alloc, connection.request().uri().path())?;
    match next_path(alloc, negotiates, &named, found)? {
        Some(path) => Ok(path),
        None => Err(Failure::Absent),
    }
}
