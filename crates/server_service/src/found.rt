//! What the path of a request leads to.
ghost use Rattle.std.specs.Prelude.{◌≡◌, IfOk, option_copied};
ghost use Rattle.http.specs.Request.{head_of};
ghost use Rattle.http_uri.specs.Uri.{uri_path, uri_query};
ghost use Rattle.server_service.specs.Found.{FindsEntry, FindsFolder, FindsListing, IsAbsent, IsEmpty, LeadsTo};
ghost use Rattle.server_service.{specs.Found.{listed_file, unnamed}, specs.Stores.ListsOwn};

use crate::file::{Entry, File};
use crate::representation::contents_of;
use crate::source::Source;
use crate::store::FileStore;
use bytes::Bytes;
use decide_resource::{Redirect, State};
use headers::HeaderValue;
use http::{Request, StatusCode};
use server_files::{Coding, Listing, ends_in_slash, index_location, store_path};
use std::alloc::{AllocError, Global};

/// What the path of a request leads to.
#[derive(Drop)]
pub(crate) struct Found {
    /// The state of the resource.
    pub(crate) state: State,
    /// What a read is answered by if there is nothing to send.
    pub(crate) status: StatusCode,
    /// Its contents. The client gets one of them.
    pub(crate) files: Vec<File>,
}

fn absent(alloc: Global, status: StatusCode) -> Found
    ensures { IsAbsent status result }
{
    Found {
        state: State::Absent,
        status,
        files: Vec::new(alloc),
    }
}

fn state_unnamed(path: &str) -> State
    ensures { result ≡ unnamed path.now }
{
    if path == "*" {
        State::Server
    } else {
        State::Absent
    }
}

// What a path is that names nothing of the store.
fn unnamed(alloc: Global, path: &str) -> Found
    ensures { IsEmpty (unnamed path.now) 404 result }
{
    Found {
        state: state_unnamed(path),
        status: StatusCode::NOT_FOUND,
        files: Vec::new(alloc),
    }
}

// A folder moved to its path with a slash, unless it is there.
fn folder_at(alloc: Global, path: &str, query: Option<&str>) -> Result<Found, AllocError>
    ensures { IfOk result (FindsFolder path.now (option_copied query.entry)) }
{
    match index_location(alloc, path, query)? {
        Some(value) => Ok(Found {
            state: State::Moved(Redirect::MovedPermanently, value),
            status: StatusCode::NOT_FOUND,
            files: Vec::new(alloc),
        }),
        None => Ok(absent(alloc, StatusCode::NOT_FOUND)),
    }
}

fn listed_file(listing: Listing) -> File
    ensures { result ≡ listed_file listing }
{
    File {
        source: Source::Kept(listing.into_page()),
        media_type: HeaderValue::from_static("text/html; charset=utf-8"),
        modified: None,
        coding: Coding::Identity,
    }
}

// A folder that is listed, if the path ends in a slash.
fn listed_at(alloc: Global, path: &str, listing: Listing) -> Result<Found, AllocError>
    ensures { IfOk result (FindsListing path.now listing) }
{
    if !ends_in_slash(path.as_bytes()) {
        return Ok(absent(alloc, StatusCode::NOT_FOUND));
    }
    let files = vec![in alloc; listed_file(listing)]?;
    Ok(Found {
        state: State::Current,
        status: StatusCode::NOT_FOUND,
        files,
    })
}

fn path_of(request: &Request<Bytes>) -> &str
    ensures { result.now ≡ uri_path (head_of request.now).uri }
{
    request.uri().path()
}

fn query_of(request: &Request<Bytes>) -> Option<&str>
    ensures { option_copied result ≡ uri_query (head_of request.now).uri }
{
    request.uri().query()
}

// What an entry at a path of the store is to a request.
fn found_by<S: FileStore>(
    alloc: Global,
    store: &S,
    negotiates: bool,
    request: &Request<Bytes>,
    named: &str,
    entry: Entry,
) -> Result<Found, AllocError>
    requires { ListsOwn named.now entry }
    ensures { IfOk result (FindsEntry negotiates (S.has store.now) (head_of request.now).uri named.now entry) }
{
    match entry {
        Entry::Missing => Ok(absent(alloc, StatusCode::NOT_FOUND)),
        Entry::Forbidden => Ok(absent(alloc, StatusCode::FORBIDDEN)),
        Entry::Unavailable => Ok(absent(alloc, StatusCode::SERVICE_UNAVAILABLE)),
        Entry::Folder => folder_at(alloc, path_of(request), query_of(request)),
        Entry::Listed(listing) => listed_at(alloc, path_of(request), listing),
        Entry::Readable(file) => {
            let files = contents_of(alloc, store, negotiates, named, file)?;
            Ok(Found {
                state: State::Current,
                status: StatusCode::NOT_FOUND,
                files,
            })
        }
    }
}

/// What the path of a request leads to.
pub(crate) fn look_up<S: FileStore>(
    alloc: Global,
    store: &S,
    negotiates: bool,
    request: &Request<Bytes>,
) -> Result<Found, AllocError>
    ensures { IfOk result (LeadsTo negotiates (S.has store.now) (head_of request.now).uri) }
{
    match store_path(alloc, path_of(request))? {
        Some(named) => {
            let path = named.as_str();
            let entry = store.find(alloc, path)?;
            found_by(alloc, store, negotiates, request, path, entry)
        }
        None => Ok(unnamed(alloc, path_of(request))),
    }
}
