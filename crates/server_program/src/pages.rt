//! The site's own pages, from the files of a folder.

use bytes::Bytes;
use http::StatusCode;
use server_service::Page;
use std::io::{ErrorKind, Read};
use std::{fs, io};

/// The statuses of responses that carry a page: those about no representation.
const EXPLAINED: [StatusCode; 9] = [
    StatusCode::MOVED_PERMANENTLY,
    StatusCode::BAD_REQUEST,
    StatusCode::FORBIDDEN,
    StatusCode::NOT_FOUND,
    StatusCode::METHOD_NOT_ALLOWED,
    StatusCode::EXPECTATION_FAILED,
    StatusCode::MISDIRECTED_REQUEST,
    StatusCode::NOT_IMPLEMENTED,
    StatusCode::SERVICE_UNAVAILABLE,
];

// What isn't a file isn't opened: a pipe would wait for its other end.
fn content_at(rt: &HostRuntime, path: &str) -> io::Result<Bytes> {
    if !fs::metadata(rt, path)?.is_file() {
        return Err(ErrorKind::InvalidInput.into());
    }
    let mut content = Vec::new(rt.alloc());
    fs::File::open(rt, path)?.read_to_end(&mut content)?;
    Ok(Bytes::from_vec(content)?)
}

// The page of a status, if its file is there.
fn page_in(rt: &HostRuntime, folder: &str, status: StatusCode) -> io::Result<Option<Page>> {
    let path = format!(in rt.alloc(); "{folder}/{}.html", status.as_u16())?;
    match content_at(rt, path.as_str()) {
        Ok(content) => Ok(Some(Page { status, content })),
        Err(error) if error.kind() == ErrorKind::NotFound => Ok(None),
        Err(error) => Err(error),
    }
}

/// Reads the pages of a folder: that of a status is the file `STATUS.html`, if it is there. Fails if the
/// folder isn't there, or if one of the files can't be read.
pub fn pages_in(rt: &HostRuntime, folder: &str) -> io::Result<Vec<Page>> {
    if !fs::metadata(rt, folder)?.is_dir() {
        return Err(ErrorKind::NotADirectory.into());
    }
    let mut pages = Vec::new(rt.alloc());
    for status in EXPLAINED {
        if let Some(page) = page_in(rt, folder, status)? {
            pages.push(page)?;
        }
    }
    Ok(pages)
}
