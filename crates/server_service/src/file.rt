//! What a store has at a path.
ghost use Rattle.std.specs.Prelude.{◌≡◌, IfOk};
ghost use Rattle.http_header.specs.FieldValue.{plain_value};
ghost use Rattle.server_service.specs.File.{media_type_at};

use crate::source::Source;
use headers::{HeaderValue, LastModified};
use server_files::{Coding, Listing, media_type_of};
use std::alloc::{AllocError, Global};
use std::path::Path;

/// The media type of the file at a path, by the extension of its name in any case.
pub fn media_type_at(alloc: Global, path: &str) -> Result<HeaderValue, AllocError>
    ensures { IfOk result (λ value. value ≡ plain_value (media_type_at path.now)) }
{
    let extension = Path::new(path).extension().unwrap_or("");
    let lower = extension.to_ascii_lowercase(alloc)?;
    Ok(media_type_of(lower.as_str()))
}

/// A file's current content.
#[derive(Debug, Drop)]
pub struct File {
    /// Its bytes.
    pub source: Source,
    /// Its media type, as the line of `Content-Type`.
    pub media_type: HeaderValue,
    /// When it was last modified, if that is known and before the year 10000.
    pub modified: Option<LastModified>,
    /// The coding of its bytes.
    pub coding: Coding,
}

/// What a store has at a path.
#[derive(Debug, Drop)]
pub enum Entry {
    /// Nothing: the answer is 404.
    Missing,
    /// What may not be read: the answer is 403.
    Forbidden,
    /// What can't be read now: the answer is 503.
    Unavailable,
    /// A folder: the answer is 301, to the path with a slash after it.
    Folder,
    /// A folder in which the index that the path names isn't there: the answer is the page that lists the
    /// folder, if the path of the request ends in a slash, and else 404.
    Listed(Listing),
    /// A file.
    Readable(File),
}
