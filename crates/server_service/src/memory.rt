//! One file in memory.

use crate::file::{Entry, File};
use crate::source::Source;
use crate::store::FileStore;
use bytes::Bytes;
use headers::{HeaderValue, LastModified};
use http::Request;
use server_connection::ResponsePlan as Response;
use server_files::{Coding, Kept};
use std::alloc::{AllocError, Global};

/// A store of one file, without a clock.
#[derive(Debug, Drop)]
pub struct Memory {
    /// Where it is found.
    pub path: String,
    /// Its bytes.
    pub content: Kept,
    /// Its media type, as the line of `Content-Type`.
    pub media_type: HeaderValue,
    /// When it was last modified, if that is known and before the year 10000.
    pub modified: Option<LastModified>,
}

impl FileStore for Memory {
    ghost use Rattle.std.specs.Prelude.{◌≡◌, None};
    ghost use Rattle.server_service.specs.Memory.{HasOne};

    ghost has = { HasOne };

    ghost tells = { λ _ now. now ≡ None };

    fn find(&self, alloc: Global, path: &str) -> Result<Entry, AllocError> {
        if path != self.path.as_str() {
            return Ok(Entry::Missing);
        }
        let kept = self.content.clone(alloc)?;
        let media_type = self.media_type.clone()?;
        Ok(Entry::Readable(File {
            source: Source::Kept(kept),
            media_type,
            modified: self.modified,
            coding: Coding::Identity,
        }))
    }

    fn now(&self) -> Option<u64> {
        None
    }

    fn note(&self, _: &Request<Bytes>, _: &Response) {}
}
