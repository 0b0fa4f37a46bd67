//! What the host found, as a store.
ghost use Rattle.std.specs.Prelude.{◌≡◌, IfOk, option_map, string_bytes};
ghost use Rattle.c_files.specs.Entries.{entry_from, file_of, place_at, place_of, suffix_of};

use crate::entry::Facts;
use crate::known::KnownFiles;
use crate::tag::tag_of;
use bytes::Bytes;
use c_parts::HashKeys;
use http::Request;
use server_connection::ResponsePlan as Response;
use server_service::{Coding, Entry, File, FileStore, Opened, Reader, Source};
use std::alloc::{AllocError, Global};

/// What the host found at the paths of one request, and when.
#[derive(Drop)]
pub struct Found {
    /// What tags are hashed with.
    pub keys: HashKeys,
    /// The time, in seconds since the start of 1970.
    pub time: u64,
    /// The path that the target names, if it names one.
    pub named: Option<String>,
    /// What is there, and at its precompressed copies, in this order: `.br`, `.gz`.
    pub entries: Vec<Facts>,
    /// What was made of files before.
    pub known: KnownFiles,
}

// What follows a path in another one that begins with it.
fn suffix_of<'a>(named: &[u8], path: &'a [u8]) -> Option<&'a [u8]>
    ensures { option_map (λ suffix. suffix.now) result ≡ suffix_of named.now path.now }
{
    path.strip_prefix(named)
}

// The place of the path with this suffix among those that are opened.
fn place_of(suffix: &[u8]) -> Option<usize>
    ensures { result ≡ place_of suffix.now }
{
    if suffix.is_empty() {
        Some(0)
    } else if suffix == b".br".as_slice() {
        Some(1)
    } else if suffix == b".gz".as_slice() {
        Some(2)
    } else {
        None
    }
}

impl Found {
    // The file that the host has open under this number.
    fn file(
        &self,
        alloc: Global,
        path: &str,
        place: usize,
        facts: &Facts,
    ) -> Result<File, AllocError>
        ensures { IfOk result (λ file. file ≡ file_of self.now.keys self.now.time path.now place facts.now) }
    {
        let tag = tag_of(alloc, &self.known, &self.keys, self.time, facts)?;
        Ok(File {
            source: Source::Opened(Opened {
                reader: Reader::Caller(place),
                len: facts.length,
                tag,
            }),
            media_type: self.known.media_type(alloc, path, facts)?,
            modified: facts.modified(),
            coding: Coding::Identity,
        })
    }

    // What is at a place.
    fn entry(&self, alloc: Global, path: &str, place: usize) -> Result<Entry, AllocError>
        ensures { IfOk result (λ entry. entry
            ≡ entry_from self.now.keys self.now.time self.now.entries.items path.now place) }
    {
        match self.entries.get(place) {
            Some(facts) => {
                let file = self.file(alloc, path, place, facts)?;
                Ok(facts.entry(file))
            }
            None => Ok(Entry::Missing),
        }
    }

    // The place of a path.
    fn place(&self, path: &str) -> Option<usize>
        ensures { result ≡ place_at (option_map string_bytes self.now.named) path.now }
    {
        let named = self.named.as_ref()?;
        let suffix = suffix_of(named.as_bytes(), path.as_bytes())?;
        place_of(suffix)
    }
}

impl FileStore for Found {
    ghost use Rattle.std.specs.Prelude.{◌≡◌, Some};
    ghost use Rattle.c_files.specs.Entries.{entry_in};

    ghost has = { λ found path entry. entry ≡ entry_in found path };

    ghost tells = { λ found now. now ≡ Some found.time };

    fn find(&self, alloc: Global, path: &str) -> Result<Entry, AllocError> {
        match self.place(path) {
            Some(place) => self.entry(alloc, path, place),
            None => Ok(Entry::Missing),
        }
    }

    fn now(&self) -> Option<u64> {
        Some(self.time)
    }

    fn note(&self, _: &Request<Bytes>, _: &Response) {}
}
