//! The files of a folder.
ghost use Rattle.std.{specs.Prelude.{◌≡◌, ◌&&◌, ℕ, false, List, IfOk}, specs.IoError.error_kind};
ghost use Rattle.server_service.specs.Stores.{ListsOwn};
ghost use Rattle.server_program.specs.Entries.{entry_for, is_missing};

use crate::kept::KeptFiles;
use crate::log::{log_line, rejection_line};
use crate::names::names_in;
use crate::place::InnerPath;
use crate::stamp::Stamp;
use bytes::Bytes;
use headers::{Date, ETag, HeaderValue, LastModified, Refused};
use http::{Request, StatusCode};
use server_connection::ResponsePlan as Response;
use server_service::{
    Coding, Entry, File, FileStore, Kept, Listing, Opened, Reader, Source, folder_of, media_type_at,
};
use std::alloc::{AllocError, Global};
use std::io::{ErrorKind, Read, Write};
use std::time::{SystemTime, UNIX_EPOCH};
use std::{fs, io};

/// A file of at most so many bytes is read whole, and its tag is their digest. A longer one is read while
/// it is sent.
const MAX_KEPT: u64 = 64 * 1024;

/// A folder of the system. A link that leads out of it is treated as missing.
#[derive(Drop)]
pub struct Folder<'a> {
    /// The runtime, which reads files and the clock.
    pub rt: &'a HostRuntime,
    /// The path of the folder, with every link resolved.
    pub root: &'a str,
    /// The greatest length of a file that may be read, in bytes.
    pub max_file: u64,
    /// Whether responses have dates: of the clock, and of the files.
    pub has_dates: bool,
    /// Whether a folder without an index is listed.
    pub lists: bool,
    /// The client's name in the log, if there is a log.
    pub logged: Option<String>,
    /// The files that were read before.
    pub kept: KeptFiles,
}

fn seconds_of(time: SystemTime) -> Option<u64> {
    Some(time.duration_since(UNIX_EPOCH).ok()?.as_secs())
}

// The entry of a path for which the system gives this error, or the error of memory.
fn entry_of(error: &io::Error) -> Result<Entry, AllocError>
    ensures entry { result ≡ entry_for (error_kind error.now) }
    ensures listed { (p : List ℕ) → IfOk result (ListsOwn p) }
{
    match error.kind() {
        ErrorKind::NotFound | ErrorKind::NotADirectory | ErrorKind::InvalidFilename => {
            Ok(Entry::Missing)
        }
        ErrorKind::PermissionDenied | ErrorKind::FilesystemLoop => Ok(Entry::Forbidden),
        ErrorKind::OutOfMemory => Err(AllocError),
        _ => Ok(Entry::Unavailable),
    }
}

// The tag of a file that isn't read whole: its stamp.
fn tag_of(alloc: Global, stamp: Stamp) -> io::Result<Option<ETag>> {
    let text = format!(in alloc;
        "\"{:x}-{:x}-{:x}-{:x}.{:x}\"",
        stamp.device, stamp.inode, stamp.len, stamp.second, stamp.nanosecond
    )?;
    match ETag::from_str(alloc, text.as_str()) {
        Ok(tag) => Ok(Some(tag)),
        Err(Refused::Invalid(_)) => Ok(None),
        Err(Refused::Memory(error)) => Err(error.into()),
    }
}

impl Folder<'_> {
    // The date of a file that was last modified then.
    fn date(&self, modified: Option<SystemTime>) -> Option<LastModified>
        ensures { self.now.has_dates ≡ false → result ≡ None }
    {
        if !self.has_dates {
            return None;
        }
        let seconds = seconds_of(modified?)?;
        if seconds < 253_402_300_800 {
            Some(LastModified::from_unix_secs(seconds))
        } else {
            None
        }
    }

    // The bytes of a short file as they stand now. They are kept, unless it changed of late.
    fn keep(
        &self,
        place: &InnerPath<'_>,
        file: fs::File,
        stamp: Stamp,
        now: SystemTime,
    ) -> io::Result<Kept> {
        let alloc = self.rt.alloc();
        let mut bytes = Vec::with_capacity(alloc, (stamp.len as usize).saturating_add(1))?;
        file.take(MAX_KEPT).read_to_end(&mut bytes)?;
        let kept = Kept::new(alloc, Bytes::from_vec(bytes)?)?;
        if stamp.is_settled(now) {
            self.kept.put(alloc, place.as_str(), &kept, stamp)?;
        }
        Ok(kept)
    }

    // A longer file, to be read while it is sent. It has a tag, unless it changed of late.
    fn leave_open(&self, file: fs::File, stamp: Stamp, now: SystemTime) -> io::Result<Opened> {
        let tag = if stamp.is_settled(now) {
            tag_of(self.rt.alloc(), stamp)?
        } else {
            None
        };
        Ok(Opened {
            reader: Reader::System(file),
            len: stamp.len,
            tag,
        })
    }

    // Opens a file. The system says of it what it is now.
    fn open(&self, place: &InnerPath<'_>, media_type: HeaderValue) -> io::Result<Entry>
        ensures { (p : List ℕ) → IfOk result (ListsOwn p) }
    {
        let now = SystemTime::now(self.rt)?;
        let Some(file) = place.open(self.rt)? else {
            return Ok(Entry::Missing);
        };
        let metadata = file.metadata()?;
        if !metadata.is_file() || metadata.len() > self.max_file {
            return Ok(Entry::Forbidden);
        }
        let stamp = Stamp::of(&metadata);
        let source = if stamp.len > MAX_KEPT {
            Source::Opened(self.leave_open(file, stamp, now)?)
        } else {
            Source::Kept(self.keep(place, file, stamp, now)?)
        };
        Ok(Entry::Readable(File {
            source,
            media_type,
            modified: self.date(metadata.modified().ok()),
            coding: Coding::Identity,
        }))
    }

    // The entry at a path below the root. It is no listing.
    fn entry_at(&self, alloc: Global, path: &str) -> Result<Entry, AllocError>
        ensures { (p : List ℕ) → IfOk result (ListsOwn p) }
    {
        let full = format!(in alloc; "{}/{path}", self.root)?;
        match self.entry(full.as_str(), path) {
            Ok(entry) => Ok(entry),
            Err(error) => entry_of(&error),
        }
    }

    // The listing of the folder whose index a path names.
    fn listing(&self, alloc: Global, path: &str) -> Result<Entry, AllocError>
        ensures { IfOk result (ListsOwn path.now) }
    {
        let Some(folder) = folder_of(path) else {
            return Ok(Entry::Missing);
        };
        let full = format!(in alloc; "{}/{folder}", self.root)?;
        match names_in(self.rt, self.root, full.as_str()) {
            Ok(Some(names)) => {
                let folder = String::from_str(alloc, folder)?;
                Ok(Entry::Listed(Listing::new(alloc, folder, names)?))
            }
            Ok(None) => Ok(Entry::Missing),
            Err(error) => entry_of(&error),
        }
    }

    // The entry at a path, or the listing in place of an index that isn't there.
    fn or_listing(&self, alloc: Global, path: &str, entry: Entry) -> Result<Entry, AllocError>
        requires { ListsOwn path.now entry }
        ensures listed { IfOk result (ListsOwn path.now) }
        ensures kept { (self.now.lists && is_missing entry) ≡ false → result ≡ Ok entry }
    {
        if self.lists && matches!(entry, Entry::Missing) {
            return self.listing(alloc, path);
        }
        Ok(entry)
    }

    // The entry at a path of the system, which has this name below the root.
    fn entry(&self, path: &str, name: &str) -> io::Result<Entry>
        ensures { (p : List ℕ) → IfOk result (ListsOwn p) }
    {
        let Some(place) = InnerPath::resolve(self.rt, self.root, path)? else {
            return Ok(Entry::Missing);
        };
        let metadata = place.metadata(self.rt)?;
        if metadata.is_dir() {
            return Ok(Entry::Folder);
        }
        // What is no file isn't opened: a pipe would wait for its other end.
        if !metadata.is_file() {
            return Ok(Entry::Forbidden);
        }
        let modified = metadata.modified().ok();
        let media_type = media_type_at(self.rt.alloc(), name)?;
        let alloc = self.rt.alloc();
        match self.kept.get(alloc, place.as_str(), Stamp::of(&metadata))? {
            Some(kept) => Ok(Entry::Readable(File {
                source: Source::Kept(kept),
                media_type,
                modified: self.date(modified),
                coding: Coding::Identity,
            })),
            None => self.open(&place, media_type),
        }
    }
}

impl FileStore for Folder<'_> {
    ghost use Rattle.std.specs.Prelude.{◌≡◌, false, None, ⊤};

    ghost has = { λ _ _ _. ⊤ };

    ghost tells = { λ folder now. folder.has_dates ≡ false → now ≡ None };

    fn find(&self, alloc: Global, path: &str) -> Result<Entry, AllocError> {
        let entry = self.entry_at(alloc, path)?;
        self.or_listing(alloc, path, entry)
    }

    fn now(&self) -> Option<u64> {
        if self.has_dates {
            seconds_of(SystemTime::now(self.rt).ok()?)
        } else {
            None
        }
    }

    // A log that can't be written stops nothing.
    fn note(&self, request: &Request<Bytes>, response: &Response) {
        if let Some(client) = &self.logged {
            let _ = log(self.rt, client.as_str(), request, response);
        }
    }

    fn note_rejection(&self, status: StatusCode) {
        if let Some(client) = &self.logged {
            let _ = log_rejection(self.rt, client.as_str(), status);
        }
    }
}

// The time of a line of the log, if its year has four digits.
fn log_time(rt: &HostRuntime) -> io::Result<Option<Date>> {
    match seconds_of(SystemTime::now(rt)?) {
        Some(seconds) if seconds < 253_402_300_800 => Ok(Some(Date::from_unix_secs(seconds))),
        _ => Ok(None),
    }
}

// Writes the line of a request to standard error.
fn log(
    rt: &HostRuntime,
    client: &str,
    request: &Request<Bytes>,
    response: &Response,
) -> io::Result<()> {
    let line = log_line(rt.alloc(), client, log_time(rt)?, request, response)?;
    rt.stderr().write_all(line.as_slice())
}

// Writes the line of what was rejected to standard error.
fn log_rejection(rt: &HostRuntime, client: &str, status: StatusCode) -> io::Result<()> {
    let line = rejection_line(rt.alloc(), client, log_time(rt)?, status)?;
    rt.stderr().write_all(line.as_slice())
}
