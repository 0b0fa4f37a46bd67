//! What the host found at a path.
ghost use Rattle.std.specs.Prelude.{◌≡◌};
ghost use Rattle.c_files.specs.Entries.{entry_by, is_file, modified_of};

use headers::LastModified;
use server_service::{Entry, File};

/// What the host found at a path. The numbers count for a file alone.
#[repr(C)]
#[derive(Clone, Copy)]
pub struct Facts {
    /// How many bytes it has.
    pub length: u64,
    /// When it was last modified, in seconds since the start of 1970.
    pub modified: u64,
    /// The device that it is on.
    pub device: u64,
    /// Its number on that device.
    pub inode: u64,
    /// The second of its last change, which no program sets.
    pub changed: u64,
    /// The nanosecond of that second.
    pub changed_nanosecond: u64,
    /// 0 if there is nothing, 1 for a file, 2 for a folder, 3 for what may not be read. Any other: it can't be read
    /// now.
    pub kind: u8,
}

impl Facts {
    /// Whether it is a file.
    pub(crate) fn is_file(&self) -> bool
        ensures { result ≡ is_file self.now }
    {
        self.kind == 1
    }

    /// When it was last modified, if that is before the year 10000.
    pub(crate) fn modified(&self) -> Option<LastModified>
        ensures { result ≡ modified_of self.now }
    {
        if self.modified < 253_402_300_800 {
            Some(LastModified::from_unix_secs(self.modified))
        } else {
            None
        }
    }

    /// The entry, if this is what a file is.
    pub(crate) fn entry(&self, file: File) -> Entry
        ensures { result ≡ entry_by self.now.kind file }
    {
        match self.kind {
            0 => Entry::Missing,
            1 => Entry::Readable(file),
            2 => Entry::Folder,
            3 => Entry::Forbidden,
            _ => Entry::Unavailable,
        }
    }
}
