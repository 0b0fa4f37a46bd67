//! Which file it is, and when it last changed.

use std::fs::Metadata;
use std::os::unix::fs::MetadataExt;
use std::time::{SystemTime, UNIX_EPOCH};

/// A file that changed fewer seconds ago may change again without another time.
const SETTLED: u64 = 2;

/// Which file of the system it is, its length, and when its content, its name or its times last changed.
#[derive(Clone, Copy, Debug, PartialEq, Eq)]
pub struct Stamp {
    /// The device that it is on.
    pub device: u64,
    /// Its number on that device.
    pub inode: u64,
    /// Its length in bytes.
    pub len: u64,
    /// The second of its last change (`ctime`), which no program sets.
    pub second: i64,
    /// The nanosecond of that second.
    pub nanosecond: i64,
}

impl Stamp {
    /// The stamp that the system's data of a file say.
    pub fn of(metadata: &Metadata) -> Stamp {
        Stamp {
            device: metadata.dev(),
            inode: metadata.ino(),
            len: metadata.len(),
            second: metadata.ctime(),
            nanosecond: metadata.ctime_nsec(),
        }
    }

    /// Returns whether the last change is so long ago that the next one has another time.
    pub fn is_settled(&self, now: SystemTime) -> bool {
        let Ok(changed) = u64::try_from(self.second) else {
            return false;
        };
        match now.duration_since(UNIX_EPOCH) {
            Ok(age) => age.as_secs().saturating_sub(changed) > SETTLED,
            Err(_) => false,
        }
    }
}
