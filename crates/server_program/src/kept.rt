//! Files that were read before.

use crate::stamp::Stamp;
use lru::LruCache;
use server_service::Kept;
use std::alloc::{AllocError, Global};
use std::cell::RefCell;
use std::num::NonZeroUsize;

/// The greatest number of files in memory.
const MAX_FILES: usize = 256;

// The bytes of a file, and its stamp when they were read.
#[derive(Drop)]
struct KeptFile {
    kept: Kept,
    stamp: Stamp,
}

/// Files that were read before, with their digests, by their paths.
#[derive(Drop)]
pub struct KeptFiles {
    files: RefCell<LruCache<String, KeptFile>>,
}

impl KeptFiles {
    /// Makes a store without files. Fails only if an allocation fails.
    pub fn new(alloc: Global) -> Result<KeptFiles, AllocError> {
        let most = NonZeroUsize::new(MAX_FILES).unwrap_or(NonZeroUsize::MIN);
        let files = LruCache::sparse(alloc, most)?;
        Ok(KeptFiles {
            files: RefCell::new(files),
        })
    }

    /// Returns the bytes of the file at a path, if they are stored and it is the same file, unchanged.
    pub fn get(&self, alloc: Global, path: &str, stamp: Stamp) -> Result<Option<Kept>, AllocError> {
        let Ok(mut files) = self.files.try_borrow_mut() else {
            return Ok(None);
        };
        match files.get(path) {
            Some(file) if file.stamp == stamp => {
                let kept = file.kept.clone(alloc)?;
                Ok(Some(kept))
            }
            _ => Ok(None),
        }
    }

    /// Stores the bytes of the file at a path, which has this stamp.
    pub fn put(
        &self,
        alloc: Global,
        path: &str,
        kept: &Kept,
        stamp: Stamp,
    ) -> Result<(), AllocError> {
        let Ok(mut files) = self.files.try_borrow_mut() else {
            return Ok(());
        };
        let path = String::from_str(alloc, path)?;
        let kept = kept.clone(alloc)?;
        files.put(path, KeptFile { kept, stamp })?;
        Ok(())
    }
}
