//! The keys of a map's hashes.

use std::io;
use std::random::RandomSource;

/// Sixteen secret bytes, with which a map hashes if names collide.
#[repr(C)]
#[derive(Clone, Copy)]
pub struct HashKeys {
    pub first: u64,
    pub second: u64,
}

impl RandomSource for HashKeys {
    fn fill_bytes(&self, buf: &mut [u8]) -> io::Result<()> {
        let keys = self
            .first
            .to_le_bytes()
            .into_iter()
            .chain(self.second.to_le_bytes());
        for (place, key) in buf.iter_mut().zip(keys) {
            *place = key;
        }
        Ok(())
    }
}
