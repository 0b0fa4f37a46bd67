//! Bytes in memory.
ghost use Rattle.std.specs.Prelude.{◌≡◌, ◌-◌, ◌++◌, IfOk, drop, length, min, take};
ghost use Rattle.http_header.specs.FieldValue.{plain_value};
ghost use Rattle.server_files.specs.Tags.{content_digest, strong_tag};

use crate::tag::content_tag;
use bytes::Bytes;
use headers::ETag;
use std::alloc::{AllocError, Global};

/// Bytes in memory, with their entity tag, which says their SHA-256.
#[derive(Debug, Drop)]
pub struct Kept {
    content: Bytes,
    tag: ETag,
    ghost is_tag: { tag ≡ plain_value (strong_tag (content_digest content)) },
}

impl Kept {
    /// Keeps these bytes, and makes their tag. Fails only if an allocation fails.
    pub fn new(alloc: Global, content: Bytes) -> Result<Kept, AllocError>
        ensures { IfOk result (λ kept. kept.content ≡ content) }
    {
        let tag = content_tag(alloc, content.as_slice())?;
        Ok(Kept { content, tag })
    }

    /// The bytes.
    pub fn content(&self) -> &Bytes
        ensures { result.now ≡ self.now.content }
    {
        &self.content
    }

    /// Their tag.
    pub fn tag(&self) -> &ETag
        ensures { result.now ≡ plain_value (strong_tag (content_digest self.now.content)) }
    {
        &self.tag
    }

    /// A copy, which shares the bytes. Fails only if an allocation fails.
    pub fn clone(&self, alloc: Global) -> Result<Kept, AllocError>
        ensures { IfOk result (λ copy. copy.content ≡ self.now.content) }
    {
        let content = self.content.clone()?;
        let tag = self.tag.clone(alloc)?;
        Ok(Kept { content, tag })
    }

    /// Copies bytes from a place on, as many as there are and the buffer has room for. The rest of the
    /// buffer stays as it is.
    pub fn read(&self, start: u64, buffer: &mut [u8]) -> usize
        ensures count { result ≡ min (length self.now.content - start) (length buffer.old) }
        ensures copied { buffer.new ≡ take result (drop start self.now.content) ++ drop result buffer.old }
    {
        let content = self.content.as_slice();
        if start >= content.len() as u64 {
            return 0;
        }
        let rest = &content[start as usize..];
        let count = rest.len().min(buffer.len());
        buffer[..count].copy_from_slice(&rest[..count]);
        count
    }
}
