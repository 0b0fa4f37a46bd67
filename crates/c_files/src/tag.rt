//! Entity tags of files that the host opens.
ghost use Rattle.std.specs.Prelude.{◌≡◌, ◌++◌, IfOk, OnOk};
ghost use Rattle.std.specs.Int.{to_be_bytes, w64};
ghost use Rattle.http_header.specs.FieldValue.{plain_value};
ghost use Rattle.server_files.specs.Tags.{content_digest, strong_tag};
ghost use Rattle.c_files.specs.Tags.{is_unchanged, stamp_of, tag_of};

use crate::entry::Facts;
use crate::known::KnownFiles;
use bytes::Bytes;
use c_parts::HashKeys;
use headers::ETag;
use server_files::Kept;
use std::alloc::{AllocError, Global};

/// A file that changed fewer seconds ago may change again without another time.
pub(crate) fn is_unchanged(now: u64, facts: &Facts) -> bool
    ensures { result ≡ is_unchanged now facts.now }
{
    now.saturating_sub(facts.changed) > 2
}

fn push_number(bytes: &mut Vec<u8>, number: u64) -> Result<(), AllocError>
    ensures { OnOk result (bytes.new.items ≡ bytes.old.items ++ to_be_bytes w64 number) }
{
    bytes.extend_from_slice(&number.to_be_bytes())
}

// The keys, which file it is, its length, and when it last changed.
#[tactic(auto, unfolding(crate::specs::Tags::stamp_of))]
fn stamp_of(alloc: Global, keys: &HashKeys, facts: &Facts) -> Result<Vec<u8>, AllocError>
    ensures { IfOk result (λ bytes. bytes.items ≡ stamp_of keys.now facts.now) }
{
    let mut bytes = Vec::new(alloc);
    push_number(&mut bytes, keys.first)?;
    push_number(&mut bytes, keys.second)?;
    push_number(&mut bytes, facts.device)?;
    push_number(&mut bytes, facts.inode)?;
    push_number(&mut bytes, facts.length)?;
    push_number(&mut bytes, facts.changed)?;
    push_number(&mut bytes, facts.changed_nanosecond)?;
    Ok(bytes)
}

/// The strong tag that says the digest of that.
pub(crate) fn stamp_tag(alloc: Global, keys: &HashKeys, facts: &Facts) -> Result<ETag, AllocError>
    ensures { IfOk result (λ tag. tag ≡ plain_value (strong_tag (content_digest (stamp_of keys.now facts.now)))) }
{
    let stamp = stamp_of(alloc, keys, facts)?;
    let kept = Kept::new(alloc, Bytes::from_vec(stamp)?)?;
    kept.tag().clone(alloc)
}

/// The tag of a file. None if it changed of late.
pub(crate) fn tag_of(
    alloc: Global,
    known: &KnownFiles,
    keys: &HashKeys,
    now: u64,
    facts: &Facts,
) -> Result<Option<ETag>, AllocError>
    ensures { IfOk result (λ tag. tag ≡ tag_of keys.now now facts.now) }
{
    if is_unchanged(now, facts) {
        let tag = known.tag(alloc, keys, facts)?;
        Ok(Some(tag))
    } else {
        Ok(None)
    }
}
