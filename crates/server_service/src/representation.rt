//! The contents of a file, and the representations that they are.
ghost use Rattle.std.specs.Prelude.{◌≡◌, ◌++◌, ◌∷◌, IfOk, OnOk, map, string_bytes};
ghost use Rattle.server_files.specs.Codings.{coding_suffix};
ghost use Rattle.server_service.specs.File.{coding_value, content_of, is_settled, limits_of};
ghost use Rattle.server_service.specs.File.{representation_of, tag_of, validators_of};
ghost use Rattle.server_service.specs.Representations.{AreContents, AreOffers, HasEntryAt, offered, represented};

use crate::file::{Entry, File};
use crate::source::Source;
use crate::store::FileStore;
use decide_preconditions::{Content, RangeLimits, Validators};
use decide_resource::Representation;
use headers::{ETag, HeaderValue, LastModified};
use server_files::{Coding, is_plain};
use std::alloc::{AllocError, Global};

// A stored content as a representation of this media type.
fn represented(media_type: &HeaderValue, coding: Coding, stored: File) -> Result<File, AllocError>
    ensures { IfOk result (λ made. made ≡ represented media_type.now coding stored) }
{
    let mut made = stored;
    made.media_type = media_type.clone()?;
    made.coding = coding;
    Ok(made)
}

// The path of the precompressed copy of a file in a coding.
fn beside(alloc: Global, path: &str, coding: Coding) -> Result<String, AllocError>
    ensures { IfOk result (λ text. string_bytes text ≡ path.now ++ coding_suffix coding) }
{
    let mut text = String::from_str(alloc, path)?;
    text.push_str(coding.suffix())?;
    Ok(text)
}

// The entry at a path that may not be plain.
fn entry_at<S: FileStore>(alloc: Global, store: &S, path: &str) -> Result<Entry, AllocError>
    ensures { IfOk result (HasEntryAt (S.has store.now) path.now) }
{
    if !is_plain(path) {
        return Ok(Entry::Missing);
    }
    store.find(alloc, path)
}

// The precompressed copy of a file in a coding.
fn find_beside<S: FileStore>(
    alloc: Global,
    store: &S,
    path: &str,
    coding: Coding,
) -> Result<Entry, AllocError>
    ensures { IfOk result (HasEntryAt (S.has store.now) (path.now ++ coding_suffix coding)) }
{
    let text = beside(alloc, path, coding)?;
    entry_at(alloc, store, text.as_str())
}

// Appends a representation of this media type, if this is one.
fn push_offer(
    offers: &mut Vec<File>,
    media_type: &HeaderValue,
    coding: Coding,
    entry: Entry,
) -> Result<(), AllocError>
    ensures { OnOk result (offers.new.items ≡ offers.old.items ++ offered media_type.now coding entry) }
{
    match entry {
        Entry::Readable(stored) => {
            let made = represented(media_type, coding, stored)?;
            offers.push(made)?;
            Ok(())
        }
        Entry::Missing | Entry::Forbidden | Entry::Unavailable | Entry::Folder | Entry::Listed(_) =>
            Ok(()),
    }
}

// The offers with these entries beside a file.
fn offers_with(
    alloc: Global,
    file: File,
    brotli: Entry,
    gzip: Entry,
) -> Result<Vec<File>, AllocError>
    ensures { IfOk result (λ offers. offers.items
        ≡ (represented file.media_type Coding.Identity file ∷ offered file.media_type Coding.Brotli brotli)
        ++ offered file.media_type Coding.Gzip gzip) }
{
    let mut offers = Vec::new(alloc);
    let media_type = file.media_type.clone()?;
    let own = represented(&media_type, Coding::Identity, file)?;
    offers.push(own)?;
    push_offer(&mut offers, &media_type, Coding::Brotli, brotli)?;
    push_offer(&mut offers, &media_type, Coding::Gzip, gzip)?;
    Ok(offers)
}

// The representations of the file at a path.
fn offers_of<S: FileStore>(
    alloc: Global,
    store: &S,
    path: &str,
    file: File,
) -> Result<Vec<File>, AllocError>
    ensures { IfOk result (λ offers. AreOffers (S.has store.now) path.now file offers.items) }
{
    let brotli = find_beside(alloc, store, path, Coding::Brotli)?;
    let gzip = find_beside(alloc, store, path, Coding::Gzip)?;
    offers_with(alloc, file, brotli, gzip)
}

/// The contents of the file at a path: its own, and its precompressed copies if codings are negotiated.
pub(crate) fn contents_of<S: FileStore>(
    alloc: Global,
    store: &S,
    negotiates: bool,
    path: &str,
    file: File,
) -> Result<Vec<File>, AllocError>
    ensures { IfOk result (λ files. AreContents negotiates (S.has store.now) path.now file files.items) }
{
    if negotiates {
        return offers_of(alloc, store, path, file);
    }
    Ok(vec![in alloc; file]?)
}

fn copy_of(alloc: Global, tag: &Option<ETag>) -> Result<Option<ETag>, AllocError>
    ensures { IfOk result (λ copy. copy ≡ tag.now) }
{
    match tag {
        Some(tag) => Ok(Some(tag.clone(alloc)?)),
        None => Ok(None),
    }
}

fn tag_of(alloc: Global, source: &Source) -> Result<Option<ETag>, AllocError>
    ensures { IfOk result (λ tag. tag ≡ tag_of source.now) }
{
    match source {
        Source::Kept(kept) => Ok(Some(kept.tag().clone(alloc)?)),
        Source::Opened(opened) => copy_of(alloc, &opened.tag),
    }
}

// Whether a date is a strong validator.
fn is_settled(present: u64, modified: Option<LastModified>) -> bool
    ensures { result ≡ is_settled present modified }
{
    match modified {
        Some(modified) => modified.unix_secs() + 60 <= present,
        None => false,
    }
}

fn validators_of(alloc: Global, present: u64, file: &File) -> Result<Validators, AllocError>
    ensures { IfOk result (λ validators. validators ≡ validators_of present file.now) }
{
    let etag = tag_of(alloc, &file.source)?;
    Ok(Validators {
        etag,
        last_modified: file.modified,
        is_date_strong: is_settled(present, file.modified),
    })
}

// Which ranges of a content in a coding are sent.
fn limits_of(coding: Coding) -> RangeLimits
    ensures { result ≡ limits_of coding }
{
    let usual = RangeLimits::usual();
    if coding.is_encoded() {
        return RangeLimits {
            gap: usual.gap,
            head: usual.head,
            parts: 1,
        };
    }
    usual
}

fn content_of(file: &File) -> Result<Content, AllocError>
    ensures { IfOk result (λ content. content ≡ content_of file.now) }
{
    let media_type = file.media_type.clone()?;
    Ok(Content {
        len: Some(file.source.len()),
        media_type: Some(media_type),
        ranges: Some(limits_of(file.coding)),
    })
}

/// The value of Content-Encoding, if the coding changes a content.
pub(crate) fn coding_value(coding: Coding) -> Option<HeaderValue>
    ensures { result ≡ coding_value coding }
{
    if coding.is_encoded() {
        Some(coding.name())
    } else {
        None
    }
}

fn representation_of(alloc: Global, present: u64, file: &File) -> Result<Representation, AllocError>
    ensures { IfOk result (λ made. made ≡ representation_of present file.now) }
{
    let content = content_of(file)?;
    let validators = validators_of(alloc, present, file)?;
    Ok(Representation {
        coding: coding_value(file.coding),
        language: None,
        content,
        validators,
    })
}

/// Contents as representations, at a time.
pub(crate) fn representations_of(
    alloc: Global,
    present: u64,
    files: &[File],
) -> Result<Vec<Representation>, AllocError>
    ensures { IfOk result (λ made. made.items ≡ map (representation_of present) files.now) }
{
    let mut made = Vec::with_capacity(alloc, files.len())?;
    for file in files {
        let representation = representation_of(alloc, present, file)?;
        made.push(representation)?;
    }
    Ok(made)
}
