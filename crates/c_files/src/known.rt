//! What was made before of the files that were asked for last.
ghost use Rattle.std.specs.Prelude.{◌≡◌, IfOk, IfSome, string_bytes};
ghost use Rattle.http_header.specs.FieldValue.{plain_value};
ghost use Rattle.server_files.specs.Tags.{content_digest, strong_tag};
ghost use Rattle.server_service.specs.File.{media_type_at};
ghost use Rattle.c_files.specs.Tags.{stamp_of};

use crate::entry::Facts;
use crate::tag::stamp_tag;
use c_parts::HashKeys;
use headers::{ETag, HeaderValue};
use server_service::media_type_at;
use std::alloc::{AllocError, Global};

/// Of so many files it is stored.
const ROOM: u64 = 1024;

// The tag of a file, its media type, and what they were made of.
#[derive(Drop)]
struct KnownFile {
    keys: HashKeys,
    facts: Facts,
    tag: ETag,
    path: String,
    media_type: HeaderValue,
    ghost is_tag: { tag ≡ plain_value (strong_tag (content_digest (stamp_of keys facts))) },
    ghost is_type: { media_type ≡ plain_value (media_type_at (string_bytes path)) },
}

impl KnownFile {
    fn new(
        alloc: Global,
        keys: &HashKeys,
        facts: &Facts,
        named: &str,
        suffix: &str,
    ) -> Result<KnownFile, AllocError> {
        let tag = stamp_tag(alloc, keys, facts)?;
        let mut path = String::from_str(alloc, named)?;
        path.push_str(suffix)?;
        let media_type = media_type_at(alloc, path.as_str())?;
        Ok(KnownFile {
            keys: *keys,
            facts: *facts,
            tag,
            path,
            media_type,
        })
    }

    // The tag, if it is that of this file.
    #[tactic(auto, unfolding(crate::specs::Tags::stamp_of))]
    fn tag_of(&self, keys: &HashKeys, facts: &Facts) -> Option<&ETag>
        ensures { IfSome result (λ tag. tag.now
            ≡ plain_value (strong_tag (content_digest (stamp_of keys.now facts.now)))) }
    {
        let (own, other) = (&self.facts, facts);
        if self.keys.first == keys.first
            && self.keys.second == keys.second
            && own.device == other.device
            && own.inode == other.inode
            && own.length == other.length
            && own.changed == other.changed
            && own.changed_nanosecond == other.changed_nanosecond
        {
            Some(&self.tag)
        } else {
            None
        }
    }

    fn media_type_of(&self, path: &str) -> Option<&HeaderValue>
        ensures { IfSome result (λ value. value.now ≡ plain_value (media_type_at path.now)) }
    {
        if self.path.as_str() == path {
            Some(&self.media_type)
        } else {
            None
        }
    }
}

/// The tags and the media types of the files that were asked for last. To make them takes most of the time of a
/// request, and they are the same until the file changes.
#[derive(Drop)]
pub struct KnownFiles {
    // Each at the place that its number on its device gives.
    files: Vec<Option<KnownFile>>,
}

fn place_of(facts: &Facts) -> usize {
    (facts.inode % ROOM) as usize
}

impl KnownFiles {
    /// No files. Fails only if an allocation fails.
    pub(crate) fn new(alloc: Global) -> Result<KnownFiles, AllocError> {
        let mut files = Vec::with_capacity(alloc, ROOM as usize)?;
        for _ in 0..ROOM {
            files.push(None)?;
        }
        Ok(KnownFiles { files })
    }

    fn at(&self, facts: &Facts) -> Option<&KnownFile> {
        self.files.get(place_of(facts))?.as_ref()
    }

    fn known_tag(&self, keys: &HashKeys, facts: &Facts) -> Option<&ETag>
        ensures { IfSome result (λ tag. tag.now
            ≡ plain_value (strong_tag (content_digest (stamp_of keys.now facts.now)))) }
    {
        match self.at(facts) {
            Some(known) => known.tag_of(keys, facts),
            None => None,
        }
    }

    fn known_type(&self, path: &str, facts: &Facts) -> Option<&HeaderValue>
        ensures { IfSome result (λ value. value.now ≡ plain_value (media_type_at path.now)) }
    {
        match self.at(facts) {
            Some(known) => known.media_type_of(path),
            None => None,
        }
    }

    /// The tag of a file: the one that is known, or a new one.
    pub(crate) fn tag(
        &self,
        alloc: Global,
        keys: &HashKeys,
        facts: &Facts,
    ) -> Result<ETag, AllocError>
        ensures { IfOk result (λ tag. tag
            ≡ plain_value (strong_tag (content_digest (stamp_of keys.now facts.now)))) }
    {
        match self.known_tag(keys, facts) {
            Some(tag) => tag.clone(alloc),
            None => stamp_tag(alloc, keys, facts),
        }
    }

    /// The media type of the file at a path: the one that is known, or a new one.
    pub(crate) fn media_type(
        &self,
        alloc: Global,
        path: &str,
        facts: &Facts,
    ) -> Result<HeaderValue, AllocError>
        ensures { IfOk result (λ value. value ≡ plain_value (media_type_at path.now)) }
    {
        match self.known_type(path, facts) {
            Some(value) => value.clone(),
            None => media_type_at(alloc, path),
        }
    }

    /// Stores what can be made of the file at a path, in place of another one, unless its tag is known or
    /// memory is short.
    pub(crate) fn learn(
        &mut self,
        alloc: Global,
        keys: &HashKeys,
        facts: &Facts,
        named: &str,
        suffix: &str,
    ) {
        if self.known_tag(keys, facts).is_some() {
            return;
        }
        let Ok(made) = KnownFile::new(alloc, keys, facts, named, suffix) else {
            return;
        };
        if let Some(place) = self.files.get_mut(place_of(facts)) {
            *place = Some(made);
        }
    }
}
