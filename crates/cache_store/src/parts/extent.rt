//! Parts of the content of a representation, and what fields say of them.
ghost use Rattle.std.specs.Prelude.{[], ◌<◌, ◌∷◌, ◌≡◌, ◌≤◌, codes, IfOk, IfSome, if◌then◌else◌, option_map, Some};
ghost use Rattle.std.specs.Bool.{MatchBool};
ghost use Rattle.headers.specs.{EntityTag.is_tag, LineMap.{field_of, fields_of, lines_at}};
ghost use Rattle.cache_store.specs.Parts.Extents.{extent_by, extent_fields, extent_in, is_whole, joint, Touch};
ghost use Rattle.cache_store.specs.Parts.Extents.{range_line, size, strong_tag};
ghost use Rattle.cache_policy.specs.Updating.{is_weak};

use decide_preconditions::Part;
use headers::{
    ContentLength, ContentRange, Encoded, HeaderMap, HeaderMapExt, HeaderValue, encoding,
};
use headers_syntax::EntityTagRef;
use http_header::{CONTENT_RANGE, ETAG};
use rfc_fields::only_value;
use std::alloc::{AllocError, Global};

/// Which part of a representation some bytes are: a first and a last position, both included, in a
/// whole of this many bytes.
#[derive(Clone, Copy, Debug, PartialEq, Eq)]
pub struct Extent {
    /// The first position.
    pub first: u64,
    /// The last position.
    pub last: u64,
    /// How many bytes the whole representation has.
    pub len: u64,
}

impl Extent {
    /// How many bytes the part has.
    pub fn size(&self) -> u64
        requires ordered { self.now.first ≤ self.now.last }
        requires fits { self.now.last < self.now.len }
        ensures { result ≡ size self.now }
    {
        self.last - self.first + 1
    }

    // Whether the part is the whole representation.
    pub(crate) fn is_whole(&self) -> bool
        requires { self.now.last < self.now.len }
        ensures { result ≡ is_whole self.now }
    {
        self.first == 0 && self.len <= self.last + 1
    }

    // Whether no position lies between two parts.
    pub(crate) fn touches(&self, other: &Extent) -> bool
        requires own { self.now.last < self.now.len }
        requires other { other.now.last < other.now.len }
        ensures { MatchBool result (Touch self.now other.now) (¬ (Touch self.now other.now)) }
    {
        self.first <= other.last + 1 && other.first <= self.last + 1
    }

    // The part of both.
    pub(crate) fn joint(&self, other: &Extent) -> Extent
        ensures { result ≡ joint self.now other.now }
    {
        Extent {
            first: self.first.min(other.first),
            last: self.last.max(other.last),
            len: self.len,
        }
    }

    // What Content-Range says of it.
    fn content_range(&self) -> ContentRange
        ensures { result ≡ record { range = Some (self.now.first, self.now.last); length = Some self.now.len } }
    {
        let part = Part {
            first: self.first,
            last: self.last,
        };
        part.content_range(self.len)
    }

    // Content-Range with this part.
    pub(crate) fn range_field(&self, alloc: Global) -> Result<Encoded, AllocError>
        ensures { IfOk result (λ field. field_of field ≡ (codes "content-range", range_line self.now ∷ [])) }
    {
        encoding(alloc, &self.content_range())
    }

    // The fields by which a part is recorded.
    pub(crate) fn fields(&self, alloc: Global) -> Result<Vec<Encoded>, AllocError>
        requires { self.now.last < self.now.len }
        ensures { IfOk result (λ fields. fields_of fields.items ≡ extent_fields self.now) }
    {
        let range = self.recorded_range(alloc)?;
        let length = encoding(alloc, &ContentLength(self.len))?;
        Ok(vec![in alloc; range, length]?)
    }

    // Content-Range of a part that isn't the whole.
    fn recorded_range(&self, alloc: Global) -> Result<Encoded, AllocError>
        requires { self.now.last < self.now.len }
        ensures { IfOk result (λ field. field_of field
            ≡ (codes "content-range", if is_whole self.now then [] else range_line self.now ∷ [])) }
    {
        if self.is_whole() {
            return Ok(Encoded {
                name: CONTENT_RANGE,
                lines: Vec::new(alloc),
            });
        }
        self.range_field(alloc)
    }
}

// A first and a last position in order, in a whole of a known length.
fn extent_by(range: Option<(u64, u64)>, len: Option<u64>) -> Option<Extent>
    ensures { result ≡ extent_by range len }
{
    let (first, last) = range?;
    let len = len?;
    if first <= last && last < len && len < u64::MAX {
        return Some(Extent { first, last, len });
    }
    None
}

/// The part that a message carries, by its Content-Range (RFC 9110, section 14.4): its only field
/// line names two positions and the length of the whole, in bytes.
pub fn extent_in(alloc: Global, message: &HeaderMap) -> Option<Extent>
    ensures value { result ≡ extent_in (lines_at message.now) }
    ensures ordered { IfSome result (λ extent. extent.first ≤ extent.last) }
    ensures within { IfSome result (λ extent. extent.last < extent.len) }
{
    only_value(&message.get_all(CONTENT_RANGE))?;
    match message.typed_try_get::<ContentRange>(alloc) {
        Ok(Some(content)) => extent_by(content.bytes_range(), content.bytes_len()),
        _ => None,
    }
}

// Whether a text is an entity tag.
fn is_tag(text: &[u8]) -> bool
    ensures { result ≡ is_tag text.now }
{
    EntityTagRef::parse(text).is_some()
}

// Whether an entity tag is weak.
fn is_weak(tag: &[u8]) -> bool
    ensures { result ≡ is_weak tag.now }
{
    tag.starts_with(b"W/")
}

/// The strong validator of a message (RFC 9110, section 8.8.1): the only field line of its ETag, if
/// that is an entity tag and isn't weak. A date is none here (section 8.8.2.2).
pub fn strong_tag(message: &HeaderMap) -> Option<&HeaderValue>
    ensures { option_map (λ tag. tag.now.bytes) result ≡ strong_tag (lines_at message.now) }
{
    let tag = only_value(&message.get_all(ETAG))?;
    if is_tag(tag.as_bytes()) && !is_weak(tag.as_bytes()) {
        return Some(tag);
    }
    None
}
