//! Entity tags, which tell one representation of a resource from another.
ghost use Rattle.std.specs.Prelude.{◌≡◌, ◌≢◌, ◌↔◌, MatchOption, ℕ, List, false, IsTrue, IfOk, Some, None};
ghost use Rattle.std.specs.Prelude.{if◌then◌else◌};
ghost use Rattle.headers_syntax.specs.EntityTag.{TagParts, tag_text, IsTag, IsSomeTag, is_tag, is_tag_byte, AreTags};
ghost use Rattle.headers_syntax.specs.EntityTag.{FindsTag, FindsQuoted, StronglyEqual, WeaklyEqual};

use http_header::HeaderValue;
use std::alloc::{AllocError, Global};
use std::marker::Model;

/// A parsed entity tag that borrows its bytes (RFC 9110, section 8.8.3).
///
/// A contract sees whether the tag is weak, and its opaque part.
#[derive(Debug, Drop)]
pub struct EntityTagRef<'a> {
    is_weak: bool,
    opaque: &'a [u8],
}

impl<'a> Model for EntityTagRef<'a> {
    ghost use Rattle.headers_syntax.specs.EntityTag.{TagParts};

    ghost Value = { TagParts };

    ghost view = { λ tag. record { is_weak = tag.is_weak; opaque = tag.opaque.now } };
}

fn is_tag_byte(byte: u8) -> bool
    ensures { result ≡ is_tag_byte byte }
{
    byte > 0x20 && byte != 0x22 && byte != 0x7f
}

// What is between the quotes, if the bytes begin and end with one.
fn quoted(bytes: &[u8]) -> Option<&[u8]>
    ensures { FindsQuoted bytes.now result }
{
    match bytes {
        [b'"', inner @ .., b'"'] => Some(inner),
        _ => None,
    }
}

// The parts by `W/` and the quotes alone, whatever bytes stand between the quotes.
fn shaped(bytes: &[u8]) -> Option<EntityTagRef<'_>>
    ensures { MatchOption result ((parts : TagParts) → bytes.now ≢ tag_text parts)
        (λ parts. bytes.now ≡ tag_text parts) }
{
    let (is_weak, rest) = match bytes {
        [b'W', b'/', rest @ ..] => (true, rest),
        _ => (false, bytes),
    };
    let opaque = quoted(rest)?;
    Some(EntityTagRef { is_weak, opaque })
}

#[tactic(auto, using(crate::proofs::EntityTagLemmas::passes_from_text))]
impl<'a> EntityTagRef<'a> {
    /// Parses all of the bytes as an entity tag (RFC 9110, section 8.8.3). A tag is `W/` if it is
    /// weak, then the opaque part in quotes. The opaque part has only the bytes 0x21, 0x23 to 0x7E
    /// and 0x80 to 0xFF. `None` for any other bytes.
    pub fn parse(bytes: &'a [u8]) -> Option<EntityTagRef<'a>>
        ensures { FindsTag bytes.now result }
    {
        let tag = shaped(bytes)?;
        if tag.opaque.iter().all(|byte| is_tag_byte(*byte)) {
            Some(tag)
        } else {
            None
        }
    }

    /// Returns the opaque part of the tag, without its quotes.
    pub fn tag(&self) -> &'a [u8]
        ensures { result.now ≡ self.now.opaque }
    {
        self.opaque
    }

    /// Returns whether the tag is weak, so whether it begins with `W/`.
    pub fn is_weak(&self) -> bool
        ensures { result ≡ self.now.is_weak }
    {
        self.is_weak
    }

    /// Compares two entity tags strongly: neither is weak, and their opaque parts are equal (RFC
    /// 9110, section 8.8.3.2).
    pub fn strong_eq(&self, other: &EntityTagRef<'_>) -> bool
        ensures { IsTrue result ↔ StronglyEqual self.now other.now }
    {
        !self.is_weak && !other.is_weak && self.opaque == other.opaque
    }

    /// Compares two entity tags weakly: their opaque parts are equal (RFC 9110, section 8.8.3.2).
    pub fn weak_eq(&self, other: &EntityTagRef<'_>) -> bool
        ensures { IsTrue result ↔ WeaklyEqual self.now other.now }
    {
        self.tag() == other.tag()
    }
}

/// A header value that is an entity tag (RFC 9110, section 8.8.3).
///
/// A contract sees the header value.
#[derive(Debug, Drop, PartialEq, Eq)]
pub struct EntityTag {
    value: HeaderValue,
}

impl Model for EntityTag {
    ghost use Rattle.http_header.specs.FieldValue.{FieldValue};
    ghost use Rattle.headers_syntax.specs.EntityTag.{IsSomeTag};

    ghost Value = { FieldValue };

    ghost view = { λ tag. tag.value };

    ghost inverse = { λ value. record { value = value } };

    ghost invariant = { λ tag. IsSomeTag tag.value.bytes };
}

#[tactic(auto, using(crate::proofs::EntityTagLemmas::is_tag_found))]
fn is_tag(bytes: &[u8]) -> bool
    ensures { result ≡ is_tag bytes.now }
{
    EntityTagRef::parse(bytes).is_some()
}

#[tactic(auto, using(crate::proofs::EntityTagLemmas::is_tag_iff))]
impl EntityTag {
    /// Parses a field line as an entity tag, and copies it. `Ok(None)` if it is no entity tag.
    /// Fails only if an allocation fails.
    pub fn from_val(_alloc: Global, value: &HeaderValue) -> Result<Option<EntityTag>, AllocError>
        ensures { IfOk result (λ found. found ≡ (if is_tag value.now.bytes then Some value.now else None)) }
    {
        if is_tag(value.as_bytes()) {
            Ok(Some(EntityTag {
                value: value.clone()?,
            }))
        } else {
            Ok(None)
        }
    }

    /// Makes an entity tag of a header value without copying it. `None` if the value is no entity
    /// tag.
    pub fn from_owned(value: HeaderValue) -> Option<EntityTag>
        ensures { result ≡ (if is_tag value.bytes then Some value else None) }
    {
        if is_tag(value.as_bytes()) {
            Some(EntityTag { value })
        } else {
            None
        }
    }

    /// Returns the parts of the entity tag: whether it is weak, and its opaque part.
    pub fn view(&self) -> EntityTagRef<'_>
        ensures { IsTag self.now.bytes result }
    {
        // The bytes are a tag's: they are not tested again.
        shaped(self.value.as_bytes()).unwrap()
    }

    /// Compares bytes with this tag: true if they are an entity tag that is strongly equal to it.
    pub fn strong_eq_bytes(&self, bytes: &[u8]) -> bool
        ensures { IsTrue result ↔ AreTags StronglyEqual bytes.now self.now.bytes }
    {
        // What equals a tag is one.
        bytes == self.value.as_bytes() && !self.view().is_weak()
    }

    /// Compares two entity tags strongly: neither is weak, and their opaque parts are equal.
    pub fn strong_eq(&self, other: &EntityTag) -> bool
        ensures { IsTrue result ↔ AreTags StronglyEqual self.now.bytes other.now.bytes }
    {
        other.strong_eq_bytes(self.value.as_bytes())
    }

    /// Compares bytes with this tag: true if they are an entity tag that is weakly equal to it.
    pub fn weak_eq_bytes(&self, bytes: &[u8]) -> bool
        ensures { IsTrue result ↔ AreTags WeaklyEqual bytes.now self.now.bytes }
    {
        // If the text between the quotes is a tag's opaque part, the bytes are a tag.
        match shaped(bytes) {
            Some(other) => other.weak_eq(&self.view()),
            None => false,
        }
    }

    /// Returns the header value of the entity tag, without copying it.
    pub fn into_value(self) -> HeaderValue
        ensures { result ≡ self }
    {
        self.value
    }

    /// Copies the entity tag. Fails only if an allocation fails.
    pub fn clone(&self, _alloc: Global) -> Result<EntityTag, AllocError>
        ensures { IfOk result (λ tag. tag ≡ self.now) }
    {
        Ok(EntityTag {
            value: self.value.clone()?,
        })
    }
}

/// Theorem: the bytes of an entity tag determine its parts, and the test accepts exactly the bytes
/// that have parts.
#[tactic(auto, using(crate::proofs::EntityTagLemmas::is_tag_iff))]
pub fn tag_has_parts_once()
    ensures once { (bytes : List ℕ) (s t : TagParts) → IsTag bytes s → IsTag bytes t → s ≡ t }
    ensures test { (bytes : List ℕ) → IsTrue (is_tag bytes) ↔ IsSomeTag bytes }
{}

/// Theorem: two entity tags are strongly equal exactly if neither is weak and their bytes are
/// equal.
pub fn strong_eq_by_bytes()
    ensures { (a b : List ℕ) (s t : TagParts) → IsTag a s → IsTag b t
        → (StronglyEqual s t ↔ ((s.is_weak ≡ false) × (t.is_weak ≡ false) × (a ≡ b))) }
{}

/// Theorem: weak equality of entity tags is an equivalence.
pub fn weak_eq_is_equivalence()
    ensures reflexive { (s : TagParts) → WeaklyEqual s s }
    ensures symmetric { (s t : TagParts) → WeaklyEqual s t → WeaklyEqual t s }
    ensures transitive { (s t u : TagParts) → WeaklyEqual s t → WeaklyEqual t u → WeaklyEqual s u }
{}
