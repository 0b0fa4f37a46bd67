//! The header `etag`.
ghost use Rattle.std.specs.Prelude.{◌≡◌, List, ℕ, IfOk, Some, codes};
ghost use Rattle.http_header.specs.FieldValue.{IsFieldValue, FieldValue};
ghost use Rattle.headers_syntax.{specs.Refusal.IsInvalid, specs.EntityTag.IsTag};
ghost use Rattle.headers_conditional.specs.ETag.{ReadsText};

use headers_core::{EntityTag, Error, FormHeader, Refused};
use http_header::{ETAG, HeaderName, HeaderValue, HeaderValueError};
use std::alloc::{AllocError, Global};
use std::fmt;
use std::marker::Model;

/// The header `ETag`: the entity tag of the selected representation (RFC 9110, section 8.8.3). The
/// only field line is decoded. `decode` rejects a value that is no entity tag, and no or several
/// lines, and may run out of memory. Headers are compared by their bytes.
#[derive(Debug, Drop, PartialEq, Eq)]
pub struct ETag {
    tag: EntityTag,
}

impl Model for ETag {
    ghost Value = { FieldValue };

    ghost view = { λ etag. etag.tag };

    ghost inverse = { λ value. record { tag = value } };
}

/// The error of a text that is no header value or no entity tag.
#[derive(Clone, Copy, Debug, PartialEq, Eq)]
pub struct InvalidETag;

impl fmt::Display for InvalidETag {
    ghost output = { λ _. Some (codes "InvalidETag") };

    ghost styled_output = { λ _ _. Some (codes "InvalidETag") };

    fn fmt<W: fmt::Write>(&self, f: &mut fmt::Formatter<W>) -> fmt::Result {
        f.write_str("InvalidETag")
    }
}

impl std::error::Error for InvalidETag {}

impl ETag {
    /// Parses a text as an entity tag, whose opaque part may have characters outside ASCII.
    /// `Invalid` if the text is no header value or no entity tag, `Memory` if an allocation fails.
    pub fn from_str(alloc: Global, text: &str) -> Result<ETag, Refused<InvalidETag>>
        ensures text { ReadsText text.now result }
        ensures no_value { ¬ (IsFieldValue text.now) → IsInvalid result }
    {
        let value = match HeaderValue::from_str(alloc, text) {
            Ok(value) => value,
            Err(HeaderValueError::Invalid) => {
                return Err(Refused::Invalid(InvalidETag));
            }
            Err(HeaderValueError::OutOfMemory) => return Err(Refused::Memory(AllocError)),
        };
        match EntityTag::from_owned(value) {
            Some(tag) => Ok(ETag::from_form(tag)),
            None => Err(Refused::Invalid(InvalidETag)),
        }
    }

    /// Returns whether the entity tag is weak, so whether it begins with `W/`.
    pub fn is_weak(&self) -> bool
        ensures { (opaque : List ℕ) × IsTag self.now.bytes (record { is_weak = result; opaque = opaque }) }
    {
        self.tag.view().is_weak()
    }

    /// Copies the header. Fails only if an allocation fails.
    pub fn clone(&self, alloc: Global) -> Result<ETag, AllocError>
        ensures { IfOk result (λ etag. etag ≡ self.now) }
    {
        Ok(ETag::from_form(self.tag.clone(alloc)?))
    }
}

/// Returns the entity tag of the header.
pub fn tag_of(etag: &ETag) -> &EntityTag
    ensures { result.now ≡ etag.now }
{
    &etag.tag
}

/// Returns the entity tag of the header, without copying it.
pub fn into_tag(etag: ETag) -> EntityTag
    ensures { result ≡ etag }
{
    etag.tag
}

impl FormHeader for ETag {
    type Form = EntityTag;

    ghost NAME = { codes "etag" };

    const NAME: HeaderName = ETAG;

    ghost form = { λ header. header };

    fn from_form(tag: EntityTag) -> ETag {
        ETag { tag }
    }

    fn as_form(&self) -> &EntityTag {
        &self.tag
    }
}
