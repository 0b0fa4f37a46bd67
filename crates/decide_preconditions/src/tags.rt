//! Entity tags in a request (RFC 9110, sections 13.1.1 and 13.1.2).
ghost use Rattle.std.specs.Prelude.{◌≡◌, option_copied, option_map};
ghost use Rattle.headers.specs.{EntityTag.is_tag, Lines.{lines_of, only_line}, Text.trim};
ghost use Rattle.decide_preconditions.specs.Tags.{are_equal, are_tags, is_malformed, is_star, is_tag_of, lists};
ghost use Rattle.decide_preconditions.specs.{Tags.{may_name, names}, declared.tags.Comparison.TheVariants.Strong};
ghost use Rattle.decide_preconditions.specs.declared.tags.Comparison.TheVariants.{Weak};

use crate::resource::TargetState;
use headers::{ETag, HeaderValue, trim};
use headers_conditional::tag_of;
use headers_syntax::EntityTagRef;
use http_header::GetAll;
use rfc_fields::{FieldMembers, Malformed, only_value};

/// How two entity tags are compared (RFC 9110, section 8.8.3.2).
#[derive(Clone, Copy)]
pub(crate) enum Comparison {
    /// Strongly: neither is weak, and their opaque parts are equal.
    Strong,
    /// Weakly: their opaque parts are equal.
    Weak,
}

/// Returns the only field line of a field, without the blanks at its ends.
pub(crate) fn only_text<'a>(field: &GetAll<'a, HeaderValue>) -> Option<&'a [u8]>
    ensures { option_map (λ text. text.now) result ≡ option_map trim (only_line (lines_of field.now)) }
{
    Some(trim(only_value(field)?.as_bytes()))
}

/// Returns whether a text is an entity tag (RFC 9110, section 8.8.3).
pub fn is_tag(text: &[u8]) -> bool
    ensures { result ≡ is_tag text.now }
{
    EntityTagRef::parse(text).is_some()
}

fn is_strongly_equal(text: &[u8], etag: &ETag) -> bool
    ensures { result ≡ are_equal Strong text.now etag.now.bytes }
{
    tag_of(etag).strong_eq_bytes(text)
}

fn is_weakly_equal(text: &[u8], etag: &ETag) -> bool
    ensures { result ≡ are_equal Weak text.now etag.now.bytes }
{
    tag_of(etag).weak_eq_bytes(text)
}

// Whether a text is an entity tag that is equal to this one.
fn is_equal(comparison: Comparison, text: &[u8], etag: &ETag) -> bool
    ensures { result ≡ are_equal comparison text.now etag.now.bytes }
{
    match comparison {
        Comparison::Strong => is_strongly_equal(text, etag),
        Comparison::Weak => is_weakly_equal(text, etag),
    }
}

/// Returns whether a text is an entity tag that is equal to that of the representation.
pub(crate) fn is_tag_of(comparison: Comparison, etag: Option<&ETag>, text: &[u8]) -> bool
    ensures { result ≡ is_tag_of comparison (option_copied etag.entry) text.now }
{
    match etag {
        Some(etag) => is_equal(comparison, text, etag),
        None => false,
    }
}

// Whether the field is `*` alone.
fn is_star(field: &GetAll<'_, HeaderValue>) -> bool
    ensures { result ≡ is_star (lines_of field.now) }
{
    match only_value(field) {
        Some(value) => value.as_bytes() == b"*".as_slice(),
        None => false,
    }
}

// Whether each member is an entity tag.
fn are_tags(field: &GetAll<'_, HeaderValue>) -> bool
    ensures { result ≡ are_tags (lines_of field.now) }
{
    let mut members = FieldMembers::of_tags(field);
    while let Some(member) = members.next() {
        match member {
            Ok(text) => {
                if !is_tag(text) {
                    return false;
                }
            }
            Err(Malformed) => return false,
        }
    }
    true
}

// Whether some member is equal to the tag of a representation.
fn lists(comparison: Comparison, etag: Option<&ETag>, field: &GetAll<'_, HeaderValue>) -> bool
    ensures { result ≡ lists comparison (option_copied etag.entry) (lines_of field.now) }
{
    let mut members = FieldMembers::of_tags(field);
    while let Some(member) = members.next() {
        if let Ok(text) = member {
            if is_tag_of(comparison, etag, text) {
                return true;
            }
        }
    }
    false
}

// Whether the field is neither `*` nor a list of entity tags.
fn is_malformed(field: &GetAll<'_, HeaderValue>) -> bool
    ensures { result ≡ is_malformed (lines_of field.now) }
{
    !is_star(field) && !are_tags(field)
}

/// Returns whether a field matches the current representation: it is `*`, or a list with its tag.
pub(crate) fn names(
    comparison: Comparison,
    field: &GetAll<'_, HeaderValue>,
    resource: &TargetState,
) -> bool
    ensures { result ≡ names comparison (lines_of field.now) resource.now }
{
    match resource {
        TargetState::Missing => false,
        TargetState::Current(validators) => {
            is_star(field)
                || (are_tags(field) && lists(comparison, validators.etag.as_ref(), field))
        }
    }
}

/// Returns whether a field matches the current representation, or is malformed and so may match it.
pub(crate) fn may_name(
    comparison: Comparison,
    field: &GetAll<'_, HeaderValue>,
    resource: &TargetState,
) -> bool
    ensures { result ≡ may_name comparison (lines_of field.now) resource.now }
{
    match resource {
        TargetState::Missing => false,
        TargetState::Current(validators) => {
            is_malformed(field)
                || (is_star(field) || lists(comparison, validators.etag.as_ref(), field))
        }
    }
}
