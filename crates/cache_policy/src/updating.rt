//! Which stored response a 304 updates.
ghost use Rattle.std.specs.{Prelude.◌≡◌, Prelude.◌≢◌, Prelude.codes, Bool.MatchBool};
ghost use Rattle.headers.specs.LineMap.{lines_at};
ghost use Rattle.cache_policy.specs.Updating.{HasOptions, HasSameDate, HasSameTag, HasStrongTag, HasValidator, IsTagOf};
ghost use Rattle.cache_policy.specs.Updating.{IsUpdated, is_weak, opaque_of};

use crate::fields::have_same_lines;
use headers::HeaderMap;
use http_header::{CONNECTION, ETAG, LAST_MODIFIED};
use rfc_fields::{are_tokens, has_line, only_value};

/// Returns whether a 304 is about a stored response (RFC 9111, section 4.3.4): it has validators of
/// that response, or neither has one.
pub fn is_updated(stored: &HeaderMap, update: &HeaderMap) -> bool
    ensures { MatchBool result (IsUpdated (lines_at stored.now) (lines_at update.now))
        (¬ (IsUpdated (lines_at stored.now) (lines_at update.now))) }
{
    has_same_tag(stored, update)
        && has_same_date(stored, update)
        && (has_validator(update) || !has_validator(stored))
        && has_options(update)
}

/// Returns whether a message has a validator, valid or not (RFC 9110, section 8.8).
pub fn has_validator(message: &HeaderMap) -> bool
    ensures { MatchBool result (HasValidator (lines_at message.now)) (¬ (HasValidator (lines_at message.now))) }
{
    has_line(&message.get_all(ETAG)) || has_line(&message.get_all(LAST_MODIFIED))
}

// Whether the entity tag of the 304, if it has one, is that of the stored response.
fn has_same_tag(stored: &HeaderMap, update: &HeaderMap) -> bool
    ensures { MatchBool result (HasSameTag (lines_at stored.now) (lines_at update.now))
        (¬ (HasSameTag (lines_at stored.now) (lines_at update.now))) }
{
    if !has_line(&update.get_all(ETAG)) {
        return true;
    }
    match (
        only_value(&stored.get_all(ETAG)),
        only_value(&update.get_all(ETAG)),
    ) {
        (Some(own), Some(tag)) => is_tag_of(own.as_bytes(), tag.as_bytes()),
        _ => false,
    }
}

// Whether the date of the 304, if it has one and no strong tag, is that of the stored response.
fn has_same_date(stored: &HeaderMap, update: &HeaderMap) -> bool
    ensures { MatchBool result (HasSameDate (lines_at stored.now) (lines_at update.now))
        (¬ (HasSameDate (lines_at stored.now) (lines_at update.now))) }
{
    if !has_line(&update.get_all(LAST_MODIFIED)) {
        return true;
    }
    has_strong_tag(update) || have_same_dates(stored, update)
}

fn have_same_dates(stored: &HeaderMap, update: &HeaderMap) -> bool
    ensures { MatchBool result
        (lines_at stored.now (codes "last-modified") ≡ lines_at update.now (codes "last-modified"))
        (lines_at stored.now (codes "last-modified") ≢ lines_at update.now (codes "last-modified")) }
{
    have_same_lines(
        &stored.get_all(LAST_MODIFIED),
        &update.get_all(LAST_MODIFIED),
    )
}

/// Returns whether a message has exactly one entity tag, and it is strong (RFC 9110, section
/// 8.8.1).
pub fn has_strong_tag(update: &HeaderMap) -> bool
    ensures { MatchBool result (HasStrongTag (lines_at update.now)) (¬ (HasStrongTag (lines_at update.now))) }
{
    match only_value(&update.get_all(ETAG)) {
        Some(tag) => !is_weak(tag.as_bytes()),
        None => false,
    }
}

fn is_weak(tag: &[u8]) -> bool
    ensures { result ≡ is_weak tag.now }
{
    tag.starts_with(b"W/")
}

// The tag without `W/`.
fn opaque_of(tag: &[u8]) -> &[u8]
    ensures { result.now ≡ opaque_of tag.now }
{
    if is_weak(tag) { &tag[2..] } else { tag }
}

// Whether a stored tag is that of a 304.
fn is_tag_of(own: &[u8], tag: &[u8]) -> bool
    ensures { MatchBool result (IsTagOf own.now tag.now) (¬ (IsTagOf own.now tag.now)) }
{
    opaque_of(own) == opaque_of(tag) && (!is_weak(own) || is_weak(tag))
}

// Whether each member of Connection is an option.
fn has_options(update: &HeaderMap) -> bool
    ensures { MatchBool result (HasOptions (lines_at update.now)) (¬ (HasOptions (lines_at update.now))) }
{
    are_tokens(&update.get_all(CONNECTION))
}
