//! Which stored responses a 304 updates.
ghost use Rattle.std.specs.Prelude.{◌≡◌, IfOk, OnErr, Some};
ghost use Rattle.headers.specs.LineMap.{lines_at};
ghost use Rattle.cache_policy.specs.{Requests.request_of, Updating.HasValidator};
ghost use Rattle.cache_rules.specs.Identifying.{IsIdentified, IsOnlyOne, IsUpdatedAnswer, one_more};
ghost use Rattle.cache_rules.specs.Selection.{ArePlaces, IsAt, IsCandidate, IsOneAt, IsSomewhere, IsSought};

use crate::selection::{Search, is_sought, most_recent};
use crate::stored::StoredResponse;
use cache_policy::{RequestHead, has_strong_tag, has_validator};
use headers::HeaderMap;
use std::alloc::{AllocError, Global};

/// Returns the places of the stored responses that a 304 to a request updates, ascending (RFC 9111,
/// section 4.3.4). Of those that match the request and that the 304 is about, these are all if the
/// 304 has a strong validator, and the most recent one if it has only weak validators. If it has
/// none, it is the only one that matches the request, if that has none either.
///
/// Fails only if an allocation fails, which needs such a stored response.
pub fn updated_by(
    alloc: Global,
    stored: &[StoredResponse],
    request: &RequestHead<'_>,
    update: &HeaderMap,
) -> Result<Vec<usize>, AllocError>
    ensures places { IfOk result (λ places.
        ArePlaces (IsIdentified (request_of request.now) (lines_at update.now) stored.now) places.items) }
    ensures memory { OnErr result
        (IsSomewhere (IsIdentified (request_of request.now) (lines_at update.now) stored.now)) }
{
    if has_strong_tag(update) {
        return all_sought(alloc, stored, request, update);
    }
    match select_updated(stored, request, update) {
        Some(place) => Ok(vec![in alloc; place]?),
        None => Ok(Vec::new(alloc)),
    }
}

/// Returns the place of the updated response that answers a request to which the origin sent a 304
/// (RFC 9111, section 4.3.3): the most recent one of those that the 304 updates (section 4.3.4).
pub fn select_updated(
    stored: &[StoredResponse],
    request: &RequestHead<'_>,
    update: &HeaderMap,
) -> Option<usize>
    ensures { IsUpdatedAnswer (request_of request.now) (lines_at update.now) stored.now result }
{
    if has_validator(update) {
        most_recent(stored, request, Search::Updated(update))
    } else {
        only_updated(stored, request, update)
    }
}

// The places of the stored responses that match the request, and that the 304 is about.
fn all_sought(
    alloc: Global,
    stored: &[StoredResponse],
    request: &RequestHead<'_>,
    update: &HeaderMap,
) -> Result<Vec<usize>, AllocError>
    ensures places { IfOk result (λ places.
        ArePlaces (IsAt (IsSought (request_of request.now) (Some (lines_at update.now))) stored.now) places.items) }
    ensures memory { OnErr result
        (IsSomewhere (IsAt (IsSought (request_of request.now) (Some (lines_at update.now))) stored.now)) }
{
    let mut places = Vec::new(alloc);
    for (place, response) in stored.iter().enumerate() {
        if is_sought(response, request, Some(update)) {
            places.push(place)?;
        }
    }
    Ok(places)
}

// The place of the stored response that a 304 without a validator updates.
fn only_updated(
    stored: &[StoredResponse],
    request: &RequestHead<'_>,
    update: &HeaderMap,
) -> Option<usize>
    requires { ¬ (HasValidator (lines_at update.now)) }
    ensures { IsOneAt (IsIdentified (request_of request.now) (lines_at update.now) stored.now) result }
{
    match only_candidate(stored, request) {
        Some(_) => most_recent(stored, request, Search::Updated(update)),
        None => None,
    }
}

// The stored responses so far that match a request.
#[derive(Clone, Copy)]
enum Found {
    Nothing,
    One(usize),
    Several,
}

fn one_more(found: Found, place: usize) -> Found
    ensures { result ≡ one_more found place }
{
    match found {
        Found::Nothing => Found::One(place),
        Found::One(_) | Found::Several => Found::Several,
    }
}

// The place of the only stored response that matches the request.
fn only_candidate(stored: &[StoredResponse], request: &RequestHead<'_>) -> Option<usize>
    ensures { IsOnlyOne (IsCandidate (request_of request.now)) stored.now result }
{
    let mut found = Found::Nothing;
    for (place, response) in stored.iter().enumerate() {
        if is_sought(response, request, None) {
            found = one_more(found, place);
        }
    }
    match found {
        Found::One(place) => Some(place),
        Found::Nothing | Found::Several => None,
    }
}
