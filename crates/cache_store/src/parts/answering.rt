//! Which request a stored part answers, and how.
ghost use Rattle.std.specs.{Prelude.{◌<◌, ◌≡◌, ◌≤◌, IfOk, IfSome, List, MatchOption, OnErr, ℕ}, Bool.MatchBool};
ghost use Rattle.headers.specs.LineMap.{fields_of};
ghost use Rattle.cache_policy.specs.Requests.{request_of};
ghost use Rattle.cache_store.specs.Parts.Answers.{HasBytes, IsPartAnswer, IsWithin, MayAnswer, part_fields};
ghost use Rattle.cache_store.specs.Parts.Answers.{part_planned};

use crate::parts::combining::held_extent;
use crate::parts::extent::{Extent, strong_tag};
use cache_policy::RequestHead;
use cache_rules::{StoredResponse, is_for_cache, one_part, validators_of};
use decide_preconditions::{Plan, RangeFacts, TargetState, plan_answer};
use headers::{ContentLength, Encoded, encoding};
use std::alloc::{AllocError, Global};

// The stored part, if it may answer a request.
fn answering_extent(
    alloc: Global,
    request: &RequestHead<'_>,
    stored: &StoredResponse,
) -> Option<Extent>
    ensures value { MatchOption result ((extent : Extent) → ¬ (MayAnswer (request_of request.now) stored.now extent))
        (MayAnswer (request_of request.now) stored.now) }
{
    let extent = held_extent(alloc, stored)?;
    if strong_tag(&stored.response).is_some() && is_for_cache(request) {
        return Some(extent);
    }
    None
}

// The part that a plan sends, if it is one and lies within a stored one.
fn part_planned(extent: &Extent, plan: Option<Plan>) -> Option<Extent>
    ensures { result ≡ part_planned extent.now plan }
{
    match plan {
        Some(Plan::Single(part))
            if extent.first <= part.first && part.first <= part.last && part.last <= extent.last =>
            {
                Some(Extent {
                    first: part.first,
                    last: part.last,
                    len: extent.len,
                })
            }
        _ => None,
    }
}

/// The part of a stored one that answers a request, if it does (RFC 9111, section 3.3): the request is a
/// GET that asks for one range, which lies wholly within the stored part, and its If-Range, if it has
/// one, is the stored entity tag (RFC 9110, section 13.1.5). The stored part must have a strong
/// validator, and all of its bytes. `now` is the present, in seconds since 1970.
///
/// The answer is a 206 with the fields of `part_fields` and the bytes of `bytes_of_part`. In all other
/// cases the request is forwarded. The caller knows that the stored part may be reused for the request.
pub fn answer_part(
    alloc: Global,
    request: &RequestHead<'_>,
    stored: &StoredResponse,
    now: u64,
) -> Result<Option<Extent>, AllocError>
    ensures answer { IfOk result (IsPartAnswer (request_of request.now) stored.now now) }
    ensures memory { OnErr result ((extent : Extent) × MayAnswer (request_of request.now) stored.now extent) }
{
    let Some(extent) = answering_extent(alloc, request, stored) else {
        return Ok(None);
    };
    let current = validators_of(alloc, stored)?;
    let resource = TargetState::Current(current);
    let limits = one_part();
    let facts = RangeFacts {
        present: now,
        len: extent.len,
        limits,
    };
    let plan = plan_answer(alloc, request, &resource, &facts)?;
    Ok(part_planned(&extent, plan))
}

// Whether one part lies wholly within another of the same whole.
fn is_within(outer: &Extent, inner: &Extent) -> bool
    ensures { MatchBool result (IsWithin outer.now inner.now) (¬ (IsWithin outer.now inner.now)) }
{
    inner.first <= inner.last
        && outer.first <= inner.first
        && inner.last <= outer.last
        && inner.len == outer.len
}

/// The bytes of a part that lies within a stored one. `None` if it doesn't, or the stored response isn't
/// a part with all of its bytes.
pub fn bytes_of_part<'a>(
    alloc: Global,
    stored: &'a StoredResponse,
    part: &Extent,
) -> Option<&'a [u8]>
    ensures { MatchOption result ((bytes : List ℕ) → ¬ (HasBytes stored.now part.now bytes))
        (λ bytes. HasBytes stored.now part.now bytes.now) }
{
    let extent = held_extent(alloc, stored)?;
    if !is_within(&extent, part) {
        return None;
    }
    let first = (part.first - extent.first) as usize;
    let end = (part.last - extent.first + 1) as usize;
    Some(&stored.content.as_slice()[first..end])
}

/// The fields of a 206 with one part, for `set_all` on the stored ones (RFC 9110, section 15.3.7.1):
/// Content-Range, and Content-Length with the length of the part.
pub fn part_fields(alloc: Global, part: &Extent) -> Result<Vec<Encoded>, AllocError>
    requires ordered { part.now.first ≤ part.now.last }
    requires within { part.now.last < part.now.len }
    ensures { IfOk result (λ fields. fields_of fields.items ≡ part_fields part.now) }
{
    let range = part.range_field(alloc)?;
    let length = encoding(alloc, &ContentLength(part.size()))?;
    Ok(vec![in alloc; range, length]?)
}
