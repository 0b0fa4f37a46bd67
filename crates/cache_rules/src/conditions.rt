//! The conditions of a client, for a stored response.
ghost use Rattle.std.{specs.Prelude.{◌≡◌, ◌≢◌, IfOk, OnErr, codes, option_map}, specs.Bool.MatchBool};
ghost use Rattle.headers.{specs.LineMap.lines_at, specs.Lines.Line, specs.Shapes.only_tag};
ghost use Rattle.cache_policy.specs.Requests.{request_of};
ghost use Rattle.cache_rules.specs.Conditions.{AreValidators, IsForCache, IsStoredAnswer, answer_of, divisible};
ghost use Rattle.cache_rules.specs.Conditions.{one_part, modified_second, unix_second};

use crate::stored::StoredResponse;
use cache_policy::{END_OF_DATES, RequestHead, date};
use decide_preconditions::{
    Part, Plan, RangeFacts, RangeLimits, TargetState, Validators, is_get_or_head, plan_answer,
};
use headers::{ETag, HeaderMap, HeaderMapExt, LastModified, Refused};
use http_header::{IF_MATCH, IF_UNMODIFIED_SINCE, LAST_MODIFIED};
use rfc_fields::has_line;
use rfc_values::Timestamp;
use std::alloc::{AllocError, Global};

/// How a stored response answers the conditions and the ranges of a request.
#[derive(Clone, Copy, Debug, PartialEq, Eq)]
pub enum StoredAnswer {
    /// The whole stored response.
    Whole,
    /// 206, with this part of its content.
    Part(Part),
    /// 304, without content.
    NotModified,
    /// 416: no byte that is asked for is there.
    Unsatisfiable,
    /// The origin has to answer, since the request has a condition that only the origin evaluates.
    Forward,
}

/// Decides how a stored response answers the conditions and ranges of a GET or HEAD that may reuse
/// it (RFC 9111, section 4.3.2; RFC 9110, sections 13.2.2 and 14.2). `now` is the present, in
/// seconds since 1970. `ranges` says whether ranges are answered; several ranges get the whole.
///
/// If-None-Match and If-Modified-Since are evaluated by the validators of a stored 200. Without
/// Last-Modified its Date counts. The conditions don't count for a stored response with another
/// status. If-Match and If-Unmodified-Since are for origin servers alone: a request that has one is
/// forwarded. A date in If-Range is no strong validator, so it gets the whole.
pub fn answer_conditions(
    alloc: Global,
    request: &RequestHead<'_>,
    stored: &StoredResponse,
    now: u64,
    ranges: bool,
) -> Result<StoredAnswer, AllocError>
    ensures answer { IfOk result (IsStoredAnswer now (request_of request.now) stored.now ranges) }
    ensures memory { OnErr result (stored.now.status ≡ 200) }
{
    if !is_for_cache(request) {
        return Ok(StoredAnswer::Forward);
    }
    if !is_ok(stored) {
        return Ok(StoredAnswer::Whole);
    }
    let current = validators_of(alloc, stored)?;
    let resource = TargetState::Current(current);
    let len = divisible(stored, ranges);
    let limits = one_part();
    let facts = RangeFacts {
        present: now,
        len,
        limits,
    };
    let plan = plan_answer(alloc, request, &resource, &facts)?;
    Ok(answer_of(plan))
}

fn is_ok(stored: &StoredResponse) -> bool
    ensures { MatchBool result (stored.now.status ≡ 200) (stored.now.status ≢ 200) }
{
    stored.status.as_u16() == 200
}

/// Whether a cache evaluates the conditions of a request (RFC 9111, section 4.3.2): it is a GET or a
/// HEAD, and has neither If-Match nor If-Unmodified-Since, which apply to an origin server alone.
pub fn is_for_cache(request: &RequestHead<'_>) -> bool
    ensures { MatchBool result (IsForCache (request_of request.now)) (¬ (IsForCache (request_of request.now))) }
{
    is_get_or_head(request.method)
        && !has_line(&request.fields.get_all(IF_MATCH))
        && !has_line(&request.fields.get_all(IF_UNMODIFIED_SINCE))
}

// How a plan is told. A request that a cache evaluates has no other: nothing of it can fail, and no two
// parts are sent.
fn answer_of(plan: Option<Plan>) -> StoredAnswer
    ensures { result ≡ answer_of plan }
{
    match plan {
        Some(Plan::Full) => StoredAnswer::Whole,
        Some(Plan::Single(part)) => StoredAnswer::Part(part),
        Some(Plan::NotModified) => StoredAnswer::NotModified,
        Some(Plan::Unsatisfiable) => StoredAnswer::Unsatisfiable,
        Some(Plan::Multiple(_)) | Some(Plan::Failed) | None => StoredAnswer::Forward,
    }
}

/// The limits of a cache that sends one part at most: a request for several gets all (RFC 9110, section
/// 14.2).
pub fn one_part() -> RangeLimits
    ensures { result ≡ one_part }
{
    RangeLimits {
        parts: 1,
        ..RangeLimits::usual()
    }
}

// Of how many bytes ranges are sent.
fn divisible(stored: &StoredResponse, ranges: bool) -> u64
    ensures { result ≡ divisible ranges stored.now }
{
    if ranges {
        stored.content.len() as u64
    } else {
        0
    }
}

// The seconds since 1970 of a time from 1970 to 9999.
fn unix_second(time: Timestamp) -> Option<LastModified>
    ensures { result ≡ unix_second time }
{
    match time.unix_seconds() {
        Some(seconds) if seconds < END_OF_DATES => Some(LastModified::from_unix_secs(seconds)),
        _ => None,
    }
}

// The date by which If-Modified-Since is evaluated.
fn modified_second(stored: &StoredResponse) -> Option<LastModified>
    ensures { result ≡ modified_second stored.now }
{
    if has_line(&stored.response.get_all(LAST_MODIFIED)) {
        unix_second(date(&stored.response, LAST_MODIFIED, stored.received)?)
    } else {
        unix_second(stored.made_at())
    }
}

/// The validators of a stored response, by which the conditions of a request are evaluated (RFC 9111,
/// section 4.3.2): its entity tag, and the date of its Last-Modified, or without that the time at which
/// it was made. No date is a strong validator.
pub fn validators_of(alloc: Global, stored: &StoredResponse) -> Result<Validators, AllocError>
    ensures { IfOk result (AreValidators stored.now) }
{
    let etag = tag_of(alloc, &stored.response)?;
    Ok(Validators {
        etag,
        last_modified: modified_second(stored),
        is_date_strong: false,
    })
}

// The entity tag of a response, if ETag is one.
fn tag_of(alloc: Global, response: &HeaderMap) -> Result<Option<ETag>, AllocError>
    ensures { IfOk result (λ found. option_map (λ tag. tag.bytes) found
        ≡ (only_tag {V = Line} (λ tag. tag)).value_of (lines_at response.now (codes "etag"))) }
{
    match response.typed_try_get::<ETag>(alloc) {
        Ok(found) => Ok(found),
        Err(Refused::Invalid(_)) => Ok(None),
        Err(Refused::Memory(refused)) => Err(refused),
    }
}
