//! Updates of a stored response by a validating one.
ghost use Rattle.std.{specs.Prelude.{◌≡◌, ◌++◌, IfOk, IsErrOf, OnErr}, specs.Bool.MatchBool};
ghost use Rattle.headers.{specs.LineMap.{fields_of, lines_at, set_all}, specs.Lines.lines_of};
ghost use Rattle.cache_policy.{specs.Policies.{MayStoreUnder, policy_of}, specs.Requests.request_of};
ghost use Rattle.cache_policy.specs.Updating.{IsUpdated};
ghost use Rattle.cache_rules.{specs.Fields.IsTooSmallFor, specs.Stored.{fields_of_stored, request_of_stored}};
ghost use Rattle.cache_rules.specs.Freshening.{IsForOthers, IsFreshenedAs, IsHeadOf, IsRenewed, MayBeReused};
ghost use Rattle.cache_rules.specs.Freshening.{SaysAsBefore, aged_anew, aging_fields, renewing_fields};

use crate::fields::set_fields;
use crate::selection::is_sought;
use crate::stored::StoredResponse;
use crate::storing::has_fair_options;
use cache_policy::{
    Kind, Policy, RequestHead, date_field, freshening_fields, has_strong_tag, is_updated,
};
use headers::{Encoded, HeaderMap, HeaderValue, InsertError};
use http_header::{AGE, CONTENT_LENGTH, GetAll, LAST_MODIFIED, SET_COOKIE, VARY};
use rfc_fields::has_line;
use std::alloc::{AllocError, Global};

/// When a request was made and when its response was received, in seconds since 1970.
#[derive(Clone, Copy, Debug, PartialEq, Eq)]
pub struct Exchange {
    /// When the request was made.
    pub requested: u64,
    /// When the response came.
    pub received: u64,
}

/// The result of a validating response for a stored one.
#[derive(Debug, Drop)]
pub enum Freshened {
    /// The validating response isn't about the stored one, which is unchanged. Send the request
    /// again without conditions.
    Unchanged(StoredResponse),
    /// The stored response, updated, which stays stored.
    Stored(StoredResponse),
    /// The stored response, updated, which is no longer stored: its new fields forbid that, or the
    /// reuse for this request, or the validating response is for its client alone. It may answer the
    /// request that validated it.
    Once(StoredResponse),
}

/// Updates a stored response by a 304, or by a 200 to HEAD that is about it (RFC 9111, sections 3.2,
/// 4.3.4 and 4.3.5). `request` is the request that the 304 answered.
///
/// The fields of the 304 replace those that are stored, but for those of the connection, and
/// Content-Length, Content-Encoding and Content-Range, which describe the stored content. A 304 without
/// Date was made when it came, and the stored Age goes. The age counts from the exchange.
///
/// A 304 without a strong entity tag may be about another representation. If it changes Vary, the
/// result is `Once`, and so it is in a shared cache if the 304 sets a cookie.
///
/// The stored response is taken, so after an error there is nothing to serve. An error needs a 304
/// that is about it. It is `InsertError::Full` only if the map of the stored response has no room for
/// the fields.
pub fn freshen(
    alloc: Global,
    stored: StoredResponse,
    request: &RequestHead<'_>,
    update: &HeaderMap,
    exchange: Exchange,
    policy: &Policy<'_>,
) -> Result<Freshened, InsertError>
    ensures freshened { IfOk result
        (IsFreshenedAs (policy_of policy.now) stored (request_of request.now) (lines_at update.now) exchange) }
    ensures memory { OnErr result (IsUpdated (fields_of_stored stored) (lines_at update.now)) }
    ensures full { IsErrOf result InsertError.Full
        → IsTooSmallFor stored.response (renewing_fields exchange.received update.now) }
{
    // It ensures that the map is valid.
    let _names = update.keys_len();
    let Some(fields) = freshening_fields(alloc, &stored.response, update)? else {
        return Ok(Freshened::Unchanged(stored));
    };
    let others = is_for_others(&stored.response, update, policy);
    let fresh = updated(alloc, stored, fields, exchange)?;
    if !others {
        return Ok(Freshened::Once(fresh));
    }
    if is_reusable(&fresh, request, update, policy) {
        Ok(Freshened::Stored(fresh))
    } else {
        Ok(Freshened::Once(fresh))
    }
}

// Whether a validating response is about what other clients get, too.
fn is_for_others(stored: &HeaderMap, update: &HeaderMap, policy: &Policy<'_>) -> bool
    ensures { MatchBool result (IsForOthers (policy_of policy.now) (lines_at stored.now) (lines_at update.now))
        (¬ (IsForOthers (policy_of policy.now) (lines_at stored.now) (lines_at update.now))) }
{
    if policy.kind == Kind::Shared && has_line(&update.get_all(SET_COOKIE)) {
        return false;
    }
    has_strong_tag(update) || says_as_before(&stored.get_all(VARY), &update.get_all(VARY))
}

// The stored response with these fields in place of its own, as old as the exchange says.
fn updated(
    alloc: Global,
    stored: StoredResponse,
    mut fields: Vec<Encoded>,
    exchange: Exchange,
) -> Result<StoredResponse, InsertError>
    ensures renewed { IfOk result (IsRenewed stored
        (set_all (aged_anew exchange.received (fields_of_stored stored)) (fields_of fields.items)) exchange) }
    ensures full { IsErrOf result InsertError.Full
        → IsTooSmallFor stored.response (aging_fields exchange.received ++ fields_of fields.items) }
{
    let mut all = age_fields(alloc, exchange.received)?;
    all.append(&mut fields)?;
    let mut fresh = stored;
    set_fields(&mut fresh.response, all)?;
    fresh.requested = exchange.requested;
    fresh.received = exchange.received;
    Ok(fresh)
}

// The fields that say how old a response is: Date is the time of receipt, and Age is removed.
fn age_fields(alloc: Global, received: u64) -> Result<Vec<Encoded>, AllocError>
    ensures { IfOk result (λ fields. fields_of fields.items ≡ aging_fields received) }
{
    let date = date_field(alloc, received)?;
    let age = Encoded {
        name: AGE,
        lines: Vec::new(alloc),
    };
    Ok(vec![in alloc; date, age]?)
}

// Whether section 3 allows to store an updated response for the request that it answered first.
fn may_keep(fresh: &StoredResponse, policy: &Policy<'_>) -> bool
    ensures { MatchBool result
        (MayStoreUnder (policy_of policy.now) (request_of_stored fresh.now) fresh.now.status
        (fields_of_stored fresh.now))
        (¬ (MayStoreUnder (policy_of policy.now) (request_of_stored fresh.now) fresh.now.status
        (fields_of_stored fresh.now))) }
{
    policy.may_store(&fresh.head(), fresh.status, &fresh.response)
}

// Whether an updated response may be stored and reused.
fn is_reusable(
    fresh: &StoredResponse,
    request: &RequestHead<'_>,
    update: &HeaderMap,
    policy: &Policy<'_>,
) -> bool
    ensures { MatchBool result
        (MayBeReused (policy_of policy.now) (request_of request.now) (lines_at update.now) fresh.now)
        (¬ (MayBeReused (policy_of policy.now) (request_of request.now) (lines_at update.now) fresh.now)) }
{
    if !has_fair_options(update, policy.targets) || !may_keep(fresh, policy) {
        return false;
    }
    policy.may_store(request, fresh.status, &fresh.response) && is_sought(fresh, request, None)
}

// Whether the field lines of a new message, if it has some, are those that are stored.
fn says_as_before(own: &GetAll<'_, HeaderValue>, other: &GetAll<'_, HeaderValue>) -> bool
    ensures { MatchBool result (SaysAsBefore (lines_of own.now) (lines_of other.now))
        (¬ (SaysAsBefore (lines_of own.now) (lines_of other.now))) }
{
    if has_line(other) {
        own.eq_values(other)
    } else {
        true
    }
}

/// Returns whether a 200 to HEAD is about a stored response to GET (RFC 9111, section 4.3.5). If it
/// is, `freshen` updates the stored response, and else it is to be removed. `head` has the fields
/// of the 200.
///
/// The HEAD has the validators of the stored response; its Last-Modified and Content-Length, if it
/// has them, are the stored ones; and it has a validator if the stored response has one.
pub fn is_head_of(stored: &StoredResponse, head: &HeaderMap) -> bool
    ensures { MatchBool result (IsHeadOf (fields_of_stored stored.now) (lines_at head.now))
        (¬ (IsHeadOf (fields_of_stored stored.now) (lines_at head.now))) }
{
    let stored = &stored.response;
    is_updated(stored, head)
        && says_as_before(&stored.get_all(LAST_MODIFIED), &head.get_all(LAST_MODIFIED))
        && says_as_before(
            &stored.get_all(CONTENT_LENGTH),
            &head.get_all(CONTENT_LENGTH),
        )
}
