//! What a response that validates stored ones makes of them.
ghost use Rattle.std.specs.Prelude.{◌++◌, ◌+◌, ◌<◌, ◌^◌, ◌≡◌, ◌≤◌, ◌⊎◌, IfOk, IsErrOf, length, OnErr, OnOk};
ghost use Rattle.std.specs.{Bool.MatchBool, Prelude.option_to_list};
ghost use Rattle.headers.specs.LineMap.{lines_at};
ghost use Rattle.cache_policy.specs.{Policies.policy_of, Requests.request_of, Updating.IsUpdated};
ghost use Rattle.cache_rules.specs.{Fields.IsTooSmallFor, Freshening.renewing_fields, Stored.fields_of_stored};
ghost use Rattle.cache_store.specs.{History.Has, Numbers.{AreRenumbered, IsNumbered, IsSameOrNumbered, renumbered}};
ghost use Rattle.cache_store.specs.Updates.{AreLeft, Becomes, BecomesUpdated, IsGetFor, IsOneTooSmallFor, IsUpdatedToo};

use cache_policy::{Policy, RequestHead, has_strong_tag, is_updated, matches};
use cache_rules::{Exchange, Freshened, StoredResponse, freshen, is_head_of};
use headers::{HeaderMap, InsertError};
use http::Method;
use std::alloc::{AllocError, Global};

// Which response validates stored ones.
#[derive(Clone, Copy)]
pub(crate) enum By {
    // A 304, which has its answer in another stored response.
    NotModified,
    // A 200 to HEAD.
    Head,
}

// Whether a 304 also updates a stored response that isn't the answer.
fn is_updated_too(stored: &StoredResponse, request: &RequestHead<'_>, update: &HeaderMap) -> bool
    ensures { MatchBool result (IsUpdatedToo (request_of request.now) (lines_at update.now) stored.now)
        (¬ (IsUpdatedToo (request_of request.now) (lines_at update.now) stored.now)) }
{
    has_strong_tag(update)
        && matches(&stored.heads(), request)
        && is_updated(&stored.response, update)
}

// Whether a stored response is one to GET that could have been chosen for a HEAD.
fn is_get_for(stored: &StoredResponse, request: &RequestHead<'_>) -> bool
    ensures { MatchBool result (IsGetFor (request_of request.now) stored.now)
        (¬ (IsGetFor (request_of request.now) stored.now)) }
{
    stored.method == Method::GET && matches(&stored.heads(), request)
}

// The response with another number.
pub(crate) fn renumber(stored: StoredResponse, number: u64) -> StoredResponse
    ensures { result ≡ renumbered number stored }
{
    let mut fresh = stored;
    fresh.number = number;
    fresh
}

// The stored response as it is updated, with this number, if it stays stored.
fn updated(
    alloc: Global,
    stored: StoredResponse,
    request: &RequestHead<'_>,
    update: &HeaderMap,
    exchange: Exchange,
    policy: &Policy<'_>,
    number: u64,
) -> Result<Option<StoredResponse>, InsertError>
    requires { IsUpdated (fields_of_stored stored) (lines_at update.now) }
    ensures updated { IfOk result (BecomesUpdated (policy_of policy.now) (request_of request.now)
        (lines_at update.now) exchange stored) }
    ensures number { IfOk result (IsNumbered number) }
    ensures full { IsErrOf result InsertError.Full
        → IsTooSmallFor stored.response (renewing_fields exchange.received update.now) }
{
    match freshen(alloc, stored, request, update, exchange, policy)? {
        Freshened::Stored(fresh) => Ok(Some(renumber(fresh, number))),
        Freshened::Once(_) => Ok(None),
        Freshened::Unchanged(_) => Ok(None),
    }
}

// What becomes of a stored response. If it is updated, it gets this number.
fn become_of(
    alloc: Global,
    stored: StoredResponse,
    by: By,
    request: &RequestHead<'_>,
    update: &HeaderMap,
    exchange: Exchange,
    policy: &Policy<'_>,
    number: u64,
) -> Result<Option<StoredResponse>, InsertError>
    ensures becomes { IfOk result (Becomes (policy_of policy.now) (request_of request.now)
        (lines_at update.now) exchange stored by) }
    ensures number { IfOk result (IsSameOrNumbered stored number) }
    ensures full { IsErrOf result InsertError.Full
        → IsTooSmallFor stored.response (renewing_fields exchange.received update.now) }
{
    match by {
        By::NotModified => {
            if is_updated_too(&stored, request, update) {
                updated(alloc, stored, request, update, exchange, policy, number)
            } else {
                Ok(Some(stored))
            }
        }
        By::Head => {
            if !is_get_for(&stored, request) {
                Ok(Some(stored))
            } else if is_head_of(&stored, update) {
                updated(alloc, stored, request, update, exchange, policy, number)
            } else {
                Ok(None)
            }
        }
    }
}

// Appends a response, if there is one.
fn append(left: &mut Vec<StoredResponse>, one: Option<StoredResponse>) -> Result<(), AllocError>
    ensures { OnOk result (left.new.items ≡ left.old.items ++ option_to_list one) }
{
    if let Some(one) = one {
        left.push(one)?;
    }
    Ok(())
}

// What is left of stored responses. Those that are updated get numbers from this one on.
pub(crate) fn left_of(
    alloc: Global,
    responses: Vec<StoredResponse>,
    by: By,
    request: &RequestHead<'_>,
    update: &HeaderMap,
    exchange: Exchange,
    policy: &Policy<'_>,
    first: u64,
) -> Result<Vec<StoredResponse>, InsertError>
    requires { first + length responses.items < 2 ^ 64 }
    ensures left { IfOk result (λ left.
        AreLeft (λ old. Becomes (policy_of policy.now) (request_of request.now) (lines_at update.now) exchange old by)
        responses.items left.items) }
    ensures fewer { IfOk result (λ left. length left.items ≤ length responses.items) }
    ensures numbers { IfOk result (λ left.
        AreRenumbered first (first + length responses.items) responses.items left.items) }
    ensures kept { IfOk result (λ left. (stored : StoredResponse) → Has left.items stored
        → Has responses.items stored ⊎ (first ≤ stored.number)) }
    ensures memory { OnErr result (0 < length responses.items) }
    ensures full { IsErrOf result InsertError.Full
        → IsOneTooSmallFor responses.items (renewing_fields exchange.received update.now) }
{
    let mut left = Vec::new(alloc);
    let mut number = first;
    let mut all = responses.into_iter();
    while let Some(stored) = all.next() {
        let fate = become_of(alloc, stored, by, request, update, exchange, policy, number)?;
        append(&mut left, fate)?;
        number += 1;
    }
    Ok(left)
}
