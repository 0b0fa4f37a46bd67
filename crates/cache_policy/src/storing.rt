//! What a cache may store.
ghost use Rattle.std.specs.{Prelude.◌≡◌, Prelude.codes, Bool.MatchBool};
ghost use Rattle.headers.specs.LineMap.{lines_at};
ghost use Rattle.cache_policy.specs.Storing.{IsShareable, IsStatusStored, IsStorable, IsSuited, MayStore, StoresBy};
ghost use Rattle.cache_policy.specs.{Policies.MayStoreUnder, Policies.policy_of, Requests.request_of};
ghost use Rattle.cache_fields.specs.Directives.{directed};

use crate::policy::Policy;
use cache_fields::{Directives, Governing, Kind, has_expires, is_heuristic, read_directives};
use decide_preconditions::{RequestHead, is_get_or_head};
use headers::HeaderMap;
use http::StatusCode;
use http_header::AUTHORIZATION;
use rfc_fields::has_line;

/// Returns whether a cache may store the response to a request (RFC 9111, sections 3 and 3.5).
///
/// Only responses to GET and HEAD are stored, and no 206 or 304, which are parts of others. With
/// `must-understand` only statuses that are heuristically cacheable are stored. If Cache-Control of
/// one of the messages is malformed, the response isn't stored.
pub fn may_store(
    request: &RequestHead<'_>,
    status: StatusCode,
    response: &HeaderMap,
    kind: Kind,
) -> bool
    ensures { MatchBool result (MayStore kind (request_of request.now) status (lines_at response.now))
        (¬ (MayStore kind (request_of request.now) status (lines_at response.now))) }
{
    let policy = Policy {
        kind,
        immutable: false,
        targets: &[],
    };
    policy.may_store(request, status, response)
}

impl Policy<'_> {
    /// Returns whether a cache may store the response to a request, by this policy; see the
    /// function `may_store`.
    pub fn may_store(
        &self,
        request: &RequestHead<'_>,
        status: StatusCode,
        response: &HeaderMap,
    ) -> bool
        ensures { MatchBool result
            (MayStoreUnder (policy_of self.now) (request_of request.now) status (lines_at response.now))
            (¬ (MayStoreUnder (policy_of self.now) (request_of request.now) status (lines_at response.now))) }
    {
        stores_by(
            request,
            status,
            response,
            &self.read_governing(response),
            self.kind,
        )
    }
}

// Whether the response may be stored, by what governs it.
fn stores_by(
    request: &RequestHead<'_>,
    status: StatusCode,
    response: &HeaderMap,
    by: &Governing,
    kind: Kind,
) -> bool
    ensures { MatchBool result
        (StoresBy kind (request_of request.now) status (lines_at response.now)
        (directed (request_of request.now).fields) by.now)
        (¬ (StoresBy kind (request_of request.now) status (lines_at response.now)
        (directed (request_of request.now).fields) by.now)) }
{
    let asks = read_directives(request.fields);
    is_get_or_head(request.method)
        && is_status_stored(status, &by.directives)
        && !asks.no_store
        && is_storable(&by.directives)
        && is_shareable(request.fields, &by.directives, kind)
        && is_suited(status, response, by, kind)
}

// Whether responses of this status are stored: it is final and whole, and the cache understands it
// if it must.
fn is_status_stored(status: StatusCode, tells: &Directives) -> bool
    ensures { MatchBool result (IsStatusStored status tells.now) (¬ (IsStatusStored status tells.now)) }
{
    let code = status.as_u16();
    200 <= code && code != 206 && code != 304 && (!tells.must_understand || is_heuristic(status))
}

// Whether the response lets caches that understand its status store it.
fn is_storable(tells: &Directives) -> bool
    ensures { MatchBool result (IsStorable tells.now) (¬ (IsStorable tells.now)) }
{
    !tells.no_store || tells.must_understand
}

// Whether a cache of this kind may keep the response, whoever asked for it.
fn is_shareable(request: &HeaderMap, tells: &Directives, kind: Kind) -> bool
    ensures { MatchBool result (IsShareable kind (lines_at request.now) tells.now)
        (¬ (IsShareable kind (lines_at request.now) tells.now)) }
{
    match kind {
        Kind::Shared => {
            !tells.private
                && (!has_line(&request.get_all(AUTHORIZATION))
                    || tells.must_revalidate
                    || tells.public
                    || tells.s_max_age.is_some())
        }
        Kind::Private => true,
    }
}

// Whether something in the response marks it as one to store.
fn is_suited(status: StatusCode, response: &HeaderMap, by: &Governing, kind: Kind) -> bool
    ensures { MatchBool result (IsSuited kind status by.now (lines_at response.now))
        (¬ (IsSuited kind status by.now (lines_at response.now))) }
{
    let tells = &by.directives;
    tells.public
        || (tells.private && kind == Kind::Private)
        || has_expires(by.by_expires, response)
        || tells.max_age.is_some()
        || (tells.s_max_age.is_some() && kind == Kind::Shared)
        || is_heuristic(status)
}
