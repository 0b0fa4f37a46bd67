//! A cache before other servers: which requests it answers from its store, and which responses it stores.
ghost use Rattle.std.specs.Prelude.{◌≡◌, ◌==◌, ◌∷◌, [], ◌++◌, ◌⊎◌, ℕ, List, IfOk, IsErrOf, OnErr, MatchOption, codes};
ghost use Rattle.std.{specs.Prelude.{not, string_bytes}, specs.Bool.MatchBool, specs.List.list_all};
ghost use Rattle.headers.{specs.LineMap.lines_at, specs.Lines.Line};
ghost use Rattle.cache_store.{specs.Contents.used, specs.Kept.{contents_of, policy_of_store}};
ghost use Rattle.cache_rules.{specs.Fields.IsTooSmallFor, specs.Storing.storing_fields};
ghost use Rattle.chain.{specs.Caches.{IsBareRead, IsPlain, key_of}, specs.Serving.{HasBareHost, IsAction, IsActionOf}};
ghost use Rattle.chain.specs.Serving.{IsPending, IsTaken, has_special, is_there, reply_of};
ghost use Rattle.decide_resource.specs.Requests.{Request, request_of};

use bytes::Bytes;
use cache_policy::RequestHead as AskedHead;
use cache_rules::{Reception, StoredResponse};
use cache_store::{Lookup, LookupTimes, Store};
use decide_preconditions::is_get_or_head;
use decide_resource::{RequestContent, ResourceRequest};
use gateway_messages::Protocol;
use headers::{Encoded, HeaderMap, HeaderName, InsertError};
use headers_syntax::read_text;
use http::{Method, StatusCode};
use http_header::{
    CONNECTION, CONTENT_ENCODING, CONTENT_TYPE, EXPECT, HOST, IF_MATCH, IF_MODIFIED_SINCE,
    IF_NONE_MATCH, IF_RANGE, IF_UNMODIFIED_SINCE, RANGE,
};
use std::alloc::{AllocError, Global};

/// A plain request that a cache sends on: `take_response` takes the response to it.
#[derive(Debug, Drop)]
pub struct Pending {
    pub(crate) key: String,
    pub(crate) method: Method,
    pub(crate) fields: HeaderMap,
    pub(crate) requested: u64,
}

/// A response as it came.
#[derive(Debug, Drop)]
pub struct ArrivedResponse {
    /// The status.
    pub status: StatusCode,
    /// The fields.
    pub fields: HeaderMap,
    /// The content.
    pub content: Bytes,
}

/// What a cache in a chain does with a request. A number names a stored response: `Store::response`
/// returns it.
#[derive(Debug, Drop)]
pub enum Action {
    /// Serve the stored response with the number, with this field Age instead of its own; to HEAD
    /// without its content.
    Serve(u64, Encoded),
    /// Serve it, and send the request on after that, since a newer response is wanted
    /// (`stale-while-revalidate`).
    ServeAndFetch(u64, Encoded, Pending),
    /// Send the request on.
    Fetch(Pending),
    /// Send the request on; if the origin can't be reached or responds with 500, 502, 503 or 504,
    /// the stored response with the number may be served (`stale-if-error`).
    FetchOrServe(u64, Pending),
    /// Respond with 504: no stored response is good enough, and the request forbids to send it on
    /// (`only-if-cached`).
    Unavailable,
    /// Send the request on, which isn't plain, and don't store the response.
    Forward,
}

fn has(fields: &HeaderMap, name: HeaderName) -> bool
    ensures { result ≡ is_there (lines_at fields.now name) }
{
    fields.get_all(name).iter().next().is_some()
}

// Whether a request has a field that a plain request doesn't have.
fn has_special(fields: &HeaderMap) -> bool
    ensures { result ≡ has_special (lines_at fields.now) }
{
    has(fields, CONNECTION)
        || has(fields, CONTENT_TYPE)
        || has(fields, CONTENT_ENCODING)
        || has(fields, EXPECT)
        || has(fields, IF_MATCH)
        || has(fields, IF_NONE_MATCH)
        || has(fields, IF_MODIFIED_SINCE)
        || has(fields, IF_UNMODIFIED_SINCE)
        || has(fields, RANGE)
        || has(fields, IF_RANGE)
}

fn is_bare_read(request: &ResourceRequest<'_>) -> bool
    ensures { MatchBool result (IsBareRead (request_of request.now)) (¬ (IsBareRead (request_of request.now))) }
{
    is_get_or_head(request.method)
        && request.protocol == Protocol::Http11
        && request.authority.is_none()
        && request.content == RequestContent::Absent
        && request.denied.is_none()
}

// Whether a host is text without a slash.
fn is_bare(host: &[u8]) -> bool
    ensures { result ≡ list_all (λ b. not (b == 47)) host.now }
{
    host.iter().all(|byte| *byte != b'/')
}

// Whether a target begins with a slash.
fn is_path(target: &str) -> bool
    ensures { MatchBool result ((path : List ℕ) × (target.now ≡ 47 ∷ path))
        (¬ ((path : List ℕ) × (target.now ≡ 47 ∷ path))) }
{
    matches!(target.as_bytes(), [b'/', ..])
}

// The only host, if it is bare.
fn bare_host(fields: &HeaderMap) -> Option<&str>
    ensures { MatchOption result ((host : Line) → ¬ (HasBareHost (lines_at fields.now) host))
        (λ host. HasBareHost (lines_at fields.now) host.now) }
{
    let mut hosts = fields.get_all(HOST).iter();
    let host = hosts.next()?;
    if hosts.next().is_some() {
        return None;
    }
    let text = read_text(host)?;
    if is_bare(text.as_bytes()) {
        Some(text)
    } else {
        None
    }
}

// The host of a plain request. `None` if the request isn't plain.
fn plain_host<'a>(target: &str, request: &ResourceRequest<'a>) -> Option<&'a str>
    ensures { MatchOption result (¬ (IsPlain target.now (request_of request.now)))
        (λ host. IsPlain target.now (request_of request.now)
        × (lines_at request.now.fields.now (codes "host") ≡ host.now ∷ [])) }
{
    if !is_bare_read(request) || !is_path(target) || has_special(request.fields) {
        return None;
    }
    let host = bare_host(request.fields)?;
    Some(host)
}

// The key of the responses to requests for a path at a host.
fn key_of(alloc: Global, host: &str, target: &str) -> Result<String, AllocError>
    ensures { IfOk result (λ key. string_bytes key ≡ codes "http://" ++ (host.now ++ target.now)) }
{
    let mut key = String::from_str(alloc, "http://")?;
    key.push_str(host)?;
    key.push_str(target)?;
    Ok(key)
}

// What is kept of a plain request that is sent on.
fn sent_on(key: String, request: &ResourceRequest<'_>, now: u64) -> Result<Pending, AllocError>
    ensures { IfOk result (λ pending. (pending.key ≡ key) × (pending.method ≡ request.now.method.now)
        × (pending.requested ≡ now)
        × ((name : List ℕ) → lines_at pending.fields name ≡ lines_at request.now.fields.now name)) }
{
    Ok(Pending {
        key,
        method: request.method.clone()?,
        fields: request.fields.clone()?,
        requested: now,
    })
}

// What a cache does by a lookup.
fn acted(
    lookup: Lookup,
    key: String,
    request: &ResourceRequest<'_>,
    now: u64,
) -> Result<Action, AllocError>
    ensures { IfOk result (λ action. (target : List ℕ) → IsPlain target (request_of request.now)
        → string_bytes key ≡ key_of target (request_of request.now)
        → IsActionOf target (request_of request.now) now lookup action) }
{
    Ok(match lookup {
        Lookup::Serve(number, age) => Action::Serve(number, age),
        Lookup::ServeAndRevalidate(number, age) => {
            Action::ServeAndFetch(number, age, sent_on(key, request, now)?)
        }
        Lookup::Validate(_number, _fields) => Action::Fetch(sent_on(key, request, now)?),
        Lookup::ValidateOrServe(number, _fields) => {
            Action::FetchOrServe(number, sent_on(key, request, now)?)
        }
        Lookup::Forward => Action::Fetch(sent_on(key, request, now)?),
        Lookup::Unavailable => Action::Unavailable,
    })
}

/// Decides what a cache in a chain does with a request (RFC 9111, section 4). For a plain request
/// it asks its store, and any other is sent on. The target is a path and perhaps a query. The
/// present is what the cache's clock shows.
///
/// Fails only if an allocation fails. Then the target of a plain request may be the most recently
/// used.
pub fn answer_from_store(
    alloc: Global,
    store: &mut Store,
    target: &str,
    request: &ResourceRequest<'_>,
    times: LookupTimes,
) -> Result<Action, AllocError>
    ensures ok { IfOk result (λ action. IsAction target.now (request_of request.now) times.now
        (policy_of_store store.old) store.old.limits times.longest_guess (contents_of store.old)
        (contents_of store.new) action) }
    ensures err { OnErr result (IsPlain target.now (request_of request.now)
        × ((contents_of store.new ≡ contents_of store.old)
        ⊎ (contents_of store.new ≡ used (key_of target.now (request_of request.now)) (contents_of store.old)))) }
    ensures policy { policy_of_store store.new ≡ policy_of_store store.old }
    ensures limits { store.new.limits ≡ store.old.limits }
{
    let Some(host) = plain_host(target, request) else {
        return Ok(Action::Forward);
    };
    let key = key_of(alloc, host, target)?;
    let head = AskedHead {
        method: request.method,
        fields: request.fields,
    };
    let lookup = store.lookup_guessing(alloc, &key, &head, times)?;
    let action = acted(lookup, key, request, times.now)?;
    Ok(action)
}

/// Stores the response to a plain request that was sent on, if it may be stored (RFC 9111, section
/// 3). Returns the number under which it is stored, or `None` if it isn't. `now` is what the clock
/// shows.
///
/// Fails only if an allocation fails, if the store has no numbers left, or with `InsertError::Full` if the
/// map of the response has no room for the fields that change before it is stored. Then nothing is stored that wasn't
/// stored before.
pub fn take_response(
    alloc: Global,
    store: &mut Store,
    pending: Pending,
    received: ArrivedResponse,
    reception: Reception,
    now: u64,
) -> Result<Option<u64>, InsertError>
    ensures taken { (target : List ℕ) (request : Request) (requested : ℕ)
        → IsPending target request requested pending
        → IsTaken (policy_of_store store.old) store.old.limits target request requested (reply_of received)
        reception now result (contents_of store.old) (contents_of store.new) }
    ensures full { IsErrOf result InsertError.Full
        → IsTooSmallFor received.fields (storing_fields now received.fields) }
    ensures policy { policy_of_store store.new ≡ policy_of_store store.old }
    ensures limits { store.new.limits ≡ store.old.limits }
{
    let Pending {
        key,
        method,
        fields: request,
        requested,
    } = pending;
    let ArrivedResponse {
        status,
        fields: response,
        content,
    } = received;
    let came = StoredResponse {
        method,
        request,
        status,
        response,
        content,
        requested,
        received: now,
        number: 0,
    };
    store.store(alloc, &key, came, reception)
}
