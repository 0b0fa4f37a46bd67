//! What a cache stores of a response.
ghost use Rattle.std.specs.Prelude.{◌≡◌, ◌∷◌, ◌++◌, [], IfOk, OnErr, OnOk, true};
ghost use Rattle.std.specs.{Bool.MatchBool, List.list_any};
ghost use Rattle.http_header.specs.HeaderMap.{keys};
ghost use Rattle.headers.specs.{LineMap.field_of, LineMap.fields_of, LineMap.lines_at, LineMap.set_all, Lines.lines_of};
ghost use Rattle.rfc_fields.specs.Members.{field_members};
ghost use Rattle.gateway_messages.specs.HopByHop.{connection_options, is_hop_by_hop, is_named};
ghost use Rattle.cache_policy.specs.{Policies.policy_of, Requests.request_of};
ghost use Rattle.cache_rules.specs.Storing.{HasFairOptions, IsAsStored, IsChanged, IsStored, LacksDate, is_lost};
ghost use Rattle.cache_rules.specs.Storing.{removals, reuse_names, storing_fields};

use cache_policy::{Policy, RequestHead, date_field};
use gateway_messages::is_hop_by_hop;
use headers::{Encoded, HeaderMap, HeaderName, HeaderValue};
use http::StatusCode;
use http_header::{CONNECTION, DATE, GetAll};
use rfc_fields::{are_tokens, contains_token};
use std::alloc::{AllocError, Global};

/// Whether all of a message came (RFC 9112, section 8).
#[derive(Clone, Copy, Debug, PartialEq, Eq)]
pub enum Reception {
    /// All of it.
    Complete,
    /// The connection ended, or the message did, before all of its content came.
    Incomplete,
}

/// Returns whether a cache stores the response to a request (RFC 9111, sections 3, 3.1 and 3.3).
/// `may_store` of its policy must allow it, and all of it must have come. A 412 or a 416 isn't stored,
/// since it answers the conditions or the range of one request. Nor is a response whose Connection is
/// malformed, or names a field on which reuse depends, such as Cache-Control, Vary or a targeted field.
pub fn is_stored(
    request: &RequestHead<'_>,
    status: StatusCode,
    response: &HeaderMap,
    reception: Reception,
    policy: &Policy<'_>,
) -> bool
    ensures { MatchBool result
        (IsStored (policy_of policy.now) (request_of request.now) status (lines_at response.now) reception)
        (¬ (IsStored (policy_of policy.now) (request_of request.now) status (lines_at response.now) reception)) }
{
    let code = status.as_u16();
    code != 412
        && code != 416
        && reception == Reception::Complete
        && has_fair_options(response, policy.targets)
        && policy.may_store(request, status, response)
}

// Whether a connection option names a field on which reuse depends.
fn names_reuse(connection: &GetAll<'_, HeaderValue>) -> bool
    ensures { result ≡ list_any (is_named (field_members true (lines_of connection.now))) reuse_names }
{
    contains_token(connection, b"age")
        || contains_token(connection, b"cache-control")
        || contains_token(connection, b"content-encoding")
        || contains_token(connection, b"content-length")
        || contains_token(connection, b"content-range")
        || contains_token(connection, b"content-type")
        || contains_token(connection, b"date")
        || contains_token(connection, b"etag")
        || contains_token(connection, b"expires")
        || contains_token(connection, b"last-modified")
        || contains_token(connection, b"set-cookie")
        || contains_token(connection, b"vary")
}

// Whether a field of this name isn't served as it came: it is one of the connection or of a proxy, or
// Age or Date, which a cache sets.
fn is_lost(message: &HeaderMap, name: &HeaderName) -> bool
    ensures { result ≡ is_lost (lines_at message.now) name.now }
{
    name.as_str() == "age" || name.as_str() == "date" || is_of_connection(message, name)
}

// Whether one of these fields isn't served as it came.
fn loses_some(message: &HeaderMap, names: &[HeaderName]) -> bool
    ensures { result ≡ list_any (is_lost (lines_at message.now)) names.now }
{
    for name in names {
        if is_lost(message, name) {
            return true;
        }
    }
    false
}

/// Whether each connection option of a message is a token, none names a field on which reuse depends,
/// and each targeted field is served as it comes.
pub(crate) fn has_fair_options(message: &HeaderMap, targets: &[HeaderName]) -> bool
    ensures { MatchBool result (HasFairOptions targets.now (lines_at message.now))
        (¬ (HasFairOptions targets.now (lines_at message.now))) }
{
    let connection = message.get_all(CONNECTION);
    are_tokens(&connection) && !names_reuse(&connection) && !loses_some(message, targets)
}

/// Returns the fields that turn the fields of a received response into those that are stored, for
/// `set_all` (RFC 9111, section 3.1). Those of a connection and of a proxy are removed, and a
/// missing Date is the time of receipt, in seconds since 1970 (RFC 9110, section 6.6.1). All others
/// stay.
///
/// Fails only if an allocation fails, which needs a field that changes.
pub fn storing_fields(
    alloc: Global,
    response: &HeaderMap,
    received: u64,
) -> Result<Vec<Encoded>, AllocError>
    ensures fields { IfOk result (λ fields. IsAsStored received (lines_at response.now)
        (set_all (lines_at response.now) (fields_of fields.items))) }
    ensures listed { IfOk result (λ fields. fields_of fields.items ≡ storing_fields received response.now) }
    ensures memory { OnErr result (IsChanged response.now (lines_at response.now)) }
{
    let mut fields = hop_by_hop_fields(alloc, response)?;
    if lacks_date(response) {
        let date = date_field(alloc, received)?;
        fields.push(date)?;
    }
    Ok(fields)
}

// Whether a field is one of the connection or of a proxy.
fn is_of_connection(response: &HeaderMap, name: &HeaderName) -> bool
    ensures { result ≡ is_hop_by_hop true (connection_options (lines_at response.now)) name.now }
{
    is_hop_by_hop(true, &response.get_all(CONNECTION), name.as_str())
}

// Appends a field without field lines.
fn push_removal(
    alloc: Global,
    name: &HeaderName,
    fields: &mut Vec<Encoded>,
) -> Result<(), AllocError>
    ensures { OnOk result (fields_of fields.new.items ≡ fields_of fields.old.items ++ (name.now, []) ∷ []) }
{
    let name = name.clone()?;
    let lines = Vec::new(alloc);
    fields.push(Encoded { name, lines })?;
    Ok(())
}

// The fields of a connection and of a proxy, each without field lines.
fn hop_by_hop_fields(alloc: Global, response: &HeaderMap) -> Result<Vec<Encoded>, AllocError>
    ensures fields { IfOk result (λ fields. fields_of fields.items
        ≡ removals (connection_options (lines_at response.now)) (keys response.now)) }
    ensures memory { OnErr result (list_any (is_hop_by_hop true (connection_options (lines_at response.now)))
        (keys response.now) ≡ true) }
{
    let mut fields = Vec::new(alloc);
    for name in response.keys() {
        if !is_of_connection(response, name) {
            continue;
        }
        push_removal(alloc, name, &mut fields)?;
    }
    Ok(fields)
}

// Whether a response has no Date that is end-to-end.
fn lacks_date(response: &HeaderMap) -> bool
    ensures { MatchBool result (LacksDate (lines_at response.now)) (¬ (LacksDate (lines_at response.now))) }
{
    response.get_all(DATE).iter().next().is_none() || is_of_connection(response, &DATE)
}
