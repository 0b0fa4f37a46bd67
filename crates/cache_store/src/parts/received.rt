//! Which received responses are parts that a cache may store.
ghost use Rattle.cache_policy.specs.Policies.{policy_of};
ghost use Rattle.std.specs.Prelude.{◌<◌, ◌≡◌, ◌≤◌, IfSome, MatchOption};
ghost use Rattle.headers.specs.LineMap.{lines_at};
ghost use Rattle.cache_store.specs.Parts.{Extents.size, Received.{came_of_part, is_signed, length_in, received_extent}};
ghost use Rattle.cache_store.specs.Parts.Received.{came_of_whole, has_plus, IsPart};

use crate::parts::extent::{Extent, extent_in, strong_tag};
use cache_policy::Policy;
use cache_rules::{Reception, StoredResponse, is_stored};
use headers::HeaderMap;
use http::{Method, StatusCode};
use http_header::{CONTENT_LENGTH, CONTENT_RANGE};
use rfc_fields::{number, only_value};
use std::alloc::Global;

fn has_plus(text: &[u8]) -> bool
    ensures { result ≡ has_plus text.now }
{
    text.contains(&b'+')
}

// Whether Content-Range has a plus, which no number of it may have.
fn is_signed(message: &HeaderMap) -> bool
    ensures { result ≡ is_signed (lines_at message.now) }
{
    match only_value(&message.get_all(CONTENT_RANGE)) {
        Some(line) => has_plus(line.as_bytes()),
        None => false,
    }
}

// So many bytes of this part came.
fn came_of_part(reception: Reception, count: u64, extent: Extent) -> Option<Extent>
    requires ordered { extent.first ≤ extent.last }
    requires within { extent.last < extent.len }
    ensures { result ≡ came_of_part reception count extent }
{
    match reception {
        Reception::Complete if count == extent.size() => Some(extent),
        Reception::Incomplete if 0 < count && count <= extent.size() => Some(Extent {
            last: extent.first + (count - 1),
            ..extent
        }),
        _ => None,
    }
}

// The number of Content-Length. 2^64 - 1 means all that are greater, too.
fn length_in(message: &HeaderMap) -> Option<u64>
    ensures { result ≡ length_in (lines_at message.now) }
{
    number(only_value(&message.get_all(CONTENT_LENGTH))?.as_bytes())
}

// The first bytes came of a whole of this length.
fn came_of_whole(reception: Reception, count: u64, len: u64) -> Option<Extent>
    ensures { result ≡ came_of_whole reception count len }
{
    match reception {
        Reception::Incomplete if 0 < count && count < len && len < u64::MAX => Some(Extent {
            first: 0,
            last: count - 1,
            len,
        }),
        _ => None,
    }
}

/// Which part of a representation a response with so many bytes of content is (RFC 9111, section 3.3):
/// that of a 206, by its Content-Range, if so many bytes came or fewer because the connection ended; or
/// the beginning of a 200 that isn't complete, of the length that Content-Length says. A 206 with
/// several parts has no Content-Range, and is none (RFC 9110, section 15.3.7.2).
pub fn received_extent(
    alloc: Global,
    reception: Reception,
    status: StatusCode,
    count: u64,
    fields: &HeaderMap,
) -> Option<Extent>
    ensures value { result ≡ received_extent reception status count (lines_at fields.now) }
    ensures ordered { IfSome result (λ extent. extent.first ≤ extent.last) }
    ensures within { IfSome result (λ extent. extent.last < extent.len) }
    ensures size { IfSome result (λ extent. size extent ≡ count) }
{
    match status.as_u16() {
        206 if !is_signed(fields) => came_of_part(reception, count, extent_in(alloc, fields)?),
        200 => came_of_whole(reception, count, length_in(fields)?),
        _ => None,
    }
}

/// Which part of a representation a cache may store of a response (RFC 9111, section 3.3): it is a part,
/// its ETag is a strong validator, its method is GET, and a 200 with its fields would be stored.
pub fn is_part(
    alloc: Global,
    came: &StoredResponse,
    reception: Reception,
    policy: &Policy<'_>,
) -> Option<Extent>
    ensures value { MatchOption result ((extent : Extent) → ¬ (IsPart (policy_of policy.now) came.now reception extent))
        (IsPart (policy_of policy.now) came.now reception) }
    ensures ordered { IfSome result (λ extent. extent.first ≤ extent.last) }
    ensures within { IfSome result (λ extent. extent.last < extent.len) }
{
    let count = came.content.len() as u64;
    let extent = received_extent(alloc, reception, came.status, count, &came.response)?;
    if came.method == Method::GET
        && strong_tag(&came.response).is_some()
        && is_stored(
            &came.head(),
            StatusCode::OK,
            &came.response,
            Reception::Complete,
            policy,
        )
    {
        return Some(extent);
    }
    None
}
