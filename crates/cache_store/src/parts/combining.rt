//! How a received part and a stored one are combined.
ghost use Rattle.std.specs.{Prelude.{◌<◌, ◌≡◌, ◌≤◌, IfOk, IfSome, IsErrOf, MatchOption, OnErr}, Bool.MatchBool};
ghost use Rattle.headers.specs.LineMap.{fields_of};
ghost use Rattle.cache_policy.specs.Policies.{policy_of};
ghost use Rattle.cache_rules.specs.Fields.{IsTooSmallFor};
ghost use Rattle.cache_store.specs.Parts.Combining.{AreCombinable, HaveSameTag, Holds, IsCombinedAs, IsExtended, Suit};
ghost use Rattle.cache_store.specs.Parts.{Combining.{exchange_of, IsHeadOfStored, IsTooSmallToCombine}, Extents.joined};

use crate::parts::extent::{Extent, extent_in, strong_tag};
use crate::parts::received::received_extent;
use bytes::Bytes;
use cache_policy::{Policy, is_updated};
use cache_rules::{Exchange, Freshened, Reception, StoredResponse, freshen, set_fields};
use headers::{Encoded, InsertError};
use std::alloc::{AllocError, Global};

/// What becomes of a stored part and a new one.
#[derive(Debug, Drop)]
pub enum Combined {
    /// They aren't combined.
    Apart,
    /// They are one response, which may be stored. If it has no Content-Range, it is the whole.
    Stored(StoredResponse),
    /// They are one response, which isn't stored: its fields forbid that, or the reuse for the request
    /// of the new part.
    Once(StoredResponse),
}

/// Whether two responses have the same strong validator (RFC 9110, section 8.8.1).
pub fn have_same_tag(stored: &StoredResponse, came: &StoredResponse) -> bool
    ensures { MatchBool result (HaveSameTag stored.now came.now) (¬ (HaveSameTag stored.now came.now)) }
{
    match (strong_tag(&stored.response), strong_tag(&came.response)) {
        (Some(own), Some(other)) => own.as_bytes() == other.as_bytes(),
        _ => false,
    }
}

// The stored part, if the stored response has all of its bytes.
pub(crate) fn held_extent(alloc: Global, stored: &StoredResponse) -> Option<Extent>
    ensures value { MatchOption result ((own : Extent) → ¬ (Holds stored.now own)) (Holds stored.now) }
    ensures ordered { IfSome result (λ own. own.first ≤ own.last) }
    ensures within { IfSome result (λ own. own.last < own.len) }
{
    let own = extent_in(alloc, &stored.response)?;
    if stored.content.len() as u64 == own.size() {
        return Some(own);
    }
    None
}

// Whether two parts may be one.
fn are_combinable(
    stored: &StoredResponse,
    came: &StoredResponse,
    own: &Extent,
    other: &Extent,
) -> bool
    requires own { own.now.last < own.now.len }
    requires other { other.now.last < other.now.len }
    ensures { MatchBool result (Suit stored.now came.now own.now other.now)
        (¬ (Suit stored.now came.now own.now other.now)) }
{
    have_same_tag(stored, came)
        && own.len == other.len
        && own.touches(other)
        && is_updated(&stored.response, &came.response)
}

// The stored part and the new one, if they may be one.
fn combinable(
    alloc: Global,
    stored: &StoredResponse,
    came: &StoredResponse,
    reception: Reception,
) -> Option<(Extent, Extent)>
    ensures value { MatchOption result
        ((own other : Extent) → ¬ (AreCombinable stored.now came.now reception own other))
        (λ both. AreCombinable stored.now came.now reception both.0 both.1) }
    ensures own { IfSome result (λ both. both.0.last < both.0.len) }
    ensures other { IfSome result (λ both. both.1.last < both.1.len) }
{
    let own = held_extent(alloc, stored)?;
    let count = came.content.len() as u64;
    let other = received_extent(alloc, reception, came.status, count, &came.response)?;
    if are_combinable(stored, came, &own, &other) {
        return Some((own, other));
    }
    None
}

// The bytes of both parts, if they touch.
fn joined(
    alloc: Global,
    old: &Extent,
    own: &[u8],
    new: &Extent,
    other: &[u8],
) -> Result<Bytes, AllocError>
    requires { new.now.last < new.now.len }
    ensures { IfOk result (λ bytes. bytes ≡ joined old.now own.now new.now other.now) }
{
    let before = new.first.saturating_sub(old.first).min(own.len() as u64) as usize;
    let after = (new.last + 1)
        .saturating_sub(old.first)
        .min(own.len() as u64) as usize;
    let mut bytes = Vec::new(alloc);
    bytes.extend_from_slice(&own[..before])?;
    bytes.extend_from_slice(other)?;
    bytes.extend_from_slice(&own[after..])?;
    Ok(Bytes::from_vec(bytes)?)
}

// A stored response without its content.
fn head_of(stored: &StoredResponse) -> Result<StoredResponse, AllocError>
    ensures { IfOk result (IsHeadOfStored stored.now) }
{
    Ok(StoredResponse {
        method: stored.method.clone()?,
        request: stored.request.clone()?,
        status: stored.status,
        response: stored.response.clone()?,
        content: Bytes::new(),
        requested: stored.requested,
        received: stored.received,
        number: stored.number,
    })
}

// When a response came.
fn exchange_of(came: &StoredResponse) -> Exchange
    ensures { result ≡ exchange_of came.now }
{
    Exchange {
        requested: came.requested,
        received: came.received,
    }
}

// A response with this content and these fields in place of its own.
fn extended(
    fresh: StoredResponse,
    content: Bytes,
    fields: Vec<Encoded>,
) -> Result<StoredResponse, InsertError>
    ensures extended { IfOk result (IsExtended fresh content (fields_of fields.items)) }
    ensures full { IsErrOf result InsertError.Full → IsTooSmallFor fresh.response (fields_of fields.items) }
{
    let mut whole = fresh;
    set_fields(&mut whole.response, fields)?;
    whole.content = content;
    Ok(whole)
}

/// A stored part, and a response that may have more of it.
#[derive(Clone, Copy)]
pub struct PartPair<'a> {
    /// The stored part.
    pub stored: &'a StoredResponse,
    /// The response that came.
    pub came: &'a StoredResponse,
}

/// Combines a stored part and a received one (RFC 9111, section 3.4; RFC 9110, section 15.3.7.3): they
/// have the same strong validator, they are of a whole of the same length, and no position lies between
/// them. The fields of the new response update those of the stored one. The combination says which part
/// it is, and if it is the whole it is a complete 200.
///
/// Where both have a byte, that of the new one is taken. The stored part is copied.
///
/// Fails only if an allocation fails, or with `InsertError::Full` if a map has no room for the fields:
/// that of the stored part for those of the new one, or with these for those that say which part the
/// combination is. Both need two parts that may be combined.
pub fn combine(
    alloc: Global,
    pair: PartPair<'_>,
    reception: Reception,
    policy: &Policy<'_>,
) -> Result<Combined, InsertError>
    ensures combined { IfOk result
        (IsCombinedAs (policy_of policy.now) pair.entry.stored.now pair.entry.came.now reception) }
    ensures memory { OnErr result ((own : Extent) × (other : Extent)
        × AreCombinable pair.entry.stored.now pair.entry.came.now reception own other) }
    ensures full { IsErrOf result InsertError.Full
        → IsTooSmallToCombine pair.entry.stored.now pair.entry.came.now reception }
{
    let PartPair { stored, came } = pair;
    let Some((own, other)) = combinable(alloc, stored, came, reception) else {
        return Ok(Combined::Apart);
    };
    let fields = own.joint(&other).fields(alloc)?;
    let content = joined(
        alloc,
        &own,
        stored.content.as_slice(),
        &other,
        came.content.as_slice(),
    )?;
    let head = head_of(stored)?;
    let exchange = exchange_of(came);
    match freshen(alloc, head, &came.head(), &came.response, exchange, policy)? {
        Freshened::Stored(fresh) => Ok(Combined::Stored(extended(fresh, content, fields)?)),
        Freshened::Once(fresh) => Ok(Combined::Once(extended(fresh, content, fields)?)),
        Freshened::Unchanged(_) => Ok(Combined::Apart),
    }
}
