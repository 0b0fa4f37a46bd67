//! What a 304 changes in a stored response.
ghost use Rattle.std.specs.Prelude.{◌≡◌, ◌≢◌, [], IfOk, OnErr, option_map};
ghost use Rattle.headers.specs.LineMap.{field_of, fields_of, lines_at};
ghost use Rattle.cache_policy.specs.Freshening.{FreshensIf, freshening_fields, is_kept, is_kept_name, is_named};
ghost use Rattle.cache_policy.specs.Updating.{IsUpdated};

use crate::fields::values_at;
use crate::updating::is_updated;
use headers::{Encoded, HeaderMap, HeaderName};
use http_header::CONNECTION;
use rfc_fields::contains_token;
use std::alloc::{AllocError, Global};

/// Returns the fields by which a 304 updates a stored response, for `set_all` on the stored fields
/// (RFC 9111, sections 3.2 and 4.3.4). Each field of the 304 replaces the stored one. `None` if the
/// 304 isn't about this response: it has a validator that the response doesn't have, or has none
/// and the response has one, or its Connection is malformed. Such a 304 updates nothing, and the
/// request has to be sent again without conditions.
///
/// The stored Date and Age are of the first response. Before these fields are set, set Date by
/// `date_field` to the time at which the 304 came, and remove Age: else a 304 without these two
/// leaves the response as old as before (section 4.2.3).
///
/// Connection, the fields that it names in the 304, other fields of a connection or for a proxy
/// stay as they are; so do Content-Length, Content-Encoding and Content-Range, which describe the
/// stored content.
///
/// Fails only if an allocation fails, which needs a 304 that is about this response and changes a
/// field.
pub fn freshening_fields(
    alloc: Global,
    stored: &HeaderMap,
    update: &HeaderMap,
) -> Result<Option<Vec<Encoded>>, AllocError>
    ensures fields { IfOk result (λ found.
        FreshensIf (lines_at stored.now) update.now (option_map (λ v. v.items) found)) }
    ensures memory { OnErr result
        (IsUpdated (lines_at stored.now) (lines_at update.now) × (freshening_fields update.now ≢ [])) }
{
    if !is_updated(stored, update) {
        return Ok(None);
    }
    Ok(Some(taken(alloc, update)?))
}

// The fields that the stored response takes over.
fn taken(alloc: Global, update: &HeaderMap) -> Result<Vec<Encoded>, AllocError>
    ensures fields { IfOk result (λ fields. fields_of fields.items ≡ freshening_fields update.now) }
    ensures memory { OnErr result (freshening_fields update.now ≢ []) }
{
    let mut fields = Vec::new(alloc);
    for name in update.keys() {
        if is_kept(update, name) {
            continue;
        }
        let field = field_at(alloc, update, name)?;
        fields.push(field)?;
    }
    Ok(fields)
}

// Whether the update doesn't change the field.
fn is_kept(update: &HeaderMap, name: &HeaderName) -> bool
    ensures { result ≡ is_kept (lines_at update.now) name.now }
{
    is_kept_name(name) || is_named(update, name)
}

// Whether Connection names the field.
fn is_named(message: &HeaderMap, name: &HeaderName) -> bool
    ensures { result ≡ is_named (lines_at message.now) name.now }
{
    contains_token(&message.get_all(CONNECTION), name.as_str().as_bytes())
}

// Whether no update changes the field.
#[tactic(auto, unfolding(crate::specs::Freshening::is_kept_name))]
fn is_kept_name(name: &HeaderName) -> bool
    ensures { result ≡ is_kept_name name.now }
{
    let name = name.as_str();
    name == "connection"
        || name == "keep-alive"
        || name == "proxy-connection"
        || name == "te"
        || name == "transfer-encoding"
        || name == "upgrade"
        || name == "proxy-authenticate"
        || name == "proxy-authentication-info"
        || name == "proxy-authorization"
        || name == "content-length"
        || name == "content-encoding"
        || name == "content-range"
}

// The field of this name, with its field lines.
fn field_at(alloc: Global, update: &HeaderMap, name: &HeaderName) -> Result<Encoded, AllocError>
    ensures { IfOk result (λ field. field_of field ≡ (name.now, lines_at update.now name.now)) }
{
    let lines = values_at(alloc, update, name)?;
    let name = name.clone()?;
    Ok(Encoded { name, lines })
}
