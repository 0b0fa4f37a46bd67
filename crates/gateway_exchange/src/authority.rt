//! The authority of a request (RFC 9112, section 3.2; RFC 9110, section 7.2).
ghost use Rattle.std.specs.Prelude.{◌≡◌, IfOk, option_map};
ghost use Rattle.headers.specs.LineMap.{lines_at};
ghost use Rattle.gateway_exchange.specs.Authorities.{HasHostValue, given_host};

use gateway_messages::{Protocol, has_host};
use headers::{HeaderMap, HeaderValue};
use http_header::{HOST, HeaderValueError};
use std::alloc::{AllocError, Global};
use std::hash::RandomState;

/// The authority as a value of Host. `None` if it is no host and maybe a port. The keys are for a header
/// map. Fails only if an allocation fails.
pub(crate) fn host_value(
    alloc: Global,
    keys: RandomState,
    authority: &[u8],
) -> Result<Option<HeaderValue>, AllocError>
    ensures { IfOk result (HasHostValue authority.now) }
{
    if authority.is_empty() {
        return Ok(None);
    }
    let value = match HeaderValue::from_bytes(alloc, authority) {
        Ok(value) => value,
        Err(HeaderValueError::OutOfMemory) => return Err(AllocError),
        Err(_) => return Ok(None),
    };
    let mut fields = HeaderMap::with_hasher(alloc, keys);
    if fields.insert(HOST, value.clone()?).is_err() {
        return Err(AllocError);
    }
    Ok(has_host(Protocol::Http11, &fields).then_some(value))
}

/// The Host that takes the place of the received one, or that a request of HTTP/1.0 lacks: the authority
/// of its target, or the origin server's.
pub(crate) fn given_authority<'a>(
    origin: &'a HeaderValue,
    fields: &HeaderMap,
    authority: Option<&'a HeaderValue>,
) -> Option<&'a HeaderValue>
    ensures { option_map (λ value. value.now.bytes) result ≡ given_host origin.now (lines_at fields.now)
        (option_map (λ value. value.now.bytes) authority.entry) }
{
    match authority {
        Some(authority) => Some(authority),
        None => match fields.get_all(HOST).iter().next() {
            Some(_) => None,
            None => Some(origin),
        },
    }
}
