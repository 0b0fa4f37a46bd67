//! A request, as C hands it in.
ghost use Rattle.std.specs.Prelude.{◌≡◌, option_map};
ghost use Rattle.c_resource.specs.Requests.{IsAuthorityAnswer, IsDenialAnswer, IsProtocolAnswer};
ghost use Rattle.c_resource.specs.Requests.{authority_of, content_of};

use crate::values::read_filled;
use c_decisions::known;
use c_parts::Failure;
use decide_resource::{Denied, RequestContent};
use gateway_messages::{Protocol, authority_len, scheme_len};
use headers::HeaderValue;
use std::alloc::Global;

/// What a server knows of a request, beside its fields.
#[repr(C)]
#[derive(Clone, Copy)]
pub struct RequestParts<'a> {
    /// Its method.
    pub method: &'a [u8],
    /// Its target.
    pub target: &'a [u8],
    /// When it is answered, in seconds since the start of 1970.
    pub present: u64,
    /// How many bytes its content has, if `has_content` and `has_length`.
    pub length: u64,
    /// Its version: 10 for HTTP/1.0, 11, 20 or 30.
    pub version: u8,
    /// Whether it has content, by the framing of its message.
    pub has_content: bool,
    /// Whether the length of the content is stated.
    pub has_length: bool,
}

/// Why a server denies a request, if it does. The answer says nothing of the resource.
#[repr(C)]
#[derive(Clone, Copy)]
pub struct DenialParts<'a> {
    /// The challenges of 401, as the value of WWW-Authenticate (RFC 9110, section 11.6.1). Any other
    /// status ignores them.
    pub challenge: &'a [u8],
    /// After how many seconds the client may send another request, if `has_retry_after`, as Retry-After
    /// of 429 and 503 (section 10.2.3). Any other status ignores them.
    pub retry_after: u64,
    /// 401, 403, 429 or 503, or 0 if the request isn't denied.
    pub status: u16,
    /// Whether it is known when the client may send another request.
    pub has_retry_after: bool,
}

/// The protocol of a version. A later one than HTTP/1.1 counts as that.
pub(crate) fn read_protocol(version: u8) -> Result<Protocol, Failure>
    ensures { IsProtocolAnswer version result }
{
    match version {
        10 => Ok(Protocol::Http10),
        11 | 20 | 30 => Ok(Protocol::Http11),
        _ => Err(Failure::Refused),
    }
}

/// What is known of the content.
pub(crate) fn content_of(parts: &RequestParts<'_>) -> RequestContent
    ensures { result ≡ content_of parts.now }
{
    if !parts.has_content {
        RequestContent::Absent
    } else if parts.has_length {
        RequestContent::Sized(parts.length)
    } else {
        RequestContent::Unsized
    }
}

// The authority of a target in absolute-form.
fn authority_of(target: &[u8]) -> Option<&[u8]>
    ensures { option_map (λ text. text.now) result ≡ authority_of target.now }
{
    let scheme = scheme_len(target);
    if scheme == 0 {
        return None;
    }
    let rest = &target[scheme..];
    Some(&rest[..authority_len(rest)])
}

/// The authority of a target, if that is in absolute-form (RFC 9112, section 3.2.2). Rejected if it is
/// empty or can't be a field line.
pub(crate) fn read_authority(alloc: Global, target: &[u8]) -> Result<Option<HeaderValue>, Failure>
    ensures { IsAuthorityAnswer (authority_of target.now) result }
{
    match authority_of(target) {
        Some(text) => Ok(Some(read_filled(alloc, text)?)),
        None => Ok(None),
    }
}

/// Why a request is denied, if it is (RFC 9110, sections 15.5.2, 15.5.4 and 15.6.4; RFC 6585, section
/// 4). Rejected if the status is another number, or if it is 401 and the challenge is empty or can't be
/// a field line.
pub(crate) fn read_denial(alloc: Global, parts: &DenialParts<'_>) -> Result<Option<Denied>, Failure>
    ensures { IsDenialAnswer parts.entry.now result }
{
    let seconds = known(parts.has_retry_after, parts.retry_after);
    match parts.status {
        0 => Ok(None),
        401 => Ok(Some(Denied::Unauthenticated(read_filled(alloc, parts.challenge)?))),
        403 => Ok(Some(Denied::Forbidden)),
        429 => Ok(Some(Denied::TooManyRequests(seconds))),
        503 => Ok(Some(Denied::Unavailable(seconds))),
        _ => Err(Failure::Refused),
    }
}
