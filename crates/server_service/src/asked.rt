//! What the decision reads of a request.
ghost use Rattle.std.specs.Prelude.{IfOk, option_map};
ghost use Rattle.http.specs.Request.{head_of};
ghost use Rattle.http_uri.specs.Uri.{uri_authority};
ghost use Rattle.decide_resource.specs.Requests.{request_of};
ghost use Rattle.server_service.specs.Asked.{HasAuthority, IsAsked, IsAuthority, IsProtocolOf};

use bytes::Bytes;
use decide_resource::{RequestContent, ResourceRequest};
use gateway_messages::Protocol;
use headers::HeaderValue;
use http::{Request, Version};
use http_header::HeaderValueError;
use std::alloc::{AllocError, Global};

fn protocol_of(version: Version) -> Protocol
    ensures { IsProtocolOf version result }
{
    if version == Version::HTTP_10 {
        Protocol::Http10
    } else {
        Protocol::Http11
    }
}

// A text as the value of a field, if it is one.
fn value_of(alloc: Global, text: &str) -> Result<Option<HeaderValue>, AllocError>
    ensures { IfOk result (λ value. IsAuthority text.now (option_map (λ found. found.bytes) value)) }
{
    match HeaderValue::from_str(alloc, text) {
        Ok(value) => Ok(Some(value)),
        Err(HeaderValueError::Invalid) => Ok(None),
        Err(HeaderValueError::OutOfMemory) => Err(AllocError),
    }
}

/// The authority of the target of a request, if that is in absolute-form.
pub(crate) fn authority_of(
    alloc: Global,
    request: &Request<Bytes>,
) -> Result<Option<HeaderValue>, AllocError>
    ensures { IfOk result (λ value. HasAuthority (uri_authority (head_of request.now).uri)
        (option_map (λ found. found.bytes) value)) }
{
    match request.uri().authority() {
        Some(authority) => value_of(alloc, authority.as_str()),
        None => Ok(None),
    }
}

/// What the decision reads of a request. Content gives a read no other meaning (RFC 9110, section 9.3.1),
/// so it counts as none.
pub(crate) fn asked<'a>(
    request: &'a Request<Bytes>,
    authority: Option<&'a HeaderValue>,
) -> ResourceRequest<'a>
    ensures { IsAsked request.now (option_map (λ value. value.now.bytes) authority.entry) (request_of result) }
{
    ResourceRequest {
        protocol: protocol_of(request.version()),
        method: request.method(),
        authority,
        content: RequestContent::Absent,
        fields: request.headers(),
        denied: None,
    }
}
