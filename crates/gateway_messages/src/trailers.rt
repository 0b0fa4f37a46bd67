//! The trailer fields of a message.
ghost use Rattle.std.specs.{Prelude.{◌≡◌, IfOk, OnErr, bytes_eq}, List.list_any};
ghost use Rattle.headers.specs.LineMap.{lines_at};
ghost use Rattle.gateway_messages.specs.{FieldLines.{fields_of, lines_under}, Trailers.{ForwardsTrailers, may_trail}};
ghost use Rattle.gateway_messages.specs.{Trailers.trailer_names, declared.framing.Framing.TheVariants.Chunked};

use crate::field_line::FieldLine;
use crate::framing::Framing;
use crate::gateway::Gateway;
use crate::received::{Section, received_fields};
use headers::HeaderMap;
use http_header::CONNECTION;
use std::alloc::{AllocError, Global};

// Whether the definition of the field permits it in a trailer section.
fn is_trailer(name: &str) -> bool
    ensures { result ≡ list_any (bytes_eq name.now) trailer_names }
{
    name == "accept-ranges"
        || name == "authentication-info"
        || name == "content-digest"
        || name == "etag"
        || name == "proxy-authentication-info"
        || name == "repr-digest"
        || name == "server-timing"
        || name == "signature"
        || name == "signature-input"
}

fn is_protected(gateway: &Gateway, name: &str) -> bool
    ensures { result ≡ list_any (bytes_eq name.now) gateway.now.protected.items }
{
    gateway.protected.iter().any(|own| name == own.as_str())
}

/// Whether a trailer section may have the field, and the gateway doesn't protect it.
pub(crate) fn may_trail(gateway: &Gateway, name: &str) -> bool
    ensures { result ≡ may_trail gateway.now name.now }
{
    is_trailer(name) && !is_protected(gateway, name)
}

/// A message as a gateway forwards it, as far as that decides which of its trailer fields go on.
#[derive(Clone, Copy)]
pub struct MessageHead<'a> {
    /// The fields, as received.
    pub fields: &'a HeaderMap,
    /// How the content is delimited, as forwarded.
    pub framing: Framing,
}

/// Returns the trailer fields that a gateway forwards of a message (RFC 9110, section 6.5.1). Only
/// chunked content has trailer fields (RFC 9112, section 7.1.2). A field is dropped unless its
/// definition permits it in a trailer section, and so is one that the gateway protects.
pub fn forward_trailers(
    alloc: Global,
    gateway: &Gateway,
    message: &MessageHead<'_>,
    trailers: &HeaderMap,
) -> Result<Vec<FieldLine>, AllocError>
    ensures forwarded { IfOk result (λ sent. ForwardsTrailers gateway.now message.now.framing
        (lines_at message.now.fields.now) (lines_at trailers.now) (lines_under (fields_of sent.items))) }
    ensures err { OnErr result (message.now.framing ≡ Chunked) }
{
    if message.framing != Framing::Chunked {
        return Ok(Vec::new(alloc));
    }
    let _names = trailers.keys_len();
    let connection = message.fields.get_all(CONNECTION);
    received_fields(alloc, gateway, Section::Trailer, &connection, trailers)
}
