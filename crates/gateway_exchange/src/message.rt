//! Messages as `http1` takes them.
ghost use Rattle.std.specs.Prelude.{◌≡◌, IfOk};
ghost use Rattle.http1.specs.Head.{pairs};
ghost use Rattle.gateway_messages.specs.FieldLines.{fields_of};
ghost use Rattle.gateway_exchange.specs.Messages.{protocol_of, request_size, response_size};

use gateway_messages::{ContentFraming, FieldLine, Framing, Protocol};
use http1::{BodySize, Header};
use std::alloc::{AllocError, Global};

/// The version of HTTP with this minor version.
pub(crate) fn protocol_of(minor: u8) -> Protocol
    ensures { result ≡ protocol_of minor }
{
    if minor == 0 {
        Protocol::Http10
    } else {
        Protocol::Http11
    }
}

/// The field lines as `http1` takes them. Fails only if an allocation fails.
pub(crate) fn header_list<'a>(
    alloc: Global,
    fields: &'a [FieldLine],
) -> Result<Vec<Header<'a>>, AllocError>
    ensures { IfOk result (λ list. pairs list.items ≡ fields_of fields.now) }
{
    let mut list = Vec::with_capacity(alloc, fields.len())?;
    for field in fields {
        list.push(Header {
            name: field.name.as_bytes(),
            value: field.value.as_bytes(),
        })?;
    }
    Ok(list)
}

/// The size of the content of a request with this framing.
pub(crate) fn request_size(framing: Framing) -> BodySize
    ensures { result ≡ request_size framing }
{
    match framing {
        Framing::Unstated => BodySize::Empty,
        Framing::Length(len) => BodySize::Known(len),
        Framing::Chunked => BodySize::Unknown,
    }
}

/// The size of the content of a response that is delimited so.
pub(crate) fn response_size(content: ContentFraming) -> BodySize
    ensures { result ≡ response_size content }
{
    match content {
        ContentFraming::Tunnel | ContentFraming::Absent => BodySize::Empty,
        ContentFraming::Length(len) => BodySize::Known(len),
        ContentFraming::Chunked | ContentFraming::UntilClose => BodySize::Unknown,
    }
}
