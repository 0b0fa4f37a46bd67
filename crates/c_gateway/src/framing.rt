//! How the content of a message is delimited, by the message alone.
ghost use Rattle.std.specs.Prelude.{◌≡◌};
ghost use Rattle.headers.specs.LineMap.{lines_at};
ghost use Rattle.c_gateway.specs.Framings.{Frames, IsCodeOf, IsDelimited, framing_facts};

use crate::content::{ContentFacts, content_facts, request_content};
use crate::protocol::read_protocol;
use crate::reason::reason_number;
use c_decisions::{read_method, read_status};
use c_parts::{Failure, HashKeys, read_map};
use gateway_messages::{ContentFraming, Protocol, Rejection, response_content, stated_framing};
use headers::HeaderMap;
use http::{Method, StatusCode};
use std::alloc::Global;

/// A request, or the response to one, as C passes it in.
#[repr(C)]
#[derive(Clone, Copy)]
pub struct MessageParts<'a> {
    /// The method of the request.
    pub method: &'a [u8],
    /// The message's own header section.
    pub section: &'a [u8],
    /// The status of a response, or 0 of a request.
    pub status: u16,
    /// The version in which the message was received: 10 or 11.
    pub version: u8,
}

/// How the content of a message is delimited, or why it is rejected.
#[repr(C)]
#[derive(Clone, Copy)]
pub struct FramingFacts {
    /// How it is delimited, if it isn't rejected.
    pub content: ContentFacts,
    /// The status with which a request is rejected, and 502 for a response; 0 if it isn't.
    pub status: u16,
    /// Why it is rejected, 1 to 5, or 0.
    pub reason: u8,
}

// The status code of a response, or none of a request: 0.
fn read_code(status: u16) -> Result<Option<StatusCode>, Failure>
    ensures { IsCodeOf status result }
{
    if status == 0 {
        return Ok(None);
    }
    Ok(Some(read_status(status)?))
}

/// How the content of a message is delimited (RFC 9112, section 6.3).
pub fn frame_message(
    alloc: Global,
    message: &MessageParts<'_>,
    keys: &HashKeys,
) -> Result<FramingFacts, Failure>
    ensures { Frames message.now result }
{
    let method = read_method(alloc, message.method)?;
    let code = read_code(message.status)?;
    let protocol = read_protocol(message.version)?;
    let fields = read_map(alloc, message.section, keys)?;
    let delimited = delimited(protocol, &method, &code, &fields);
    Ok(framing_facts(code.is_some(), &delimited))
}

fn delimited(
    protocol: Protocol,
    method: &Method,
    code: &Option<StatusCode>,
    fields: &HeaderMap,
) -> Result<ContentFraming, Rejection>
    ensures { IsDelimited protocol method.now code.now (lines_at fields.now) result }
{
    match code {
        Some(status) => response_content(protocol, method, *status, fields),
        None => Ok(request_content(stated_framing(protocol, fields)?)),
    }
}

fn framing_facts(is_response: bool, delimited: &Result<ContentFraming, Rejection>) -> FramingFacts
    ensures { result ≡ framing_facts is_response delimited.now }
{
    match delimited {
        Ok(content) => FramingFacts {
            content: content_facts(*content),
            status: 0,
            reason: 0,
        },
        Err(rejection) => FramingFacts {
            content: ContentFacts { length: 0, kind: 0 },
            status: if is_response { 502 } else { rejection.status() },
            reason: reason_number(*rejection),
        },
    }
}
