//! What a gateway forwards of requests and responses, and how messages are delimited.
ghost use Rattle.c_parts.specs.Endings.{Gives};
ghost use Rattle.c_library.specs.Gateways.{WritesRequest, WritesResponse};
ghost use Rattle.c_gateway.{specs.Framings.Frames, specs.Requests.PassesRequest, specs.Responses.PassesResponse};

use crate::giving::give;
use c_decisions::RequestTexts;
use c_gateway::{
    ForwardedFacts, FramingFacts, GatewayOptions, HopOptions, MessageParts, RequestFacts,
    frame_message, pass_request, pass_response,
};
use c_parts::{DONE, HashKeys, copy_into};
use std::alloc::Global;

/// Decides what a gateway does with a request, and gives the field lines for the next connection
/// (RFC 9110, section 7.6; RFC 7239).
#[unsafe(no_mangle)]
pub extern "C" fn typed_headers_forward_request(
    alloc: Global,
    gateway: &GatewayOptions<'_>,
    hop: &HopOptions<'_>,
    request: &RequestTexts<'_>,
    version: u8,
    authority: &[u8],
    keys: &HashKeys,
    facts: &mut RequestFacts,
    room: &mut [u8],
    written: &mut usize,
) -> u8
    ensures { WritesRequest
        (PassesRequest gateway.now hop.now request.now version authority.now)
        facts.old facts.new room.old room.new written.old written.new result }
{
    match pass_request(alloc, gateway, hop, request, version, authority, keys) {
        Ok(step) => {
            *facts = step.facts;
            copy_into(step.text.as_slice(), DONE, room, written)
        }
        Err(failure) => failure.status(),
    }
}

/// Decides what a gateway does with a response, and gives the field lines for the client (RFC 9110,
/// section 7.6).
#[unsafe(no_mangle)]
pub extern "C" fn typed_headers_forward_response(
    alloc: Global,
    gateway: &GatewayOptions<'_>,
    response: &MessageParts<'_>,
    keys: &HashKeys,
    client_version: u8,
    received: u64,
    facts: &mut ForwardedFacts,
    room: &mut [u8],
    written: &mut usize,
) -> u8
    ensures { WritesResponse
        (PassesResponse gateway.now response.now client_version received)
        facts.old facts.new room.old room.new written.old written.new result }
{
    match pass_response(alloc, gateway, response, keys, client_version, received) {
        Ok(step) => {
            *facts = step.facts;
            copy_into(step.text.as_slice(), DONE, room, written)
        }
        Err(failure) => failure.status(),
    }
}

/// Tells how the content of a message is delimited (RFC 9112, section 6.3).
#[unsafe(no_mangle)]
pub extern "C" fn typed_headers_framing(
    alloc: Global,
    message: &MessageParts<'_>,
    keys: &HashKeys,
    facts: &mut FramingFacts,
) -> u8
    ensures { Gives (Frames message.now) facts.old facts.new result }
{
    give(frame_message(alloc, message, keys), facts)
}
