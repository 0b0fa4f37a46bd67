//! Both ends of the opening handshake of a WebSocket.
ghost use Rattle.c_parts.{specs.Endings.{Gives, Writes, done}, specs.FieldText.FieldDecodes};
ghost use Rattle.c_library.specs.Handshake.{WritesHandshake, reads_accept};
ghost use Rattle.c_decisions.specs.Handshakes.{AnswersHandshake, ChecksResponse, Offers};

use crate::giving::give;
use c_decisions::{
    HandshakeExchange, HandshakeFacts, HandshakeRules, RequestTexts, answer_handshake,
    check_response, offer_handshake,
};
use c_parts::{DONE, Failure, HashKeys, copy_into, read_values};
use std::alloc::Global;
use websocket::handshake::server::accept_key;

/// Gives the value of `sec-websocket-accept` for the only line of `sec-websocket-key` (RFC 6455,
/// section 4.2.2).
#[unsafe(no_mangle)]
pub extern "C" fn typed_headers_websocket_accept(
    alloc: Global,
    lines: &[u8],
    room: &mut [u8],
    written: &mut usize,
) -> u8
    ensures { Writes (λ accept. accept) (λ _. done) (FieldDecodes reads_accept lines.now)
        room.old room.new written.old written.new result }
{
    match read_accept(alloc, lines) {
        Ok(accept) => copy_into(&accept, DONE, room, written),
        Err(failure) => failure.status(),
    }
}

fn read_accept(alloc: Global, lines: &[u8]) -> Result<[u8; 28], Failure>
    ensures { FieldDecodes reads_accept lines.now result }
{
    let Some(values) = read_values(alloc, lines)? else {
        return Err(Failure::Refused);
    };
    match values.as_slice() {
        [] => Err(Failure::Absent),
        [key] => match accept_key(key.as_bytes()) {
            Ok(accept) => Ok(accept),
            Err(_) => Err(Failure::Refused),
        },
        _ => Err(Failure::Refused),
    }
}

/// Decides a server's answer to an opening handshake (RFC 6455, sections 4.2.1 and 4.2.2).
#[unsafe(no_mangle)]
pub extern "C" fn typed_headers_websocket_respond(
    alloc: Global,
    request: &RequestTexts<'_>,
    version: u8,
    keys: &HashKeys,
    rules: &HandshakeRules<'_>,
    facts: &mut HandshakeFacts,
    room: &mut [u8],
    written: &mut usize,
) -> u8
    ensures { WritesHandshake (AnswersHandshake request.now version rules.now)
        facts.old facts.new room.old room.new written.old written.new result }
{
    match answer_handshake(alloc, request, version, keys, rules) {
        Ok(answered) => {
            *facts = answered.facts;
            copy_into(answered.text.as_slice(), DONE, room, written)
        }
        Err(failure) => failure.status(),
    }
}

/// Gives the field lines of a client's opening handshake (RFC 6455, section 4.1).
#[unsafe(no_mangle)]
pub extern "C" fn typed_headers_websocket_request(
    alloc: Global,
    nonce: &[u8],
    room: &mut [u8],
    written: &mut usize,
) -> u8
    ensures { Writes (λ text. text.items) (λ _. done) (Offers nonce.now)
        room.old room.new written.old written.new result }
{
    match offer_handshake(alloc, nonce) {
        Ok(text) => copy_into(text.as_slice(), DONE, room, written),
        Err(failure) => failure.status(),
    }
}

/// Checks the response to a client's opening handshake (RFC 6455, section 4.1).
#[unsafe(no_mangle)]
pub extern "C" fn typed_headers_websocket_check(
    alloc: Global,
    exchange: &HandshakeExchange<'_>,
    keys: &HashKeys,
    flaw: &mut u8,
) -> u8
    ensures { Gives (ChecksResponse exchange.now) flaw.old flaw.new result }
{
    give(check_response(alloc, exchange, keys), flaw)
}
