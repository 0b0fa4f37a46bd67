//! Subprotocols (RFC 6455, sections 4.1, 4.2.2 and 4.3).
ghost use Rattle.std.specs.{Prelude.◌≡◌, Prelude.option_map, Bool.MatchBool};
ghost use Rattle.headers.specs.{LineMap.lines_at, Lines.lines_of};
ghost use Rattle.rfc_fields.specs.Members.{member_of};
ghost use Rattle.decide_handshake.specs.Protocols.{AsksFor, IsTokenList, OffersProtocols, UsesAskedProtocol, is_text};
ghost use Rattle.decide_handshake.specs.Protocols.{lists_protocol, taken};

use crate::fields::has_member;
use headers::{HeaderMap, HeaderValue};
use http_header::{GetAll, SEC_WEBSOCKET_PROTOCOL};
use rfc_fields::{FieldMembers, Malformed, are_tokens, has_line, only_value};

// Whether a list field has a member, and tokens alone.
fn is_token_list(field: &GetAll<'_, HeaderValue>) -> bool
    ensures { MatchBool result (IsTokenList (lines_of field.now)) (¬ (IsTokenList (lines_of field.now))) }
{
    has_member(field) && are_tokens(field)
}

fn is_text(member: Result<&[u8], Malformed>, text: &[u8]) -> bool
    ensures { result ≡ is_text text.now (member_of member.entry) }
{
    match member {
        Ok(element) => element == text,
        Err(Malformed) => false,
    }
}

// Whether a handshake lists the subprotocol, compared with case.
fn lists_protocol(map: &HeaderMap, protocol: &[u8]) -> bool
    ensures { result ≡ lists_protocol protocol.now (lines_at map.now) }
{
    FieldMembers::new(&map.get_all(SEC_WEBSOCKET_PROTOCOL)).any(|member| is_text(member, protocol))
}

// Whether the request has no Sec-WebSocket-Protocol, or a list of tokens.
pub(crate) fn offers_protocols(request: &HeaderMap) -> bool
    ensures { MatchBool result (OffersProtocols (lines_at request.now)) (¬ (OffersProtocols (lines_at request.now))) }
{
    !has_line(&request.get_all(SEC_WEBSOCKET_PROTOCOL))
        || is_token_list(&request.get_all(SEC_WEBSOCKET_PROTOCOL))
}

// The first of the server's own subprotocols that the request lists.
pub(crate) fn taken<'a>(request: &HeaderMap, own: &'a [HeaderValue]) -> Option<&'a HeaderValue>
    ensures { option_map (λ value. value.now) result ≡ taken (lines_at request.now) own.now }
{
    own.iter()
        .find(|protocol| lists_protocol(request, protocol.as_bytes()))
}

// Whether the handshake asks for the subprotocol.
fn asks_for(sent: &HeaderMap, protocol: &[u8]) -> bool
    ensures { MatchBool result (AsksFor (lines_at sent.now) protocol.now)
        (¬ (AsksFor (lines_at sent.now) protocol.now)) }
{
    is_token_list(&sent.get_all(SEC_WEBSOCKET_PROTOCOL)) && lists_protocol(sent, protocol)
}

// Whether the response uses no subprotocol, or one that was asked for.
pub(crate) fn uses_asked_protocol(sent: &HeaderMap, response: &HeaderMap) -> bool
    ensures { MatchBool result (UsesAskedProtocol (lines_at sent.now) (lines_at response.now))
        (¬ (UsesAskedProtocol (lines_at sent.now) (lines_at response.now))) }
{
    if !has_line(&response.get_all(SEC_WEBSOCKET_PROTOCOL)) {
        return true;
    }
    match only_value(&response.get_all(SEC_WEBSOCKET_PROTOCOL)) {
        Some(protocol) => asks_for(sent, protocol.as_bytes()),
        None => false,
    }
}
