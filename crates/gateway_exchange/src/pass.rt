//! Messages on their way from one connection to the other.
ghost use Rattle.std.specs.Prelude.{◌≡◌, IfErr, IfOk, MatchResult, option_map, option_to_list};
ghost use Rattle.headers.{specs.LineMap.field_of};
ghost use Rattle.http1.specs.{Conn.finish_refusal, Head.pairs};
ghost use Rattle.gateway_messages.specs.{FieldLines.fields_of, Responses.{IsForwardableResponse, IsResponseOutcome}};
ghost use Rattle.gateway_exchange.specs.Passing.{EndsRequest, EndsResponse, IsSwitched, IsUnswitched, PutsInterim};
ghost use Rattle.gateway_exchange.specs.Passing.{PutsResponse, PutsSwitch, RefusesInterim, RefusesRequestEnd};
ghost use Rattle.gateway_exchange.specs.Passing.{RefusesResponse, RefusesResponseEnd, RefusesSwitch, answered};
ghost use Rattle.gateway_exchange.specs.Passing.{switching_fields, with_conditions, PutsRequest, RefusesRequest};
ghost use Rattle.gateway_exchange.specs.Passing.{are_addable, is_addable, head_lines};
ghost use Rattle.gateway_messages.specs.{Forwarding.own_names, HopByHop.hop_by_hop_fields};
ghost use Rattle.std.specs.{Prelude.bytes_eq, List.list_any};
ghost use Rattle.gateway_exchange.specs.Steps.{Begins, RefusesBegin};

use crate::decision::AskedRequest;
use crate::message::{header_list, protocol_of, request_size, response_size};
use crate::own::{Own, close_if};
use crate::rules::next_connection;
use decide_handshake::{Checked, check};
use gateway_connection::{OriginConnection, OriginResponse};
use gateway_hops::replace_fields;
use gateway_messages::{
    FieldLine, ForwardedResponse, Gateway, MessageHead, Rejection, ResponseHead, ResponseOutcome,
    forward_response, forward_trailers,
};
use headers::{Date, Encoded, HeaderMap, HeaderName, HeaderValue};
use http::StatusCode;
use http_header::{IF_MODIFIED_SINCE, IF_NONE_MATCH};
use http1::{Header, WriteError};
use server_stream::StreamConnection;
use std::alloc::{AllocError, Global};

/// A final response, and what is forwarded of it.
#[derive(Debug, Drop)]
pub(crate) struct Heard {
    /// Its head as received.
    pub(crate) response: OriginResponse,
    /// Its head as sent.
    pub(crate) sent: ForwardedResponse,
    /// The field lines that the caller adds to that.
    pub(crate) added: Vec<FieldLine>,
}

// Puts the head of the request to the origin.
fn put_request(
    alloc: Global,
    asked: &AskedRequest,
    fields: &[FieldLine],
    origin: &mut OriginConnection,
) -> Result<(), WriteError>
    ensures { MatchResult result
        (λ _. PutsRequest asked.now (fields_of fields.now) origin.old origin.new)
        (λ error. RefusesRequest asked.now (fields_of fields.now) origin.old error origin.new) }
{
    let headers = header_list(alloc, fields)?;
    origin.send(
        &asked.head.method,
        asked.outgoing.target.as_slice(),
        &headers,
        request_size(asked.outgoing.framing),
    )
}

// Puts the head of the request to the origin, and its end if it was read whole before.
pub(crate) fn begin_request(
    alloc: Global,
    asked: &AskedRequest,
    fields: &[FieldLine],
    whole: bool,
    origin: &mut OriginConnection,
) -> Result<(), WriteError>
    ensures { MatchResult result
        (λ _. Begins asked.now (fields_of fields.now) whole origin.old origin.new)
        (λ error. RefusesBegin asked.now (fields_of fields.now) origin.old error origin.new) }
{
    put_request(alloc, asked, fields, origin)?;
    if whole {
        origin.end(&[])?;
    }
    Ok(())
}

// Puts the end of the request to the origin, with the trailer fields that are forwarded.
pub(crate) fn end_request(
    alloc: Global,
    gateway: &Gateway,
    asked: &AskedRequest,
    trailers: &HeaderMap,
    origin: &mut OriginConnection,
) -> Result<(), WriteError>
    ensures { MatchResult result (λ _. EndsRequest gateway.now asked.now trailers.now origin.old origin.new)
        (λ error. RefusesRequestEnd gateway.now asked.now trailers.now origin.old error origin.new) }
{
    let message = MessageHead {
        fields: &asked.head.fields,
        framing: asked.outgoing.framing,
    };
    let sent = forward_trailers(alloc, gateway, &message, trailers)?;
    let list = header_list(alloc, &sent)?;
    origin.end(&list)
}

// What is forwarded of a response, as one of this status.
pub(crate) fn judge(
    alloc: Global,
    gateway: &Gateway,
    asked: &AskedRequest,
    status: StatusCode,
    response: &OriginResponse,
    now: Date,
) -> Result<ResponseOutcome, AllocError>
    ensures { IfOk result (IsResponseOutcome gateway.now now (answered asked.now status response.now)) }
{
    let head = ResponseHead {
        protocol: protocol_of(response.minor),
        status,
        fields: &response.fields,
        method: &asked.head.method,
        client: protocol_of(asked.head.minor),
    };
    forward_response(alloc, gateway, &head, now)
}

// Puts an interim response to the client.
pub(crate) fn put_interim(
    alloc: Global,
    response: &OriginResponse,
    sent: &ForwardedResponse,
    client: &mut StreamConnection,
) -> Result<(), WriteError>
    ensures { MatchResult result (λ _. PutsInterim response.now sent.now client.old client.new)
        (λ error. RefusesInterim response.now sent.now client.old error client.new) }
{
    let headers = header_list(alloc, &sent.fields)?;
    client.interim(response.status, response.reason.as_slice(), &headers)
}

// Whether the gateway writes fields of this name.
fn is_own(name: &str) -> bool
    ensures { result ≡ list_any (bytes_eq name.now) own_names }
{
    name == "via"
        || name == "host"
        || name == "date"
        || name == "max-forwards"
        || name == "content-length"
        || name == "transfer-encoding"
}

fn is_hop_by_hop(name: &str) -> bool
    ensures { result ≡ list_any (bytes_eq name.now) hop_by_hop_fields }
{
    name == "connection"
        || name == "keep-alive"
        || name == "proxy-connection"
        || name == "te"
        || name == "transfer-encoding"
        || name == "upgrade"
}

fn is_addable(name: &str) -> bool
    ensures { result ≡ is_addable name.now }
{
    !(is_own(name) || is_hop_by_hop(name))
}

pub(crate) fn are_addable(fields: &[FieldLine]) -> bool
    ensures { result ≡ are_addable (fields_of fields.now) }
{
    fields.iter().all(|field| is_addable(field.name.as_str()))
}

// The field lines of the head of the final response.
fn head_lines<'a>(alloc: Global, heard: &'a Heard) -> Result<Vec<Header<'a>>, AllocError>
    ensures { IfOk result (λ list. pairs list.items ≡ head_lines heard.now) }
{
    let mut list = header_list(alloc, &heard.sent.fields)?;
    list.extend_from_slice(&header_list(alloc, &heard.added)?)?;
    Ok(list)
}

// Puts the head of the final response to the client.
pub(crate) fn put_response(
    alloc: Global,
    heard: &Heard,
    is_last: bool,
    client: &mut StreamConnection,
) -> Result<(), WriteError>
    ensures { MatchResult result (λ _. PutsResponse is_last heard.now client.old client.new)
        (λ error. RefusesResponse is_last heard.now client.old error client.new) }
{
    let mut headers = head_lines(alloc, heard)?;
    close_if(is_last, &mut headers)?;
    client.respond(
        heard.response.status,
        heard.response.reason.as_slice(),
        &headers,
        response_size(heard.sent.content),
    )
}

// Puts the end of the response to the client, with the trailer fields that are forwarded.
pub(crate) fn end_response(
    alloc: Global,
    gateway: &Gateway,
    heard: &Heard,
    trailers: &HeaderMap,
    client: &mut StreamConnection,
) -> Result<(), WriteError>
    ensures { MatchResult result (λ _. EndsResponse gateway.now heard.now trailers.now client.old client.new)
        (λ error. RefusesResponseEnd gateway.now heard.now trailers.now client.old error client.new) }
{
    let message = MessageHead {
        fields: &heard.response.fields,
        framing: heard.sent.framing,
    };
    let sent = forward_trailers(alloc, gateway, &message, trailers)?;
    let list = header_list(alloc, &sent)?;
    client.end(&list)
}

// What is forwarded of a 101 to an opening handshake: what is of a response without content, and the fields
// of the new protocol (RFC 9110, section 7.8).
fn switching_fields(alloc: Global, sent: ForwardedResponse) -> Result<Vec<FieldLine>, AllocError>
    ensures { IfOk result (λ fields. fields_of fields.items ≡ switching_fields (fields_of sent.fields.items)) }
{
    let websocket = HeaderValue::from_static("websocket");
    let own = next_connection(Some(&websocket)).fields(alloc)?;
    replace_fields(alloc, sent.fields, own)
}

// The fields of a response that ends HTTP: of a 101 to an opening handshake, or of a 2xx to CONNECT.
pub(crate) fn switched_fields(
    alloc: Global,
    gateway: &Gateway,
    asked: &AskedRequest,
    response: &OriginResponse,
    now: Date,
) -> Result<Vec<FieldLine>, Own>
    ensures ok { IfOk result (λ fields.
        IsSwitched gateway.now now asked.now response.now (fields_of fields.items)) }
    ensures err { IfErr result (IsUnswitched gateway.now asked.now response.now) }
{
    if response.status != StatusCode::SWITCHING_PROTOCOLS {
        return match judge(alloc, gateway, asked, response.status, response, now) {
            Ok(ResponseOutcome::Forward(sent)) => Ok(sent.fields),
            Ok(ResponseOutcome::Reject(rejection)) => Err(Own::Response(rejection)),
            Ok(ResponseOutcome::Discard) | Err(_) => Err(Own::OutOfMemory),
        };
    }
    if check(&asked.head.fields, response.status, &response.fields) != Checked::Open {
        return Err(Own::Response(Rejection::SwitchedProtocols));
    }
    match judge(alloc, gateway, asked, StatusCode::NO_CONTENT, response, now) {
        Ok(ResponseOutcome::Forward(sent)) => match switching_fields(alloc, sent) {
            Ok(fields) => Ok(fields),
            Err(_) => Err(Own::OutOfMemory),
        },
        Ok(ResponseOutcome::Reject(rejection)) => Err(Own::Response(rejection)),
        Ok(ResponseOutcome::Discard) | Err(_) => Err(Own::OutOfMemory),
    }
}

// Puts the response that ends HTTP to the client.
pub(crate) fn put_switch(
    alloc: Global,
    response: &OriginResponse,
    fields: &[FieldLine],
    client: &mut StreamConnection,
) -> Result<(), WriteError>
    ensures { MatchResult result (λ _. PutsSwitch response.now (fields_of fields.now) client.old client.new)
        (λ error. RefusesSwitch response.now (fields_of fields.now) client.old error client.new) }
{
    let headers = header_list(alloc, fields)?;
    client.switch(response.status, response.reason.as_slice(), &headers)
}

fn copies(alloc: Global, fields: &[FieldLine]) -> Result<Vec<FieldLine>, AllocError>
    ensures { IfOk result (λ list. fields_of list.items ≡ fields_of fields.now) }
{
    let mut list = Vec::with_capacity(alloc, fields.len())?;
    for field in fields {
        list.push(FieldLine {
            name: field.name.clone()?,
            value: field.value.clone()?,
        })?;
    }
    Ok(list)
}

fn encoded(
    alloc: Global,
    name: HeaderName,
    value: Option<HeaderValue>,
) -> Result<Encoded, AllocError>
    ensures { IfOk result (λ field. field_of field ≡
        (name, option_to_list (option_map (λ line. line.bytes) value))) }
{
    let mut lines = Vec::new(alloc);
    if let Some(value) = value {
        lines.push(value)?;
    }
    Ok(Encoded { name, lines })
}

// The fields with these conditions in place of their own.
pub(crate) fn with_conditions(
    alloc: Global,
    fields: &[FieldLine],
    etags: Option<HeaderValue>,
    since: Option<HeaderValue>,
) -> Result<Vec<FieldLine>, AllocError>
    ensures { IfOk result (λ list. fields_of list.items ≡ with_conditions etags since (fields_of fields.now)) }
{
    let own = vec![in alloc;
        encoded(alloc, IF_NONE_MATCH, etags)?,
        encoded(alloc, IF_MODIFIED_SINCE, since)?,
    ]?;
    replace_fields(alloc, copies(alloc, fields)?, own)
}
