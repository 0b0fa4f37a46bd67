//! What a gateway does with a response.
ghost use Rattle.std.specs.Prelude.{◌≡◌, IfErr, IfOk, OnErr};
ghost use Rattle.headers.specs.LineMap.{lines_at};
ghost use Rattle.gateway_messages.specs.Responses.{DelimitsContent, IsAcceptedResponse, IsForwardableResponse};
ghost use Rattle.gateway_messages.specs.Responses.{IsResponseOutcome, RejectsContent, RejectsResponse, StatesUnless};
ghost use Rattle.gateway_messages.specs.Responses.{content_of, date_if_absent, has_no_content, is_interim, is_tunnel};
ghost use Rattle.gateway_messages.specs.Responses.{response_of, sent_framing, states_nothing};

use crate::field_line::FieldLine;
use crate::framing::{Framing, stated_framing};
use crate::gateway::Gateway;
use crate::message::{check_options, forwarded_fields};
use crate::own::Own;
use crate::protocol::Protocol;
use crate::rejection::Rejection;
use headers::{Date, HeaderMap};
use http::{Method, StatusCode};
use http_header::DATE;
use std::alloc::{AllocError, Global};

/// A response as a gateway receives it, without its content, and what it answers.
#[derive(Clone, Copy)]
pub struct ResponseHead<'a> {
    /// The version of HTTP.
    pub protocol: Protocol,
    /// The status code.
    pub status: StatusCode,
    /// The fields.
    pub fields: &'a HeaderMap,
    /// The method of the request.
    pub method: &'a Method,
    /// The version of HTTP in which the client sent the request.
    pub client: Protocol,
}

/// How the content of a received response is delimited (RFC 9112, section 6.3).
#[derive(Clone, Copy, Debug, PartialEq, Eq)]
pub enum ContentFraming {
    /// The connection is a tunnel from here on: the response is a 2xx to CONNECT.
    Tunnel,
    /// It has no content, whatever its fields state.
    Absent,
    /// This many bytes.
    Length(u64),
    /// Sent in chunks.
    Chunked,
    /// All bytes until the server closes the connection.
    UntilClose,
}

/// A response as it is forwarded, without its content.
#[derive(Debug, Drop)]
pub struct ForwardedResponse {
    /// How the content is delimited as received.
    pub content: ContentFraming,
    /// What the forwarded fields state. Where it is nothing and there is content, it ends with the
    /// connection, which the gateway has to close.
    pub framing: Framing,
    /// The fields.
    pub fields: Vec<FieldLine>,
}

/// What a gateway does with a response.
#[derive(Debug, Drop)]
pub enum ResponseOutcome {
    /// It forwards it.
    Forward(ForwardedResponse),
    /// It drops the response: an interim response, which a client of HTTP/1.0 doesn't understand
    /// (RFC 9110, section 15.2).
    Discard,
    /// It rejects it, and responds with 502 (Bad Gateway) in its place, if the response is final.
    Reject(Rejection),
}

// Whether the status is interim: 1xx.
fn is_interim(status: StatusCode) -> bool
    ensures { result ≡ is_interim status }
{
    let status = status.as_u16();
    100 <= status && status < 200
}

// Whether the response turns the connection into a tunnel.
fn is_tunnel(method: &Method, status: StatusCode) -> bool
    ensures { result ≡ is_tunnel method.now status }
{
    let status = status.as_u16();
    method.as_str() == "CONNECT" && 200 <= status && status < 300
}

// Whether the response has no content, whatever its fields state.
fn has_no_content(method: &Method, status: StatusCode) -> bool
    ensures { result ≡ has_no_content method.now status }
{
    method.as_str() == "HEAD"
        || is_interim(status)
        || status.as_u16() == 204
        || status.as_u16() == 304
}

// Whether the fields of the response mustn't state how the content is delimited, and are ignored.
fn states_nothing(method: &Method, status: StatusCode) -> bool
    ensures { result ≡ states_nothing method.now status }
{
    is_tunnel(method, status) || is_interim(status) || status.as_u16() == 204
}

// How the content is delimited, if this is stated.
fn content_of(method: &Method, status: StatusCode, framing: Framing) -> ContentFraming
    ensures { result ≡ content_of method.now status framing }
{
    if is_tunnel(method, status) {
        return ContentFraming::Tunnel;
    }
    if has_no_content(method, status) {
        return ContentFraming::Absent;
    }
    match framing {
        Framing::Unstated => ContentFraming::UntilClose,
        Framing::Length(bytes) => ContentFraming::Length(bytes),
        Framing::Chunked => ContentFraming::Chunked,
    }
}

// What the fields state about the content, or nothing where they are ignored.
fn heeded_framing(
    protocol: Protocol,
    method: &Method,
    status: StatusCode,
    fields: &HeaderMap,
) -> Result<Framing, Rejection>
    ensures ok { IfOk result (StatesUnless (states_nothing method.now status) protocol (lines_at fields.now)) }
    ensures err { IfErr result (RejectsContent protocol method.now status (lines_at fields.now)) }
{
    if states_nothing(method, status) {
        return Ok(Framing::Unstated);
    }
    stated_framing(protocol, fields)
}

/// Returns how the content of a response is delimited (RFC 9112, section 6.3). The method is that
/// of the request.
pub fn response_content(
    protocol: Protocol,
    method: &Method,
    status: StatusCode,
    fields: &HeaderMap,
) -> Result<ContentFraming, Rejection>
    ensures ok { IfOk result (DelimitsContent protocol method.now status (lines_at fields.now)) }
    ensures err { IfErr result (RejectsContent protocol method.now status (lines_at fields.now)) }
{
    let framing = heeded_framing(protocol, method, status, fields)?;
    Ok(content_of(method, status, framing))
}

// What is stated to the client: one of HTTP/1.0 doesn't know chunks.
fn sent_framing(client: Protocol, framing: Framing) -> Framing
    ensures { result ≡ sent_framing client framing }
{
    match (client, framing) {
        (Protocol::Http10, Framing::Chunked) => Framing::Unstated,
        _ => framing,
    }
}

// The date, if the response has none.
fn date_if_absent(fields: &HeaderMap, date: Date) -> Option<Date>
    ensures { result ≡ date_if_absent date (lines_at fields.now) }
{
    match fields.get_all(DATE).iter().next() {
        Some(_) => None,
        None => Some(date),
    }
}

// What the fields of an accepted response state about its content.
fn accepted_response(gateway: &Gateway, response: &ResponseHead<'_>) -> Result<Framing, Rejection>
    ensures ok { IfOk result (IsAcceptedResponse gateway.now (response_of response.now)) }
    ensures err { IfErr result (RejectsResponse gateway.now (response_of response.now)) }
{
    if response.status.as_u16() == 101 {
        return Err(Rejection::SwitchedProtocols);
    }
    check_options(gateway, response.fields)?;
    heeded_framing(
        response.protocol,
        response.method,
        response.status,
        response.fields,
    )
}

/// Decides what a gateway does with a response that it receives at this date (RFC 9110, section
/// 7.6). Fails only if an allocation fails, which is possible only if the response may be
/// forwarded.
pub fn forward_response(
    alloc: Global,
    gateway: &Gateway,
    response: &ResponseHead<'_>,
    date: Date,
) -> Result<ResponseOutcome, AllocError>
    ensures ok { IfOk result (IsResponseOutcome gateway.now date (response_of response.now)) }
    ensures err { OnErr result (IsForwardableResponse gateway.now (response_of response.now)) }
{
    let stated = match accepted_response(gateway, response) {
        Ok(framing) => framing,
        Err(rejection) => return Ok(ResponseOutcome::Reject(rejection)),
    };
    if is_interim(response.status) && response.client == Protocol::Http10 {
        return Ok(ResponseOutcome::Discard);
    }
    let framing = sent_framing(response.client, stated);
    let own = Own {
        protocol: response.protocol,
        host: None,
        date: date_if_absent(response.fields, date),
        hops: None,
        framing,
    };
    let fields = forwarded_fields(alloc, gateway, &own, response.fields)?;
    Ok(ResponseOutcome::Forward(ForwardedResponse {
        content: content_of(response.method, response.status, stated),
        framing,
        fields,
    }))
}
