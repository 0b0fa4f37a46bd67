//! What a gateway does with a request.
ghost use Rattle.std.specs.Prelude.{IfErr, IfOk, OnErr};
ghost use Rattle.gateway_messages.specs.Requests.{IsAccepted, IsForwardable, IsOutcome, Rejects, request_of};

use crate::expectation::has_known_expectation;
use crate::field_line::FieldLine;
use crate::framing::{Framing, stated_framing};
use crate::gateway::Gateway;
use crate::hops::{hops_of, one_less};
use crate::host::has_host;
use crate::message::{check_options, forwarded_fields};
use crate::own::Own;
use crate::protocol::Protocol;
use crate::rejection::Rejection;
use headers::{HeaderMap, HeaderValue};
use http::Method;
use rfc_fields::Malformed;
use std::alloc::{AllocError, Global};

/// A request as a gateway receives it, without its content.
#[derive(Clone, Copy)]
pub struct ReceivedRequest<'a> {
    /// The version of HTTP.
    pub protocol: Protocol,
    /// The method.
    pub method: &'a Method,
    /// The authority of its target, if that is in absolute-form (RFC 9112, section 3.2.2).
    pub authority: Option<&'a HeaderValue>,
    /// The fields.
    pub fields: &'a HeaderMap,
}

/// A request as it is forwarded, without its content.
#[derive(Debug, Drop)]
pub struct ForwardedRequest {
    /// How the content is delimited, as received and as sent. A request of which nothing is stated has
    /// no content (RFC 9112, section 6.3).
    pub framing: Framing,
    /// How often it may still be forwarded, if Max-Forwards limits it.
    pub hops: Option<u64>,
    /// The fields.
    pub fields: Vec<FieldLine>,
}

/// What a gateway does with a request.
#[derive(Debug, Drop)]
pub enum RequestOutcome {
    /// It forwards it.
    Forward(ForwardedRequest),
    /// It responds as the final recipient, since the request may not be forwarded further (RFC
    /// 9110, section 7.6.2). The framing is that of the request's content.
    Respond(Framing),
    /// It rejects it.
    Reject(Rejection),
}

// What the fields of an accepted request state about its content.
fn accepted_request(gateway: &Gateway, request: &ReceivedRequest<'_>) -> Result<Framing, Rejection>
    ensures ok { IfOk result (IsAccepted gateway.now (request_of request.now)) }
    ensures err { IfErr result (Rejects gateway.now (request_of request.now)) }
{
    if !has_host(request.protocol, request.fields) {
        return Err(Rejection::InvalidHost);
    }
    if gateway.pseudonym.is_in_via(request.fields) {
        return Err(Rejection::Loop);
    }
    check_options(gateway, request.fields)?;
    if !has_known_expectation(request.fields) {
        return Err(Rejection::UnknownExpectation);
    }
    stated_framing(request.protocol, request.fields)
}

/// Decides what a gateway does with a request (RFC 9110, section 7.6; RFC 9112, section 6). Fails
/// only if an allocation fails, which is possible only if the request may be forwarded.
pub fn forward_request(
    alloc: Global,
    gateway: &Gateway,
    request: &ReceivedRequest<'_>,
) -> Result<RequestOutcome, AllocError>
    ensures ok { IfOk result (IsOutcome gateway.now (request_of request.now)) }
    ensures err { OnErr result (IsForwardable gateway.now (request_of request.now)) }
{
    let framing = match accepted_request(gateway, request) {
        Ok(framing) => framing,
        Err(rejection) => return Ok(RequestOutcome::Reject(rejection)),
    };
    let received = match hops_of(request.method, request.fields) {
        Ok(received) => received,
        Err(Malformed) => return Ok(RequestOutcome::Reject(Rejection::InvalidHops)),
    };
    let Some(hops) = one_less(received) else {
        return Ok(RequestOutcome::Respond(framing));
    };
    let own = Own {
        protocol: request.protocol,
        host: request.authority,
        date: None,
        hops,
        framing,
    };
    let fields = forwarded_fields(alloc, gateway, &own, request.fields)?;
    Ok(RequestOutcome::Forward(ForwardedRequest {
        framing,
        hops,
        fields,
    }))
}
