//! What is done with a request, as data.
ghost use Rattle.std.specs.Prelude.{◌≡◌, find, IfOk, None, Some, if◌then◌else◌, option_copied, option_map};
ghost use Rattle.gateway_hops.specs.Sent.{IsHopOutcome};
ghost use Rattle.gateway_exchange.specs.Decisions.{IsDecision, IsDecisionFor, IsConnectDecision, IsOutgoing};
ghost use Rattle.gateway_exchange.specs.Decisions.{OpensWebsocket, asked, is_host_line, next_hop, takes_over};
ghost use Rattle.gateway_exchange.specs.Decisions.{value_or_none, version_of};

use crate::authority::{given_authority, host_value};
use crate::message::protocol_of;
use crate::own::Own;
use crate::rules::{GatewayRules, Peer, next_connection};
use crate::target::{origin_form, target_of};
use bytes::Bytes;
use decide_handshake::{HandshakeAnswer, Origins, accept};
use gateway_hops::{HopOutcome, SentRequest, replace_fields, send_request};
use gateway_messages::{Expectation, FieldLine, Framing, Protocol, ReceivedRequest};
use headers::HeaderValue;
use http::Version;
use server_stream::StreamRequest;
use std::alloc::{AllocError, Global};
use std::hash::RandomState;

/// The head of a request as it is sent to an origin server, but for its method.
#[derive(Debug, Drop)]
pub struct Outgoing {
    /// The target.
    pub target: Bytes,
    /// How the content is delimited, as received and as sent.
    pub framing: Framing,
    /// Who sends the 100 (Continue) that the client waits for.
    pub expectation: Expectation,
    /// The fields.
    pub fields: Vec<FieldLine>,
}

/// A request that may be forwarded.
#[derive(Debug, Drop)]
pub struct AskedRequest {
    /// Its head as received.
    pub head: StreamRequest,
    /// Its head as sent.
    pub outgoing: Outgoing,
}

impl AskedRequest {
    /// The host that the request is for, and maybe a port: the Host that is sent.
    pub fn authority(&self) -> &[u8]
        ensures { result.now ≡ value_or_none (find is_host_line self.now.outgoing.fields.items) }
    {
        match host_line(self.outgoing.fields.as_slice()) {
            Some(field) => field.value.as_bytes(),
            None => &[],
        }
    }
}

// The first field line of Host.
fn host_line(fields: &[FieldLine]) -> Option<&FieldLine>
    ensures { option_copied result ≡ find is_host_line fields.now }
{
    fields.iter().find(|field| field.name.as_str() == "host")
}

/// What is done with a request.
#[derive(Debug, Drop)]
pub(crate) enum RequestDecision {
    /// The gateway answers it itself.
    Answer(Own),
    /// It may be sent.
    Send(Outgoing),
}

/// The version of HTTP with this minor version.
fn version_of(minor: u8) -> Version
    ensures { result ≡ version_of minor }
{
    if minor == 0 {
        Version::HTTP_10
    } else {
        Version::HTTP_11
    }
}

// Whether the request is an opening handshake of a WebSocket that goes on as one.
fn opens_websocket(
    alloc: Global,
    rules: &GatewayRules,
    request: &StreamRequest,
) -> Result<bool, AllocError>
    ensures { IfOk result (OpensWebsocket rules.now request.now) }
{
    if !rules.passes_websocket {
        return Ok(false);
    }
    let answer = accept(
        alloc,
        &request.method,
        version_of(request.minor),
        &request.fields,
        &[],
        &Origins::any(),
    )?;
    match answer {
        HandshakeAnswer::Switch(..) => Ok(true),
        _ => Ok(false),
    }
}

// Whether the gateway sends the 100 (Continue) that would be the origin's.
fn takes_over(answers: bool, expectation: Expectation) -> bool
    ensures { result ≡ takes_over answers expectation }
{
    match (answers, expectation) {
        (true, Expectation::Forwarded) => true,
        _ => false,
    }
}

// The request as the origin server gets it, without Expect if the gateway answers that itself.
fn outgoing_of(
    alloc: Global,
    rules: &GatewayRules,
    target: Bytes,
    sent: SentRequest,
) -> Result<Outgoing, AllocError>
    ensures { IfOk result (IsOutgoing rules.now sent target) }
{
    if takes_over(rules.answers_expect, sent.expectation) {
        let own = Expectation::Answered.fields(alloc)?;
        return Ok(Outgoing {
            target,
            framing: sent.framing,
            expectation: Expectation::Answered,
            fields: replace_fields(alloc, sent.fields, own)?,
        });
    }
    Ok(Outgoing {
        target,
        framing: sent.framing,
        expectation: sent.expectation,
        fields: sent.fields,
    })
}

// What goes on the next connection, which offers this protocol, if there is one.
fn outcome_of(
    alloc: Global,
    rules: &GatewayRules,
    peer: &Peer,
    request: &StreamRequest,
    authority: Option<&HeaderValue>,
    upgrade: Option<&HeaderValue>,
) -> Result<HopOutcome, AllocError>
    ensures { IfOk result (IsHopOutcome rules.now.gateway
        (next_hop rules.now peer.now (option_map (λ value. value.now.bytes) upgrade.entry))
        (asked rules.now request.now (option_map (λ value. value.now.bytes) authority.entry))) }
{
    let head = ReceivedRequest {
        protocol: protocol_of(request.minor),
        method: &request.method,
        authority: given_authority(&rules.authority, &request.fields, authority),
        fields: &request.fields,
    };
    send_request(
        alloc,
        &rules.gateway,
        Protocol::Http11,
        &next_connection(upgrade),
        rules.forwarding,
        &peer.arrival(),
        &head,
    )
}

// The protocol that the next connection offers.
fn offered(opens: bool, websocket: &HeaderValue) -> Option<&HeaderValue>
    ensures { option_map (λ value. value.now.bytes) result ≡ (if opens then Some websocket.now.bytes else None) }
{
    if opens { Some(websocket) } else { None }
}

// What is done with a request that has this target and this authority, if it is sent so.
fn decide_for(
    alloc: Global,
    rules: &GatewayRules,
    peer: &Peer,
    request: &StreamRequest,
    authority: Option<&HeaderValue>,
    target: Bytes,
) -> Result<RequestDecision, AllocError>
    ensures { IfOk result (IsDecisionFor rules.now peer.now request.now
        (option_map (λ value. value.now.bytes) authority.entry) target) }
{
    let websocket = HeaderValue::from_static("websocket");
    let opens = opens_websocket(alloc, rules, request)?;
    let upgrade = offered(opens, &websocket);
    let outcome = outcome_of(alloc, rules, peer, request, authority, upgrade)?;
    match outcome {
        HopOutcome::Send(sent) => Ok(RequestDecision::Send(outgoing_of(
            alloc, rules, target, sent,
        )?)),
        HopOutcome::RequireLength => Ok(RequestDecision::Answer(Own::LengthRequired)),
        HopOutcome::Respond(_) => Ok(RequestDecision::Answer(Own::FinalRecipient)),
        HopOutcome::Reject(rejection) => Ok(RequestDecision::Answer(Own::Rejected(rejection))),
    }
}

// What is done with CONNECT, whose target is the authority (RFC 9112, section 3.2.3).
fn decide_connect(
    alloc: Global,
    keys: RandomState,
    rules: &GatewayRules,
    peer: &Peer,
    request: &StreamRequest,
) -> Result<RequestDecision, AllocError>
    ensures { IfOk result (IsConnectDecision rules.now.passes_connect rules.now peer.now request.now) }
{
    if !rules.passes_connect {
        return Ok(RequestDecision::Answer(Own::Connect));
    }
    let target = request.target.as_slice();
    match host_value(alloc, keys, target)? {
        Some(host) => {
            let sent = Bytes::copy_from_slice(alloc, target)?;
            decide_for(alloc, rules, peer, request, Some(&host), sent)
        }
        None => Ok(RequestDecision::Answer(Own::InvalidTarget)),
    }
}

/// What is done with a request. The keys are for a header map. Fails only if an allocation fails.
pub(crate) fn decide(
    alloc: Global,
    keys: RandomState,
    rules: &GatewayRules,
    peer: &Peer,
    request: &StreamRequest,
) -> Result<RequestDecision, AllocError>
    ensures { IfOk result (IsDecision rules.now peer.now request.now) }
{
    if request.method.as_str() == "CONNECT" {
        return decide_connect(alloc, keys, rules, peer, request);
    }
    let is_options = request.method.as_str() == "OPTIONS";
    let Some(target) = target_of(is_options, request.target.as_slice()) else {
        return Ok(RequestDecision::Answer(Own::InvalidTarget));
    };
    let sent = origin_form(alloc, is_options, &target)?;
    let Some(authority) = target.authority else {
        return decide_for(alloc, rules, peer, request, None, sent);
    };
    match host_value(alloc, keys, authority)? {
        Some(host) => decide_for(alloc, rules, peer, request, Some(&host), sent),
        None => Ok(RequestDecision::Answer(Own::InvalidTarget)),
    }
}
