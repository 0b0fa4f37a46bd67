//! What a gateway sends of a request on its next connection.
ghost use Rattle.std.specs.Prelude.{◌≡◌, IfOk};
ghost use Rattle.gateway_messages.specs.Requests.{request_of};
ghost use Rattle.c_gateway.{specs.Lines.lines_text, specs.Requests.{IsOutcomeAt, IsShownRequest, IsStepAt}};
ghost use Rattle.c_gateway.specs.Requests.{PassesRequest, rejected, request_facts, sent_lines};

use crate::content::{ContentFacts, content_facts, request_content};
use crate::gateway::{GatewayOptions, read_gateway};
use crate::hop::{HopOptions, Nodes, arrival_of, connection_of, forwarding_of, read_nodes};
use crate::lines::lines_text;
use crate::protocol::read_protocol;
use crate::reason::reason_number;
use c_decisions::{RequestTexts, flag_of, optional_value, read_method};
use c_parts::{Failure, HashKeys, read_map};
use gateway_hops::{HopOutcome, send_request};
use gateway_messages::{Expectation, Gateway, Protocol, ReceivedRequest};
use std::alloc::{AllocError, Global};

/// What a gateway does with a request.
#[repr(C)]
#[derive(Clone, Copy)]
pub struct RequestFacts {
    /// How its content is delimited, as received and as sent.
    pub content: ContentFacts,
    /// The status with which it is rejected, or 0.
    pub status: u16,
    /// 0 if it is forwarded, 1 if the gateway responds as its final recipient, 2 if it is rejected.
    pub action: u8,
    /// Why it is rejected, 1 to 13, or 0.
    pub reason: u8,
    /// 1 if the gateway sends the 100 (Continue) that the client waits for, else 0.
    pub sends_continue: u8,
}

/// What a gateway does with a request, and the field lines that it sends.
#[derive(Drop)]
pub struct RequestStep {
    pub facts: RequestFacts,
    pub text: Vec<u8>,
}

/// What a gateway does with a request that it received in this version (RFC 9110, section 7.6). The
/// authority is that of a target in absolute-form, or empty (RFC 9112, section 3.2.2).
pub fn pass_request(
    alloc: Global,
    gateway: &GatewayOptions<'_>,
    hop: &HopOptions<'_>,
    request: &RequestTexts<'_>,
    version: u8,
    authority: &[u8],
    keys: &HashKeys,
) -> Result<RequestStep, Failure>
    ensures { PassesRequest gateway.entry.now hop.entry.now request.now version authority.now result }
{
    let server = read_protocol(hop.server_version)?;
    let protocol = read_protocol(version)?;
    let gateway = read_gateway(alloc, gateway)?;
    let nodes = read_nodes(alloc, hop)?;
    let method = read_method(alloc, request.method)?;
    let authority = optional_value(alloc, authority)?;
    let fields = read_map(alloc, request.section, keys)?;
    let head = ReceivedRequest {
        protocol,
        method: &method,
        authority: authority.as_ref(),
        fields: &fields,
    };
    Ok(step_of(alloc, &gateway, hop, &nodes, server, &head)?)
}

// What the gateway does with a request, which arrived so.
fn step_of(
    alloc: Global,
    gateway: &Gateway,
    hop: &HopOptions<'_>,
    nodes: &Nodes,
    server: Protocol,
    head: &ReceivedRequest<'_>,
) -> Result<RequestStep, AllocError>
    ensures { IfOk result (IsStepAt gateway.now hop.entry.now nodes.now server (request_of head.now)) }
{
    let outcome = decide(alloc, gateway, hop, nodes, server, head)?;
    show(alloc, &outcome)
}

fn decide(
    alloc: Global,
    gateway: &Gateway,
    hop: &HopOptions<'_>,
    nodes: &Nodes,
    server: Protocol,
    head: &ReceivedRequest<'_>,
) -> Result<HopOutcome, AllocError>
    ensures { IfOk result (IsOutcomeAt gateway.now hop.entry.now nodes.now server (request_of head.now)) }
{
    let arrival = arrival_of(hop, nodes, head.authority, head.fields);
    send_request(
        alloc,
        gateway,
        server,
        &connection_of(hop),
        forwarding_of(hop),
        &arrival,
        head,
    )
}

fn rejected(status: u16, reason: u8) -> RequestFacts
    ensures { result ≡ rejected status reason }
{
    RequestFacts {
        content: ContentFacts { length: 0, kind: 0 },
        status,
        action: 2,
        reason,
        sends_continue: 0,
    }
}

fn request_facts(outcome: &HopOutcome) -> RequestFacts
    ensures { result ≡ request_facts outcome.now }
{
    match outcome {
        HopOutcome::Send(sent) => RequestFacts {
            content: content_facts(request_content(sent.framing)),
            status: 0,
            action: 0,
            reason: 0,
            sends_continue: flag_of(sent.expectation == Expectation::Answered),
        },
        HopOutcome::RequireLength => rejected(411, 13),
        HopOutcome::Respond(framing) => RequestFacts {
            content: content_facts(request_content(*framing)),
            status: 0,
            action: 1,
            reason: 0,
            sends_continue: 0,
        },
        HopOutcome::Reject(rejection) => rejected(rejection.status(), reason_number(*rejection)),
    }
}

fn sent_text(alloc: Global, outcome: &HopOutcome) -> Result<Vec<u8>, AllocError>
    ensures { IfOk result (λ text. text.items ≡ lines_text (sent_lines outcome.now)) }
{
    match outcome {
        HopOutcome::Send(sent) => lines_text(alloc, sent.fields.as_slice()),
        _ => Ok(Vec::new(alloc)),
    }
}

fn show(alloc: Global, outcome: &HopOutcome) -> Result<RequestStep, AllocError>
    ensures { IfOk result (IsShownRequest outcome.now) }
{
    let text = sent_text(alloc, outcome)?;
    Ok(RequestStep {
        facts: request_facts(outcome),
        text,
    })
}
