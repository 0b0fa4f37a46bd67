//! What a gateway forwards of a response.
ghost use Rattle.std.specs.Prelude.{◌≡◌, IfOk};
ghost use Rattle.gateway_messages.specs.Responses.{response_of};
ghost use Rattle.c_gateway.{specs.Lines.lines_text, specs.Responses.{IsShownResponse, IsStepAt, PassesResponse}};
ghost use Rattle.c_gateway.specs.Responses.{forwarded_lines, response_facts, without_content};

use crate::content::{ContentFacts, content_facts, sent_content};
use crate::date::read_date;
use crate::framing::MessageParts;
use crate::gateway::{GatewayOptions, read_gateway};
use crate::lines::lines_text;
use crate::protocol::read_protocol;
use crate::reason::reason_number;
use c_decisions::{read_method, read_status};
use c_parts::{Failure, HashKeys, read_map};
use gateway_messages::{Gateway, ResponseHead, ResponseOutcome, forward_response};
use headers::Date;
use std::alloc::{AllocError, Global};

/// What a gateway does with a response.
#[repr(C)]
#[derive(Clone, Copy)]
pub struct ForwardedFacts {
    /// How its content is delimited as received.
    pub received: ContentFacts,
    /// How it is delimited as sent.
    pub sent: ContentFacts,
    /// The status that takes the place of a rejected response, or 0.
    pub status: u16,
    /// 0 if it is forwarded, 2 if it is rejected, 3 if it is dropped.
    pub action: u8,
    /// Why it is rejected, 1 to 12, or 0.
    pub reason: u8,
}

/// What a gateway does with a response, and the field lines that it sends.
#[derive(Drop)]
pub struct ResponseStep {
    pub facts: ForwardedFacts,
    pub text: Vec<u8>,
}

/// What a gateway does with a response that it received at this second since 1970 (RFC 9110, section 7.6). The
/// client's version is that of the request.
pub fn pass_response(
    alloc: Global,
    gateway: &GatewayOptions<'_>,
    response: &MessageParts<'_>,
    keys: &HashKeys,
    client_version: u8,
    received: u64,
) -> Result<ResponseStep, Failure>
    ensures { PassesResponse gateway.entry.now response.now client_version received result }
{
    let status = read_status(response.status)?;
    let protocol = read_protocol(response.version)?;
    let client = read_protocol(client_version)?;
    let date = read_date(received)?;
    let gateway = read_gateway(alloc, gateway)?;
    let method = read_method(alloc, response.method)?;
    let fields = read_map(alloc, response.section, keys)?;
    let head = ResponseHead {
        protocol,
        status,
        fields: &fields,
        method: &method,
        client,
    };
    Ok(step_of(alloc, &gateway, &head, date)?)
}

// What the gateway does with a response.
fn step_of(
    alloc: Global,
    gateway: &Gateway,
    head: &ResponseHead<'_>,
    date: Date,
) -> Result<ResponseStep, AllocError>
    ensures { IfOk result (IsStepAt gateway.now date (response_of head.now)) }
{
    let outcome = forward_response(alloc, gateway, head, date)?;
    show(alloc, &outcome)
}

fn without_content(status: u16, action: u8, reason: u8) -> ForwardedFacts
    ensures { result ≡ without_content status action reason }
{
    let none = ContentFacts { length: 0, kind: 0 };
    ForwardedFacts {
        received: none,
        sent: none,
        status,
        action,
        reason,
    }
}

fn response_facts(outcome: &ResponseOutcome) -> ForwardedFacts
    ensures { result ≡ response_facts outcome.now }
{
    match outcome {
        ResponseOutcome::Forward(sent) => ForwardedFacts {
            received: content_facts(sent.content),
            sent: content_facts(sent_content(sent.content, sent.framing)),
            status: 0,
            action: 0,
            reason: 0,
        },
        ResponseOutcome::Discard => without_content(0, 3, 0),
        ResponseOutcome::Reject(rejection) => without_content(502, 2, reason_number(*rejection)),
    }
}

fn forwarded_text(alloc: Global, outcome: &ResponseOutcome) -> Result<Vec<u8>, AllocError>
    ensures { IfOk result (λ text. text.items ≡ lines_text (forwarded_lines outcome.now)) }
{
    match outcome {
        ResponseOutcome::Forward(sent) => lines_text(alloc, sent.fields.as_slice()),
        _ => Ok(Vec::new(alloc)),
    }
}

fn show(alloc: Global, outcome: &ResponseOutcome) -> Result<ResponseStep, AllocError>
    ensures { IfOk result (IsShownResponse outcome.now) }
{
    let text = forwarded_text(alloc, outcome)?;
    Ok(ResponseStep {
        facts: response_facts(outcome),
        text,
    })
}
