//! The whole response to a request for a representation.
ghost use Rattle.std.specs.Prelude.{◌≡◌, IfOk, map};
ghost use Rattle.decide_preconditions.specs.Plans.{parts_sent};
ghost use Rattle.c_decisions.{specs.Responses.{IsShownAnswer, IsShownResponse, Responds}, specs.Selection.range_of};

use crate::content::{ContentParts, boundary_of, content_of};
use crate::field_lines::fields_text;
use crate::flag::flag_of;
use crate::method::read_method;
use crate::request::RequestTexts;
use crate::selection::{BytesRange, range_of, ranges_of};
use crate::target::{TargetFacts, read_resource};
use c_parts::{Failure, HashKeys, read_map};
use decide_preconditions::{Plan, RequestHead, Response, Sending, is_known_by, respond};
use std::alloc::{AllocError, Global};

/// The response to a request for a representation, as numbers.
#[repr(C)]
#[derive(Clone, Copy)]
pub struct ResponseFacts {
    /// The status: 200, 206, 304, 412 or 416. 0 if the server performs the method, and answers by
    /// itself.
    pub status: u16,
    /// 1 if a Content-Encoding that the server has set stays, 0 if it is removed. Content-Digest and
    /// Content-MD5 are removed unless the status is 200 or 0.
    pub keeps_encoding: u8,
}

/// The response to a request for a representation: its facts, its parts if it doesn't send all, and
/// its field lines.
#[derive(Drop)]
pub struct Responded {
    pub facts: ResponseFacts,
    pub parts: Vec<BytesRange>,
    pub text: Vec<u8>,
}

/// The response to a request for a representation, by its preconditions and its ranges (RFC 9110,
/// sections 13.2.2 and 14.2), within the usual limits.
pub fn respond_to(
    alloc: Global,
    request: &RequestTexts<'_>,
    keys: &HashKeys,
    target: &TargetFacts<'_>,
    parts: &ContentParts<'_>,
) -> Result<Responded, Failure>
    ensures { Responds request.now target.now parts.now result }
{
    let method = read_method(alloc, request.method)?;
    let resource = read_resource(alloc, target)?;
    let content = content_of(alloc, parts)?;
    let boundary = boundary_of(alloc, parts.boundary)?;
    let fields = read_map(alloc, request.section, keys)?;
    let head = RequestHead {
        method: &method,
        fields: &fields,
    };
    let sending = Sending {
        present: target.present,
        content: &content,
        boundary: &boundary,
    };
    let answer = respond(alloc, &head, &resource, &sending)?;
    Ok(show_response(alloc, answer, is_known_by(&fields))?)
}

/// What an answer is, if there is one.
pub fn show_response(
    alloc: Global,
    answer: Option<Response>,
    is_known: bool,
) -> Result<Responded, AllocError>
    ensures { IfOk result (IsShownAnswer is_known answer) }
{
    match answer {
        Some(response) => show(alloc, &response, is_known),
        None => Ok(Responded {
            facts: ResponseFacts {
                status: 0,
                keeps_encoding: 1,
            },
            parts: Vec::new(alloc),
            text: Vec::new(alloc),
        }),
    }
}

fn show(alloc: Global, response: &Response, is_known: bool) -> Result<Responded, AllocError>
    ensures { IfOk result (IsShownResponse is_known response.now) }
{
    let parts = parts_sent(alloc, &response.plan)?;
    let text = fields_text(alloc, response.fields.as_slice())?;
    let facts = ResponseFacts {
        status: response.status.as_u16(),
        keeps_encoding: flag_of(response.plan.keeps_encoding(is_known)),
    };
    Ok(Responded { facts, parts, text })
}

/// The ranges that a plan sends, if it sends not all.
pub fn parts_sent(alloc: Global, plan: &Plan) -> Result<Vec<BytesRange>, AllocError>
    ensures { IfOk result (λ parts. parts.items ≡ map range_of (parts_sent plan.now)) }
{
    match plan {
        Plan::Single(part) => Ok(vec![in alloc; range_of(part)]?),
        Plan::Multiple(parts) => ranges_of(alloc, parts.as_slice()),
        _ => Ok(Vec::new(alloc)),
    }
}
