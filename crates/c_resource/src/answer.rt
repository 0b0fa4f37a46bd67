//! The whole answer of a resource.
ghost use Rattle.std.specs.Prelude.{IfOk, option_map};
ghost use Rattle.decide_resource.specs.Requests.{request_of};
ghost use Rattle.c_resource.specs.Answers.{Answers, AnswersBy, IsShownAnswer};

use crate::request::{
    DenialParts, RequestParts, content_of, read_authority, read_denial, read_protocol,
};
use crate::resource::{GivenResource, read_resource};
use crate::settled::settled_text;
use crate::shown::{AnswerFacts, facts_of, parts_of};
use c_decisions::{BytesRange, read_method};
use c_parts::{Failure, HashKeys, read_map};
use decide_resource::{Answer, Resource, ResourceRequest, answer_request};
use headers::HeaderMap;
use std::alloc::{AllocError, Global};

/// What an answer is, the ranges that it sends if it sends not all, and its field lines.
#[derive(Drop)]
pub struct Answered {
    pub facts: AnswerFacts,
    pub parts: Vec<BytesRange>,
    pub text: Vec<u8>,
}

/// The answer of a resource to a request with these fields (RFC 9110, sections 7.4 to 15).
pub fn answer_with(
    alloc: Global,
    resource: &Resource,
    request: &RequestParts<'_>,
    denial: &DenialParts<'_>,
    fields: &HeaderMap,
) -> Result<Answered, Failure>
    ensures { AnswersBy request.now denial.now fields.now resource.now result }
{
    let protocol = read_protocol(request.version)?;
    let method = read_method(alloc, request.method)?;
    let authority = read_authority(alloc, request.target)?;
    let denial = read_denial(alloc, denial)?;
    let host = authority.as_ref();
    let denied = denial.as_ref();
    let head = ResourceRequest {
        protocol,
        method: &method,
        authority: host,
        content: content_of(request),
        fields,
        denied,
    };
    let answer = answer_request(alloc, resource, &head, request.present)?;
    Ok(show_answer(alloc, &answer)?)
}

/// The answer of a resource that C hands in to a request with the fields of a section (RFC 9110,
/// sections 7.4 to 15).
pub fn answer_for(
    alloc: Global,
    resource: &GivenResource<'_>,
    request: &RequestParts<'_>,
    denial: &DenialParts<'_>,
    section: &[u8],
    keys: &HashKeys,
) -> Result<Answered, Failure>
    ensures { Answers resource.entry.now.parts.now resource.entry.now.representations.now
        resource.entry.now.rules.now request.now denial.now section.now result }
{
    let known = read_resource(
        alloc,
        resource.parts,
        resource.representations,
        resource.rules,
    )?;
    let fields = read_map(alloc, section, keys)?;
    let answered = answer_with(alloc, &known, request, denial, &fields)?;
    Ok(answered)
}

// What an answer is, the ranges that it sends, and its field lines.
fn show_answer(alloc: Global, answer: &Answer) -> Result<Answered, AllocError>
    ensures { IfOk result (IsShownAnswer answer.now) }
{
    Ok(Answered {
        facts: facts_of(answer),
        parts: parts_of(alloc, &answer.sends)?,
        text: settled_text(alloc, answer.fields.as_slice())?,
    })
}
