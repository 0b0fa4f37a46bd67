//! The whole answer of a resource.
ghost use Rattle.c_library.specs.Responses.{WritesAnswer};
ghost use Rattle.c_resource.specs.Answers.{Answers};

use crate::response::worse;
use c_decisions::{BytesRange, Rules};
use c_parts::{DONE, HashKeys, copy_into};
use c_resource::{
    AnswerFacts, DenialParts, GivenResource, RepresentationParts, RequestParts, ResourceParts,
    answer_for,
};
use std::alloc::Global;

/// The whole answer of a resource to a request (RFC 9110, sections 7.4 to 15): its status, what it
/// sends, and its field lines.
#[unsafe(no_mangle)]
pub extern "C" fn typed_headers_resource_answer(
    alloc: Global,
    resource: &ResourceParts<'_>,
    representations: &[RepresentationParts],
    rules: &Rules<'_>,
    request: &RequestParts<'_>,
    denial: &DenialParts<'_>,
    section: &[u8],
    keys: &HashKeys,
    facts: &mut AnswerFacts,
    parts: &mut [BytesRange],
    parts_written: &mut usize,
    room: &mut [u8],
    written: &mut usize,
) -> u8
    ensures { WritesAnswer
        (Answers resource.now representations.now rules.now request.now denial.now section.now)
        facts.old facts.new parts.old parts.new parts_written.old parts_written.new
        room.old room.new written.old written.new result }
{
    let given = GivenResource {
        parts: resource,
        representations,
        rules,
    };
    match answer_for(alloc, &given, request, denial, section, keys) {
        Ok(answered) => {
            *facts = answered.facts;
            let one = copy_into(answered.parts.as_slice(), DONE, parts, parts_written);
            let other = copy_into(answered.text.as_slice(), DONE, room, written);
            worse(one, other)
        }
        Err(failure) => failure.status(),
    }
}
