//! The whole response to a request for a representation.
ghost use Rattle.std.specs.Prelude.{◌≡◌};
ghost use Rattle.c_library.specs.Responses.{WritesResponse, worse};
ghost use Rattle.c_decisions.specs.Responses.{Responds};

use c_decisions::{BytesRange, ContentParts, RequestTexts, ResponseFacts, TargetFacts, respond_to};
use c_parts::{DONE, HashKeys, copy_into};
use std::alloc::Global;

/// The response to a request for a representation, by its preconditions and its ranges (RFC 9110,
/// sections 13.2.2 and 14.2): its status, the parts that it sends, and its field lines.
#[unsafe(no_mangle)]
pub extern "C" fn typed_headers_respond(
    alloc: Global,
    request: &RequestTexts<'_>,
    keys: &HashKeys,
    target: &TargetFacts<'_>,
    content: &ContentParts<'_>,
    facts: &mut ResponseFacts,
    parts: &mut [BytesRange],
    parts_written: &mut usize,
    room: &mut [u8],
    written: &mut usize,
) -> u8
    ensures { WritesResponse (Responds request.now target.now content.now)
        facts.old facts.new parts.old parts.new parts_written.old parts_written.new
        room.old room.new written.old written.new result }
{
    match respond_to(alloc, request, keys, target, content) {
        Ok(responded) => {
            *facts = responded.facts;
            let one = copy_into(responded.parts.as_slice(), DONE, parts, parts_written);
            let other = copy_into(responded.text.as_slice(), DONE, room, written);
            worse(one, other)
        }
        Err(failure) => failure.status(),
    }
}

// The status of two rooms.
pub(crate) fn worse(one: u8, other: u8) -> u8
    ensures { result ≡ worse one other }
{
    if one == DONE { other } else { one }
}
