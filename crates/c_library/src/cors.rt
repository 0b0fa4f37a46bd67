//! A server's answer to a cross-origin request.
ghost use Rattle.c_parts.specs.Endings.{Gives};
ghost use Rattle.c_decisions.specs.{Cors.{Shares, WritesShared}, Origins.FindsUnsent};

use crate::giving::give;
use c_decisions::{CorsFacts, RequestTexts, Rules, answer_by_rules, find_unsent};
use c_parts::{DONE, HashKeys, copy_into};
use std::alloc::Global;

/// Gives the field lines with which a policy answers a cross-origin request (Fetch standard, "CORS
/// protocol"), for a response with these fields.
#[unsafe(no_mangle)]
pub extern "C" fn typed_headers_cors_answer(
    alloc: Global,
    rules: &Rules<'_>,
    request: &RequestTexts<'_>,
    response: &[u8],
    keys: &HashKeys,
    facts: &mut CorsFacts,
    room: &mut [u8],
    written: &mut usize,
) -> u8
    ensures { WritesShared (Shares rules.now request.now response.now)
        facts.old facts.new room.old room.new written.old written.new result }
{
    match answer_by_rules(alloc, rules, request, response, keys) {
        Ok(shared) => {
            *facts = shared.facts;
            copy_into(shared.text.as_slice(), DONE, room, written)
        }
        Err(failure) => failure.status(),
    }
}

/// Gives the place of the first origin of a text, one a line, that no browser sends.
#[unsafe(no_mangle)]
pub extern "C" fn typed_headers_unsent_origin(
    alloc: Global,
    origins: &[u8],
    place: &mut usize,
) -> u8
    ensures { Gives (FindsUnsent origins.now) place.old place.new result }
{
    give(find_unsent(alloc, origins), place)
}
