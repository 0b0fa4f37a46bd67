//! Which part of a representation a request selects.
ghost use Rattle.c_decisions.specs.Selection.{Selects, WritesSelection};

use c_decisions::{BytesRange, RequestTexts, TargetFacts, select_ranges};
use c_parts::{DONE, HashKeys, copy_into};
use std::alloc::Global;

/// Which part of a representation of `length` bytes a request selects (RFC 9110, sections 13.2.2 and
/// 14.2): all of it (200), ranges of it (206) or none (416).
#[unsafe(no_mangle)]
pub extern "C" fn typed_headers_select(
    alloc: Global,
    request: &RequestTexts<'_>,
    keys: &HashKeys,
    target: &TargetFacts<'_>,
    length: u64,
    answer: &mut u16,
    room: &mut [BytesRange],
    written: &mut usize,
) -> u8
    ensures { WritesSelection (Selects request.now target.now length)
        answer.old answer.new room.old room.new written.old written.new result }
{
    match select_ranges(alloc, request, keys, target, length) {
        Ok(selected) => {
            *answer = selected.code;
            copy_into(selected.ranges.as_slice(), DONE, room, written)
        }
        Err(failure) => failure.status(),
    }
}
