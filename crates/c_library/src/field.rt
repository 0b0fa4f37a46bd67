//! The canonical field lines of a header.
ghost use Rattle.headers.specs.Lines.{lines_of};
ghost use Rattle.c_parts.specs.Written.{IsWrittenAs, lines_text};
ghost use Rattle.c_parts.specs.Endings.{Writes, done};

use c_parts::{DONE, Failure, copy_into, lines_text, written_lines};
use std::alloc::Global;

/// Gives the canonical field lines of the header with this name: the encoding of the decoded value.
#[unsafe(no_mangle)]
pub extern "C" fn typed_headers_field(
    alloc: Global,
    name: &[u8],
    lines: &[u8],
    room: &mut [u8],
    written: &mut usize,
) -> u8
    ensures { Writes (λ lines. lines_text (lines_of lines.items)) (λ _. done) (IsWrittenAs name.now lines.now)
        room.old room.new written.old written.new result }
{
    match written_lines(alloc, name, lines) {
        Ok(lines) => match lines_text(alloc, lines.as_slice()) {
            Ok(text) => copy_into(text.as_slice(), DONE, room, written),
            Err(_) => Failure::Memory.status(),
        },
        Err(failure) => failure.status(),
    }
}
