//! The ranges of `range`.
ghost use Rattle.std.{specs.Prelude.{◌≡◌, IfOk}, specs.List.filter_map};
ghost use Rattle.c_parts.{specs.Endings.{Writes, done}, specs.FieldText.FieldDecodes};
ghost use Rattle.c_library.specs.Ranges.{bytes_range, reads_ranges};

use c_decisions::BytesRange;
use c_parts::{DONE, Failure, copy_into, read_field};
use headers::{Range, Satisfiable};
use std::alloc::{AllocError, Global};
use std::ops::Bound;

/// Decodes the field lines of `range` to the ranges that a representation of `length` bytes can
/// satisfy, in order (RFC 9110, section 14.1.2).
#[unsafe(no_mangle)]
pub extern "C" fn typed_headers_ranges(
    alloc: Global,
    lines: &[u8],
    length: u64,
    room: &mut [BytesRange],
    written: &mut usize,
) -> u8
    ensures { Writes (λ ranges. ranges) (λ _. done) (FieldDecodes (reads_ranges length) lines.now)
        room.old room.new written.old written.new result }
{
    match read_field::<Range>(alloc, lines) {
        Ok(range) => match bytes_ranges(alloc, range.satisfiable_ranges(length)) {
            Ok(ranges) => copy_into(ranges.as_slice(), DONE, room, written),
            Err(_) => Failure::Memory.status(),
        },
        Err(failure) => failure.status(),
    }
}

fn bytes_ranges(alloc: Global, ranges: Satisfiable<'_>) -> Result<Vec<BytesRange>, AllocError>
    ensures { IfOk result (λ list. list.items ≡ filter_map bytes_range ranges.entry) }
{
    ranges.filter_map(bytes_range).collect(alloc)
}

fn bytes_range(bounds: (Bound<u64>, Bound<u64>)) -> Option<BytesRange>
    ensures { result ≡ bytes_range bounds }
{
    match bounds {
        (Bound::Included(first), Bound::Included(last)) => Some(BytesRange { first, last }),
        _ => None,
    }
}
