//! The content that a pass sends.
ghost use Rattle.std.specs.Prelude.{◌≡◌, IsErr};
ghost use Rattle.c_pass.specs.Steps.{Copies, part_from};

use crate::held::Stepped;
use c_parts::{DONE, Failure, copy_into};

// The bytes from a position on, at most so many.
fn part_from(bytes: &[u8], from: usize, most: usize) -> &[u8]
    ensures { result.now ≡ part_from bytes.now from most }
{
    let rest = bytes.get(from..).unwrap_or_default();
    &rest[..rest.len().min(most)]
}

/// Copies the content of the stored response that the last step of a pass named to the front of the room: from a
/// position on, and as much as fits.
pub fn copy_content(
    stepped: &Stepped,
    from: usize,
    room: &mut [u8],
    written: &mut usize,
) -> Result<(), Failure>
    ensures copies { Copies from room.old room.new written.new stepped.now.shown result }
    ensures failed { IsErr result → (room.new ≡ room.old) × (written.new ≡ written.old) }
{
    let Some(content) = &stepped.shown else {
        return Err(Failure::Absent);
    };
    let part = part_from(content.as_slice(), from, room.len());
    copy_into(part, DONE, room, written);
    Ok(())
}
