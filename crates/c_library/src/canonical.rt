//! The canonical text of a header section.
ghost use Rattle.c_library.specs.Canonical.{IsCanonicalAnswer, WritesCanonical};

use c_parts::{DONE, Failure, HashKeys, MARKED, copy_into, has_line};
use headers_section::{Outcome, RunError, run_with_system_keys};
use std::alloc::Global;
use std::hash::RandomState;

/// The greatest length of a section.
const LONGEST_SECTION: usize = 8_388_608;

/// The canonical text of a header section, and whether some header in it rejects its lines.
#[derive(Drop)]
pub struct Canonical {
    pub text: Vec<u8>,
    pub is_marked: bool,
}

/// The canonical text of a header section (RFC 9112, section 5): each name at its first appearance,
/// with its lines.
#[unsafe(no_mangle)]
pub extern "C" fn typed_headers_canonical(
    alloc: Global,
    section: &[u8],
    keys: &HashKeys,
    room: &mut [u8],
    written: &mut usize,
) -> u8
    ensures { WritesCanonical section.now room.old room.new written.old written.new result }
{
    match read_canonical(alloc, section, keys) {
        Ok(canonical) => {
            let done = if canonical.is_marked { MARKED } else { DONE };
            copy_into(canonical.text.as_slice(), done, room, written)
        }
        Err(failure) => failure.status(),
    }
}

fn read_canonical(alloc: Global, section: &[u8], keys: &HashKeys) -> Result<Canonical, Failure>
    ensures { IsCanonicalAnswer section.now result }
{
    if section.len() > LONGEST_SECTION {
        return Err(Failure::TooLarge);
    }
    if !has_line(section) {
        return Ok(Canonical {
            text: Vec::new(alloc),
            is_marked: false,
        });
    }
    let mut rest = section;
    let mut text = Vec::new(alloc);
    match run_with_system_keys(alloc, RandomState::new(keys), &mut rest, &mut text) {
        Ok(Outcome::Clean) => Ok(Canonical {
            text,
            is_marked: false,
        }),
        Ok(Outcome::SomeRefused) => Ok(Canonical {
            text,
            is_marked: true,
        }),
        Ok(Outcome::NotAField) => Err(Failure::Refused),
        Err(RunError::Room) => Err(Failure::TooLarge),
        // Only a write to the vector fails, if it runs out of memory.
        Err(RunError::Memory | RunError::Io) => Err(Failure::Memory),
    }
}
