//! Numbers and structs, given at the caller's place.
ghost use Rattle.c_parts.specs.Endings.{IsGiven};

use c_parts::{DONE, Failure};

/// Gives the value at the place, if there is one.
pub(crate) fn give<T: Copy>(answer: Result<T, Failure>, place: &mut T) -> u8
    ensures { IsGiven answer place.old place.new result }
{
    match answer {
        Ok(value) => {
            *place = value;
            DONE
        }
        Err(failure) => failure.status(),
    }
}
