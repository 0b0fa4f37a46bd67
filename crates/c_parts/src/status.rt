//! Statuses of calls.
ghost use Rattle.std.specs.Prelude.{◌≡◌};
ghost use Rattle.c_parts.specs.Endings.{IsWritten, status_of};

use http_header::HeaderMapError;
use std::alloc::{AllocError, AllocFailed};

/// The status of a call that did what it was asked for.
pub const DONE: u8 = 0;

/// The status of a call whose text marks a header that rejects its lines.
pub const MARKED: u8 = 6;

/// The status of a call whose bytes are more than the caller has room for.
pub const NO_ROOM: u8 = 3;

/// Why a call gives nothing.
#[derive(Clone, Copy, Debug, PartialEq, Eq)]
pub enum Failure {
    /// The input is rejected.
    Refused,
    /// Out of memory: an allocation failed.
    Memory,
    /// There is no such thing.
    Absent,
    /// The input is longer, or has more names, than the call accepts.
    TooLarge,
}

impl Failure {
    /// Returns the status: 1 for `Refused`, 2 for `Memory`, 4 for `Absent`, 5 for `TooLarge`.
    pub fn status(self) -> u8
        ensures { result ≡ status_of self }
    {
        match self {
            Failure::Refused => 1,
            Failure::Memory => 2,
            Failure::Absent => 4,
            Failure::TooLarge => 5,
        }
    }
}

impl From<AllocError> for Failure {
    ghost use Rattle.std.specs.Prelude.{◌≡◌};
    ghost use Rattle.c_parts.specs.declared.status.Failure.TheVariants.{Memory};

    ghost from_gives = { λ _ failure. failure ≡ Memory };

    fn from(_error: AllocError) -> Failure {
        Failure::Memory
    }
}

impl<T: Drop> From<AllocFailed<T>> for Failure {
    ghost use Rattle.std.specs.Prelude.{◌≡◌};
    ghost use Rattle.c_parts.specs.declared.status.Failure.TheVariants.{Memory};

    ghost from_gives = { λ _ failure. failure ≡ Memory };

    fn from(_failed: AllocFailed<T>) -> Failure {
        Failure::Memory
    }
}

impl From<HeaderMapError> for Failure {
    ghost use Rattle.std.specs.Prelude.{◌≡◌};
    ghost use Rattle.c_parts.specs.SectionMap.{failure_of};

    ghost from_gives = { λ error failure. failure ≡ failure_of error };

    fn from(error: HeaderMapError) -> Failure {
        match error {
            HeaderMapError::MaxSizeReached => Failure::TooLarge,
            HeaderMapError::OutOfMemory => Failure::Memory,
        }
    }
}

/// Copies the items to the front of the room if they fit, and tells how many they are. Returns
/// `done` if they fit, else `NO_ROOM`.
pub fn copy_into<T: Copy>(items: &[T], done: u8, room: &mut [T], written: &mut usize) -> u8
    ensures { IsWritten items.now done room.old room.new written.new result }
{
    *written = items.len();
    if items.len() > room.len() {
        return NO_ROOM;
    }
    room[..items.len()].copy_from_slice(items);
    done
}
