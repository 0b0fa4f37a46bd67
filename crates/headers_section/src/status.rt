//! How a run of the program ended.
ghost use Rattle.std.specs.Prelude.{◌≡◌};
ghost use Rattle.headers_section.specs.Answer.{status_of};

use http_header::HeaderMapError;
use std::alloc::{AllocError, AllocFailed};
use std::io;

/// What the program found in an input that it read to its end.
#[derive(Clone, Copy, Debug, PartialEq, Eq)]
pub enum Outcome {
    /// All known headers were decoded.
    Clean,
    /// Some known header rejected its field lines.
    SomeRefused,
    /// A line before the first empty one is no field.
    NotAField,
}

/// Why the program gave up.
#[derive(Clone, Copy, Debug, PartialEq, Eq)]
pub enum RunError {
    /// A read, a write or a flush failed, or a write took no byte.
    Io,
    /// Out of memory: an allocation failed.
    Memory,
    /// The input is too long, or a header map has no room for its fields.
    Room,
}

impl From<io::Error> for RunError {
    ghost use Rattle.std.specs.Prelude.{◌≡◌};
    ghost use Rattle.headers_section.specs.declared.status.RunError.TheVariants.{Io};

    ghost from_gives = { λ _ r. r ≡ Io };

    fn from(_error: io::Error) -> RunError {
        RunError::Io
    }
}

impl From<AllocError> for RunError {
    ghost use Rattle.std.specs.Prelude.{◌≡◌};
    ghost use Rattle.headers_section.specs.declared.status.RunError.TheVariants.{Memory};

    ghost from_gives = { λ _ r. r ≡ Memory };

    fn from(_error: AllocError) -> RunError {
        RunError::Memory
    }
}

impl<T: Drop> From<AllocFailed<T>> for RunError {
    ghost use Rattle.std.specs.Prelude.{◌≡◌};
    ghost use Rattle.headers_section.specs.declared.status.RunError.TheVariants.{Memory};

    ghost from_gives = { λ _ r. r ≡ Memory };

    fn from(_failed: AllocFailed<T>) -> RunError {
        RunError::Memory
    }
}

impl From<HeaderMapError> for RunError {
    ghost use Rattle.std.specs.Prelude.{◌≡◌};
    ghost use Rattle.headers_section.specs.MapErrors.{run_error_of};

    ghost from_gives = { λ e r. r ≡ run_error_of e };

    fn from(error: HeaderMapError) -> RunError {
        match error {
            HeaderMapError::MaxSizeReached => RunError::Room,
            HeaderMapError::OutOfMemory => RunError::Memory,
        }
    }
}

/// Returns the exit status: 0 for `Clean`, 1 for `SomeRefused`, 2 for `NotAField`, 3 for `Io`, and
/// 4 for `Memory` and `Room`.
pub fn exit_status(answer: &Result<Outcome, RunError>) -> u8
    ensures { result ≡ status_of answer.now }
{
    match answer {
        Ok(Outcome::Clean) => 0,
        Ok(Outcome::SomeRefused) => 1,
        Ok(Outcome::NotAField) => 2,
        Err(RunError::Io) => 3,
        Err(RunError::Memory) => 4,
        Err(RunError::Room) => 4,
    }
}
