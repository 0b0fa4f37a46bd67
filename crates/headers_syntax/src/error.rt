//! Why a header could not be decoded.
ghost use Rattle.std.specs.Prelude.{Some, codes};

use std::alloc::{AllocError, AllocFailed};
use std::fmt;

/// The error of field lines that don't encode a value of the header.
#[derive(Clone, Copy, Debug, PartialEq, Eq)]
pub struct Error {
    _priv: (),
}

impl Error {
    /// Makes the error, which has one value only.
    pub fn invalid() -> Error {
        Error { _priv: () }
    }
}

impl fmt::Display for Error {
    ghost output = { λ _. Some (codes "invalid HTTP header") };

    ghost styled_output = { λ _ _. Some (codes "invalid HTTP header") };

    fn fmt<W: fmt::Write>(&self, f: &mut fmt::Formatter<W>) -> fmt::Result {
        f.write_str("invalid HTTP header")
    }
}

impl std::error::Error for Error {}

/// Why a call that allocates returned no value: invalid input, or out of memory.
#[derive(Clone, Copy, Debug, PartialEq, Eq)]
pub enum Refused<E> {
    /// The input is invalid. This error says why.
    Invalid(E),
    /// Out of memory: an allocation failed.
    Memory(AllocError),
}

impl<E: fmt::Display + Drop> fmt::Display for Refused<E> {
    ghost use Rattle.headers_syntax.specs.Refusal.{refusal_output};

    ghost output = { refusal_output E.output };

    ghost styled_output = { λ refused style. refusal_output (λ e. E.styled_output e style) refused };

    fn fmt<W: fmt::Write>(&self, f: &mut fmt::Formatter<W>) -> fmt::Result {
        match self {
            Refused::Invalid(invalid) => fmt::Display::fmt(invalid, f),
            Refused::Memory(_) => f.write_str("memory allocation failed"),
        }
    }
}

impl<E: fmt::Debug + fmt::Display + Drop> std::error::Error for Refused<E> {}

impl From<Error> for Refused<Error> {
    ghost use Rattle.std.specs.Prelude.{◌≡◌};
    ghost use Rattle.headers_syntax.specs.declared.error.Refused.TheVariants.{Invalid};

    ghost from_gives = { λ e r. r ≡ Invalid e };

    fn from(error: Error) -> Refused<Error> {
        Refused::Invalid(error)
    }
}

impl<E> From<AllocError> for Refused<E> {
    ghost use Rattle.std.specs.Prelude.{◌≡◌};
    ghost use Rattle.headers_syntax.specs.declared.error.Refused.TheVariants.{Memory};

    ghost from_gives = { λ e r. r ≡ Memory e };

    fn from(error: AllocError) -> Refused<E> {
        Refused::Memory(error)
    }
}

impl<T: Drop, E> From<AllocFailed<T>> for Refused<E> {
    ghost use Rattle.std.specs.Prelude.{◌≡◌, alloc_error};
    ghost use Rattle.headers_syntax.specs.declared.error.Refused.TheVariants.{Memory};

    ghost from_gives = { λ _ r. r ≡ Memory alloc_error };

    fn from(failed: AllocFailed<T>) -> Refused<E> {
        Refused::Memory(AllocError::from(failed))
    }
}
