//! Why a text doesn't parse.
ghost use Rattle.std.specs.Prelude.{Some, codes};

use std::fmt;

/// The error of a field, a member or a text that doesn't parse by the grammar.
#[derive(Clone, Copy, Debug, PartialEq, Eq)]
pub struct Malformed;

impl fmt::Display for Malformed {
    ghost output = { λ _. Some (codes "malformed field") };

    ghost styled_output = { λ _ _. Some (codes "malformed field") };

    fn fmt<W: fmt::Write>(&self, f: &mut fmt::Formatter<W>) -> fmt::Result {
        f.write_str("malformed field")
    }
}

impl std::error::Error for Malformed {}
