//! The header `te`.
ghost use Rattle.std.specs.Prelude.{◌≡◌, IfOk, List, codes, ℕ};
ghost use Rattle.headers_items.specs.Places.{comma};

use headers_core::{Comma, FlatCsv, FormHeader};
use http_header::{HeaderName, TE};
use std::alloc::{AllocError, Global};
use std::marker::Model;

/// The header `TE`: the transfer codings that a client accepts (RFC 9110, section 10.1.4). All
/// field lines are joined by a comma and a space, and none are rejected: `decode` fails only if an
/// allocation fails. Headers are compared by the joined bytes.
#[derive(Debug, PartialEq, Drop)]
pub struct Te {
    codings: FlatCsv<Comma>,
}

impl Model for Te {
    ghost Value = { List ℕ };

    ghost view = { λ v. v.codings };

    ghost inverse = { λ bytes. record { codings = bytes } };
}

impl Te {
    /// Makes the header `trailers`: the client accepts trailer fields.
    pub fn trailers() -> Te
        ensures { result ≡ codes "trailers" }
    {
        Te::from_form(FlatCsv::from_word("trailers"))
    }

    /// Copies the header. Fails only if an allocation fails.
    pub fn clone(&self, alloc: Global) -> Result<Te, AllocError>
        ensures { IfOk result (λ copy. copy ≡ self.now) }
    {
        Ok(Te::from_form(self.codings.clone(alloc)?))
    }
}

impl FormHeader for Te {
    type Form = FlatCsv<Comma>;

    ghost NAME = { codes "te" };

    const NAME: HeaderName = TE;

    ghost form = { λ header. header };

    fn from_form(codings: FlatCsv<Comma>) -> Te {
        Te { codings }
    }

    fn as_form(&self) -> &FlatCsv<Comma> {
        &self.codings
    }
}
