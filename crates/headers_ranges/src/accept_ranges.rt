//! The header `accept-ranges`.
ghost use Rattle.std.specs.Prelude.{◌≡◌, ◌↔◌, IsTrue, IfOk, codes, List, ℕ};
ghost use Rattle.headers_items.specs.Places.{comma};

use headers_core::{Comma, FlatCsv, FormHeader};
use http_header::{ACCEPT_RANGES, HeaderName};
use std::alloc::{AllocError, Global};
use std::marker::Model;

/// The header `Accept-Ranges`: the range units that a resource supports (RFC 9110, section 14.3).
/// All field lines are joined by a comma and a space, and none are rejected: `decode` fails only if
/// an allocation fails. Headers are compared by the joined bytes.
#[derive(Debug, PartialEq, Drop)]
pub struct AcceptRanges {
    units: FlatCsv<Comma>,
}

impl Model for AcceptRanges {
    ghost Value = { List ℕ };

    ghost view = { λ v. v.units };

    ghost inverse = { λ bytes. record { units = bytes } };
}

impl AcceptRanges {
    /// Makes the header `bytes`: the resource supports byte ranges.
    pub fn bytes() -> AcceptRanges
        ensures { result ≡ codes "bytes" }
    {
        AcceptRanges::from_form(FlatCsv::from_word("bytes"))
    }

    /// Makes the header `none`: the resource supports no ranges.
    pub fn none() -> AcceptRanges
        ensures { result ≡ codes "none" }
    {
        AcceptRanges::from_form(FlatCsv::from_word("none"))
    }

    /// Returns whether the whole value is `bytes`, byte for byte.
    pub fn is_bytes(&self) -> bool
        ensures { IsTrue result ↔ (self.now ≡ codes "bytes") }
    {
        self.units.as_bytes() == b"bytes".as_slice()
    }

    /// Returns whether the whole value is `none`, byte for byte.
    pub fn is_none(&self) -> bool
        ensures { IsTrue result ↔ (self.now ≡ codes "none") }
    {
        self.units.as_bytes() == b"none".as_slice()
    }

    /// Copies the header. Fails only if an allocation fails.
    pub fn clone(&self, alloc: Global) -> Result<AcceptRanges, AllocError>
        ensures { IfOk result (λ copy. copy ≡ self.now) }
    {
        Ok(AcceptRanges::from_form(self.units.clone(alloc)?))
    }
}

impl FormHeader for AcceptRanges {
    type Form = FlatCsv<Comma>;

    ghost NAME = { codes "accept-ranges" };

    const NAME: HeaderName = ACCEPT_RANGES;

    ghost form = { λ header. header };

    fn from_form(units: FlatCsv<Comma>) -> AcceptRanges {
        AcceptRanges { units }
    }

    fn as_form(&self) -> &FlatCsv<Comma> {
        &self.units
    }
}
