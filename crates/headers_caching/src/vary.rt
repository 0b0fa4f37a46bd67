//! The header `vary`.
ghost use Rattle.std.specs.Prelude.{◌≡◌, ◌<◌, ◌^◌, ◌↔◌, length, Contains, IsTrue, IfOk, IsOkAnd, codes, List, ℕ};
ghost use Rattle.std.{specs.Iterator.IsFinite, specs.Iterator.Runs.YieldsRefsInOrder};
ghost use Rattle.headers_items.{specs.Answers.{GoesByItems, SurvivesCuts}, specs.Merge.merge, specs.Places.comma};
ghost use Rattle.headers_items.{specs.Places.items, specs.ItemsState.{ItemsState, items_left, walk_over, WalksItems}};
ghost use Rattle.headers_items.specs.CutLaw.{MergesLines};

use headers_core::{Comma, FlatCsv, FormHeader, Items};
use http_header::{HeaderName, HeaderValue, VARY};
use std::alloc::{AllocError, Global};
use std::marker::Model;

/// The header `Vary`: the request fields that selected the response (RFC 9110, section 12.5.5). All
/// field lines are joined by a comma and a space, and none are rejected: `decode` fails only if an
/// allocation fails. Headers are compared by the joined bytes.
#[derive(Debug, PartialEq, Drop)]
pub struct Vary {
    names: FlatCsv<Comma>,
}

impl Model for Vary {
    ghost Value = { List ℕ };

    ghost view = { λ v. v.names };

    ghost inverse = { λ bytes. record { names = bytes } };
}

impl Vary {
    /// Makes the header `*`: more than request fields selected the response.
    pub fn any() -> Vary
        ensures { result ≡ codes "*" }
    {
        Vary::from_form(FlatCsv::from_word("*"))
    }

    /// Makes the header of one field name. Fails only if an allocation fails.
    pub fn from_name(_alloc: Global, name: HeaderName) -> Result<Vary, AllocError>
        ensures { IsOkAnd result (λ vary. vary ≡ name) }
    {
        Ok(Vary::from_form(FlatCsv::from_value(HeaderValue::from_name(name))))
    }

    /// Joins the field names of an iterator by a comma and a space. Fails only if an allocation
    /// fails. The size hint isn't used.
    pub fn from_iter<I: Iterator<Item = HeaderName> + Drop>(
        alloc: Global,
        names: I,
    ) -> Result<Vary, AllocError>
        requires can { I.can_next names }
        requires ends { IsFinite (I.remaining names) }
        ensures { IfOk result (MergesLines I.next_gives names comma) }
    {
        Ok(Vary::from_form(FlatCsv::from_names(alloc, names)?))
    }

    /// Returns whether some item is `*`.
    pub fn is_any(&self) -> bool
        ensures answer { IsTrue result ↔ Contains (items comma self.now) (codes "*") }
        ensures cuts { SurvivesCuts comma
            (λ lines any. IsTrue any ↔ Contains (items comma (merge comma lines)) (codes "*")) }
        ensures by_items { GoesByItems comma (λ value any. IsTrue any ↔ Contains (items comma value) (codes "*")) }
    {
        self.names.iter().any(|item| item == "*")
    }

    /// Starts an iterator over the items, which are slices of the value. A value that isn't text
    /// has no items.
    pub fn iter_strs(&self) -> Items<'_, Comma>
        ensures items { items_left result ≡ items comma self.now }
        ensures fresh { result ≡ walk_over comma self.now }
        ensures count { length (items_left result) < 2 ^ 64 }
        ensures runs { YieldsRefsInOrder WalksItems items_left }
        ensures cuts { SurvivesCuts comma
            (λ lines (walk : ItemsState). items_left walk ≡ items comma (merge comma lines)) }
        ensures by_items { GoesByItems comma (λ value (walk : ItemsState). items_left walk ≡ items comma value) }
    {
        self.names.iter()
    }

    /// Copies the header. Fails only if an allocation fails.
    pub fn clone(&self, alloc: Global) -> Result<Vary, AllocError>
        ensures { IfOk result (λ copy. copy ≡ self.now) }
    {
        Ok(Vary::from_form(self.names.clone(alloc)?))
    }
}

impl FormHeader for Vary {
    type Form = FlatCsv<Comma>;

    ghost NAME = { codes "vary" };

    const NAME: HeaderName = VARY;

    ghost form = { λ header. header };

    fn from_form(names: FlatCsv<Comma>) -> Vary {
        Vary { names }
    }

    fn as_form(&self) -> &FlatCsv<Comma> {
        &self.names
    }
}
