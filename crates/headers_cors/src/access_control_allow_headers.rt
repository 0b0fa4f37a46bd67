//! The header `access-control-allow-headers`.
ghost use Rattle.std.{specs.Prelude.{◌≡◌, IfOk}, specs.Iterator.IsFinite};
ghost use Rattle.headers_items.{specs.Answers.{GoesByItems, SurvivesCuts}, specs.Merge.merge, specs.Places.comma};
ghost use Rattle.headers_items.specs.Places.{items};
ghost use Rattle.headers_names.specs.ListItem.{name_of, names, Lists};

use headers_core::{Comma, FlatCsv, FormHeader};
use headers_names::{Names, list_of_names};
use http_header::{ACCESS_CONTROL_ALLOW_HEADERS, HeaderName};
use std::alloc::{AllocError, Global};
use std::marker::Model;

/// The header `Access-Control-Allow-Headers`: the field names that a cross-origin request may have
/// (W3C CORS, section 5.6).
///
/// All field lines are joined by a comma and a space, and none are rejected: `decode` fails only if
/// an allocation fails. Headers are compared by the joined bytes.
#[derive(Debug, PartialEq, Drop)]
pub struct AccessControlAllowHeaders {
    names: FlatCsv<Comma>,
}

impl Model for AccessControlAllowHeaders {
    ghost use Rattle.std.specs.Prelude.{List, ℕ};

    ghost Value = { List ℕ };

    ghost view = { λ v. v.names };

    ghost inverse = { λ bytes. record { names = bytes } };
}

impl AccessControlAllowHeaders {
    /// Joins the field names of an iterator by a comma and a space. Fails only if an allocation
    /// fails. The size hint isn't used. `iter` yields the same names again.
    pub fn from_iter<I: Iterator<Item = HeaderName> + Drop>(
        alloc: Global,
        names: I,
    ) -> Result<AccessControlAllowHeaders, AllocError>
        requires can { I.can_next names }
        requires ends { IsFinite (I.remaining names) }
        ensures { IfOk result (Lists name_of I.next_gives names) }
    {
        Ok(AccessControlAllowHeaders {
            names: list_of_names(alloc, names)?,
        })
    }

    /// Starts an iterator over the field names, up to the first item that isn't a field name.
    pub fn iter(&self, alloc: Global) -> Names<'_>
        ensures answer { result ≡ names (items comma self.now) }
        ensures cuts { SurvivesCuts comma (λ lines left. left ≡ names (items comma (merge comma lines))) }
        ensures by_items { GoesByItems comma (λ value left. left ≡ names (items comma value)) }
    {
        Names::new(alloc, &self.names)
    }

    /// Copies the header. Fails only if an allocation fails.
    pub fn clone(&self, alloc: Global) -> Result<AccessControlAllowHeaders, AllocError>
        ensures { IfOk result (λ copy. copy ≡ self.now) }
    {
        Ok(AccessControlAllowHeaders {
            names: self.names.clone(alloc)?,
        })
    }
}

impl FormHeader for AccessControlAllowHeaders {
    ghost use Rattle.std.specs.Prelude.{codes};

    type Form = FlatCsv<Comma>;

    ghost NAME = { codes "access-control-allow-headers" };

    const NAME: HeaderName = ACCESS_CONTROL_ALLOW_HEADERS;

    ghost form = { λ header. header };

    fn from_form(names: FlatCsv<Comma>) -> AccessControlAllowHeaders {
        AccessControlAllowHeaders { names }
    }

    fn as_form(&self) -> &FlatCsv<Comma> {
        &self.names
    }
}
