//! An iterator over the field names of a list, up to the first item that isn't one.
ghost use Rattle.std.{specs.Prelude.{◌≡◌, List, ℕ, All, IfOk}, specs.Iterator.{IsFinite, item_count}};
ghost use Rattle.http_header.specs.FieldName.{IsHeaderName};
ghost use Rattle.headers_items.{specs.Merge.merge, specs.Places.{comma, items}};
ghost use Rattle.headers_names.specs.ListItem.{name_of, names, NameWants, GivesNext, Lists, IsListOf};

use crate::list_item::{ListItem, list_of};
use headers_core::{Comma, FlatCsv, Items};
use http_header::HeaderName;
use std::alloc::{AllocError, Global};
use std::marker::Model;

/// An iterator over the field names of a list, up to the first item that isn't a field name (RFC
/// 9110, section 5.1). If an allocation fails, it yields the error and ends.
///
/// A contract sees the bytes of the names that are left.
#[derive(Drop)]
pub struct Names<'a> {
    items: Items<'a, Comma>,
    alloc: Global,
    has_ended: bool,
}

impl<'a> Model for Names<'a> {
    ghost use Rattle.std.specs.Prelude.{List, ℕ, [], if◌then◌else◌};
    ghost use Rattle.headers_items.specs.ItemsState.{items_left};
    ghost use Rattle.headers_names.specs.ListItem.{names};

    ghost Value = { List (List ℕ) };

    ghost view = { λ w. if w.has_ended then [] else names (items_left w.items) };
}

impl<'a> Names<'a> {
    /// Starts an iterator over the field names of a list. A list that isn't text has none.
    pub fn new(alloc: Global, list: &'a FlatCsv<Comma>) -> Names<'a>
        ensures { result ≡ names (items comma list.now) }
    {
        Names {
            items: list.iter(),
            alloc,
            has_ended: false,
        }
    }

    /// Returns the next field name, if one is left, or the error if an allocation fails.
    pub fn next(&mut self) -> Option<Result<HeaderName, AllocError>>
        ensures { GivesNext (λ name. name) NameWants self.old result self.new }
    {
        if self.has_ended {
            return None;
        }
        match HeaderName::from_item(self.alloc, self.items.next()?) {
            Some(Ok(name)) => Some(Ok(name)),
            last => {
                self.has_ended = true;
                last
            }
        }
    }
}

impl<'a> Iterator for Names<'a> {
    type Item = Result<HeaderName, AllocError>;

    ghost next_gives = { GivesNext (λ name. name) NameWants };

    ghost remaining = { item_count (λ left. left) };

    fn next(&mut self) -> Option<Result<HeaderName, AllocError>> {
        self.next()
    }
}

/// Joins the field names of an iterator by a comma and a space. Fails only if an allocation fails.
/// The size hint isn't used. Iterators over the list yield the names again.
pub fn list_of_names<I: Iterator<Item = HeaderName> + Drop>(
    alloc: Global,
    names: I,
) -> Result<FlatCsv<Comma>, AllocError>
    requires can { I.can_next names }
    requires ends { IsFinite (I.remaining names) }
    ensures { IfOk result (Lists name_of I.next_gives names) }
{
    list_of(alloc, names)
}

/// Theorem: both iterators yield the field names that were joined, also if there are none.
pub fn names_of_own_list()
    ensures { (given : List (List ℕ)) → All IsHeaderName given
        → IsListOf name_of given (merge comma given) }
{}
