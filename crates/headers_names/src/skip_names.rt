//! An iterator over the items of a list that are field names or methods.
ghost use Rattle.std.{specs.Prelude.◌≡◌, specs.Iterator.item_count};
ghost use Rattle.headers_items.specs.Places.{comma, items};
ghost use Rattle.headers_names.specs.ListItem.{values, GivesNext};

use crate::list_item::ListItem;
use headers_core::{Comma, FlatCsv, Items};
use http_header::HeaderName;
use std::alloc::{AllocError, Global};
use std::marker::{Model, PhantomData};

/// An iterator over the items of a list that parse as a field name or a method, in order. Other
/// items are skipped. If an allocation fails, the iterator yields the error and ends.
///
/// A contract sees the bytes of the values that are left.
#[derive(Drop)]
pub struct ItemsRead<'a, T: ListItem> {
    items: Items<'a, Comma>,
    alloc: Global,
    has_failed: bool,
    of: PhantomData<T>,
}

/// An iterator over the items of a list that are field names (RFC 9110, section 5.1).
pub type SkipNames<'a> = ItemsRead<'a, HeaderName>;

impl<'a, T: ListItem> Model for ItemsRead<'a, T> {
    ghost use Rattle.std.specs.Prelude.{List, ℕ, [], if◌then◌else◌};
    ghost use Rattle.headers_items.specs.ItemsState.{items_left};
    ghost use Rattle.headers_names.specs.ListItem.{values};

    ghost Value = { List (List ℕ) };

    ghost view = { λ w. if w.has_failed then [] else values T.value_of (items_left w.items) };
}

impl<'a, T: ListItem> ItemsRead<'a, T> {
    /// Starts an iterator over the values of a list. A list that isn't text has none.
    pub fn new(alloc: Global, list: &'a FlatCsv<Comma>) -> ItemsRead<'a, T>
        ensures { result ≡ values T.value_of (items comma list.now) }
    {
        ItemsRead {
            items: list.iter(),
            alloc,
            has_failed: false,
            of: PhantomData,
        }
    }

    /// Returns the next value, if one is left, or the error if an allocation fails.
    pub fn next(&mut self) -> Option<Result<T, AllocError>>
        ensures { GivesNext T.bytes_of T.wants self.old result self.new }
    {
        if self.has_failed {
            return None;
        }
        while let Some(item) = self.items.next() {
            // A value and an error are returned apart, since a value is copied once more where their
            // paths meet: an iteration over methods then takes 1.16 times as long.
            match T::from_item(self.alloc, item) {
                Some(Ok(value)) => return Some(Ok(value)),
                Some(Err(error)) => {
                    self.has_failed = true;
                    return Some(Err(error));
                }
                None => {}
            }
        }
        None
    }
}

impl<'a, T: ListItem> Iterator for ItemsRead<'a, T> {
    type Item = Result<T, AllocError>;

    ghost next_gives = { GivesNext T.bytes_of T.wants };

    ghost remaining = { item_count (λ left. left) };

    fn next(&mut self) -> Option<Result<T, AllocError>> {
        self.next()
    }
}
