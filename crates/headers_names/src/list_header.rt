//! Headers that are a list of field names or of methods.
ghost use Rattle.std.{specs.Prelude.{◌≡◌, IfOk}, specs.Iterator.IsFinite};
ghost use Rattle.headers_items.{specs.Answers.{GoesByItems, SurvivesCuts}, specs.Merge.merge, specs.Places.comma};
ghost use Rattle.headers_items.specs.Places.{items};
ghost use Rattle.headers_names.specs.ListItem.{values, ListsValues};

use crate::list_item::{ListItem, list_of};
use crate::skip_names::ItemsRead;
use headers_core::{Comma, FlatCsv, FormHeader, NamedField};
use http_header::HeaderName;
use std::alloc::{AllocError, Global};
use std::marker::{Model, PhantomData};

/// The field name of a list header, and the type of its items.
pub trait ListField: NamedField {
    /// The type of the items: field names or methods.
    type Item: ListItem;
}

/// A header that is a list of field names or of methods between commas (RFC 9110, section 5.6.1).
/// All field lines are joined by a comma and a space, and none are rejected: `decode` fails only if
/// an allocation fails. Headers are compared by the joined bytes.
#[derive(Debug, Drop, PartialEq)]
pub struct ListHeader<N: ListField> {
    list: FlatCsv<Comma>,
    of: PhantomData<N>,
}

impl<N: ListField> Model for ListHeader<N> {
    ghost use Rattle.std.specs.Prelude.{List, ℕ};

    ghost Value = { List ℕ };

    ghost view = { λ header. header.list };

    ghost inverse = { λ bytes. record { list = bytes; of = record {} } };
}

impl<N: ListField> ListHeader<N> {
    /// Joins the field names or methods of an iterator by a comma and a space. Fails only if an
    /// allocation fails. The size hint isn't used. `iter` yields the same items again.
    pub fn from_iter<I: Iterator<Item = N::Item> + Drop>(
        alloc: Global,
        items: I,
    ) -> Result<ListHeader<N>, AllocError>
        requires can { I.can_next items }
        requires ends { IsFinite (I.remaining items) }
        ensures { IfOk result (ListsValues N.Item.bytes_of N.Item.value_of I.next_gives items) }
    {
        Ok(ListHeader::from_form(list_of(alloc, items)?))
    }

    /// Starts an iterator over the items that are a field name or a method, in order. Other items
    /// are skipped.
    pub fn iter(&self, alloc: Global) -> ItemsRead<'_, N::Item>
        ensures answer { result ≡ values N.Item.value_of (items comma self.now) }
        ensures cuts { SurvivesCuts comma
            (λ lines left. left ≡ values N.Item.value_of (items comma (merge comma lines))) }
        ensures by_items { GoesByItems comma
            (λ value left. left ≡ values N.Item.value_of (items comma value)) }
    {
        ItemsRead::new(alloc, &self.list)
    }

    /// Copies the list. Fails only if an allocation fails.
    pub fn clone(&self, alloc: Global) -> Result<ListHeader<N>, AllocError>
        ensures { IfOk result (λ copy. copy ≡ self.now) }
    {
        Ok(ListHeader::from_form(self.list.clone(alloc)?))
    }
}

impl<N: ListField> FormHeader for ListHeader<N> {
    type Form = FlatCsv<Comma>;

    ghost NAME = { N.NAME };

    const NAME: HeaderName = N::NAME;

    ghost form = { λ header. header };

    fn from_form(list: FlatCsv<Comma>) -> ListHeader<N> {
        ListHeader {
            list,
            of: PhantomData,
        }
    }

    fn as_form(&self) -> &FlatCsv<Comma> {
        &self.list
    }
}
