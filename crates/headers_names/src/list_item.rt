//! The types that an item of a list between commas can have.
ghost use Rattle.std.{specs.Prelude.{◌≡◌, ℕ, List, [], Option, None, IfOk}, specs.Iterator.IsFinite};
ghost use Rattle.headers_names.specs.ListItem.{Reading, ReadsItem, ReadsAsItself, ListsValues};

use headers_core::{Comma, FlatCsv};
use http::Method;
use http::method::MethodError;
use http_header::{HeaderName, HeaderNameError, HeaderValue, HeaderValueError};
use std::alloc::{AllocError, Global};

/// A type that an item of a list can have: a field name or a method.
pub trait ListItem: Drop {
    // The bytes of a value.
    ghost bytes_of: { Self → List ℕ };

    // What an item parses as.
    ghost value_of: { Reading };

    // The values for which memory may be allocated.
    ghost wants: { List ℕ → Type 0 };

    /// Parses an item of a list. `None` if it is no such value, `Some(Err(..))` if an allocation
    /// fails.
    fn from_item(alloc: Global, item: &str) -> Option<Result<Self, AllocError>>
        ensures { ReadsItem bytes_of value_of wants item.now result };

    /// Encodes the value as a field line, which is a token and parses as that value. Fails only if
    /// an allocation fails.
    fn into_line(self, alloc: Global) -> Result<HeaderValue, AllocError>
        ensures bytes { IfOk result (λ line. line.bytes ≡ bytes_of self) }
        ensures reads { IfOk result (λ line. ReadsAsItself value_of line.bytes) };

    // The empty item is no value.
    ghost empty_is_none: { value_of [] ≡ None };
}

impl ListItem for HeaderName {
    ghost use Rattle.headers_names.{specs.ListItem.{name_of, NameWants}, specs.ListItemLaws.name_of-empty};

    ghost bytes_of = { λ name. name };

    ghost value_of = { name_of };

    ghost wants = { NameWants };

    ghost empty_is_none = { name_of-empty };

    fn from_item(alloc: Global, item: &str) -> Option<Result<HeaderName, AllocError>> {
        match HeaderName::from_bytes(alloc, item.as_bytes()) {
            Ok(name) => Some(Ok(name)),
            Err(HeaderNameError::Invalid) => None,
            Err(HeaderNameError::OutOfMemory) => Some(Err(AllocError)),
        }
    }

    fn into_line(self, _alloc: Global) -> Result<HeaderValue, AllocError> {
        prove!(self.as_str().len() > 0);
        Ok(HeaderValue::from_name(self))
    }
}

impl ListItem for Method {
    ghost use Rattle.headers_names.{specs.ListItem.{method_of, MethodWants}, specs.ListItemLaws.method_of-empty};

    ghost bytes_of = { λ method. method };

    ghost value_of = { method_of };

    ghost wants = { MethodWants };

    ghost empty_is_none = { method_of-empty };

    fn from_item(alloc: Global, item: &str) -> Option<Result<Method, AllocError>> {
        // A method is returned at once. Where its path meets those of the errors it is copied once
        // more, and an iteration over methods takes 1.14 times as long.
        let error = match Method::from_bytes(alloc, item.as_bytes()) {
            Ok(method) => return Some(Ok(method)),
            Err(error) => error,
        };
        match error {
            MethodError::Invalid => None,
            MethodError::OutOfMemory => Some(Err(AllocError)),
        }
    }

    fn into_line(self, alloc: Global) -> Result<HeaderValue, AllocError> {
        match HeaderValue::from_str(alloc, self.as_str()) {
            Ok(line) => Ok(line),
            Err(HeaderValueError::Invalid) => unreachable!(),
            Err(HeaderValueError::OutOfMemory) => Err(AllocError),
        }
    }
}

/// Joins the values of an iterator to a list. Fails only if an allocation fails. The size hint
/// isn't used. Without a value the list is empty.
pub(crate) fn list_of<T: ListItem, I: Iterator<Item = T> + Drop>(
    alloc: Global,
    values: I,
) -> Result<FlatCsv<Comma>, AllocError>
    requires can { I.can_next values }
    requires ends { IsFinite (I.remaining values) }
    ensures { IfOk result (ListsValues T.bytes_of T.value_of I.next_gives values) }
{
    let mut lines = Vec::new(alloc);
    for value in values {
        lines.push(value.into_line(alloc)?)?;
    }
    FlatCsv::from_items(alloc, lines.into_iter())
}
