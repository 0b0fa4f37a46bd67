//! The methods in a list.
ghost use Rattle.std.specs.Prelude.{List, ℕ, All};
ghost use Rattle.http_header.specs.Token.{IsToken};
ghost use Rattle.headers_items.{specs.Merge.merge, specs.Places.comma};
ghost use Rattle.headers_names.specs.ListItem.{method_of, IsListOf};

use crate::skip_names::ItemsRead;
use http::Method;

/// An iterator over the items of a list that are methods (RFC 9110, section 9.1).
pub type Methods<'a> = ItemsRead<'a, Method>;

/// Theorem: the iterator yields the methods that were joined, also if there are none.
pub fn methods_of_own_list()
    ensures { (given : List (List ℕ)) → All IsToken given
        → IsListOf method_of given (merge comma given) }
{}
