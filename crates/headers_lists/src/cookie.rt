//! The header `cookie`.
ghost use Rattle.std.specs.Prelude.{◌≡◌, ◌<◌, ◌^◌, length, option_map, IfOk, List, ℕ, codes};
ghost use Rattle.headers_items.{specs.Answers.{GoesByItems, SurvivesCuts}, specs.Merge.merge, specs.Places.semicolon};
ghost use Rattle.headers_items.{specs.Places.items, specs.ItemsState.{ItemsState, walk_over}, specs.Pairs.pairs};
ghost use Rattle.headers_items.specs.Pairs.{pairs_left, first_value, YieldsPairsInOrder};

use headers_core::{FlatCsv, FormHeader, Pairs, SemiColon};
use http_header::{COOKIE, HeaderName};
use std::alloc::{AllocError, Global};
use std::marker::Model;

/// The header `Cookie`: the cookies that a user agent sends to a server (RFC 6265, section 4.2).
/// All field lines are joined by a semicolon and a space, and none are rejected: `decode` fails
/// only if an allocation fails.
#[derive(Debug, Drop)]
pub struct Cookie {
    pairs: FlatCsv<SemiColon>,
}

impl Model for Cookie {
    ghost Value = { List ℕ };

    ghost view = { λ v. v.pairs };

    ghost inverse = { λ bytes. record { pairs = bytes } };
}

impl Cookie {
    /// Starts an iterator over the names and values of the cookies, in order. An item without `=`
    /// is skipped, and a value that isn't text has no cookies.
    pub fn iter(&self) -> Pairs<'_>
        ensures pairs { pairs_left result ≡ pairs (items semicolon self.now) }
        ensures fresh { result ≡ walk_over semicolon self.now }
        ensures count { length (pairs_left result) < 2 ^ 64 }
        ensures runs { YieldsPairsInOrder }
        ensures cuts { SurvivesCuts semicolon
            (λ lines (walk : ItemsState). pairs_left walk ≡ pairs (items semicolon (merge semicolon lines))) }
        ensures by_items { GoesByItems semicolon
            (λ value (walk : ItemsState). pairs_left walk ≡ pairs (items semicolon value)) }
    {
        Pairs::new(&self.pairs)
    }

    /// Returns the value of the first cookie with this name, compared byte for byte. `None` if
    /// there is none.
    pub fn get(&self, name: &str) -> Option<&str>
        ensures answer { option_map (λ value. value.now) result
            ≡ first_value name.now (pairs (items semicolon self.now)) }
        ensures cuts { SurvivesCuts semicolon
            (λ lines got. got ≡ first_value name.now (pairs (items semicolon (merge semicolon lines)))) }
        ensures by_items { GoesByItems semicolon
            (λ value got. got ≡ first_value name.now (pairs (items semicolon value))) }
    {
        for (key, value) in self.iter() {
            if key == name {
                return Some(value);
            }
        }
        None
    }

    /// Returns the number of cookies: of items with an `=`.
    pub fn len(&self) -> usize
        ensures answer { result ≡ length (pairs (items semicolon self.now)) }
        ensures cuts { SurvivesCuts semicolon
            (λ lines count. count ≡ length (pairs (items semicolon (merge semicolon lines)))) }
        ensures by_items { GoesByItems semicolon (λ value count. count ≡ length (pairs (items semicolon value))) }
    {
        self.iter().count()
    }

    /// Copies the header. Fails only if an allocation fails.
    pub fn clone(&self, alloc: Global) -> Result<Cookie, AllocError>
        ensures { IfOk result (λ copy. copy ≡ self.now) }
    {
        Ok(Cookie::from_form(self.pairs.clone(alloc)?))
    }
}

impl FormHeader for Cookie {
    type Form = FlatCsv<SemiColon>;

    ghost NAME = { codes "cookie" };

    const NAME: HeaderName = COOKIE;

    ghost form = { λ header. header };

    fn from_form(pairs: FlatCsv<SemiColon>) -> Cookie {
        Cookie { pairs }
    }

    fn as_form(&self) -> &FlatCsv<SemiColon> {
        &self.pairs
    }
}
