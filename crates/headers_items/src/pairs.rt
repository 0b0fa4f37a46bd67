//! The pairs of a joined value: the two sides of the first `=` of each item.
ghost use Rattle.std.{specs.Prelude.{◌≡◌, ◌+◌, ◌≤◌, ◌<◌, ◌^◌, true, length, option_map}, specs.Iterator.YieldsFirstBy};
ghost use Rattle.std.specs.Iterator.{item_count};
ghost use Rattle.headers_syntax.specs.Text.{is_text};
ghost use Rattle.headers_items.{specs.Places.{semicolon, items, marks}, specs.ItemsState.walk_over};
ghost use Rattle.headers_items.specs.Pairs.{pair_of, pairs, pairs_left, pair_shown, ScansPair, WalksPairs};
ghost use Rattle.headers_items.specs.Pairs.{YieldsPairsInOrder};

use crate::flat_csv::FlatCsv;
use crate::items::Items;
use crate::separator::SemiColon;
use headers_syntax::trimmed;
use memchr::memchr;
use std::marker::Model;

/// An iterator over the pairs of a list between semicolons (RFC 6265, section 4.2.1). Each item
/// with an `=` gives a pair: the trimmed halves on both sides of its first `=`, as slices of the
/// value. The iterator never allocates.
#[derive(Drop)]
pub struct Pairs<'a> {
    items: Items<'a, SemiColon>,
}

impl<'a> Model for Pairs<'a> {
    ghost use Rattle.headers_items.specs.ItemsState.{ItemsState};

    ghost Value = { ItemsState };

    ghost view = { λ p. p.items };
}

// The trimmed halves of an item, on both sides of its first `=`.
fn halves(item: &str) -> Option<(&str, &str)>
    requires { is_text item.now ≡ true }
    ensures { option_map pair_shown result ≡ pair_of item.now }
{
    let bytes = item.as_bytes();
    let equals = memchr(b'=', bytes)?;
    let (start, end) = trimmed(bytes, 0, equals);
    let (from, to) = trimmed(bytes, equals + 1, bytes.len());
    Some((&item[start..end], &item[from..to]))
}

// The next pair of the items.
fn next_pair<'a>(items: &mut Items<'a, SemiColon>) -> Option<(&'a str, &'a str)>
    ensures steps { YieldsFirstBy pair_shown pairs_left items.old result items.new }
    ensures scanned { ScansPair items.old result items.new }
    ensures bound { items.new.searches ≤ marks items.new.separator items.new.text + 1 }
{
    while let Some(item) = items.next() {
        if let Some(pair) = halves(item) {
            return Some(pair);
        }
    }
    None
}

impl<'a> Pairs<'a> {
    /// Starts an iterator over the pairs of a value. A value that isn't text has none.
    pub fn new(value: &'a FlatCsv<SemiColon>) -> Pairs<'a>
        ensures pairs { pairs_left result ≡ pairs (items semicolon value.now) }
        ensures fresh { result ≡ walk_over semicolon value.now }
        ensures count { length (pairs_left result) < 2 ^ 64 }
        ensures runs { YieldsPairsInOrder }
    {
        Pairs {
            items: value.iter(),
        }
    }

    /// Returns the next pair, if one is left. The scan is then just past its piece, or at the end
    /// of the value if no separator ends the piece or no pair was left.
    pub fn next(&mut self) -> Option<(&'a str, &'a str)>
        ensures steps { YieldsFirstBy pair_shown pairs_left self.old result self.new }
        ensures scanned { ScansPair self.old result self.new }
        ensures bound { self.new.searches ≤ marks self.new.separator self.new.text + 1 }
    {
        next_pair(&mut self.items)
    }
}

impl<'a> Iterator for Pairs<'a> {
    type Item = (&'a str, &'a str);

    ghost next_gives = { WalksPairs };

    ghost remaining = { item_count pairs_left };

    fn next(&mut self) -> Option<(&'a str, &'a str)> {
        self.next()
    }
}
