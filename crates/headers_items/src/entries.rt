//! The entries of one field line.
ghost use Rattle.std.{specs.Prelude.{◌≡◌, ◌+◌, ◌≤◌}, specs.Iterator.{YieldsFirstBy, item_count}};
ghost use Rattle.headers_items.{specs.Places.{comma, marks}, specs.Entries.line_entries, specs.ItemsState.entries_left};
ghost use Rattle.headers_items.specs.ItemsState.{walk_over, ScansEntry, WalksEntries};

use crate::flat_csv::text_items;
use crate::items::Items;
use crate::separator::Comma;
use http_header::HeaderValue;
use std::marker::Model;

/// An iterator over the entries of one field line (RFC 9110, section 5.6.1.2). The entries are the
/// items between commas that aren't empty, each a slice of the line. A line that isn't text has
/// none. The iterator never allocates.
#[derive(Drop)]
pub struct Entries<'a> {
    items: Items<'a, Comma>,
}

impl<'a> Model for Entries<'a> {
    ghost use Rattle.headers_items.specs.ItemsState.{ItemsState};

    ghost Value = { ItemsState };

    ghost view = { λ e. e.items };
}

// The next item that isn't empty.
fn next_entry<'a>(items: &mut Items<'a, Comma>) -> Option<&'a str>
    ensures steps { YieldsFirstBy (λ item. item.now) entries_left items.old result items.new }
    ensures scanned { ScansEntry items.old result items.new }
    ensures bound { items.new.searches ≤ marks items.new.separator items.new.text + 1 }
{
    while let Some(item) = items.next() {
        if !item.is_empty() {
            return Some(item);
        }
    }
    None
}

impl<'a> Entries<'a> {
    /// Starts an iterator over the entries of a field line.
    pub fn new(line: &'a HeaderValue) -> Entries<'a>
        ensures entries { entries_left result ≡ line_entries line.now.bytes }
        ensures fresh { result ≡ walk_over comma line.now.bytes }
    {
        Entries {
            items: text_items(line),
        }
    }

    /// Returns the next entry, if one is left. The scan is then just past its piece, or at the end
    /// of the line if no separator ends the piece or no entry was left.
    pub fn next(&mut self) -> Option<&'a str>
        ensures steps { YieldsFirstBy (λ item. item.now) entries_left self.old result self.new }
        ensures scanned { ScansEntry self.old result self.new }
        ensures bound { self.new.searches ≤ marks self.new.separator self.new.text + 1 }
    {
        next_entry(&mut self.items)
    }
}

impl<'a> Iterator for Entries<'a> {
    type Item = &'a str;

    ghost next_gives = { WalksEntries };

    ghost remaining = { item_count entries_left };

    fn next(&mut self) -> Option<&'a str> {
        self.next()
    }
}
