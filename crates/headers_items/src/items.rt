//! The items of a joined value, as slices of it.
ghost use Rattle.std.specs.Prelude.{◌≡◌, ◌≢◌, ◌+◌, ◌≤◌, ◌<◌, ◌^◌, [], IsTrue, length, true, false, is_none, IfSome};
ghost use Rattle.std.specs.Iterator.{YieldsFirstBy, item_count};
ghost use Rattle.headers_syntax.specs.Text.{is_text, quote};
ghost use Rattle.headers_items.{specs.Places.{hits, items, marks}, specs.ScanState.end_search};
ghost use Rattle.headers_items.specs.ItemsState.{ItemsState, items_left, walk_over, FindsCut, ScansPiece, after_cut};
ghost use Rattle.headers_items.specs.ItemsState.{WalksItems};

use crate::scan::Scan;
use crate::separator::Separator;
use headers_syntax::trimmed;
use std::marker::{Model, PhantomData};

/// An iterator over the trimmed pieces between counting separators, each a slice of the value. It
/// never allocates.
#[derive(Drop)]
pub struct Items<'a, S: Separator> {
    text: &'a str,
    scan: Scan<'a>,
    start: usize,
    is_done: bool,
    of: PhantomData<S>,
}

impl<'a, S: Separator> Model for Items<'a, S> {
    ghost use Rattle.headers_items.specs.ItemsState.{ItemsState, ItemsInvariant};

    ghost Value = { ItemsState };

    ghost view = { λ s. record {
      text = s.text.now;
      separator = S.BYTE;
      start = s.start;
      is_done = s.is_done;
      place = s.scan.place;
      is_ended = s.scan.is_ended;
      searches = s.scan.searches;
    } };

    ghost invariant = { λ s. ItemsInvariant S.BYTE s.text.now s.scan s.start s.is_done };
}

// The next separator at a counting place. The scan moves past the quotes before it.
fn next_cut(scan: &mut Scan<'_>) -> Option<usize>
    requires separator { scan.old.separator ≢ quote }
    requires within { scan.old.place ≤ length scan.old.bytes }
    ensures found { FindsCut scan.old.separator scan.old.bytes scan.old.place result }
    ensures place { scan.new.place ≡ after_cut scan.old.bytes result }
    ensures is_ended { scan.new.is_ended ≡ is_none result }
    ensures so_far { scan.new.searches
        ≡ hits scan.old.separator scan.old.bytes scan.new.place + end_search scan.new.is_ended }
    ensures bytes { scan.new.bytes ≡ scan.old.bytes }
    ensures separator { scan.new.separator ≡ scan.old.separator }
{
    while let Some(mark) = scan.next_mark() {
        if !mark.quote {
            return Some(mark.place);
        }
    }
    None
}

impl<'a, S: Separator> Items<'a, S> {
    /// The items of a text.
    pub(crate) fn new(text: &'a str) -> Items<'a, S>
        requires { IsTrue (is_text text.now) }
        ensures items { items_left result ≡ items S.BYTE text.now }
        ensures fresh { result ≡ walk_over S.BYTE text.now }
        ensures count { length (items_left result) < 2 ^ 64 }
    {
        Items {
            text,
            scan: Scan::new(text.as_bytes(), S::separator_byte()),
            start: 0,
            is_done: false,
            of: PhantomData,
        }
    }

    /// An iterator without an item, for a value that isn't text.
    pub(crate) fn none() -> Items<'a, S>
        ensures { result ≡ record {
          text = [];
          separator = S.BYTE;
          start = 0;
          is_done = true;
          place = 0;
          is_ended = false;
          searches = 0;
        } }
    {
        Items {
            text: "",
            scan: Scan::new(b"", S::separator_byte()),
            start: 0,
            is_done: true,
            of: PhantomData,
        }
    }

    /// Returns the next item, if one is left. The scan is then just past its piece, or at the end
    /// of the text if no separator ends the piece or no item was left.
    pub fn next(&mut self) -> Option<&'a str>
        ensures steps { YieldsFirstBy (λ item. item.now) items_left self.old result self.new }
        ensures scanned { ScansPiece self.old result self.new }
        ensures follows { self.new.is_done ≡ false → self.new.start ≡ self.new.place }
        ensures bound { self.new.searches ≤ marks self.new.separator self.new.text + 1 }
        ensures plain { IfSome result (λ item. is_text item.now ≡ true) }
    {
        if self.is_done {
            return None;
        }
        let text = self.text;
        let start = self.start;
        let end = match next_cut(&mut self.scan) {
            Some(cut) => {
                self.start = cut + 1;
                cut
            }
            None => {
                self.is_done = true;
                text.len()
            }
        };
        let (low, high) = trimmed(text.as_bytes(), start, end);
        Some(&text[low..high])
    }
}

impl<'a, S: Separator> Iterator for Items<'a, S> {
    type Item = &'a str;

    ghost next_gives = { WalksItems };

    ghost remaining = { item_count items_left };

    fn next(&mut self) -> Option<&'a str> {
        self.next()
    }
}
