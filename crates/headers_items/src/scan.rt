//! A scan for quotes and counting separators.
ghost use Rattle.std.specs.Prelude.{◌≡◌, ◌≢◌, ◌+◌, ◌≤◌, length, true, false, not, is_none, if◌then◌else◌};
ghost use Rattle.memchr.specs.Find.{IsFirstByte, is_byte, is_byte2};
ghost use Rattle.headers_items.specs.Places.{is_even, quotes_before, hits};
ghost use Rattle.headers_items.specs.ScanState.{FindsMark, place_after, end_search};

use memchr::{memchr, memchr2};
use std::marker::Model;

const QUOTE: u8 = b'"';

/// What a scan finds: a quote, or a counting separator.
#[derive(Clone, Copy, Debug, PartialEq, Eq)]
pub struct Mark {
    /// Its place, counted in bytes from 0.
    pub place: usize,
    /// Whether it is a quote, and not a separator.
    pub quote: bool,
}

/// A scan of bytes for quotes and for separators outside quotes, one search a call.
///
/// A contract sees how many searches were made; the code doesn't store their number.
#[derive(Drop)]
pub struct Scan<'a> {
    bytes: &'a [u8],
    separator: u8,
    place: usize,
    is_open: bool,
    is_ended: bool,
}

impl<'a> Model for Scan<'a> {
    ghost use Rattle.std.specs.Prelude.{◌≡◌, ◌≢◌, ◌+◌, ◌≤◌, length, not, true};
    ghost use Rattle.headers_syntax.specs.Text.{quote};
    ghost use Rattle.headers_items.specs.Places.{is_even, quotes_before, hits};
    ghost use Rattle.headers_items.specs.ScanState.{ScanState, end_search};

    ghost Value = { ScanState };

    ghost view = { λ s. record {
      bytes = s.bytes.now;
      separator = s.separator;
      place = s.place;
      is_ended = s.is_ended;
      searches = hits s.separator s.bytes.now s.place + end_search s.is_ended;
    } };

    ghost invariant = { λ s. (s.separator ≢ quote) × (s.place ≤ length s.bytes.now)
        × (s.is_open ≡ not (is_even (quotes_before s.bytes.now s.place)))
        × (s.is_ended ≡ true → s.place ≡ length s.bytes.now) };
}

// A search, out of line: with its code inlined, iterating over commas takes 2.8 times as long.
#[inline(never)]
fn search_quote(bytes: &[u8]) -> Option<usize>
    ensures { IsFirstByte (is_byte QUOTE) bytes.now result }
{
    memchr(QUOTE, bytes)
}

#[inline(never)]
fn search_quote_or(separator: u8, bytes: &[u8]) -> Option<usize>
    ensures { IsFirstByte (is_byte2 QUOTE separator) bytes.now result }
{
    memchr2(QUOTE, separator, bytes)
}

// The first quote. It looks at the first byte before it searches, since a search costs more if
// quotes are close: an iteration over quotes alone takes 0.22 of the time.
fn first_quote(bytes: &[u8]) -> Option<usize>
    ensures { IsFirstByte (is_byte QUOTE) bytes.now result }
{
    match bytes {
        [QUOTE, ..] => Some(0),
        _ => search_quote(bytes),
    }
}

// The first quote or separator, found in the same way.
fn first_quote_or(separator: u8, bytes: &[u8]) -> Option<usize>
    ensures { IsFirstByte (is_byte2 QUOTE separator) bytes.now result }
{
    match bytes {
        [first, ..] if *first == QUOTE || *first == separator => Some(0),
        _ => search_quote_or(separator, bytes),
    }
}

// The first byte that may be a mark: inside quotes a quote, outside them a separator too.
fn first_mark(separator: u8, bytes: &[u8], is_open: bool) -> Option<usize>
    ensures { IsFirstByte (if is_open then is_byte QUOTE else is_byte2 QUOTE separator) bytes.now result }
{
    if is_open {
        first_quote(bytes)
    } else {
        first_quote_or(separator, bytes)
    }
}

// The next quote or counting separator, from a place inside or outside quotes.
fn find_mark(bytes: &[u8], separator: u8, from: usize, is_open: bool) -> Option<Mark>
    requires separator { separator ≢ QUOTE }
    requires from { from ≤ length bytes.now }
    requires is_open { is_open ≡ not (is_even (quotes_before bytes.now from)) }
    ensures { FindsMark separator bytes.now from result }
{
    let place = from + first_mark(separator, &bytes[from..], is_open)?;
    Some(Mark {
        place,
        quote: bytes[place] == QUOTE,
    })
}

impl<'a> Scan<'a> {
    /// Starts a scan at the first byte. The caller must show that the separator is not a quote.
    pub fn new(bytes: &'a [u8], separator: u8) -> Scan<'a>
        requires { separator ≢ QUOTE }
        ensures { result ≡ record {
          bytes = bytes.now;
          separator = separator;
          place = 0;
          is_ended = false;
          searches = 0;
        } }
    {
        Scan {
            bytes,
            separator,
            place: 0,
            is_open: false,
            is_ended: false,
        }
    }

    /// Finds the next quote or counting separator, and moves just past it. If none is left, the
    /// scan moves to the end, and later calls make no search.
    pub fn next_mark(&mut self) -> Option<Mark>
        ensures found { FindsMark self.old.separator self.old.bytes self.old.place result }
        ensures place { self.new.place ≡ place_after self.old.bytes result }
        ensures is_ended { self.new.is_ended ≡ is_none result }
        ensures searches { self.new.searches ≡ self.old.searches + (if self.old.is_ended then 0 else 1) }
        ensures so_far { self.new.searches
            ≡ hits self.new.separator self.new.bytes self.new.place + end_search self.new.is_ended }
        ensures bytes { self.new.bytes ≡ self.old.bytes }
        ensures separator { self.new.separator ≡ self.old.separator }
    {
        if self.is_ended {
            return None;
        }
        let found = find_mark(self.bytes, self.separator, self.place, self.is_open);
        match found {
            Some(mark) => {
                self.place = mark.place + 1;
                if mark.quote {
                    self.is_open = !self.is_open;
                }
            }
            None => {
                self.place = self.bytes.len();
                self.is_ended = true;
            }
        }
        found
    }
}
