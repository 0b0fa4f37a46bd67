//! The members of a field line, and of all lines of a field.
ghost use Rattle.std.specs.{Prelude.{◌≡◌, true, false}, List.list_all, Iterator.{YieldsFirstBy, item_count}};
ghost use Rattle.headers_syntax.specs.Lines.{lines_of};
ghost use Rattle.rfc_fields.specs.Members.{field_left, field_members, is_whole};
ghost use Rattle.rfc_fields.specs.Members.{is_well_formed, member_of, members, members_left, pieces_left};
ghost use Rattle.rfc_fields.specs.{Grammar.semicolon, Scan.pieces, declared.scan.State.TheVariants.Outside};

use crate::error::Malformed;
use crate::scan::{End, first_end};
use headers_syntax::trim;
use http_header::{GetAll, HeaderValue, ValueIter};
use std::marker::Model;

/// An iterator over the members of one field line (RFC 9110, section 5.6.1). Each is a slice of the
/// line without blanks around it. Empty members are skipped. A member with a quote that has no end
/// in the line is malformed, and reaches to the end of the line.
#[derive(Drop)]
pub struct Members<'a> {
    separator: u8,
    pairs: bool,
    rest: &'a [u8],
    is_done: bool,
}

impl<'a> Model for Members<'a> {
    ghost use Rattle.rfc_fields.specs.Members.{MembersState};

    ghost Value = { MembersState };

    ghost view = { λ m. record {
      separator = m.separator;
      pairs = m.pairs;
      rest = m.rest.now;
      is_done = m.is_done;
    } };
}

impl<'a> Members<'a> {
    /// Starts an iterator over a list whose quoted-strings have quoted-pairs (RFC 9110, section
    /// 5.6.4).
    pub fn new(line: &'a [u8]) -> Members<'a>
        ensures members { members_left result ≡ members true line.now }
        ensures pairs { result.pairs ≡ true }
    {
        Members::with_pairs(true, line)
    }

    /// Starts an iterator over a list of entity tags, which have no quoted-pairs (RFC 9110, section
    /// 8.8.3).
    pub fn of_tags(line: &'a [u8]) -> Members<'a>
        ensures members { members_left result ≡ members false line.now }
        ensures pairs { result.pairs ≡ false }
    {
        Members::with_pairs(false, line)
    }

    fn with_pairs(pairs: bool, line: &'a [u8]) -> Members<'a>
        ensures members { members_left result ≡ members pairs line.now }
        ensures pairs { result.pairs ≡ pairs }
    {
        Members {
            separator: b',',
            pairs,
            rest: line,
            is_done: false,
        }
    }

    /// Starts an iterator over what is between the semicolons of an element.
    pub(crate) fn between_semicolons(element: &'a [u8]) -> Members<'a>
        ensures { pieces_left result ≡ pieces semicolon true Outside element.now }
    {
        Members {
            separator: b';',
            pairs: true,
            rest: element,
            is_done: false,
        }
    }

    /// Returns what is before the next separator, with the blanks around it.
    pub(crate) fn next_piece(&mut self) -> Option<Result<&'a [u8], Malformed>>
        ensures steps { YieldsFirstBy member_of pieces_left self.old result self.new }
        ensures pairs { self.new.pairs ≡ self.old.pairs }
    {
        if self.is_done {
            return None;
        }
        let rest = self.rest;
        match first_end(self.separator, self.pairs, rest) {
            End::Cut(place) => {
                self.rest = &rest[place + 1..];
                Some(Ok(&rest[..place]))
            }
            End::Closed => {
                self.is_done = true;
                Some(Ok(rest))
            }
            End::Open => {
                self.is_done = true;
                Some(Err(Malformed))
            }
        }
    }

    /// Returns the next member, if one is left, or `Malformed`.
    pub fn next(&mut self) -> Option<Result<&'a [u8], Malformed>>
        ensures steps { YieldsFirstBy member_of members_left self.old result self.new }
        ensures pairs { self.new.pairs ≡ self.old.pairs }
    {
        while let Some(piece) = self.next_piece() {
            match piece {
                Ok(text) => {
                    let member = trim(text);
                    if !member.is_empty() {
                        return Some(Ok(member));
                    }
                }
                Err(Malformed) => return Some(Err(Malformed)),
            }
        }
        None
    }
}

impl<'a> Iterator for Members<'a> {
    type Item = Result<&'a [u8], Malformed>;

    ghost next_gives = { YieldsFirstBy member_of members_left };

    ghost remaining = { item_count members_left };

    fn next(&mut self) -> Option<Result<&'a [u8], Malformed>> {
        self.next()
    }
}

/// Returns whether each quote of a field line has its end, so that no member of it is malformed.
pub fn is_well_formed(line: &[u8]) -> bool
    ensures { result ≡ is_well_formed line.now }
{
    let mut members = Members::new(line);
    while let Some(member) = members.next() {
        match member {
            Ok(_) => {}
            Err(Malformed) => return false,
        }
    }
    true
}

/// An iterator over the members of all lines of a field. Each line is parsed by itself: a malformed
/// member reaches to the end of its line, and the next line begins outside quotes.
#[derive(Drop)]
pub struct FieldMembers<'a> {
    line: Members<'a>,
    values: ValueIter<'a, HeaderValue>,
}

impl<'a> Model for FieldMembers<'a> {
    ghost use Rattle.rfc_fields.specs.Members.{FieldState};

    ghost Value = { FieldState };

    ghost view = { λ m. record { line = m.line; values = m.values } };
}

impl<'a> FieldMembers<'a> {
    /// Starts an iterator over a field whose quoted-strings have quoted-pairs (RFC 9110, section
    /// 5.6.4).
    pub fn new(field: &GetAll<'a, HeaderValue>) -> FieldMembers<'a>
        ensures { field_left result ≡ field_members true (lines_of field.now) }
    {
        FieldMembers {
            line: Members::new(b""),
            values: field.iter(),
        }
    }

    /// Starts an iterator over a field of entity tags, which have no quoted-pairs (RFC 9110,
    /// section 8.8.3).
    pub fn of_tags(field: &GetAll<'a, HeaderValue>) -> FieldMembers<'a>
        ensures { field_left result ≡ field_members false (lines_of field.now) }
    {
        FieldMembers {
            line: Members::of_tags(b""),
            values: field.iter(),
        }
    }

    /// Returns the next member, if one is left, or `Malformed`.
    pub fn next(&mut self) -> Option<Result<&'a [u8], Malformed>>
        ensures { YieldsFirstBy member_of field_left self.old result self.new }
    {
        if let Some(member) = self.line.next() {
            return Some(member);
        }
        while let Some(value) = self.values.next() {
            self.line = Members::with_pairs(self.line.pairs, value.as_bytes());
            if let Some(member) = self.line.next() {
                return Some(member);
            }
        }
        None
    }
}

impl<'a> Iterator for FieldMembers<'a> {
    type Item = Result<&'a [u8], Malformed>;

    ghost next_gives = { YieldsFirstBy member_of field_left };

    ghost remaining = { item_count field_left };

    fn next(&mut self) -> Option<Result<&'a [u8], Malformed>> {
        self.next()
    }
}
