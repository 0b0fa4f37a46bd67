//! The field lines of a list field, stored as one value.
ghost use Rattle.std.specs.Prelude.{◌≡◌, ◌≤◌, ◌<◌, ◌^◌, length, ◌∷◌, ◌++◌, true, false, IfOk, OnOk, IsTrue};
ghost use Rattle.std.{specs.Prelude.MatchOption, specs.Iterator.IsFinite, specs.Iterator.Runs.YieldsRefsInOrder};
ghost use Rattle.std.specs.List.{slice_range};
ghost use Rattle.headers_syntax.{specs.OfLines.OfLines, specs.Text.is_text, specs.Lines.lines_of};
ghost use Rattle.headers_items.{specs.Places.{items, pieces}, specs.ItemsState.{items_left, walk_over, WalksItems}};
ghost use Rattle.headers_items.{specs.CutLaw.{IsMerged, MergesItems, MergesLines, AreCuts}, specs.Merge.merge};
ghost use Rattle.http_header.specs.FieldValue.{IsFieldValue};

use crate::items::Items;
use crate::separator::Separator;
use bytes::{Bytes, BytesMut};
use headers_syntax::{AsHeaderValue, read_text};
use http_header::{HeaderName, HeaderValue};
use std::alloc::{AllocError, Global};
use std::fmt;
use std::marker::{Model, PhantomData};

/// The field lines of a list field, joined by the separator and one space (RFC 9110, section 5.3;
/// for cookies RFC 9113, section 8.2.3).
///
/// A contract sees the bytes of the joined value.
#[derive(Drop)]
pub struct FlatCsv<S: Separator> {
    value: HeaderValue,
    of: PhantomData<S>,
}

impl<S: Separator> Model for FlatCsv<S> {
    ghost use Rattle.std.specs.Prelude.{List, ℕ};

    ghost Value = { List ℕ };

    ghost view = { λ c. c.value.bytes };
}

// Appends a field line after a separator and a space, whose room is asked for at once.
fn append(buffer: &mut BytesMut, separator: u8, line: &HeaderValue) -> Result<(), AllocError>
    ensures items { OnOk result (buffer.new.items ≡ buffer.old.items ++ separator ∷ 32 ∷ line.now.bytes) }
    ensures valid { OnOk result (IsFieldValue line.now.bytes) }
{
    let line = line.as_bytes();
    buffer.reserve(line.len().saturating_add(2))?;
    buffer.extend_from_slice(&[separator, b' '])?;
    buffer.extend_from_slice(line)
}

// Two field lines and all that follow, joined in one buffer. It begins with room for the two, which
// are all that is known to come. Out of line, since most fields have one line, whose decoding takes
// 1.2 times as long with this code inlined.
#[inline(never)]
fn joined<S: Separator, I: Iterator>(
    alloc: Global,
    first: &HeaderValue,
    second: &HeaderValue,
    others: &mut I,
) -> Result<HeaderValue, AllocError>
where
    I::Item: AsHeaderValue,
    requires can { I.can_next others.old }
    requires ends { IsFinite (I.remaining others.old) }
    ensures { OfLines I.Item.shown I.next_gives others.old others.new
        (λ ls. IfOk result (λ v. IsMerged S.BYTE (first.now.bytes ∷ second.now.bytes ∷ ls) v.bytes)) }
{
    let first = first.as_bytes();
    let room = first
        .len()
        .saturating_add(second.as_bytes().len())
        .saturating_add(2);
    let mut buffer = BytesMut::with_capacity(alloc, room)?;
    buffer.extend_from_slice(first)?;
    append(&mut buffer, S::separator_byte(), second)?;
    while let Some(line) = others.next() {
        append(&mut buffer, S::separator_byte(), line.as_header_value())?;
    }
    Ok(HeaderValue::from_known_valid(buffer.freeze()?))
}

// A part of a value.
fn copy_of(alloc: Global, bytes: &[u8], start: usize, end: usize) -> Result<HeaderValue, AllocError>
    requires valid { IsFieldValue bytes.now }
    requires order { start ≤ end }
    requires within { end ≤ length bytes.now }
    ensures { IfOk result (λ v. v.bytes ≡ slice_range bytes.now start end) }
{
    Ok(HeaderValue::from_known_valid(Bytes::copy_from_slice(alloc, &bytes[start..end])?))
}

// The items of a value. A value that isn't text has none.
pub(crate) fn text_items<S: Separator>(value: &HeaderValue) -> Items<'_, S>
    ensures items { items_left result ≡ items S.BYTE value.now.bytes }
    ensures fresh { result ≡ walk_over S.BYTE value.now.bytes }
    ensures count { length (items_left result) < 2 ^ 64 }
{
    match read_text(value) {
        Some(text) => Items::new(text),
        None => Items::none(),
    }
}

impl<S: Separator> FlatCsv<S> {
    /// Stores one header value as it is.
    pub fn from_value(value: HeaderValue) -> FlatCsv<S>
        ensures { result ≡ value.bytes }
    {
        FlatCsv {
            value,
            of: PhantomData,
        }
    }

    /// Joins field lines by the separator and one space. Fails only if an allocation fails. Without
    /// a line the value is empty; one line is the value itself. The size hint isn't used. If all
    /// lines are text and each but the last has an even number of quotes, the value has the items
    /// of the lines.
    pub fn from_lines<I: Iterator>(alloc: Global, lines: &mut I) -> Result<FlatCsv<S>, AllocError>
    where
        I::Item: AsHeaderValue,
        requires can { I.can_next lines.old }
        requires ends { IsFinite (I.remaining lines.old) }
        ensures { OfLines I.Item.shown I.next_gives lines.old lines.new
            (λ ls. IfOk result (λ c. IsMerged S.BYTE ls c)) }
    {
        let Some(first) = lines.next() else {
            return Ok(FlatCsv::from_value(HeaderValue::from_static("")));
        };
        let Some(second) = lines.next() else {
            return Ok(FlatCsv::from_value(first.as_header_value().clone()?));
        };
        let (first, second) = (first.as_header_value(), second.as_header_value());
        Ok(FlatCsv::from_value(joined::<S, I>(alloc, first, second, lines)?))
    }

    /// Joins the header values of an iterator by the separator and one space. Fails only if an
    /// allocation fails. The size hint isn't used.
    pub fn from_items<I: Iterator<Item = HeaderValue> + Drop>(
        alloc: Global,
        items: I,
    ) -> Result<FlatCsv<S>, AllocError>
        requires can { I.can_next items }
        requires ends { IsFinite (I.remaining items) }
        ensures { IfOk result (λ c. MergesItems I.next_gives items S.BYTE c) }
    {
        let mut items = items;
        FlatCsv::from_lines(alloc, &mut items)
    }

    /// Joins the field names of an iterator by the separator and one space. Fails only if an
    /// allocation fails. The size hint isn't used.
    pub fn from_names<I: Iterator<Item = HeaderName> + Drop>(
        alloc: Global,
        names: I,
    ) -> Result<FlatCsv<S>, AllocError>
        requires can { I.can_next names }
        requires ends { IsFinite (I.remaining names) }
        ensures { IfOk result (λ c. MergesLines I.next_gives names S.BYTE c) }
    {
        FlatCsv::from_items(alloc, names.map(HeaderValue::from_name))
    }

    /// Stores one static word, without copying it. The caller must show that it is visible ASCII,
    /// spaces and tabs.
    pub fn from_word(word: &'static str) -> FlatCsv<S>
        requires { IsTrue (is_text word.now) }
        ensures { result ≡ word.now }
    {
        FlatCsv::from_value(HeaderValue::from_static(word))
    }

    /// Copies the joined value. Fails only if an allocation fails.
    pub fn clone(&self, alloc: Global) -> Result<FlatCsv<S>, AllocError>
        ensures { IfOk result (λ c. c ≡ self.now) }
    {
        Ok(FlatCsv::from_value(self.to_value(alloc)?))
    }

    /// Returns the joined value as text: visible ASCII, spaces and tabs. `None` if it has another
    /// byte.
    pub fn as_text(&self) -> Option<&str>
        ensures { MatchOption result (is_text self.now ≡ false)
            (λ text. (is_text self.now ≡ true) × (text.now ≡ self.now)) }
    {
        read_text(&self.value)
    }

    /// Returns the bytes of the joined value.
    pub fn as_bytes(&self) -> &[u8]
        ensures value { result.now ≡ self.now }
        ensures valid { IsFieldValue self.now }
    {
        self.value.as_bytes()
    }

    /// Returns the joined value as a header value. Fails only if an allocation fails.
    pub fn to_value(&self, _alloc: Global) -> Result<HeaderValue, AllocError>
        ensures { IfOk result (λ v. v.bytes ≡ self.now) }
    {
        self.value.clone()
    }

    /// Starts an iterator over the items, which are slices of the value. A value that isn't text
    /// has no items.
    pub fn iter(&self) -> Items<'_, S>
        ensures items { items_left result ≡ items S.BYTE self.now }
        ensures fresh { result ≡ walk_over S.BYTE self.now }
        ensures count { length (items_left result) < 2 ^ 64 }
        ensures runs { YieldsRefsInOrder WalksItems items_left }
    {
        text_items(&self.value)
    }

    /// Cuts the value into field lines at these places. Fails only if an allocation fails. The
    /// places count bytes from 0. They must increase and be those of counting separators, as a
    /// `Scan` yields them. The bytes at the places are left out, the pieces aren't trimmed, and
    /// without a place the value is the only piece. Joined again, the pieces have the items of the
    /// value.
    pub fn cut_at(&self, alloc: Global, places: &[usize]) -> Result<Vec<HeaderValue>, AllocError>
        requires text { is_text self.now ≡ true }
        requires cuts { AreCuts S.BYTE self.now 0 places.now }
        ensures pieces { IfOk result (λ v. lines_of v.items ≡ pieces self.now 0 places.now) }
        ensures items_kept { IfOk result
            (λ v. items S.BYTE (merge S.BYTE (lines_of v.items)) ≡ items S.BYTE self.now) }
    {
        let bytes = self.as_bytes();
        let mut lines = Vec::new(alloc);
        let mut start = 0;
        for place in places {
            let end = *place;
            lines.push(copy_of(alloc, bytes, start, end)?)?;
            start = end + 1;
        }
        lines.push(copy_of(alloc, bytes, start, bytes.len())?)?;
        Ok(lines)
    }
}

impl<S: Separator> PartialEq for FlatCsv<S> {
    ghost use Rattle.std.{specs.Prelude.nat_eq, specs.Cmp.Lexicographic.{pointwise, nat_list_eq_equiv}};
    ghost use Rattle.std.specs.Cmp.{partial_equiv_from_equiv};

    ghost eq = { pointwise nat_eq };

    ghost laws = { partial_equiv_from_equiv nat_list_eq_equiv };

    fn eq(&self, other: &FlatCsv<S>) -> bool {
        self.value == other.value
    }
}

impl<S: Separator> Eq for FlatCsv<S> {
    ghost use Rattle.std.specs.Cmp.Lexicographic.{nat_list_eq_equiv};

    ghost laws = { nat_list_eq_equiv };
}

impl<S: Separator> fmt::Debug for FlatCsv<S> {
    fn fmt<W: fmt::Write>(&self, f: &mut fmt::Formatter<W>) -> fmt::Result {
        self.value.fmt(f)
    }
}
