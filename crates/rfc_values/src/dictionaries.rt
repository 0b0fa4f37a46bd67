//! Dictionaries (RFC 8941, section 3.2).
ghost use Rattle.std.specs.Prelude.{◌≡◌, ◌<◌, ◌∷◌, length, option_copied, option_map};
ghost use Rattle.rfc_values.specs.Dictionaries.{after_comma, entry, entry_by, member_value, next_members};
ghost use Rattle.rfc_values.{specs.Dictionaries.value_behind, specs.Values.{entry_of, reading_of}};

use crate::bytes::{Class, before, skip};
use crate::items::{ItemValue, Reading, after_key, bare_item};
use crate::parameters::{after_inner, after_parameters};

/// A member of a dictionary: its key, and its value without parameters (RFC 8941, section 3.2).
#[derive(Clone, Copy, Debug)]
pub struct Member<'a> {
    /// The key, in lower case.
    pub key: &'a [u8],
    /// The value. A member without one is true.
    pub value: ItemValue<'a>,
}

/// The first member of a dictionary, and the text of the members after it.
#[derive(Clone, Copy, Debug)]
pub struct DictionaryMember<'a> {
    /// The first member.
    pub member: Member<'a>,
    /// The text of the members that follow, if there are any.
    pub next: Option<&'a [u8]>,
}

// An inner list, behind its first parenthesis.
fn inner_list(text: &[u8]) -> Option<Reading<'_>>
    ensures { option_map reading_of result ≡ member_value (40 ∷ text.now) }
{
    Some(Reading {
        value: ItemValue::Other,
        rest: after_inner(text)?,
    })
}

// The value behind `=`: an inner list, or an item.
fn member_value(text: &[u8]) -> Option<Reading<'_>>
    ensures { option_map reading_of result ≡ member_value text.now }
{
    match text {
        [b'(', after @ ..] => inner_list(after),
        _ => bare_item(text),
    }
}

// What a member has behind its key.
fn value_behind(text: &[u8]) -> Option<Reading<'_>>
    ensures { option_map reading_of result ≡ value_behind text.now }
{
    match text {
        [b'=', after @ ..] => member_value(after),
        _ => Some(Reading {
            value: ItemValue::Boolean(true),
            rest: text,
        }),
    }
}

// The members behind a comma and blanks, of which there is one at least.
fn after_comma(text: &[u8]) -> Option<Option<&[u8]>>
    ensures { option_map option_copied result ≡ after_comma text.now }
{
    if text.is_empty() {
        None
    } else {
        Some(Some(text))
    }
}

// What stands behind a member and blanks: nothing, or a comma and more members.
fn next_members(text: &[u8]) -> Option<Option<&[u8]>>
    ensures { option_map option_copied result ≡ next_members text.now }
{
    match text {
        [] => Some(None),
        [b',', after @ ..] => after_comma(skip(Class::Blank, after)),
        _ => None,
    }
}

// The member with this text behind its key.
fn entry_by<'a>(text: &'a [u8], behind: &'a [u8]) -> Option<DictionaryMember<'a>>
    requires { length behind.now < length text.now }
    ensures { option_map entry_of result ≡ entry_by text.now behind.now }
{
    let Reading { value, rest } = value_behind(behind)?;
    let end = after_parameters(rest)?;
    let next = next_members(skip(Class::Blank, end))?;
    Some(DictionaryMember {
        member: Member {
            key: before(text, behind),
            value,
        },
        next,
    })
}

/// Parses the first member of a dictionary (RFC 8941, section 4.2.2), with the members after it.
/// The text is what follows the blanks at the beginning of a field line, or `next` of the entry
/// before. `None` if it is malformed or empty, which makes the whole field malformed.
pub fn read_entry(text: &[u8]) -> Option<DictionaryMember<'_>>
    ensures { option_map entry_of result ≡ entry text.now }
{
    entry_by(text, after_key(text)?)
}
