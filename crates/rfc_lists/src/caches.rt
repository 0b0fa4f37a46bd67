//! Names and parameters of `cache-status`.
ghost use Rattle.std.specs.Prelude.{◌≡◌, ◌++◌, ◌∷◌, [], false, option_map, OnOk};
ghost use Rattle.rfc_fields.specs.{Members.member_of, Values.octets_from};
ghost use Rattle.rfc_lists.specs.Caches.{detail_line, is_token_text, last_line, malformed_item, member_in};
ghost use Rattle.rfc_lists.specs.Caches.{name_line, shown_name, status_lines, value_line, written_in};
ghost use Rattle.rfc_lists.specs.Named.{parameters_in};
ghost use Rattle.rfc_values.specs.{Values.{member_of as parts_of, value_of}};

use crate::lines::{push_line, push_malformed, push_octets, push_valued};
use crate::named::{Counts, named};
use rfc_fields::{Malformed, Value, cut};
use rfc_values::{ItemValue, Member, read_entry};
use std::alloc::{AllocError, Global};

// The only member of a dictionary.
fn member_in(text: &[u8]) -> Option<Member<'_>>
    ensures { option_map parts_of result ≡ member_in text.now }
{
    match read_entry(text) {
        Some(found) if found.next.is_none() => Some(found.member),
        _ => None,
    }
}

fn is_token_text(text: &[u8]) -> bool
    ensures { result ≡ is_token_text text.now }
{
    match text {
        [first, ..] => *first == b'*' || first.is_ascii_alphabetic(),
        [] => false,
    }
}

fn push_string(text: &mut Vec<u8>, inside: &[u8]) -> Result<(), AllocError>
    ensures { OnOk result (text.new.items ≡ text.old.items ++ octets_from false inside.now ++ 10 ∷ []) }
{
    push_octets(text, &Value::Quoted(inside))
}

fn push_shown_name(text: &mut Vec<u8>, name: &[u8], value: &ItemValue<'_>) -> Result<(), AllocError>
    ensures { OnOk result (text.new.items ≡ text.old.items ++ shown_name name.now (value_of value.now)) }
{
    match *value {
        ItemValue::String(inside) => {
            text.push(b'v')?;
            push_string(text, inside)
        }
        ItemValue::Other if is_token_text(name) => push_line(text, b'v', name),
        _ => push_malformed(text),
    }
}

/// Appends the line of a cache's name.
pub(crate) fn push_name(alloc: Global, text: &mut Vec<u8>, name: &[u8]) -> Result<(), AllocError>
    ensures { OnOk result (text.new.items ≡ text.old.items ++ name_line name.now) }
{
    let mut given = Vec::from_slice(alloc, b"a=")?;
    given.extend_from_slice(name)?;
    match member_in(given.as_slice()) {
        Some(found) => push_shown_name(text, name, &found.value),
        None => push_malformed(text),
    }
}

// Appends the line of a value, if its type has this letter.
fn push_value(
    text: &mut Vec<u8>,
    letter: u8,
    key: &[u8],
    written: &[u8],
    value: &ItemValue<'_>,
) -> Result<(), AllocError>
    ensures { OnOk result (text.new.items
        ≡ text.old.items ++ value_line letter key.now written.now (value_of value.now)) }
{
    match *value {
        ItemValue::Integer(digits) if letter == b'i' => push_valued(text, b'i', key, digits),
        ItemValue::Boolean(true) if letter == b'n' => push_line(text, b'n', key),
        ItemValue::String(inside) if letter == b'p' => {
            text.push(b'p')?;
            text.extend_from_slice(key)?;
            text.push(b'=')?;
            push_string(text, inside)
        }
        ItemValue::Other if letter == b't' && is_token_text(written) => {
            push_valued(text, b't', key, written)
        }
        _ => Ok(()),
    }
}

fn written_in(text: &[u8]) -> &[u8]
    ensures { result.now ≡ written_in text.now }
{
    match cut(b'=', text) {
        Some((_, written)) => written,
        None => &[],
    }
}

// Appends the line of the last parameter of a key, if its type has this letter.
fn push_last(text: &mut Vec<u8>, letter: u8, key: &[u8], element: &[u8]) -> Result<(), AllocError>
    ensures { OnOk result (text.new.items ≡ text.old.items ++ last_line letter key.now (parameters_in element.now)) }
{
    let Some(item) = named(Counts::Last, key, element) else {
        return Ok(());
    };
    match member_in(item) {
        Some(found) => push_value(text, letter, key, written_in(item), &found.value),
        None => Ok(()),
    }
}

/// Appends the lines of what a cache did.
pub(crate) fn push_status(text: &mut Vec<u8>, element: &[u8]) -> Result<(), AllocError>
    ensures { OnOk result (text.new.items ≡ text.old.items ++ status_lines (parameters_in element.now)) }
{
    push_last(text, b'n', b"hit", element)?;
    push_last(text, b't', b"fwd", element)?;
    push_last(text, b'i', b"fwd-status", element)?;
    push_last(text, b'i', b"ttl", element)?;
    push_last(text, b'n', b"stored", element)?;
    push_last(text, b'n', b"collapsed", element)?;
    push_last(text, b'p', b"key", element)?;
    push_detail(text, element)
}

fn push_detail(text: &mut Vec<u8>, element: &[u8]) -> Result<(), AllocError>
    ensures { OnOk result (text.new.items ≡ text.old.items ++ detail_line (parameters_in element.now)) }
{
    push_last(text, b'p', b"detail", element)?;
    push_last(text, b't', b"detail", element)
}

/// Appends `!` for a parameter that the grammar rejects.
pub(crate) fn push_malformed_item(
    text: &mut Vec<u8>,
    parameter: Result<&[u8], Malformed>,
) -> Result<(), AllocError>
    ensures { OnOk result (text.new.items ≡ text.old.items ++ malformed_item (member_of parameter.entry)) }
{
    match parameter {
        Ok(item) if member_in(item).is_some() => Ok(()),
        _ => push_malformed(text),
    }
}
