//! Items of structured fields (RFC 8941, section 3.3).
ghost use Rattle.std.specs.Prelude.{◌≡◌, ◌≤◌, ◌<◌, ◌∷◌, length, IfSome, option_copied, option_map, false};
ghost use Rattle.rfc_values.{specs.Bytes.{after_run, before}, specs.Items.{after_key, after_string, bare_item}};
ghost use Rattle.rfc_values.specs.Items.{boolean, decimal, integer, number, after_colon, string, unsigned};
ghost use Rattle.rfc_values.specs.Values.{reading_of};

use crate::bytes::{Class, before, begins_key, begins_token, is_printable, skip};

/// The parsed value of an item (RFC 8941, section 3.3).
#[derive(Clone, Copy, Debug)]
pub enum ItemValue<'a> {
    /// An integer, with its text: up to 15 digits, perhaps after a minus sign.
    Integer(&'a [u8]),
    /// A boolean.
    Boolean(bool),
    /// A string, with what is between its quotes: a backslash is before a quote or a backslash.
    String(&'a [u8]),
    /// Another value: a decimal, a token, a byte sequence or an inner list.
    Other,
}

// The value with which a text begins, and what follows it.
#[derive(Clone, Copy)]
pub(crate) struct Reading<'a> {
    pub(crate) value: ItemValue<'a>,
    pub(crate) rest: &'a [u8],
}

// What follows the key with which a text begins.
pub(crate) fn after_key(text: &[u8]) -> Option<&[u8]>
    ensures value { option_copied result ≡ after_key text.now }
    ensures shorter { IfSome result (λ rest. length rest.now < length text.now) }
{
    match text {
        [first, after @ ..] if begins_key(*first) => Some(skip(Class::Key, after)),
        _ => None,
    }
}

// An integer with so many digits before the rest.
fn integer<'a>(text: &'a [u8], digits: usize, rest: &'a [u8]) -> Option<Reading<'a>>
    requires { length rest.now ≤ length text.now }
    ensures { option_map reading_of result ≡ integer text.now digits rest.now }
{
    if digits <= 15 {
        Some(Reading {
            value: ItemValue::Integer(before(text, rest)),
            rest,
        })
    } else {
        None
    }
}

// A decimal with so many digits before its point.
fn decimal(digits: usize, after_point: &[u8]) -> Option<Reading<'_>>
    ensures { option_map reading_of result ≡ decimal digits after_point.now }
{
    let rest = skip(Class::Digit, after_point);
    let places = after_point.len() - rest.len();
    if digits <= 12 && 1 <= places && places <= 3 {
        Some(Reading {
            value: ItemValue::Other,
            rest,
        })
    } else {
        None
    }
}

// What follows the sign of a number, if it has one.
fn unsigned(text: &[u8]) -> &[u8]
    ensures value { result.now ≡ unsigned text.now }
    ensures shorter { length result.now ≤ length text.now }
{
    match text {
        [b'-', after @ ..] => after,
        _ => text,
    }
}

// An integer or a decimal.
fn number(text: &[u8]) -> Option<Reading<'_>>
    ensures { option_map reading_of result ≡ number text.now }
{
    let start = unsigned(text);
    let rest = skip(Class::Digit, start);
    let digits = start.len() - rest.len();
    if digits == 0 {
        return None;
    }
    match rest {
        [b'.', after_point @ ..] => decimal(digits, after_point),
        _ => integer(text, digits, rest),
    }
}

// What follows the closing quote of a string.
#[tactic(auto, unfolding(crate::specs::Items::after_string))]
fn after_string(text: &[u8]) -> Option<&[u8]>
    ensures value { option_copied result ≡ after_string false text.now }
    ensures shorter { IfSome result (λ rest. length rest.now < length text.now) }
{
    let mut rest = text;
    let mut is_escaped = false;
    while let [byte, after @ ..] = rest {
        let byte = *byte;
        rest = after;
        if is_escaped {
            if byte != b'"' && byte != b'\\' {
                return None;
            }
            is_escaped = false;
        } else if byte == b'"' {
            return Some(after);
        } else if byte == b'\\' {
            is_escaped = true;
        } else if !is_printable(byte) {
            return None;
        }
    }
    None
}

// A string, behind its first quote.
fn string(text: &[u8]) -> Option<Reading<'_>>
    ensures { option_map reading_of result ≡ string text.now }
{
    let rest = after_string(text)?;
    Some(Reading {
        value: ItemValue::String(&text[..text.len() - rest.len() - 1]),
        rest,
    })
}

// A boolean, behind its question mark.
fn boolean(text: &[u8]) -> Option<Reading<'_>>
    ensures { option_map reading_of result ≡ boolean text.now }
{
    match text {
        [b'1', rest @ ..] => Some(Reading {
            value: ItemValue::Boolean(true),
            rest,
        }),
        [b'0', rest @ ..] => Some(Reading {
            value: ItemValue::Boolean(false),
            rest,
        }),
        _ => None,
    }
}

// The colon that ends a byte sequence.
fn after_colon(text: &[u8]) -> Option<Reading<'_>>
    ensures { option_map reading_of result ≡ after_colon text.now }
{
    match text {
        [b':', rest @ ..] => Some(Reading {
            value: ItemValue::Other,
            rest,
        }),
        _ => None,
    }
}

// The item, without parameters, with which a text begins.
pub(crate) fn bare_item(text: &[u8]) -> Option<Reading<'_>>
    ensures { option_map reading_of result ≡ bare_item text.now }
{
    let (first, after) = text.split_first()?;
    match *first {
        b'-' | b'0'..=b'9' => number(text),
        b'"' => string(after),
        b'*' | b'a'..=b'z' | b'A'..=b'Z' => Some(Reading {
            value: ItemValue::Other,
            rest: skip(Class::Token, after),
        }),
        b':' => after_colon(skip(Class::Base64, after)),
        b'?' => boolean(after),
        _ => None,
    }
}
