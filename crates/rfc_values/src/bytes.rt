//! The bytes of structured fields.
ghost use Rattle.std.specs.Prelude.{◌≡◌, ◌≤◌, length};
ghost use Rattle.rfc_values.specs.Bytes.{after_run, before, begins_key, begins_token, is_in, is_letter};
ghost use Rattle.rfc_values.specs.Bytes.{is_lowercase, is_printable};

use http_header::is_token_char;

// Bytes of one kind, as they follow each other.
#[derive(Clone, Copy)]
pub(crate) enum Class {
    // Those of a key after the first one.
    Key,
    // Those of a token after the first one.
    Token,
    // Those of a byte sequence between its colons.
    Base64,
    // Decimal digits.
    Digit,
    // Spaces.
    Space,
    // Spaces and tabs.
    Blank,
}

fn is_letter(byte: u8) -> bool
    ensures { result ≡ is_letter byte }
{
    matches!(byte, b'a'..=b'z' | b'A'..=b'Z')
}

pub(crate) fn begins_key(byte: u8) -> bool
    ensures { result ≡ begins_key byte }
{
    matches!(byte, b'a'..=b'z') || byte == b'*'
}

pub(crate) fn begins_token(byte: u8) -> bool
    ensures { result ≡ begins_token byte }
{
    is_letter(byte) || byte == b'*'
}

pub(crate) fn is_printable(byte: u8) -> bool
    ensures { result ≡ is_printable byte }
{
    b' ' <= byte && byte <= b'~'
}

fn is_in(class: Class, byte: u8) -> bool
    ensures { result ≡ is_in class byte }
{
    match class {
        Class::Key => {
            matches!(byte, b'a'..=b'z')
                || byte.is_ascii_digit()
                || byte == b'_'
                || byte == b'-'
                || byte == b'.'
                || byte == b'*'
        }
        Class::Token => is_token_char(byte) || byte == b':' || byte == b'/',
        Class::Base64 => {
            is_letter(byte) || byte.is_ascii_digit() || byte == b'+' || byte == b'/' || byte == b'='
        }
        Class::Digit => byte.is_ascii_digit(),
        Class::Space => byte == b' ',
        Class::Blank => byte == b' ' || byte == b'\t',
    }
}

// What follows the bytes of this class with which a text begins.
#[tactic(auto, unfolding(crate::specs::Bytes::after_run))]
pub(crate) fn skip(class: Class, text: &[u8]) -> &[u8]
    ensures value { result.now ≡ after_run class text.now }
    ensures shorter { length result.now ≤ length text.now }
{
    let mut rest = text;
    while let [byte, after @ ..] = rest {
        if !is_in(class, *byte) {
            return rest;
        }
        rest = after;
    }
    rest
}

// What a text has before this end of it.
pub(crate) fn before<'a>(text: &'a [u8], rest: &[u8]) -> &'a [u8]
    requires { length rest.now ≤ length text.now }
    ensures { result.now ≡ before text.now rest.now }
{
    &text[..text.len() - rest.len()]
}
