//! Texts of parameters whose names end in `*`.
ghost use Rattle.std.specs.{Prelude.{◌≡◌, ◌++◌, IfOk, OnOk, option_map}, List.{flat_map, list_all}};
ghost use Rattle.std.specs.String.{string_bytes};
ghost use Rattle.std.specs.{Char.encode_utf8};
ghost use Rattle.std.specs.Char.{is_ascii_alphanumeric};
ghost use Rattle.percent_encoding.specs.Percent.{percent_decode};
ghost use Rattle.rfc_lists.specs.Extended.{are_value_chars, decoded_in, due_after, encoded, extended_text};
ghost use Rattle.rfc_lists.specs.Extended.{extended_value};
ghost use Rattle.rfc_lists.specs.Extended.{are_subtags, is_attr_char, is_language, is_subtag, text_in, utf8_text};

use http_header::is_token_char;
use percent_encoding::{percent_decode, percent_encode_byte};
use rfc_fields::cut;
use std::alloc::{AllocError, Global};

fn is_attr_char(byte: u8) -> bool
    ensures { result ≡ is_attr_char byte }
{
    is_token_char(byte) && byte != b'*' && byte != b'\'' && byte != b'%'
}

// How many hexadecimal digits are due after a byte, of how many that are due at it. None if it isn't allowed there.
fn due_after(due: u8, byte: u8) -> Option<u8>
    ensures { result ≡ due_after due byte }
{
    if due > 0 {
        return if byte.is_ascii_hexdigit() {
            Some(due - 1)
        } else {
            None
        };
    }
    if byte == b'%' {
        return Some(2);
    }
    if is_attr_char(byte) { Some(0) } else { None }
}

fn are_value_chars(text: &[u8]) -> bool
    ensures { result ≡ are_value_chars 0 text.now }
{
    let mut due = 0;
    for byte in text {
        match due_after(due, *byte) {
            Some(next) => due = next,
            None => return false,
        }
    }
    due == 0
}

fn are_alphanumeric(text: &[u8]) -> bool
    ensures { result ≡ list_all is_ascii_alphanumeric text.now }
{
    text.iter().all(|byte| byte.is_ascii_alphanumeric())
}

fn is_subtag(text: &[u8]) -> bool
    ensures { result ≡ is_subtag text.now }
{
    !text.is_empty() && text.len() <= 8 && are_alphanumeric(text)
}

fn is_language(text: &[u8]) -> bool
    ensures { result ≡ is_language text.now }
{
    text.is_empty() || are_subtags(text)
}

fn are_subtags(text: &[u8]) -> bool
    ensures { result ≡ are_subtags text.now }
{
    let mut left = text;
    while let Some((subtag, others)) = cut(b'-', left) {
        if !is_subtag(subtag) {
            return false;
        }
        left = others;
    }
    is_subtag(left)
}

// Octets as characters of ISO-8859-1.
fn latin_text(alloc: Global, octets: &[u8]) -> Result<String, AllocError>
    ensures { IfOk result (λ text. string_bytes text ≡ flat_map encode_utf8 octets.now) }
{
    let mut text = String::new(alloc);
    for octet in octets {
        text.push(char::from(*octet))?;
    }
    Ok(text)
}

// Octets as UTF-8, if they are.
#[tactic(auto, using(crate::proofs::ExtendedLemmas::utf8_yes, crate::proofs::ExtendedLemmas::utf8_no))]
fn utf8_text(octets: Vec<u8>) -> Option<String>
    ensures { option_map string_bytes result ≡ utf8_text octets.items }
{
    match String::from_utf8(octets) {
        Ok(text) => Some(text),
        Err(_) => None,
    }
}

// The text that octets are in a charset.
fn text_in(alloc: Global, charset: &[u8], octets: Vec<u8>) -> Result<Option<String>, AllocError>
    ensures { IfOk result (λ text. option_map string_bytes text ≡ text_in charset.now octets.items) }
{
    if charset.eq_ignore_ascii_case(b"UTF-8") {
        return Ok(utf8_text(octets));
    }
    if charset.eq_ignore_ascii_case(b"ISO-8859-1") {
        return Ok(Some(latin_text(alloc, octets.as_slice())?));
    }
    Ok(None)
}

// The octets that value-chars mean.
fn octets_of(alloc: Global, chars: &[u8]) -> Result<Vec<u8>, AllocError>
    ensures { IfOk result (λ octets. octets.items ≡ percent_decode chars.now) }
{
    let mut octets = Vec::new(alloc);
    percent_decode(chars).append_to(&mut octets)?;
    Ok(octets)
}

fn decoded_in(
    alloc: Global,
    charset: &[u8],
    language: &[u8],
    chars: &[u8],
) -> Result<Option<String>, AllocError>
    ensures { IfOk result (λ text. option_map string_bytes text ≡ decoded_in charset.now (language.now, chars.now)) }
{
    if is_language(language) && are_value_chars(chars) {
        let octets = octets_of(alloc, chars)?;
        text_in(alloc, charset, octets)
    } else {
        Ok(None)
    }
}

/// Returns the text that the value of a parameter means whose name ends in `*` (RFC 8187, section 3.2.1), in UTF-8 or,
/// as older producers wrote, in ISO-8859-1. `None` if the value isn't by the grammar, if its charset is another, or if
/// its octets are no text of the charset. Fails only if an allocation fails.
pub fn extended_text(alloc: Global, value: &[u8]) -> Result<Option<String>, AllocError>
    ensures { IfOk result (λ text. option_map string_bytes text ≡ extended_text value.now) }
{
    let Some((charset, rest)) = cut(b'\'', value) else {
        return Ok(None);
    };
    let Some((language, chars)) = cut(b'\'', rest) else {
        return Ok(None);
    };
    decoded_in(alloc, charset, language, chars)
}

fn push_encoded(text: &mut Vec<u8>, byte: u8) -> Result<(), AllocError>
    ensures { OnOk result (text.new.items ≡ text.old.items ++ encoded byte) }
{
    if is_attr_char(byte) {
        text.push(byte)?;
    } else {
        text.extend_from_slice(percent_encode_byte(byte).as_bytes())?;
    }
    Ok(())
}

/// Appends a text as the value of a parameter whose name ends in `*` (RFC 8187, section 3.2.1).
pub(crate) fn push_extended(text: &mut Vec<u8>, given: &[u8]) -> Result<(), AllocError>
    ensures { OnOk result (text.new.items ≡ text.old.items ++ extended_value given.now) }
{
    text.extend_from_slice(b"UTF-8''")?;
    for byte in given {
        push_encoded(text, *byte)?;
    }
    Ok(())
}
