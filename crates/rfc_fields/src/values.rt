//! Tokens, quoted-strings and the octets that they mean (RFC 9110, sections 5.6.2 and 5.6.4).
ghost use Rattle.std.specs.Prelude.{◌≡◌, ◌≢◌, ◌++◌, ◌∷◌, [], ℕ, List, false, true, MatchOption, MatchResult};
ghost use Rattle.std.{specs.Bool.MatchBool, specs.Iterator.{YieldsFirst, item_count}, specs.List.list_all};
ghost use Rattle.http_header.specs.Token.{is_token_byte, is_value_byte};
ghost use Rattle.rfc_fields.{specs.Grammar.quote, specs.Values.{IsValue, ValueParts, escape_after, is_qdtext}};
ghost use Rattle.rfc_fields.specs.Values.{is_quoted_text, is_token, octets_after, octets_left, octets_of, value_parts};

use crate::error::Malformed;
use http_header::is_token_char;
use std::marker::Model;

/// A parsed value, which is a token or a quoted-string: `( token / quoted-string )`.
#[derive(Clone, Copy, Debug)]
pub enum Value<'a> {
    /// The token, as in the field line.
    Token(&'a [u8]),
    /// What is between the quotes of a quoted-string, with its backslashes.
    Quoted(&'a [u8]),
}

/// An iterator over the octets that a value means; a quoted-pair means the octet after its
/// backslash.
#[derive(Drop)]
pub struct Octets<'a> {
    rest: &'a [u8],
    is_quoted: bool,
}

impl<'a> Model for Octets<'a> {
    ghost use Rattle.rfc_fields.specs.Values.{OctetsState};

    ghost Value = { OctetsState };

    ghost view = { λ o. record { rest = o.rest.now; is_quoted = o.is_quoted } };
}

// Whether each is a byte of a token.
fn are_token_bytes(text: &[u8]) -> bool
    ensures { result ≡ list_all is_token_byte text.now }
{
    text.iter().all(|byte| is_token_char(*byte))
}

/// Returns whether a text is a token (RFC 9110, section 5.6.2).
pub fn is_token(text: &[u8]) -> bool
    ensures { result ≡ is_token text.now }
{
    !text.is_empty() && are_token_bytes(text)
}

// Whether a field may have the byte: a tab, a space, a visible byte, or one past ASCII.
pub(crate) fn is_value_byte(byte: u8) -> bool
    ensures { result ≡ is_value_byte byte }
{
    byte == b'\t' || (byte >= b' ' && byte != 127)
}

fn is_qdtext(byte: u8) -> bool
    ensures { result ≡ is_qdtext byte }
{
    is_value_byte(byte) && byte != b'"' && byte != b'\\'
}

// Whether the next byte follows the backslash of a quoted-pair; none if this byte isn't allowed
// here.
fn escape_after(escaped: bool, byte: u8) -> Option<bool>
    ensures { result ≡ escape_after escaped byte }
{
    if escaped {
        return if is_value_byte(byte) {
            Some(false)
        } else {
            None
        };
    }
    if byte == b'\\' {
        return Some(true);
    }
    if is_qdtext(byte) { Some(false) } else { None }
}

// Whether the text is qdtext and quoted-pairs.
fn is_quoted_text(text: &[u8]) -> bool
    ensures { result ≡ is_quoted_text false text.now }
{
    let mut escaped = false;
    for byte in text {
        match escape_after(escaped, *byte) {
            Some(next) => escaped = next,
            None => return false,
        }
    }
    !escaped
}

// What is between a quote at the start and one at the end.
fn between_quotes(text: &[u8]) -> Option<&[u8]>
    ensures { MatchOption result ((s : List ℕ) → text.now ≢ quote ∷ (s ++ quote ∷ []))
        (λ s. text.now ≡ quote ∷ (s.now ++ quote ∷ [])) }
{
    match text {
        [b'"', inside @ .., b'"'] => Some(inside),
        _ => None,
    }
}

/// Parses a text as a value. `Malformed` if it is neither a token nor a quoted-string.
pub fn read_value(text: &[u8]) -> Result<Value<'_>, Malformed>
    ensures { MatchResult result (λ value. IsValue text.now (value_parts value))
        (λ _. (v : ValueParts) → IsValue text.now v → ⊥) }
{
    if is_token(text) {
        return Ok(Value::Token(text));
    }
    match between_quotes(text) {
        Some(inside) if is_quoted_text(inside) => Ok(Value::Quoted(inside)),
        _ => Err(Malformed),
    }
}

impl<'a> Value<'a> {
    /// Starts an iterator over the octets that the value means.
    pub fn octets(&self) -> Octets<'a>
        ensures { octets_left result ≡ octets_of (value_parts self.now) }
    {
        match *self {
            Value::Token(text) => Octets {
                rest: text,
                is_quoted: false,
            },
            Value::Quoted(text) => Octets {
                rest: text,
                is_quoted: true,
            },
        }
    }

    /// Returns whether the value means these octets.
    pub fn equals(&self, octets: &[u8]) -> bool
        ensures { MatchBool result (octets_of (value_parts self.now) ≡ octets.now)
            (octets_of (value_parts self.now) ≢ octets.now) }
    {
        self.same_octets(&Value::Token(octets))
    }

    /// Returns whether two values mean the same octets, as tokens or as quoted-strings.
    pub fn same_octets(&self, other: &Value<'_>) -> bool
        ensures { MatchBool result
            (octets_of (value_parts self.now) ≡ octets_of (value_parts other.now))
            (octets_of (value_parts self.now) ≢ octets_of (value_parts other.now)) }
    {
        let mut others = other.octets();
        for octet in self.octets() {
            match others.next() {
                Some(theirs) if theirs == octet => {}
                _ => return false,
            }
        }
        others.next().is_none()
    }
}

// What follows the backslash of a quoted-pair, if the text begins with one.
fn behind_backslash(is_quoted: bool, text: &[u8]) -> &[u8]
    ensures { octets_after false is_quoted text.now ≡ octets_after true is_quoted result.now }
{
    if !is_quoted {
        return text;
    }
    if text.is_empty() {
        return text;
    }
    if text[0] == b'\\' { &text[1..] } else { text }
}

impl<'a> Octets<'a> {
    /// Returns the next octet, if one is left.
    pub fn next(&mut self) -> Option<u8>
        ensures { YieldsFirst octets_left self.old result self.new }
    {
        let text = behind_backslash(self.is_quoted, self.rest);
        let (octet, rest) = text.split_first()?;
        self.rest = rest;
        Some(*octet)
    }
}

impl<'a> Iterator for Octets<'a> {
    type Item = u8;

    ghost next_gives = { YieldsFirst octets_left };

    ghost remaining = { item_count octets_left };

    fn next(&mut self) -> Option<u8> {
        self.next()
    }
}
