//! A parser of media types, from the front of the text.
ghost use Rattle.std.{specs.Prelude.{◌≡◌, ◌+◌, ◌≤◌, length, false, IfSome, option_map}, specs.List.prefix_len};
ghost use Rattle.std.specs.Option.{option_copied};
ghost use Rattle.headers_syntax.specs.Text.{trim_start};
ghost use Rattle.http_header.specs.Token.{is_token_byte, is_visible_or_blank};
ghost use Rattle.headers_mime.specs.MediaTypeReading.{quoted_len, token_len, value_len, after_byte, read_token};
ghost use Rattle.headers_mime.specs.MediaTypeReading.{read_value, read_parameter, read_optional, read_segment};
ghost use Rattle.headers_mime.specs.MediaTypeReading.{read_essence, read_shown, two_pieces, three_pieces};

use headers_syntax::trim_start;
use http_header::is_token_char;
use std::marker::Model;

/// A parsed parameter of a media type. A quoted value includes its quotes.
#[derive(Drop)]
pub struct ParameterRef<'a> {
    /// The name of the parameter.
    pub name: &'a [u8],
    /// The value of the parameter, with its quotes if it is quoted.
    pub value: &'a [u8],
}

impl<'a> Model for ParameterRef<'a> {
    ghost use Rattle.headers_mime.specs.MediaType.{Parameter};

    ghost Value = { Parameter };

    ghost view = { λ p. record { name = p.name.now; value = p.value.now } };
}

fn is_text(byte: u8) -> bool
    ensures { result ≡ is_visible_or_blank byte }
{
    byte == b'\t' || (byte >= b' ' && byte < 0x7f)
}

// How many bytes of a token the bytes begin with.
fn token_bytes_len(bytes: &[u8]) -> usize
    ensures value { result ≡ prefix_len is_token_byte bytes.now }
    ensures within { result ≤ length bytes.now }
{
    for (i, byte) in bytes.iter().enumerate() {
        if !is_token_char(*byte) {
            return i;
        }
    }
    bytes.len()
}

// The length of the token at the front.
fn token_len(bytes: &[u8]) -> Option<usize>
    ensures value { result ≡ token_len bytes.now }
    ensures within { IfSome result (λ n. n ≤ length bytes.now) }
{
    match token_bytes_len(bytes) {
        0 => None,
        n => Some(n),
    }
}

// How many bytes stand up to and with the closing quote.
fn quoted_len(bytes: &[u8]) -> Option<usize>
    ensures value { result ≡ quoted_len false bytes.now }
    ensures within { IfSome result (λ n. n ≤ length bytes.now) }
{
    let mut is_escaped = false;
    for (i, byte) in bytes.iter().enumerate() {
        if *byte == b'"' && !is_escaped {
            return Some(i + 1);
        }
        if !is_text(*byte) {
            return None;
        }
        is_escaped = *byte == b'\\' && !is_escaped;
    }
    None
}

// The length of the token or the quoted string at the front.
#[tactic(auto, unfolding(crate::specs::MediaTypeReading::value_len))]
fn value_len(bytes: &[u8]) -> Option<usize>
    ensures value { result ≡ value_len bytes.now }
    ensures within { IfSome result (λ n. n ≤ length bytes.now) }
{
    match bytes {
        [b'"', rest @ ..] => Some(quoted_len(rest)? + 1),
        _ => token_len(bytes),
    }
}

// What follows this byte, if the bytes begin with it.
fn after_byte(byte: u8, bytes: &[u8]) -> Option<&[u8]>
    ensures { option_copied result ≡ after_byte byte bytes.now }
{
    match bytes {
        [first, rest @ ..] if *first == byte => Some(rest),
        _ => None,
    }
}

// The token at the front, and what follows it.
#[tactic(auto, unfolding(crate::specs::MediaTypeReading::read_token))]
fn read_token(bytes: &[u8]) -> Option<(&[u8], &[u8])>
    ensures { option_map two_pieces result ≡ read_token bytes.now }
{
    let len = token_len(bytes)?;
    Some(bytes.split_at(len))
}

// The value at the front, and what follows it.
#[tactic(auto, unfolding(crate::specs::MediaTypeReading::read_value))]
fn read_value(bytes: &[u8]) -> Option<(&[u8], &[u8])>
    ensures { option_map two_pieces result ≡ read_value bytes.now }
{
    let len = value_len(bytes)?;
    Some(bytes.split_at(len))
}

// The parameter at the front, and what follows it.
#[tactic(auto, unfolding(crate::specs::MediaTypeReading::read_parameter))]
fn read_parameter(bytes: &[u8]) -> Option<(ParameterRef<'_>, &[u8])>
    ensures { option_map read_shown result ≡ read_parameter bytes.now }
{
    let (name, rest) = read_token(bytes)?;
    let (value, rest) = read_value(after_byte(b'=', rest)?)?;
    Some((ParameterRef { name, value }, rest))
}

// The parameter at the front, if one begins there, and what follows it and blanks.
#[tactic(auto, unfolding(crate::specs::MediaTypeReading::read_optional))]
fn read_optional(bytes: &[u8]) -> Option<(Option<ParameterRef<'_>>, &[u8])>
    ensures { option_map read_shown result ≡ read_optional bytes.now }
{
    match bytes {
        [first, ..] if is_token_char(*first) => {
            let (parameter, rest) = read_parameter(bytes)?;
            Some((Some(parameter), trim_start(rest)))
        }
        _ => Some((None, bytes)),
    }
}

/// A semicolon at the front with the parameter after it, if any, and what follows.
#[tactic(auto, unfolding(crate::specs::MediaTypeReading::read_segment))]
pub(crate) fn read_segment(bytes: &[u8]) -> Option<(Option<ParameterRef<'_>>, &[u8])>
    ensures { option_map read_shown result ≡ read_segment bytes.now }
{
    read_optional(trim_start(after_byte(b';', bytes)?))
}

/// The type, the subtype, and what follows them and blanks.
#[tactic(auto, unfolding(crate::specs::MediaTypeReading::read_essence))]
pub(crate) fn read_essence(bytes: &[u8]) -> Option<(&[u8], &[u8], &[u8])>
    ensures { option_map three_pieces result ≡ read_essence bytes.now }
{
    let (top_level, rest) = read_token(trim_start(bytes))?;
    let (subtype, rest) = read_token(after_byte(b'/', rest)?)?;
    Some((top_level, subtype, trim_start(rest)))
}
