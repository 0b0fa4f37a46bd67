//! Directives: a name, and perhaps a value (RFC 9111, section 5.2).
ghost use Rattle.std.{specs.Prelude.{◌≡◌, ◌≤◌, length, MatchResult, Option, option_map}, specs.List.prefix_len};
ghost use Rattle.http_header.specs.Token.{is_token_byte};
ghost use Rattle.rfc_fields.specs.Directives.{DirectiveParts, IsArgument, IsDirective, directive_in, directive_parts};
ghost use Rattle.rfc_fields.{specs.Directives.is_named, specs.Values.{ValueParts, value_parts}};

use crate::error::Malformed;
use crate::values::{Value, read_value};
use http_header::is_token_char;

/// A directive: a name, and perhaps a value: `token [ "=" ( token / quoted-string ) ]`.
///
/// Cache-Control has such directives (RFC 9111, section 5.2), and a WebSocket extension such
/// parameters (RFC 6455, section 9.1). A directive with an argument is a parameter (RFC 9110,
/// section 5.6.6).
#[derive(Clone, Copy, Debug)]
pub struct Directive<'a> {
    /// The name, as in the field line.
    pub name: &'a [u8],
    /// The value after the `=`, if there is one.
    pub argument: Option<Value<'a>>,
}

// How many bytes of a token the bytes begin with.
fn token_len(bytes: &[u8]) -> usize
    ensures value { result ≡ prefix_len is_token_byte bytes.now }
    ensures within { result ≤ length bytes.now }
{
    for (place, byte) in bytes.iter().enumerate() {
        if !is_token_char(*byte) {
            return place;
        }
    }
    bytes.len()
}

// The argument after a name.
fn read_argument(text: &[u8]) -> Result<Option<Value<'_>>, Malformed>
    ensures { MatchResult result (λ argument. IsArgument text.now (option_map value_parts argument))
        (λ _. (argument : Option ValueParts) → IsArgument text.now argument → ⊥) }
{
    if text.is_empty() {
        return Ok(None);
    }
    if text[0] != b'=' {
        return Err(Malformed);
    }
    match read_value(&text[1..]) {
        Ok(value) => Ok(Some(value)),
        Err(Malformed) => Err(Malformed),
    }
}

/// Parses a text as a directive (RFC 9111, section 5.2). `Malformed` for any other text, also for
/// one with a blank beside the `=`.
pub fn read_directive(text: &[u8]) -> Result<Directive<'_>, Malformed>
    ensures { MatchResult result (λ directive. IsDirective text.now (directive_parts directive))
        (λ _. (d : DirectiveParts) → IsDirective text.now d → ⊥) }
{
    let end = token_len(text);
    if end == 0 {
        return Err(Malformed);
    }
    match read_argument(&text[end..]) {
        Ok(argument) => Ok(Directive {
            name: &text[..end],
            argument,
        }),
        Err(Malformed) => Err(Malformed),
    }
}

/// Parses a text as a directive, as `read_directive` does. `None` for any other text.
pub fn directive_in(text: &[u8]) -> Option<Directive<'_>>
    ensures { option_map directive_parts result ≡ directive_in text.now }
{
    match read_directive(text) {
        Ok(directive) => Some(directive),
        Err(Malformed) => None,
    }
}

impl<'a> Directive<'a> {
    /// Returns whether the directive has this name, ignoring the case of ASCII letters.
    pub fn is(&self, name: &[u8]) -> bool
        ensures { result ≡ is_named name.now (directive_parts self.now) }
    {
        self.name.eq_ignore_ascii_case(name)
    }
}
