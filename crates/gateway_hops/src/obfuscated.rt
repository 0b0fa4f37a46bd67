//! Identifiers that hide a node.
ghost use Rattle.std.{specs.Prelude.{◌≡◌, ◌↔◌, IfOk, OnOk, true}, specs.List.list_all};
ghost use Rattle.http_header.specs.FieldValue.{IsFieldValue};
ghost use Rattle.headers.specs.Refusal.{IsInvalid};
ghost use Rattle.gateway_hops.specs.Nodes.{is_obfuscated, is_obfuscated_byte};

use headers::{HeaderValue, Refused};
use http_header::HeaderValueError;
use std::alloc::{AllocError, Global};
use std::fmt;
use std::marker::Model;

/// An identifier that hides a node or a port (RFC 7239, section 6.3). It is an underscore, and then
/// at least one letter, digit, dot, underscore or hyphen.
#[derive(Debug, Drop)]
pub struct Obfuscated {
    text: HeaderValue,
}

impl Model for Obfuscated {
    ghost use Rattle.std.specs.Prelude.{List, ℕ};

    ghost Value = { List ℕ };

    ghost view = { λ obfuscated. obfuscated.text.bytes };
}

/// The error of a text that is no obfuscated identifier.
#[derive(Clone, Copy, Debug, PartialEq, Eq)]
pub struct InvalidObfuscated;

impl fmt::Display for InvalidObfuscated {
    ghost use Rattle.std.specs.Prelude.{Some, codes};

    ghost output = { λ _. Some (codes "an obfuscated identifier begins with an underscore") };

    ghost styled_output = { λ _ _. Some (codes "an obfuscated identifier begins with an underscore") };

    fn fmt<W: fmt::Write>(&self, f: &mut fmt::Formatter<W>) -> fmt::Result {
        f.write_str("an obfuscated identifier begins with an underscore")
    }
}

impl std::error::Error for InvalidObfuscated {}

fn is_obfuscated_byte(byte: u8) -> bool
    ensures { result ≡ is_obfuscated_byte byte }
{
    byte.is_ascii_alphanumeric() || byte == b'.' || byte == b'_' || byte == b'-'
}

fn are_obfuscated_bytes(text: &[u8]) -> bool
    ensures { result ≡ list_all is_obfuscated_byte text.now }
{
    text.iter().all(|byte| is_obfuscated_byte(*byte))
}

// Whether the text is an obfuscated identifier.
fn is_obfuscated(text: &[u8]) -> bool
    ensures { result ≡ is_obfuscated text.now }
{
    match text.split_first() {
        Some((first, rest)) => *first == b'_' && !rest.is_empty() && are_obfuscated_bytes(rest),
        None => false,
    }
}

impl Obfuscated {
    /// Makes an obfuscated identifier of a text (RFC 7239, section 6.3). `Invalid` if the text
    /// isn't one, `Memory` if an allocation fails.
    pub fn new(alloc: Global, text: &str) -> Result<Obfuscated, Refused<InvalidObfuscated>>
        ensures value { IfOk result (λ obfuscated. obfuscated ≡ text.now) }
        ensures valid { OnOk result (is_obfuscated text.now ≡ true) }
        ensures invalid { IsInvalid result ↔ ¬ (is_obfuscated text.now ≡ true) }
    {
        if !is_obfuscated(text.as_bytes()) {
            return Err(Refused::Invalid(InvalidObfuscated));
        }
        match HeaderValue::from_str(alloc, text) {
            Ok(text) => Ok(Obfuscated { text }),
            Err(HeaderValueError::Invalid) => unreachable!(),
            Err(HeaderValueError::OutOfMemory) => Err(Refused::Memory(AllocError)),
        }
    }

    /// Returns the identifier as text.
    pub fn as_bytes(&self) -> &[u8]
        ensures value { result.now ≡ self.now }
        ensures valid { IsFieldValue self.now }
    {
        self.text.as_bytes()
    }
}
