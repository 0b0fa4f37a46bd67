//! The gateways that a message passed.
ghost use Rattle.std.{specs.Prelude.{◌≡◌, ◌↔◌, IfOk, OnOk, codes}, specs.List.list_any};
ghost use Rattle.http_header.{specs.FieldValue.plain_value, specs.Token.IsToken};
ghost use Rattle.headers.{specs.LineMap.lines_at, specs.Refusal.IsInvalid};
ghost use Rattle.gateway_messages.specs.Via.{is_loop, names_gateway, via_line, version_text};

use crate::protocol::Protocol;
use headers::{HeaderMap, HeaderValue, Refused};
use http_header::{HeaderValueError, VIA, is_token};
use std::alloc::{AllocError, Global};
use std::fmt;
use std::marker::Model;

/// The name of a gateway in Via (RFC 9110, section 7.6.3): a token.
#[derive(Debug, Drop)]
pub struct Pseudonym {
    text: HeaderValue,
}

impl Model for Pseudonym {
    ghost use Rattle.std.specs.Prelude.{List, ℕ};
    ghost use Rattle.http_header.specs.Token.{IsToken};

    ghost Value = { List ℕ };

    ghost view = { λ pseudonym. pseudonym.text.bytes };
}

/// The error of a text that is no pseudonym, since it is no token.
#[derive(Clone, Copy, Debug, PartialEq, Eq)]
pub struct InvalidPseudonym;

impl fmt::Display for InvalidPseudonym {
    ghost use Rattle.std.specs.Prelude.{Some, codes};

    ghost output = { λ _. Some (codes "a pseudonym is a token") };

    ghost styled_output = { λ _ _. Some (codes "a pseudonym is a token") };

    fn fmt<W: fmt::Write>(&self, f: &mut fmt::Formatter<W>) -> fmt::Result {
        f.write_str("a pseudonym is a token")
    }
}

impl std::error::Error for InvalidPseudonym {}

impl Pseudonym {
    /// Makes a pseudonym of a text. `Invalid` if it isn't a token (RFC 9110, section 5.6.2),
    /// `Memory` if an allocation fails.
    pub fn new(alloc: Global, text: &str) -> Result<Pseudonym, Refused<InvalidPseudonym>>
        ensures value { IfOk result (λ pseudonym. pseudonym ≡ text.now) }
        ensures valid { OnOk result (IsToken text.now) }
        ensures invalid { IsInvalid result ↔ ¬ (IsToken text.now) }
    {
        if !is_token(text.as_bytes()) {
            return Err(Refused::Invalid(InvalidPseudonym));
        }
        match HeaderValue::from_str(alloc, text) {
            Ok(text) => Ok(Pseudonym { text }),
            Err(HeaderValueError::Invalid) => unreachable!(),
            Err(HeaderValueError::OutOfMemory) => Err(Refused::Memory(AllocError)),
        }
    }

    /// The field line of Via for a message that was received in this version.
    pub(crate) fn line(&self, alloc: Global, protocol: Protocol) -> Result<HeaderValue, AllocError>
        ensures { IfOk result (λ line. line ≡ plain_value (via_line protocol self.now)) }
    {
        let mut line = Vec::new(alloc);
        line.extend_from_slice(version_text(protocol).as_bytes())?;
        line.extend_from_slice(self.text.as_bytes())?;
        match HeaderValue::from_vec(line) {
            Ok(line) => Ok(line),
            Err(HeaderValueError::Invalid) => unreachable!(),
            Err(HeaderValueError::OutOfMemory) => Err(AllocError),
        }
    }

    /// Whether a field line of Via names this gateway.
    pub(crate) fn is_in_via(&self, message: &HeaderMap) -> bool
        ensures { result ≡ is_loop self.now (lines_at message.now (codes "via")) }
    {
        for line in message.get_all(VIA) {
            if self.is_in_line(line) {
                return true;
            }
        }
        false
    }

    fn is_in_line(&self, line: &HeaderValue) -> bool
        ensures { result ≡ names_gateway self.now line.now.bytes }
    {
        let own = self.text.as_bytes();
        line.as_bytes()
            .split(|byte| *byte == b',' || *byte == b'\t' || *byte == b' ')
            .any(|word| word.eq_ignore_ascii_case(own))
    }
}

fn version_text(protocol: Protocol) -> &'static str
    ensures { result.now ≡ version_text protocol }
{
    match protocol {
        Protocol::Http10 => "1.0 ",
        Protocol::Http11 => "1.1 ",
    }
}
