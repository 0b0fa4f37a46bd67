//! The boundary between several parts.
ghost use Rattle.std.specs.{Prelude.{◌≡◌, ◌↔◌, IfOk, true, false}, List.list_all};
ghost use Rattle.headers.specs.Refusal.{IsInvalid};
ghost use Rattle.decide_preconditions.specs.Boundaries.{is_boundary, is_boundary_byte, multipart_type};

use headers::{HeaderValue, Refused};
use http_header::HeaderValueError;
use std::alloc::{AllocError, Global};
use std::fmt;
use std::marker::Model;

/// The boundary between the parts of a `multipart/byteranges` (RFC 2046, section 5.1.1). It has 1
/// to 70 letters, digits, or `'`, `+`, `-`, `.`, `_`, which need no quotes. The caller must make
/// sure that no part that is sent contains it.
#[derive(Debug, Drop)]
pub struct Boundary {
    content_type: HeaderValue,
}

impl Model for Boundary {
    ghost use Rattle.http_header.specs.FieldValue.{FieldValue};

    ghost Value = { FieldValue };

    ghost view = { λ boundary. boundary.content_type };

    ghost inverse = { λ value. record { content_type = value } };
}

/// The error of a text that is no boundary.
#[derive(Clone, Copy, Debug, PartialEq, Eq)]
pub struct InvalidBoundary;

impl fmt::Display for InvalidBoundary {
    ghost use Rattle.std.specs.Prelude.{Some, codes};

    ghost output = { λ _. Some (codes "InvalidBoundary") };

    ghost styled_output = { λ _ _. Some (codes "InvalidBoundary") };

    fn fmt<W: fmt::Write>(&self, f: &mut fmt::Formatter<W>) -> fmt::Result {
        f.write_str("InvalidBoundary")
    }
}

impl std::error::Error for InvalidBoundary {}

impl Boundary {
    /// Makes a boundary of a text. `Invalid` if it is empty, longer than 70 bytes, or has another
    /// byte; `Memory` if an allocation fails.
    pub fn new(alloc: Global, text: &str) -> Result<Boundary, Refused<InvalidBoundary>>
        ensures value { IfOk result (λ boundary. boundary.bytes ≡ multipart_type text.now) }
        ensures valid { IfOk result (λ boundary. is_boundary text.now ≡ true) }
        ensures invalid { IsInvalid result ↔ (is_boundary text.now ≡ false) }
    {
        if !is_boundary(text.as_bytes()) {
            return Err(Refused::Invalid(InvalidBoundary));
        }
        let line = format!(in alloc; "multipart/byteranges; boundary={text}")?;
        match HeaderValue::from_string(line) {
            Ok(content_type) => Ok(Boundary { content_type }),
            Err(HeaderValueError::Invalid) => unreachable!(),
            Err(HeaderValueError::OutOfMemory) => Err(Refused::Memory(AllocError)),
        }
    }

    /// Returns the field line of `Content-Type` that names the boundary.
    pub fn content_type(&self) -> &HeaderValue
        ensures { result.now ≡ self.now }
    {
        &self.content_type
    }
}

fn is_boundary(text: &[u8]) -> bool
    ensures { result ≡ is_boundary text.now }
{
    !text.is_empty() && text.len() <= 70 && are_boundary_bytes(text)
}

fn are_boundary_bytes(text: &[u8]) -> bool
    ensures { result ≡ list_all is_boundary_byte text.now }
{
    text.iter().all(|byte| is_boundary_byte(*byte))
}

fn is_boundary_byte(byte: u8) -> bool
    ensures { result ≡ is_boundary_byte byte }
{
    byte.is_ascii_alphanumeric() || matches!(byte, b'\'' | b'+' | b'-' | b'.' | b'_')
}
