//! A header value that is text.
ghost use Rattle.std.specs.Prelude.{◌≡◌, ◌↔◌, IsTrue, IfOk, IsUtf8};
ghost use Rattle.http_header.specs.FieldValue.{IsFieldValue, plain_value};
ghost use Rattle.headers_syntax.{specs.Text.is_text, specs.Refusal.IsInvalid};

use crate::error::{Error, Refused};
use crate::text::read_text;
use http_header::{HeaderValue, HeaderValueError};
use std::alloc::{AllocError, Global};
use std::marker::Model;
use std::str;

/// A header value whose bytes are UTF-8. It is compared, ordered and hashed by its bytes.
#[derive(Debug, Drop, PartialEq, Eq, PartialOrd, Ord, Hash)]
pub struct HeaderValueString {
    value: HeaderValue,
}

impl Model for HeaderValueString {
    ghost use Rattle.std.specs.Prelude.{IsUtf8};
    ghost use Rattle.http_header.specs.FieldValue.{FieldValue, field_value_code};

    ghost Value = { FieldValue };

    ghost coded = { field_value_code };

    ghost view = { λ s. s.value };

    ghost invariant = { λ s. IsUtf8 s.value.bytes };

    ghost inverse = { λ v. record { value = v } };
}

impl HeaderValueString {
    /// Copies a header value that is text: visible ASCII, spaces and tabs (RFC 9110, section 5.5).
    /// `Invalid` if it has any other byte, `Memory` if an allocation fails.
    pub fn from_val(
        _alloc: Global,
        value: &HeaderValue,
    ) -> Result<HeaderValueString, Refused<Error>>
        ensures ok { IfOk result (λ text. text ≡ value.now) }
        ensures text { IfOk result (λ _. IsTrue (is_text value.now.bytes)) }
        ensures invalid { IsInvalid result ↔ ¬ (IsTrue (is_text value.now.bytes)) }
    {
        if read_text(value).is_none() {
            return Err(Refused::Invalid(Error::invalid()));
        }
        Ok(HeaderValueString {
            value: value.clone()?,
        })
    }

    /// Makes a header value of a copy of the text, which may have characters outside ASCII.
    /// `Invalid` if the text has a byte that no header value may have, `Memory` if an allocation
    /// fails.
    pub fn from_str(alloc: Global, text: &str) -> Result<HeaderValueString, Refused<Error>>
        ensures ok { IfOk result (λ copy. copy ≡ plain_value text.now) }
        ensures valid { IfOk result (λ _. IsFieldValue text.now) }
        ensures invalid { IsInvalid result ↔ ¬ (IsFieldValue text.now) }
    {
        match HeaderValue::from_str(alloc, text) {
            Ok(value) => Ok(HeaderValueString { value }),
            Err(HeaderValueError::Invalid) => Err(Refused::Invalid(Error::invalid())),
            Err(HeaderValueError::OutOfMemory) => Err(Refused::Memory(AllocError)),
        }
    }

    /// Makes a header value of a static text, without copying it. The caller must show that the
    /// text is visible ASCII, spaces and tabs.
    pub fn from_static(text: &'static str) -> HeaderValueString
        requires { IsTrue (is_text text.now) }
        ensures { result ≡ plain_value text.now }
    {
        HeaderValueString {
            value: HeaderValue::from_static(text),
        }
    }

    /// Returns the header value as text.
    pub fn as_str(&self) -> &str
        ensures { result.now ≡ self.now.bytes }
    {
        // The invariant says that the bytes are UTF-8. To test them again takes three times as long.
        unsafe { str::from_utf8_unchecked(self.value.as_bytes()) }
    }

    /// Returns the header value, whose bytes are those of the text.
    pub fn as_value(&self) -> &HeaderValue
        ensures value { result.now ≡ self.now }
        ensures utf8 { IsUtf8 result.now.bytes }
    {
        &self.value
    }

    /// Copies the header value. The copy is sensitive exactly if the original is. Fails only if an
    /// allocation fails.
    pub fn clone(&self, _alloc: Global) -> Result<HeaderValueString, AllocError>
        ensures { IfOk result (λ copy. copy ≡ self.now) }
    {
        Ok(HeaderValueString {
            value: self.value.clone()?,
        })
    }
}
