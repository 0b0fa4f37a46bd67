//! Headers that are one field line of text.
ghost use Rattle.std.{specs.Prelude.{◌≡◌, ◌↔◌, Some, IsTrue, IfOk}, specs.Fmt.padded};
ghost use Rattle.http_header.specs.FieldValue.{IsFieldValue, plain_value};
ghost use Rattle.headers_syntax.{specs.Text.is_text, specs.Refusal.IsInvalid};

use headers_core::{FormHeader, HeaderValueString, NamedField, Refused};
use http_header::HeaderName;
use std::alloc::{AllocError, Global};
use std::fmt;
use std::marker::{Model, PhantomData};

/// The field name of a header that is text, and the error of its constructor.
pub trait TextField: NamedField {
    /// The error with which `from_str` rejects a text.
    type Invalid: Default;
}

/// A header whose only field line is text: visible ASCII, spaces and tabs. `decode` rejects any
/// other line, and no or several lines, and may run out of memory. Headers are compared, ordered
/// and hashed by their bytes.
#[derive(Debug, Drop, PartialEq, Eq, PartialOrd, Ord, Hash)]
pub struct TextHeader<N: TextField> {
    text: HeaderValueString,
    of: PhantomData<N>,
}

impl<N: TextField> Model for TextHeader<N> {
    ghost use Rattle.http_header.specs.FieldValue.{FieldValue, field_value_code};

    ghost Value = { FieldValue };

    ghost coded = { field_value_code };

    ghost view = { λ header. header.text };

    ghost inverse = { λ value. record { text = value; of = record {} } };
}

impl<N: TextField> TextHeader<N> {
    /// Makes a header of a static text, without copying it. The caller must show that the text is
    /// visible ASCII, spaces and tabs.
    pub fn from_static(text: &'static str) -> TextHeader<N>
        requires { IsTrue (is_text text.now) }
        ensures { result ≡ plain_value text.now }
    {
        TextHeader::from_form(HeaderValueString::from_static(text))
    }

    /// Makes a header of a copy of the text, which may have characters outside ASCII. `Invalid` if
    /// the text has a control character other than tab (RFC 9110, section 5.5), `Memory` if an
    /// allocation fails.
    pub fn from_str(alloc: Global, text: &str) -> Result<TextHeader<N>, Refused<N::Invalid>>
        ensures ok { IfOk result (λ header. header ≡ plain_value text.now) }
        ensures valid { IfOk result (λ _. IsFieldValue text.now) }
        ensures invalid { IsInvalid result ↔ ¬ (IsFieldValue text.now) }
    {
        match HeaderValueString::from_str(alloc, text) {
            Ok(text) => Ok(TextHeader::from_form(text)),
            Err(Refused::Invalid(_)) => Err(Refused::Invalid(N::Invalid::default())),
            Err(Refused::Memory(refused)) => Err(Refused::Memory(refused)),
        }
    }

    /// Returns the text of the header.
    pub fn as_str(&self) -> &str
        ensures { result.now ≡ self.now.bytes }
    {
        self.text.as_str()
    }

    /// Copies the header. The copy is sensitive exactly if the original is. Fails only if an
    /// allocation fails.
    pub fn clone(&self, alloc: Global) -> Result<TextHeader<N>, AllocError>
        ensures { IfOk result (λ copy. copy ≡ self.now) }
    {
        Ok(TextHeader::from_form(self.text.clone(alloc)?))
    }
}

impl<N: TextField> fmt::Display for TextHeader<N> {
    ghost output = { λ header. Some header.bytes };

    ghost styled_output = { λ header spec. Some (padded spec header.bytes) };

    fn fmt<W: fmt::Write>(&self, f: &mut fmt::Formatter<W>) -> fmt::Result {
        f.pad(self.text.as_str())
    }
}

impl<N: TextField> FormHeader for TextHeader<N> {
    type Form = HeaderValueString;

    ghost NAME = { N.NAME };

    const NAME: HeaderName = N::NAME;

    ghost form = { λ header. header };

    fn from_form(text: HeaderValueString) -> TextHeader<N> {
        TextHeader {
            text,
            of: PhantomData,
        }
    }

    fn as_form(&self) -> &HeaderValueString {
        &self.text
    }
}
