//! The header `content-disposition`.
ghost use Rattle.std.{specs.Prelude.{◌≡◌, ◌↔◌, ◌==◌, Some, codes, IsTrue, IfOk}, specs.List.before_first};
ghost use Rattle.http_header.specs.FieldValue.{plain_value, FieldValue, field_value_code};
ghost use Rattle.headers_items.specs.Places.{semicolon};
ghost use Rattle.headers_values.specs.Disposition.{disposition_of};

use headers_core::{FormHeader, first, read_text};
use http_header::{CONTENT_DISPOSITION, HeaderName, HeaderValue};
use std::alloc::{AllocError, Global};
use std::marker::Model;

/// The header `Content-Disposition`: how a recipient is to present the content (RFC 6266, section
/// 4).
///
/// The first field line is stored, whatever it is. `decode` rejects only a field without a line,
/// and may run out of memory. The disposition is what is before the first semicolon, compared byte
/// for byte; a line that isn't text has none.
#[derive(Debug, Drop)]
pub struct ContentDisposition {
    value: HeaderValue,
}

impl Model for ContentDisposition {
    ghost Value = { FieldValue };

    ghost coded = { field_value_code };

    ghost view = { λ header. header.value };
}

impl ContentDisposition {
    /// Makes the header `inline`.
    pub fn inline() -> ContentDisposition
        ensures { result ≡ plain_value (codes "inline") }
    {
        ContentDisposition::from_form(HeaderValue::from_static("inline"))
    }

    /// Returns whether the disposition is `inline`: the content is to be shown in place.
    pub fn is_inline(&self) -> bool
        ensures { IsTrue result ↔ (disposition_of self.now.bytes ≡ Some (codes "inline")) }
    {
        self.has_disposition("inline")
    }

    /// Returns whether the disposition is `attachment`: the content is to be saved.
    pub fn is_attachment(&self) -> bool
        ensures { IsTrue result ↔ (disposition_of self.now.bytes ≡ Some (codes "attachment")) }
    {
        self.has_disposition("attachment")
    }

    /// Returns whether the disposition is `form-data`: the content is a part of a form (RFC 7578).
    pub fn is_form_data(&self) -> bool
        ensures { IsTrue result ↔ (disposition_of self.now.bytes ≡ Some (codes "form-data")) }
    {
        self.has_disposition("form-data")
    }

    fn has_disposition(&self, word: &str) -> bool
        ensures { IsTrue result ↔ (disposition_of self.now.bytes ≡ Some word.now) }
    {
        read_text(&self.value).is_some_and(|text| before_semicolon(text) == word)
    }

    /// Copies the header. The copy is sensitive exactly if the original is. Fails only if an
    /// allocation fails.
    pub fn clone(&self, _alloc: Global) -> Result<ContentDisposition, AllocError>
        ensures { IfOk result (λ copy. copy ≡ self.now) }
    {
        Ok(ContentDisposition::from_form(self.value.clone()?))
    }
}

impl FormHeader for ContentDisposition {
    type Form = HeaderValue;

    ghost NAME = { codes "content-disposition" };

    const NAME: HeaderName = CONTENT_DISPOSITION;

    ghost form = { λ header. header };

    fn from_form(value: HeaderValue) -> ContentDisposition {
        ContentDisposition { value }
    }

    fn as_form(&self) -> &HeaderValue {
        &self.value
    }
}

// What is before the first semicolon, or all if there is none.
fn before_semicolon(text: &str) -> &str
    ensures { result.now ≡ before_first (λ b. b == semicolon) text.now }
{
    text.split_once(';').map_or(text, |(before, _)| before)
}
