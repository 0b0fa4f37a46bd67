//! Headers that are one encoding shape with a field name.
ghost use Rattle.std.specs.Prelude.{◌≡◌, List, ℕ};

use crate::field_form::FieldForm;
use crate::header::Header;
use headers_syntax::{AsHeaderValue, Error, Refused};
use http_header::{HeaderName, HeaderValue};
use std::alloc::{AllocError, Global};

/// A header that is one encoding shape with a field name. Every such type is a `Header`.
pub trait FormHeader: Drop {
    /// The encoding shape that the header stores.
    type Form: FieldForm;

    // The name of its field, in lower case.
    ghost NAME: { List ℕ };

    /// The field name of the header.
    const NAME: HeaderName;

    // The encoding shape of a header.
    ghost form: { Self → Self.Form };

    /// Makes the header of its encoding shape.
    fn from_form(kept: Self::Form) -> Self
        ensures { form result ≡ kept };

    /// Returns the encoding shape that the header stores.
    fn as_form(&self) -> &Self::Form
        ensures { result.now ≡ form self.now };
}

impl<H: FormHeader> Header for H {
    ghost use Rattle.headers_syntax.specs.HeaderLaws.{SameBy, ReadsBy, written_by};
    ghost use Rattle.headers_core.specs.FormLaws.{laws_along};

    ghost field_name = { H.NAME };

    ghost free = { H.Form.free };

    ghost same = { λ v w. SameBy H.Form.grammar (H.form v) (H.form w) };

    ghost reads = { λ lines v. ReadsBy H.Form.grammar lines (H.form v) };

    ghost writes = { λ v. written_by H.Form.grammar (H.form v) };

    ghost laws = { laws_along H.form H.Form.grammar H.Form.reads_back };

    fn name() -> HeaderName {
        H::NAME
    }

    fn decode<I: Iterator>(alloc: Global, values: &mut I) -> Result<H, Refused<Error>>
    where
        I::Item: AsHeaderValue,
    {
        match <H::Form as FieldForm>::read_lines(alloc, values) {
            Ok(form) => Ok(H::from_form(form)),
            Err(refused) => Err(refused),
        }
    }

    fn encode(&self, alloc: Global, values: &mut Vec<HeaderValue>) -> Result<(), AllocError> {
        self.as_form().write_lines(alloc, values)
    }
}
