//! Encoding shape: the only field line, which is text.

use crate::field_form::FieldForm;
use headers_syntax::{AsHeaderValue, Error, HeaderValueString, Refused, just_one, push_clone};
use http_header::HeaderValue;
use std::alloc::{AllocError, Global};

impl FieldForm for HeaderValueString {
    ghost use Rattle.std.specs.Prelude.{false};
    ghost use Rattle.http_header.specs.FieldValue.{FieldValue};
    ghost use Rattle.headers_syntax.{specs.Shapes.only_text, specs.Lines.Line, proofs.ShapeLemmas.only_text_back};

    ghost free = { false };

    ghost Kept = { Line };

    ghost grammar = { only_text (λ value. value.bytes) };

    ghost reads_back = { only_text_back {V = FieldValue} (λ value. value.bytes) };

    fn read_lines<I: Iterator>(
        alloc: Global,
        lines: &mut I,
    ) -> Result<HeaderValueString, Refused<Error>>
    where
        I::Item: AsHeaderValue,
    {
        let line = just_one(lines).ok_or(Error::invalid())?;
        HeaderValueString::from_val(alloc, line.as_header_value())
    }

    fn write_lines(&self, _alloc: Global, values: &mut Vec<HeaderValue>) -> Result<(), AllocError> {
        push_clone(values, self.as_value())
    }
}
