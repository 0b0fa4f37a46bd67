//! Encoding shape: the first field line, whatever it is.

use crate::field_form::FieldForm;
use headers_syntax::{AsHeaderValue, Error, Refused, first, push_clone};
use http_header::HeaderValue;
use std::alloc::{AllocError, Global};

impl FieldForm for HeaderValue {
    ghost use Rattle.std.specs.Prelude.{false};
    ghost use Rattle.http_header.specs.FieldValue.{FieldValue};
    ghost use Rattle.headers_syntax.{specs.Shapes.first_kept, specs.Lines.Line, proofs.ShapeLemmas.first_kept_back};

    ghost free = { false };

    ghost Kept = { Line };

    ghost grammar = { first_kept (λ value. value.bytes) };

    ghost reads_back = { first_kept_back {V = FieldValue} (λ value. value.bytes) };

    fn read_lines<I: Iterator>(_alloc: Global, lines: &mut I) -> Result<HeaderValue, Refused<Error>>
    where
        I::Item: AsHeaderValue,
    {
        let line = first(lines).ok_or(Error::invalid())?;
        Ok(line.as_header_value().clone()?)
    }

    fn write_lines(&self, _alloc: Global, values: &mut Vec<HeaderValue>) -> Result<(), AllocError> {
        push_clone(values, self)
    }
}
