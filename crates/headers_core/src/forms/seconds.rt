//! Encoding shape: the only field line, which is a number.

use crate::field_form::FieldForm;
use headers_syntax::{AsHeaderValue, Error, Refused, Seconds, only_seconds};
use http_header::HeaderValue;
use std::alloc::{AllocError, Global};

impl FieldForm for Seconds {
    ghost use Rattle.std.specs.Prelude.{true, ℕ};
    ghost use Rattle.headers_syntax.{specs.Shapes.only_number, proofs.ShapeLemmas.only_number_back};

    ghost free = { true };

    ghost Kept = { ℕ };

    ghost grammar = { only_number (λ seconds. seconds) };

    ghost reads_back = { only_number_back {V = ℕ} (λ seconds. seconds) };

    fn read_lines<I: Iterator>(_alloc: Global, lines: &mut I) -> Result<Seconds, Refused<Error>>
    where
        I::Item: AsHeaderValue,
    {
        Ok(only_seconds(lines).ok_or(Error::invalid())?)
    }

    fn write_lines(&self, alloc: Global, values: &mut Vec<HeaderValue>) -> Result<(), AllocError> {
        values.push(self.to_value(alloc)?)?;
        Ok(())
    }
}
