//! Encoding shape: the only field line, which is a date.

use crate::field_form::FieldForm;
use headers_syntax::{AsHeaderValue, Date1, Error, Refused, only_date};
use http_header::HeaderValue;
use std::alloc::{AllocError, Global};

impl FieldForm for Date1 {
    ghost use Rattle.std.specs.Prelude.{true, ℕ};
    ghost use Rattle.headers_syntax.{specs.Shapes.only_date, proofs.ShapeLemmas.only_date_back};

    ghost free = { true };

    ghost Kept = { ℕ };

    ghost grammar = { only_date (λ date. date) };

    ghost reads_back = { only_date_back {V = ℕ} (λ date. date) };

    fn read_lines<I: Iterator>(_alloc: Global, lines: &mut I) -> Result<Date1, Refused<Error>>
    where
        I::Item: AsHeaderValue,
    {
        Ok(only_date(lines).ok_or(Error::invalid())?)
    }

    fn write_lines(&self, alloc: Global, values: &mut Vec<HeaderValue>) -> Result<(), AllocError> {
        values.push(self.to_value(alloc)?)?;
        Ok(())
    }
}
