//! Encoding shape: all field lines, joined by the separator and a space.

use crate::field_form::FieldForm;
use headers_items::{FlatCsv, Separator};
use headers_syntax::{AsHeaderValue, Error, Refused};
use http_header::HeaderValue;
use std::alloc::{AllocError, Global};

impl<S: Separator> FieldForm for FlatCsv<S> {
    ghost use Rattle.std.specs.Prelude.{false};
    ghost use Rattle.headers_items.{specs.Merge.merged, proofs.MergeLemmas.merged_back};
    ghost use Rattle.headers_syntax.specs.Lines.{Line};

    ghost free = { false };

    ghost Kept = { Line };

    ghost grammar = { merged S.BYTE (λ value. value) };

    ghost reads_back = { merged_back {V = Line} S.BYTE (λ value. value) };

    fn read_lines<I: Iterator>(alloc: Global, lines: &mut I) -> Result<FlatCsv<S>, Refused<Error>>
    where
        I::Item: AsHeaderValue,
    {
        Ok(FlatCsv::from_lines(alloc, lines)?)
    }

    fn write_lines(&self, alloc: Global, values: &mut Vec<HeaderValue>) -> Result<(), AllocError> {
        values.push(self.to_value(alloc)?)?;
        Ok(())
    }
}
