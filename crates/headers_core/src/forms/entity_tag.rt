//! Encoding shape: the only field line, which is an entity tag.

use crate::field_form::FieldForm;
use headers_syntax::{AsHeaderValue, EntityTag, Error, Refused, just_one};
use http_header::HeaderValue;
use std::alloc::{AllocError, Global};

impl FieldForm for EntityTag {
    ghost use Rattle.std.specs.Prelude.{false};
    ghost use Rattle.http_header.specs.FieldValue.{FieldValue};
    ghost use Rattle.headers_syntax.{specs.Shapes.only_tag, specs.Lines.Line, proofs.ShapeLemmas.only_tag_back};

    ghost free = { false };

    ghost Kept = { Line };

    ghost grammar = { only_tag (λ value. value.bytes) };

    ghost reads_back = { only_tag_back {V = FieldValue} (λ value. value.bytes) };

    fn read_lines<I: Iterator>(alloc: Global, lines: &mut I) -> Result<EntityTag, Refused<Error>>
    where
        I::Item: AsHeaderValue,
    {
        let line = just_one(lines).ok_or(Error::invalid())?;
        Ok(EntityTag::from_val(alloc, line.as_header_value())?.ok_or(Error::invalid())?)
    }

    fn write_lines(&self, alloc: Global, values: &mut Vec<HeaderValue>) -> Result<(), AllocError> {
        values.push(self.clone(alloc)?.into_value())?;
        Ok(())
    }
}
