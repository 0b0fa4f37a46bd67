//! Field lines and offers, as C hands them in.
ghost use Rattle.c_decisions.specs.Texts.{IsFieldOf, IsOptionalValue, IsValuesOf};

use c_parts::{Failure, map_of, read_values};
use decide_negotiation::Dimension;
use headers::{HeaderMap, HeaderName, HeaderValue};
use http_header::HeaderValueError;
use std::alloc::Global;

/// The values of a text, one a line.
pub fn values_of(alloc: Global, text: &[u8]) -> Result<Vec<HeaderValue>, Failure>
    ensures { IsValuesOf text.now result }
{
    match read_values(alloc, text)? {
        Some(values) => Ok(values),
        None => Err(Failure::Refused),
    }
}

/// A request that has these field lines under the name, and no others.
pub fn request_with(alloc: Global, name: &HeaderName, lines: &[u8]) -> Result<HeaderMap, Failure>
    ensures { IsFieldOf name.now lines.now result }
{
    let values = values_of(alloc, lines)?;
    Ok(map_of(alloc, name, values)?)
}

/// A request that has these lines of the field of a dimension, and no others.
pub(crate) fn request_for<D: Dimension>(alloc: Global, lines: &[u8]) -> Result<HeaderMap, Failure>
    ensures { IsFieldOf D.NAME lines.now result }
{
    request_with(alloc, &D::NAME, lines)
}

/// The field line of these bytes, or none if there is no byte.
pub fn optional_value(alloc: Global, text: &[u8]) -> Result<Option<HeaderValue>, Failure>
    ensures { IsOptionalValue text.now result }
{
    if text.is_empty() {
        return Ok(None);
    }
    match HeaderValue::from_bytes(alloc, text) {
        Ok(value) => Ok(Some(value)),
        Err(HeaderValueError::Invalid) => Err(Failure::Refused),
        Err(HeaderValueError::OutOfMemory) => Err(Failure::Memory),
    }
}
