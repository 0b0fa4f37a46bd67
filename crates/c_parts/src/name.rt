//! The name of a field.
ghost use Rattle.c_parts.specs.FieldText.{IsNameOf};

use crate::status::Failure;
use headers::HeaderName;
use http_header::HeaderNameError;
use std::alloc::Global;

/// The name of these bytes, in lower case.
pub fn read_name(alloc: Global, bytes: &[u8]) -> Result<HeaderName, Failure>
    ensures { IsNameOf bytes.now result }
{
    match HeaderName::from_bytes(alloc, bytes) {
        Ok(name) => Ok(name),
        Err(HeaderNameError::Invalid) => Err(Failure::Refused),
        Err(HeaderNameError::OutOfMemory) => Err(Failure::Memory),
    }
}
