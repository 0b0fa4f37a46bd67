//! Values that may not be empty.
ghost use Rattle.c_resource.specs.Values.{IsFilledValue};

use c_decisions::optional_value;
use c_parts::Failure;
use headers::HeaderValue;
use std::alloc::Global;

/// The field line of these bytes. Rejected if they are empty, or no field line.
pub(crate) fn read_filled(alloc: Global, text: &[u8]) -> Result<HeaderValue, Failure>
    ensures { IsFilledValue text.now result }
{
    match optional_value(alloc, text)? {
        Some(value) => Ok(value),
        None => Err(Failure::Refused),
    }
}
