//! Methods.
ghost use Rattle.c_decisions.specs.Methods.{IsMethodOf};

use c_parts::Failure;
use http::Method;
use http::method::MethodError;
use std::alloc::Global;

/// The method of these bytes.
pub fn read_method(alloc: Global, bytes: &[u8]) -> Result<Method, Failure>
    ensures { IsMethodOf bytes.now result }
{
    match Method::from_bytes(alloc, bytes) {
        Ok(method) => Ok(method),
        Err(MethodError::Invalid) => Err(Failure::Refused),
        Err(MethodError::OutOfMemory) => Err(Failure::Memory),
    }
}
