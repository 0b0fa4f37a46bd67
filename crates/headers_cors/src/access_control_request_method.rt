//! The header `access-control-request-method`.
ghost use Rattle.std.specs.Prelude.{◌≡◌, IfOk};
ghost use Rattle.headers_hosts.specs.OneLine.{LineDecodesTo};
ghost use Rattle.headers_cors.specs.AccessControlRequestMethod.{method_bytes, IsMethodLine, request_method_reads};
ghost use Rattle.headers_cors.specs.AccessControlRequestMethod.{request_method_writes};

use headers_core::{AsHeaderValue, Error, Header, Refused, first};
use http::Method;
use http::method::MethodError;
use http_header::{ACCESS_CONTROL_REQUEST_METHOD, HeaderName, HeaderValue, HeaderValueError};
use std::alloc::{AllocError, Global};

/// The header `Access-Control-Request-Method`: the method of the actual request (W3C CORS, section
/// 5.8).
///
/// The first field line is decoded. `decode` rejects a value that is no method (RFC 9110, section
/// 9.1), and may run out of memory. Headers are compared and hashed by their bytes.
#[derive(Debug, PartialEq, Eq, Hash, Drop)]
pub struct AccessControlRequestMethod {
    method: Method,
}

impl AccessControlRequestMethod {
    /// Copies the header. Fails only if an allocation fails.
    pub fn clone(&self, _alloc: Global) -> Result<AccessControlRequestMethod, AllocError>
        ensures { IfOk result (λ copy. copy ≡ self.now) }
    {
        Ok(AccessControlRequestMethod {
            method: self.method.clone()?,
        })
    }

    fn from_val(
        alloc: Global,
        value: &HeaderValue,
    ) -> Result<AccessControlRequestMethod, Refused<Error>>
        ensures { LineDecodesTo IsMethodLine value.now.bytes result }
    {
        match Method::from_bytes(alloc, value.as_bytes()) {
            Ok(method) => Ok(AccessControlRequestMethod { method }),
            Err(MethodError::Invalid) => Err(Refused::Invalid(Error::invalid())),
            Err(MethodError::OutOfMemory) => Err(Refused::Memory(AllocError)),
        }
    }

    fn to_value(&self, alloc: Global) -> Result<HeaderValue, AllocError>
        ensures { IfOk result (λ value. value.bytes ≡ method_bytes self.now) }
    {
        match HeaderValue::from_str(alloc, self.method.as_str()) {
            Ok(value) => Ok(value),
            Err(HeaderValueError::Invalid) => unreachable!(),
            Err(HeaderValueError::OutOfMemory) => Err(AllocError),
        }
    }
}

/// Theorem: every value of `AccessControlRequestMethod` survives a round trip.
pub fn request_methods_read_back(header: &AccessControlRequestMethod)
    ensures { request_method_reads (request_method_writes header.now) header.now }
{
    let _method = header.method.as_str();
}

impl From<Method> for AccessControlRequestMethod {
    ghost from_gives = { λ method header. method_bytes header ≡ method };

    fn from(method: Method) -> AccessControlRequestMethod {
        AccessControlRequestMethod { method }
    }
}

impl From<AccessControlRequestMethod> for Method {
    ghost from_gives = { λ header method. method ≡ method_bytes header };

    fn from(header: AccessControlRequestMethod) -> Method {
        header.method
    }
}

impl Header for AccessControlRequestMethod {
    ghost use Rattle.std.specs.Prelude.{false, codes};
    ghost use Rattle.headers_hosts.specs.OneLine.{Same};
    ghost use Rattle.headers_cors.specs.AccessControlRequestMethodLaws.{request_method_laws};

    ghost field_name = { codes "access-control-request-method" };

    ghost free = { false };

    ghost same = { Same };

    ghost reads = { request_method_reads };

    ghost writes = { request_method_writes };

    ghost laws = { request_method_laws };

    fn name() -> HeaderName {
        ACCESS_CONTROL_REQUEST_METHOD
    }

    fn decode<I: Iterator>(
        alloc: Global,
        values: &mut I,
    ) -> Result<AccessControlRequestMethod, Refused<Error>>
    where
        I::Item: AsHeaderValue,
    {
        let line = first(values).ok_or(Error::invalid())?;
        AccessControlRequestMethod::from_val(alloc, line.as_header_value())
    }

    fn encode(&self, alloc: Global, values: &mut Vec<HeaderValue>) -> Result<(), AllocError> {
        values.push(self.to_value(alloc)?)?;
        Ok(())
    }
}
