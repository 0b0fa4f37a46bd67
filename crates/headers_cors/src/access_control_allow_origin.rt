//! The header `access-control-allow-origin`.
ghost use Rattle.std.specs.Prelude.{◌≡◌, List, ℕ, Some, None, IfOk, option_copied};
ghost use Rattle.headers_hosts.{specs.declared.origin.Origin.Origin, specs.Origin.IsOriginLine};
ghost use Rattle.headers_hosts.specs.OneLine.{LineDecodesTo};
ghost use Rattle.headers_cors.specs.AccessControlAllowOrigin.{IsAllowedLine, IsAllowedText, allowed_text};
ghost use Rattle.headers_cors.specs.AccessControlAllowOrigin.{allowed_origin, allow_origin_reads, allow_origin_writes};
ghost use Rattle.headers_cors.specs.declared.access_control_allow_origin.AccessControlAllowOrigin as declared;

use headers_core::{AsHeaderValue, Error, Header, Refused, just_one};
use headers_hosts::{Origin, line_of_origin, origin_of_line, origin_of_text};
use http_header::{ACCESS_CONTROL_ALLOW_ORIGIN, HeaderName, HeaderValue};
use std::alloc::{AllocError, Global};

/// The header `Access-Control-Allow-Origin`: the origin whose scripts may read the response (W3C
/// CORS, section 5.1).
///
/// The only field line is decoded: `*` for any origin, or an origin, as `Origin` decodes it.
/// `decode` rejects any other value, and no or several lines, and may run out of memory. Headers
/// are compared and hashed by the origin.
#[derive(Debug, PartialEq, Eq, Hash, Drop)]
pub struct AccessControlAllowOrigin {
    kind: OriginOrAny,
}

#[derive(Debug, PartialEq, Eq, Hash, Drop)]
enum OriginOrAny {
    One(Origin),
    Any,
}

impl AccessControlAllowOrigin {
    /// The header `*`, which allows any origin.
    pub const ANY: AccessControlAllowOrigin = AccessControlAllowOrigin {
        kind: OriginOrAny::Any,
    };

    /// The header `null`, which allows the origin `null`.
    pub const NULL: AccessControlAllowOrigin = AccessControlAllowOrigin {
        kind: OriginOrAny::One(Origin::NULL),
    };

    /// Returns the origin, or `None` if any origin is allowed.
    pub fn origin(&self) -> Option<&Origin>
        ensures { option_copied result ≡ allowed_origin self.now }
    {
        match &self.kind {
            OriginOrAny::One(origin) => Some(origin),
            OriginOrAny::Any => None,
        }
    }

    /// Parses a text as an origin, like a field line. `Invalid` if the text is `*`, no header value
    /// or no origin, `Memory` if an allocation fails.
    pub fn try_from_str(
        alloc: Global,
        text: &str,
    ) -> Result<AccessControlAllowOrigin, Refused<Error>>
        ensures { LineDecodesTo IsAllowedText text.now result }
    {
        match origin_of_text(alloc, text) {
            Ok(origin) => Ok(AccessControlAllowOrigin {
                kind: OriginOrAny::One(origin),
            }),
            Err(refused) => Err(refused),
        }
    }

    /// Copies the header. Fails only if an allocation fails.
    pub fn clone(&self, alloc: Global) -> Result<AccessControlAllowOrigin, AllocError>
        ensures { IfOk result (λ copy. copy ≡ self.now) }
    {
        let kind = match &self.kind {
            OriginOrAny::One(origin) => OriginOrAny::One(origin.clone(alloc)?),
            OriginOrAny::Any => OriginOrAny::Any,
        };
        Ok(AccessControlAllowOrigin { kind })
    }

    fn from_val(value: &HeaderValue) -> Result<AccessControlAllowOrigin, Refused<Error>>
        ensures { LineDecodesTo IsAllowedLine value.now.bytes result }
    {
        if value.as_bytes() == b"*".as_slice() {
            return Ok(AccessControlAllowOrigin::ANY);
        }
        match origin_of_line(value) {
            Ok(origin) => Ok(AccessControlAllowOrigin {
                kind: OriginOrAny::One(origin),
            }),
            Err(refused) => Err(refused),
        }
    }

    fn to_value(&self, alloc: Global) -> Result<HeaderValue, AllocError>
        ensures { IfOk result (λ value. value.bytes ≡ allowed_text self.now) }
    {
        match &self.kind {
            OriginOrAny::One(origin) => line_of_origin(alloc, origin),
            OriginOrAny::Any => Ok(HeaderValue::from_static("*")),
        }
    }
}

/// Theorem: `*`, and each origin that some field line decodes to, survives a round trip.
pub fn allow_origin_of_own_text()
    ensures any { (header : declared.AccessControlAllowOrigin) → allowed_origin header ≡ None
        → allow_origin_reads (allow_origin_writes header) header }
    ensures others { (line : List ℕ) (header : declared.AccessControlAllowOrigin) (origin : Origin)
        → allowed_origin header ≡ Some origin → IsOriginLine line origin
        → allow_origin_reads (allow_origin_writes header) header }
{}

impl Header for AccessControlAllowOrigin {
    ghost use Rattle.std.specs.Prelude.{false, codes};
    ghost use Rattle.headers_hosts.specs.OneLine.{Same};
    ghost use Rattle.headers_cors.specs.AccessControlAllowOriginLaws.{allow_origin_laws};

    ghost field_name = { codes "access-control-allow-origin" };

    ghost free = { false };

    ghost same = { Same };

    ghost reads = { allow_origin_reads };

    ghost writes = { allow_origin_writes };

    ghost laws = { allow_origin_laws };

    fn name() -> HeaderName {
        ACCESS_CONTROL_ALLOW_ORIGIN
    }

    fn decode<I: Iterator>(
        _alloc: Global,
        values: &mut I,
    ) -> Result<AccessControlAllowOrigin, Refused<Error>>
    where
        I::Item: AsHeaderValue,
    {
        let line = just_one(values).ok_or(Error::invalid())?;
        AccessControlAllowOrigin::from_val(line.as_header_value())
    }

    fn encode(&self, alloc: Global, values: &mut Vec<HeaderValue>) -> Result<(), AllocError> {
        values.push(self.to_value(alloc)?)?;
        Ok(())
    }
}
