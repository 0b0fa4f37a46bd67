//! Credentials of the scheme `Bearer`.
ghost use Rattle.std.specs.Prelude.{◌≡◌, ◌↔◌, Some, codes, IsTrue, IfOk, OnOk};
ghost use Rattle.http_header.specs.FieldValue.{IsFieldValue, plain_value};
ghost use Rattle.headers_syntax.{specs.Refusal.IsInvalid, specs.Text.is_text};
ghost use Rattle.headers_authorization.specs.Bearer.{bearer_line, bearer_token, bearer_scheme, ReadsBearer};
ghost use Rattle.headers_authorization.{specs.Bearer.bearer_writes, specs.Scheme.IsReadBack};

use crate::authorization::Authorization;
use crate::credentials::Credentials;
use crate::proxy_authorization::ProxyAuthorization;
use headers_core::{HeaderValueString, Refused};
use http_header::HeaderValue;
use std::alloc::{AllocError, Global};
use std::fmt;
use std::marker::Model;

/// Credentials of the scheme `Bearer`: a token (RFC 6750, section 2.1). The whole field line is
/// stored, which must be text. Credentials are compared by its bytes.
#[derive(Debug, Drop, PartialEq)]
pub struct Bearer {
    line: HeaderValueString,
}

impl Model for Bearer {
    ghost use Rattle.http_header.specs.FieldValue.{FieldValue, field_value_code};
    ghost use Rattle.headers_authorization.{specs.Scheme.HasScheme, specs.Bearer.bearer_scheme};

    ghost Value = { FieldValue };

    ghost coded = { field_value_code };

    ghost view = { λ bearer. bearer.line };

    ghost invariant = { λ bearer. HasScheme bearer_scheme bearer.line.bytes };

    ghost inverse = { λ value. record { line = value } };
}

/// The error of a token with a control character other than tab, which no header value may have.
#[derive(Clone, Copy, Debug, PartialEq, Eq)]
pub struct InvalidBearerToken;

impl fmt::Display for InvalidBearerToken {
    ghost output = { λ _. Some (codes "InvalidBearerToken") };

    ghost styled_output = { λ _ _. Some (codes "InvalidBearerToken") };

    fn fmt<W: fmt::Write>(&self, f: &mut fmt::Formatter<W>) -> fmt::Result {
        f.write_str("InvalidBearerToken")
    }
}

impl std::error::Error for InvalidBearerToken {}

impl Bearer {
    /// Returns the token: what follows the scheme and its space, without leading white space.
    pub fn token(&self) -> &str
        ensures { result.now ≡ bearer_token self.now.bytes }
    {
        self.line.as_str()["Bearer ".len()..].trim_start()
    }

    /// Copies the credentials. The copy is sensitive exactly if the original is. Fails only if an
    /// allocation fails.
    pub fn clone(&self, alloc: Global) -> Result<Bearer, AllocError>
        ensures { IfOk result (λ copy. copy ≡ self.now) }
    {
        Ok(Bearer {
            line: self.line.clone(alloc)?,
        })
    }
}

impl Credentials for Bearer {
    ghost use Rattle.headers_authorization.specs.Bearer.{bearer_scheme, SameBearer, ReadsBearer, bearer_writes};
    ghost use Rattle.headers_authorization.specs.BearerLaws.{bearer_laws};

    ghost scheme = { bearer_scheme };

    ghost same = { SameBearer };

    ghost reads = { ReadsBearer };

    ghost writes = { bearer_writes };

    ghost laws = { bearer_laws };

    const SCHEME: &'static str = "Bearer";

    fn scheme_name() -> &'static str {
        Self::SCHEME
    }

    fn decode(alloc: Global, value: &HeaderValue) -> Result<Option<Bearer>, AllocError> {
        match HeaderValueString::from_val(alloc, value) {
            Ok(line) => Ok(Some(Bearer { line })),
            Err(Refused::Invalid(_)) => Ok(None),
            Err(Refused::Memory(refused)) => Err(refused),
        }
    }

    fn encode(&self, _alloc: Global) -> Result<HeaderValue, AllocError> {
        self.line.as_value().clone()
    }
}

impl Authorization<Bearer> {
    /// Makes the header of a bearer token (RFC 6750, section 2.1). `Invalid` if the token has a
    /// control character other than tab, `Memory` if an allocation fails. A token with characters
    /// outside ASCII is accepted, but its encoding is rejected when it is decoded (RFC 9110,
    /// section 5.5).
    pub fn bearer(
        alloc: Global,
        token: &str,
    ) -> Result<Authorization<Bearer>, Refused<InvalidBearerToken>>
        ensures ok { IfOk result (λ made. made.0 ≡ plain_value (bearer_line token.now)) }
        ensures valid { OnOk result (IsFieldValue (bearer_line token.now)) }
        ensures invalid { IsInvalid result → ¬ (IsFieldValue (bearer_line token.now)) }
        ensures back { IfOk result (λ made. IsReadBack bearer_scheme ReadsBearer bearer_writes made.0
            ↔ IsTrue (is_text token.now)) }
    {
        let mut line = String::from_str(alloc, "Bearer ")?;
        line.push_str(token)?;
        match HeaderValueString::from_str(alloc, line.as_str()) {
            Ok(line) => Ok(Authorization(Bearer { line })),
            Err(Refused::Invalid(_)) => Err(Refused::Invalid(InvalidBearerToken)),
            Err(Refused::Memory(refused)) => Err(Refused::Memory(refused)),
        }
    }

    /// Returns the token: what follows the scheme and its space, without leading white space.
    pub fn token(&self) -> &str
        ensures { result.now ≡ bearer_token self.now.0.bytes }
    {
        self.0.token()
    }

    /// Copies the header. The copy is sensitive exactly if the original is. Fails only if an
    /// allocation fails.
    pub fn clone(&self, alloc: Global) -> Result<Authorization<Bearer>, AllocError>
        ensures { IfOk result (λ copy. copy ≡ self.now) }
    {
        Ok(Authorization(self.0.clone(alloc)?))
    }
}

impl ProxyAuthorization<Bearer> {
    /// Copies the header. The copy is sensitive exactly if the original is. Fails only if an
    /// allocation fails.
    pub fn clone(&self, alloc: Global) -> Result<ProxyAuthorization<Bearer>, AllocError>
        ensures { IfOk result (λ copy. copy ≡ self.now) }
    {
        Ok(ProxyAuthorization(self.0.clone(alloc)?))
    }
}
