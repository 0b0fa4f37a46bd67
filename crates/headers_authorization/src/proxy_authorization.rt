//! The header `proxy-authorization`.

use crate::authorization::Authorization;
use crate::credentials::Credentials;
use headers_core::{AsHeaderValue, Error, Header, Refused};
use http_header::{HeaderName, HeaderValue, PROXY_AUTHORIZATION};
use std::alloc::{AllocError, Global};

/// The header `Proxy-Authorization`: the credentials of a request to a proxy (RFC 9110, section
/// 11.7.2). The first field line is decoded: the scheme in any case, a space, and the credentials.
/// `decode` rejects any other value, and may run out of memory. The encoding isn't marked
/// sensitive, as in upstream. Headers are compared by their credentials.
#[derive(Debug, Drop, PartialEq)]
pub struct ProxyAuthorization<C>(pub C);

impl<C: Credentials> Header for ProxyAuthorization<C> {
    ghost use Rattle.std.specs.Prelude.{false, codes, ◌∷◌, []};
    ghost use Rattle.headers_authorization.{specs.Scheme.FirstReads, specs.CredentialLaws.first_laws};

    ghost field_name = { codes "proxy-authorization" };

    ghost free = { false };

    ghost same = { λ v w. C.same v.0 w.0 };

    ghost reads = { λ lines v. FirstReads C.scheme C.reads lines v.0 };

    ghost writes = { λ v. C.writes v.0 ∷ [] };

    ghost laws = { first_laws C.scheme C.same C.reads C.writes (λ v. v.0) C.laws };

    fn name() -> HeaderName {
        PROXY_AUTHORIZATION
    }

    fn decode<I: Iterator>(
        alloc: Global,
        values: &mut I,
    ) -> Result<ProxyAuthorization<C>, Refused<Error>>
    where
        I::Item: AsHeaderValue,
    {
        match Authorization::decode(alloc, values) {
            Ok(header) => Ok(ProxyAuthorization(header.0)),
            Err(refused) => Err(refused),
        }
    }

    fn encode(&self, alloc: Global, values: &mut Vec<HeaderValue>) -> Result<(), AllocError> {
        let value = self.0.encode(alloc)?;
        values.push(value)?;
        Ok(())
    }
}
