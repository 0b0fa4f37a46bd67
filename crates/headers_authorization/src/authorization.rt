//! The header `authorization`.

use crate::credentials::{Credentials, first_credentials};
use headers_core::{AsHeaderValue, Error, Header, Refused};
use http_header::{AUTHORIZATION, HeaderName, HeaderValue};
use std::alloc::{AllocError, Global};

/// The header `Authorization`: the credentials of a request to a server (RFC 9110, section 11.6.2).
/// The first field line is decoded: the scheme in any case, a space, and the credentials. `decode`
/// rejects any other value, and may run out of memory. The encoding is marked sensitive. Headers
/// are compared by their credentials.
#[derive(Debug, Drop, PartialEq)]
pub struct Authorization<C>(pub C);

impl<C: Credentials> Header for Authorization<C> {
    ghost use Rattle.std.specs.Prelude.{false, codes, ◌∷◌, []};
    ghost use Rattle.headers_authorization.{specs.Scheme.FirstReads, specs.CredentialLaws.first_laws};

    ghost field_name = { codes "authorization" };

    ghost free = { false };

    ghost same = { λ v w. C.same v.0 w.0 };

    ghost reads = { λ lines v. FirstReads C.scheme C.reads lines v.0 };

    ghost writes = { λ v. C.writes v.0 ∷ [] };

    ghost laws = { first_laws C.scheme C.same C.reads C.writes (λ v. v.0) C.laws };

    fn name() -> HeaderName {
        AUTHORIZATION
    }

    fn decode<I: Iterator>(
        alloc: Global,
        values: &mut I,
    ) -> Result<Authorization<C>, Refused<Error>>
    where
        I::Item: AsHeaderValue,
    {
        match first_credentials(alloc, values) {
            Ok(credentials) => Ok(Authorization(credentials)),
            Err(refused) => Err(refused),
        }
    }

    fn encode(&self, alloc: Global, values: &mut Vec<HeaderValue>) -> Result<(), AllocError> {
        let mut value = self.0.encode(alloc)?;
        value.set_sensitive(true);
        values.push(value)?;
        Ok(())
    }
}
