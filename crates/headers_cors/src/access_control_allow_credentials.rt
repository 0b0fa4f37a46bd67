//! The header `access-control-allow-credentials`.

use headers_core::{AsHeaderValue, Error, Header, Refused, first_word};
use http_header::{ACCESS_CONTROL_ALLOW_CREDENTIALS, HeaderName, HeaderValue};
use std::alloc::{AllocError, Global};

/// The header `Access-Control-Allow-Credentials`: a script may read the response to a request with
/// credentials (Fetch standard, section 3.3.3). The first field line is `true`. `decode` rejects
/// any other value, and never allocates.
#[derive(Clone, Debug, Drop, PartialEq, Eq)]
pub struct AccessControlAllowCredentials;

impl Header for AccessControlAllowCredentials {
    ghost use Rattle.std.specs.Prelude.{true, codes};
    ghost use Rattle.headers_syntax.specs.HeaderLaws.{SameBy, ReadsBy, written_by};
    ghost use Rattle.headers_syntax.proofs.ShapeLemmas.{first_word_laws};
    ghost use Rattle.headers_cors.specs.AccessControlAllowCredentials.{access_control_allow_credentials_grammar};

    ghost field_name = { codes "access-control-allow-credentials" };

    ghost free = { true };

    ghost same = { SameBy access_control_allow_credentials_grammar };

    ghost reads = { ReadsBy access_control_allow_credentials_grammar };

    ghost writes = { written_by access_control_allow_credentials_grammar };

    ghost laws = { first_word_laws (codes "true") access_control_allow_credentials_grammar.kept };

    fn name() -> HeaderName {
        ACCESS_CONTROL_ALLOW_CREDENTIALS
    }

    fn decode<I: Iterator>(
        _alloc: Global,
        values: &mut I,
    ) -> Result<AccessControlAllowCredentials, Refused<Error>>
    where
        I::Item: AsHeaderValue,
    {
        if first_word(values, "true") {
            Ok(AccessControlAllowCredentials)
        } else {
            Err(Refused::Invalid(Error::invalid()))
        }
    }

    fn encode(&self, _alloc: Global, values: &mut Vec<HeaderValue>) -> Result<(), AllocError> {
        values.push(HeaderValue::from_static("true"))?;
        Ok(())
    }
}
