//! The header `sec-websocket-version`.

use headers_core::{AsHeaderValue, Error, Header, Refused, first_word};
use http_header::{HeaderName, HeaderValue, SEC_WEBSOCKET_VERSION};
use std::alloc::{AllocError, Global};

/// The header `Sec-WebSocket-Version`: the version of the WebSocket protocol (RFC 6455, section
/// 11.3.5). The first field line is `13`. `decode` rejects any other value, and never allocates.
#[derive(Clone, Copy, Debug, PartialEq, Eq, Hash)]
pub struct SecWebsocketVersion {
    _priv: (),
}

impl SecWebsocketVersion {
    /// Version 13, which is that of RFC 6455.
    pub const V13: SecWebsocketVersion = SecWebsocketVersion { _priv: () };
}

impl Header for SecWebsocketVersion {
    ghost use Rattle.std.specs.Prelude.{true, codes};
    ghost use Rattle.headers_syntax.specs.HeaderLaws.{SameBy, ReadsBy, written_by};
    ghost use Rattle.headers_syntax.proofs.ShapeLemmas.{first_word_laws};
    ghost use Rattle.headers_connection.specs.SecWebsocketVersion.{sec_websocket_version_grammar};

    ghost field_name = { codes "sec-websocket-version" };

    ghost free = { true };

    ghost same = { SameBy sec_websocket_version_grammar };

    ghost reads = { ReadsBy sec_websocket_version_grammar };

    ghost writes = { written_by sec_websocket_version_grammar };

    ghost laws = { first_word_laws (codes "13") sec_websocket_version_grammar.kept };

    fn name() -> HeaderName {
        SEC_WEBSOCKET_VERSION
    }

    fn decode<I: Iterator>(
        _alloc: Global,
        values: &mut I,
    ) -> Result<SecWebsocketVersion, Refused<Error>>
    where
        I::Item: AsHeaderValue,
    {
        if first_word(values, "13") {
            Ok(SecWebsocketVersion::V13)
        } else {
            Err(Refused::Invalid(Error::invalid()))
        }
    }

    fn encode(&self, _alloc: Global, values: &mut Vec<HeaderValue>) -> Result<(), AllocError> {
        values.push(HeaderValue::from_static("13"))?;
        Ok(())
    }
}
