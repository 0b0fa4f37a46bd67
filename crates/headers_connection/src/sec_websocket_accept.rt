//! The header `sec-websocket-accept`.
ghost use Rattle.std.specs.Prelude.{◌≡◌, ◌++◌, IfOk, codes};
ghost use Rattle.http_header.specs.FieldValue.{plain_value, FieldValue, field_value_code};
ghost use Rattle.sha1.specs.Sha1.{sha1};
ghost use Rattle.headers_authorization.specs.Base64.{base64};

use crate::sec_websocket_key::SecWebsocketKey;
use headers_authorization::base64_value;
use headers_core::{FormHeader, Header};
use http_header::{HeaderName, HeaderValue, SEC_WEBSOCKET_ACCEPT};
use sha1::Sha1;
use std::alloc::{AllocError, Global};
use std::marker::Model;

/// The header `Sec-WebSocket-Accept`: the proof that a server accepts a client's handshake (RFC
/// 6455, section 11.3.3). The first field line is stored, whatever it is. `decode` rejects only a
/// field without a line, and may run out of memory. Headers are compared and hashed by their bytes.
#[derive(Debug, Drop, PartialEq, Eq, Hash)]
pub struct SecWebsocketAccept {
    value: HeaderValue,
}

impl Model for SecWebsocketAccept {
    ghost Value = { FieldValue };

    ghost coded = { field_value_code };

    ghost view = { λ header. header.value };

    ghost inverse = { λ value. record { value = value } };
}

impl SecWebsocketAccept {
    /// Makes a server's answer to a key (RFC 6455, section 4.2.2). Fails only if an allocation
    /// fails. It is the base64 of the SHA-1 digest of the key's bytes, followed by the protocol's
    /// GUID.
    pub fn from_key(alloc: Global, key: &SecWebsocketKey) -> Result<SecWebsocketAccept, AllocError>
        ensures { IfOk result (λ accept. accept ≡ plain_value
            (base64 (sha1 (key.now.bytes ++ codes "258EAFA5-E914-47DA-95CA-C5AB0DC85B11")))) }
    {
        let mut hasher = Sha1::new();
        hasher.update(key.as_form().as_bytes());
        hasher.update(b"258EAFA5-E914-47DA-95CA-C5AB0DC85B11");
        Ok(SecWebsocketAccept::from_form(base64_value(alloc, "", &hasher.finalize())?))
    }

    /// Copies the header. The copy is sensitive exactly if the original is. Fails only if an
    /// allocation fails.
    pub fn clone(&self, _alloc: Global) -> Result<SecWebsocketAccept, AllocError>
        ensures { IfOk result (λ copy. copy ≡ self.now) }
    {
        Ok(SecWebsocketAccept::from_form(self.value.clone()?))
    }
}

impl FormHeader for SecWebsocketAccept {
    type Form = HeaderValue;

    ghost NAME = { codes "sec-websocket-accept" };

    const NAME: HeaderName = SEC_WEBSOCKET_ACCEPT;

    ghost form = { λ header. header };

    fn from_form(value: HeaderValue) -> SecWebsocketAccept {
        SecWebsocketAccept { value }
    }

    fn as_form(&self) -> &HeaderValue {
        &self.value
    }
}
