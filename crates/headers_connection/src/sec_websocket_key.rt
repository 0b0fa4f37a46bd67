//! The header `sec-websocket-key`.
ghost use Rattle.std.specs.Prelude.{◌≡◌, true, IfOk, codes};
ghost use Rattle.http_header.specs.FieldValue.{FieldValue, field_value_code};
ghost use Rattle.headers_authorization.specs.Base64.{base64};

use headers_authorization::base64_value;
use headers_core::{FormHeader, Header};
use http_header::{HeaderName, HeaderValue, SEC_WEBSOCKET_KEY};
use std::alloc::{AllocError, Global};
use std::marker::Model;

/// The header `Sec-WebSocket-Key`: the nonce of a client's handshake (RFC 6455, section 11.3.1).
/// The first field line is stored, whatever it is. `decode` rejects only a field without a line,
/// and may run out of memory. Headers are compared and hashed by their bytes.
#[derive(Debug, Drop, PartialEq, Eq, Hash)]
pub struct SecWebsocketKey {
    value: HeaderValue,
}

impl Model for SecWebsocketKey {
    ghost Value = { FieldValue };

    ghost coded = { field_value_code };

    ghost view = { λ header. header.value };

    ghost inverse = { λ value. record { value = value } };
}

impl SecWebsocketKey {
    /// Makes a key of the base64 of sixteen bytes, and marks it sensitive. Fails only if an
    /// allocation fails.
    pub fn from_bytes16(alloc: Global, bytes: [u8; 16]) -> Result<SecWebsocketKey, AllocError>
        ensures { IfOk result (λ key. key ≡ record { bytes = base64 bytes; is_sensitive = true }) }
    {
        let mut value = base64_value(alloc, "", &bytes)?;
        value.set_sensitive(true);
        Ok(SecWebsocketKey::from_form(value))
    }

    /// Copies the header. The copy is sensitive exactly if the original is. Fails only if an
    /// allocation fails.
    pub fn clone(&self, _alloc: Global) -> Result<SecWebsocketKey, AllocError>
        ensures { IfOk result (λ copy. copy ≡ self.now) }
    {
        Ok(SecWebsocketKey::from_form(self.value.clone()?))
    }
}

impl FormHeader for SecWebsocketKey {
    type Form = HeaderValue;

    ghost NAME = { codes "sec-websocket-key" };

    const NAME: HeaderName = SEC_WEBSOCKET_KEY;

    ghost form = { λ header. header };

    fn from_form(value: HeaderValue) -> SecWebsocketKey {
        SecWebsocketKey { value }
    }

    fn as_form(&self) -> &HeaderValue {
        &self.value
    }
}
