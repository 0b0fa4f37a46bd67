//! The header `upgrade`.
ghost use Rattle.std.specs.Prelude.{◌≡◌, codes, IfOk};
ghost use Rattle.http_header.specs.FieldValue.{FieldValue, field_value_code, plain_value};

use headers_core::{FormHeader, first};
use http_header::{HeaderName, HeaderValue, UPGRADE};
use std::alloc::{AllocError, Global};
use std::marker::Model;

/// The header `Upgrade`: the protocols to which the sender wants to change (RFC 9110, section 7.8).
/// The first field line is stored, whatever it is. `decode` rejects only a field without a line,
/// and may run out of memory. Headers are compared by their bytes.
#[derive(Debug, Drop, PartialEq)]
pub struct Upgrade {
    value: HeaderValue,
}

impl Model for Upgrade {
    ghost Value = { FieldValue };

    ghost coded = { field_value_code };

    ghost view = { λ header. header.value };

    ghost inverse = { λ value. record { value = value } };
}

impl Upgrade {
    /// Makes the header `websocket`.
    pub fn websocket() -> Upgrade
        ensures { result ≡ plain_value (codes "websocket") }
    {
        Upgrade::from_form(HeaderValue::from_static("websocket"))
    }

    /// Copies the header. The copy is sensitive exactly if the original is. Fails only if an
    /// allocation fails.
    pub fn clone(&self, _alloc: Global) -> Result<Upgrade, AllocError>
        ensures { IfOk result (λ copy. copy ≡ self.now) }
    {
        Ok(Upgrade::from_form(self.value.clone()?))
    }
}

impl FormHeader for Upgrade {
    type Form = HeaderValue;

    ghost NAME = { codes "upgrade" };

    const NAME: HeaderName = UPGRADE;

    ghost form = { λ header. header };

    fn from_form(value: HeaderValue) -> Upgrade {
        Upgrade { value }
    }

    fn as_form(&self) -> &HeaderValue {
        &self.value
    }
}
