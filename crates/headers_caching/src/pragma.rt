//! The header `pragma`.
ghost use Rattle.std.specs.Prelude.{◌≡◌, ◌↔◌, codes, IsTrue, IfOk};
ghost use Rattle.http_header.specs.FieldValue.{plain_value, FieldValue, field_value_code};

use headers_core::{FormHeader, first};
use http_header::{HeaderName, HeaderValue, PRAGMA};
use std::alloc::{AllocError, Global};
use std::marker::Model;

/// The header `Pragma`: a directive to the caches of HTTP/1.0 (RFC 9111, section 5.4). The first
/// field line is stored, whatever it is. `decode` rejects only a field without a line, and may run
/// out of memory. Headers are compared by their bytes.
#[derive(Debug, Drop, PartialEq)]
pub struct Pragma {
    value: HeaderValue,
}

impl Model for Pragma {
    ghost Value = { FieldValue };

    ghost coded = { field_value_code };

    ghost view = { λ header. header.value };

    ghost inverse = { λ value. record { value = value } };
}

impl Pragma {
    /// Makes the header with the directive `no-cache`.
    pub fn no_cache() -> Pragma
        ensures { result ≡ plain_value (codes "no-cache") }
    {
        Pragma::from_form(HeaderValue::from_static("no-cache"))
    }

    /// Returns whether the whole field line is `no-cache`, byte for byte.
    pub fn is_no_cache(&self) -> bool
        ensures { IsTrue result ↔ (self.now.bytes ≡ codes "no-cache") }
    {
        self.value.as_bytes() == b"no-cache".as_slice()
    }

    /// Copies the header. The copy is sensitive exactly if the original is. Fails only if an
    /// allocation fails.
    pub fn clone(&self, _alloc: Global) -> Result<Pragma, AllocError>
        ensures { IfOk result (λ copy. copy ≡ self.now) }
    {
        Ok(Pragma::from_form(self.value.clone()?))
    }
}

impl FormHeader for Pragma {
    type Form = HeaderValue;

    ghost NAME = { codes "pragma" };

    const NAME: HeaderName = PRAGMA;

    ghost form = { λ header. header };

    fn from_form(value: HeaderValue) -> Pragma {
        Pragma { value }
    }

    fn as_form(&self) -> &HeaderValue {
        &self.value
    }
}
