//! A gateway.
ghost use Rattle.std.specs.Prelude.{◌≡◌, [], false};

use crate::via::Pseudonym;
use headers::HeaderName;
use std::alloc::Global;

/// The settings of a gateway: its name in Via, and which fields it consumes, protects and drops.
#[derive(Debug, Drop)]
pub struct Gateway {
    /// Its name in Via.
    pub pseudonym: Pseudonym,
    /// Whether clients authenticate to this gateway as their proxy. It then consumes the credentials
    /// for a proxy, and challenges from another proxy go no further (RFC 9110, section 11.7).
    pub consumes_credentials: bool,
    /// Fields that no connection option may name, beside those that are always protected: the fields
    /// that the servers behind the gateway rely on (RFC 9110, section 7.6.1).
    pub protected: Vec<HeaderName>,
    /// Whether fields whose name has an underscore are forwarded. Servers that pass fields on as
    /// variables take it for a dash, so none is by default. One that has a protected name but for
    /// such marks never is.
    pub passes_underscores: bool,
}

impl Gateway {
    /// Makes the settings of a gateway with this name, to which clients don't authenticate, and
    /// which protects no further fields and forwards no name with an underscore.
    pub fn new(alloc: Global, pseudonym: Pseudonym) -> Gateway
        ensures pseudonym { result.pseudonym ≡ pseudonym }
        ensures consumes_credentials { result.consumes_credentials ≡ false }
        ensures protected { result.protected.items ≡ [] }
        ensures passes_underscores { result.passes_underscores ≡ false }
    {
        Gateway {
            pseudonym,
            consumes_credentials: false,
            protected: Vec::new(alloc),
            passes_underscores: false,
        }
    }
}
