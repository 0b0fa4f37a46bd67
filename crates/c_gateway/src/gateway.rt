//! A gateway, as C hands it in.
ghost use Rattle.c_gateway.specs.Gateways.{IsGatewayOf, IsPseudonymOf};

use crate::names::read_names;
use c_parts::Failure;
use gateway_messages::{Gateway, Pseudonym};
use headers::Refused;
use std::alloc::Global;

/// What a gateway is to the messages that pass it.
#[repr(C)]
#[derive(Clone, Copy)]
pub struct GatewayOptions<'a> {
    /// Its name in Via: a token.
    pub pseudonym: &'a [u8],
    /// The names of fields that no connection option may name, beside those that none ever may, one a
    /// line.
    pub protected: &'a [u8],
    /// Whether clients authenticate to it as their proxy.
    pub consumes_credentials: bool,
    /// Whether fields whose name has an underscore are forwarded.
    pub passes_underscores: bool,
}

fn read_pseudonym(alloc: Global, text: &[u8]) -> Result<Pseudonym, Failure>
    ensures { IsPseudonymOf text.now result }
{
    let Ok(text) = str::from_utf8(text) else {
        return Err(Failure::Refused);
    };
    match Pseudonym::new(alloc, text) {
        Ok(pseudonym) => Ok(pseudonym),
        Err(Refused::Invalid(_)) => Err(Failure::Refused),
        Err(Refused::Memory(_)) => Err(Failure::Memory),
    }
}

/// The gateway that is handed in.
pub fn read_gateway(alloc: Global, options: &GatewayOptions<'_>) -> Result<Gateway, Failure>
    ensures { IsGatewayOf options.entry.now result }
{
    let pseudonym = read_pseudonym(alloc, options.pseudonym)?;
    let protected = read_names(alloc, options.protected)?;
    Ok(Gateway {
        pseudonym,
        consumes_credentials: options.consumes_credentials,
        protected,
        passes_underscores: options.passes_underscores,
    })
}
