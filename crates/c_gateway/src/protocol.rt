//! Versions of HTTP.
ghost use Rattle.c_gateway.specs.Protocols.{IsProtocolOf};

use c_parts::Failure;
use gateway_messages::Protocol;

/// The version of a number: 10 or 11.
pub(crate) fn read_protocol(number: u8) -> Result<Protocol, Failure>
    ensures { IsProtocolOf number result }
{
    match number {
        10 => Ok(Protocol::Http10),
        11 => Ok(Protocol::Http11),
        _ => Err(Failure::Refused),
    }
}
