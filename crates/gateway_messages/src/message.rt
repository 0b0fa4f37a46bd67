//! What requests and responses have in common.
ghost use Rattle.std.specs.Prelude.{IfErr, IfOk, OnOk};
ghost use Rattle.headers.specs.LineMap.{lines_at};
ghost use Rattle.gateway_messages.specs.{FieldLines.{fields_of, lines_under}, Forwarding.Forwards};
ghost use Rattle.gateway_messages.specs.{HopByHop.{HasFairOptions, RejectsOptions}, Messages.message_of};

use crate::field_line::FieldLine;
use crate::gateway::Gateway;
use crate::hop_by_hop::names_protected;
use crate::own::{Own, push_own};
use crate::received::{Section, received_fields};
use crate::rejection::Rejection;
use headers::HeaderMap;
use http_header::CONNECTION;
use rfc_fields::are_tokens;
use std::alloc::{AllocError, Global};

/// Rejects a message whose connection options are malformed or name a protected field.
pub(crate) fn check_options(gateway: &Gateway, message: &HeaderMap) -> Result<(), Rejection>
    ensures ok { OnOk result (HasFairOptions gateway.now (lines_at message.now)) }
    ensures err { IfErr result (RejectsOptions gateway.now (lines_at message.now)) }
{
    let connection = message.get_all(CONNECTION);
    if !are_tokens(&connection) {
        return Err(Rejection::InvalidOption);
    }
    if names_protected(&connection, gateway.protected.as_slice()) {
        return Err(Rejection::ProtectedOption);
    }
    Ok(())
}

/// The field lines that are forwarded of a message with fair options.
pub(crate) fn forwarded_fields(
    alloc: Global,
    gateway: &Gateway,
    own: &Own<'_>,
    message: &HeaderMap,
) -> Result<Vec<FieldLine>, AllocError>
    requires { HasFairOptions gateway.now (lines_at message.now) }
    ensures { IfOk result (λ fields. Forwards gateway.now (message_of own.now) (lines_at message.now)
        (lines_under (fields_of fields.items))) }
{
    let _names = message.keys_len();
    let connection = message.get_all(CONNECTION);
    let mut fields = received_fields(alloc, gateway, Section::Header(own), &connection, message)?;
    push_own(alloc, &gateway.pseudonym, own, &mut fields)?;
    Ok(fields)
}
