//! The received fields that are forwarded as they came.
ghost use Rattle.std.specs.{Prelude.{◌≡◌, IfOk, bytes_eq, filter, map, true}, List.list_any};
ghost use Rattle.{http_header.specs.HeaderMap.pairs, headers.specs.Lines.lines_of};
ghost use Rattle.{rfc_fields.specs.Members.field_members, gateway_messages.specs.FieldLines.{field_of, fields_of}};
ghost use Rattle.gateway_messages.specs.{Forwarding.{framing_names, is_rewritten}, Messages.{goes_on_in, message_of}};

use crate::field_line::FieldLine;
use crate::gateway::Gateway;
use crate::hop_by_hop::is_hop_by_hop;
use crate::own::Own;
use crate::spelling::is_misspelt;
use crate::trailers::may_trail;
use headers::{HeaderMap, HeaderValue};
use http_header::GetAll;
use std::alloc::{AllocError, Global};

/// A section of a message.
#[derive(Clone, Copy)]
pub(crate) enum Section<'a> {
    /// The header section, in which the gateway writes fields of its own.
    Header(&'a Own<'a>),
    /// The trailer section.
    Trailer,
}

// Whether the field is one of the two that frame a message.
fn is_framing(name: &str) -> bool
    ensures { result ≡ list_any (bytes_eq name.now) framing_names }
{
    name == "content-length" || name == "transfer-encoding"
}

// Whether the gateway writes the field itself, in place of what it received.
fn is_rewritten(own: &Own<'_>, name: &str) -> bool
    ensures { result ≡ is_rewritten (message_of own.now) name.now }
{
    is_framing(name)
        || (own.host.is_some() && name == "host")
        || (own.date.is_some() && name == "date")
        || (own.hops.is_some() && name == "max-forwards")
}

// Whether the received field lines of a name are forwarded.
#[tactic(auto, unfolding(crate::specs::Forwarding::goes_on, crate::specs::Trailers::trailer_goes_on))]
fn goes_on(
    gateway: &Gateway,
    section: Section<'_>,
    connection: &GetAll<'_, HeaderValue>,
    name: &str,
) -> bool
    ensures { result ≡ goes_on_in gateway.now section.entry
        (field_members true (lines_of connection.now)) name.now }
{
    if is_hop_by_hop(gateway.consumes_credentials, connection, name) {
        return false;
    }
    match section {
        Section::Header(own) => !is_misspelt(gateway, name) && !is_rewritten(own, name),
        Section::Trailer => may_trail(gateway, name),
    }
}

/// The received fields of a section that are forwarded as they came.
pub(crate) fn received_fields(
    alloc: Global,
    gateway: &Gateway,
    section: Section<'_>,
    connection: &GetAll<'_, HeaderValue>,
    received: &HeaderMap,
) -> Result<Vec<FieldLine>, AllocError>
    ensures { IfOk result (λ fields. fields_of fields.items
        ≡ filter (λ field. goes_on_in gateway.now section.entry
        (field_members true (lines_of connection.now)) field.0)
        (map field_of (pairs received.now))) }
{
    let mut fields = Vec::new(alloc);
    for (name, value) in received.iter() {
        if goes_on(gateway, section, connection, name.as_str()) {
            let field = FieldLine {
                name: name.clone()?,
                value: value.clone()?,
            };
            fields.push(field)?;
        }
    }
    Ok(fields)
}
