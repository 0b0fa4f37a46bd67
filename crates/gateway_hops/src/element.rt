//! The element that a gateway adds to Forwarded.
ghost use Rattle.std.specs.Prelude.{◌≡◌, ◌++◌, IfOk, OnOk, codes, option_map};
ghost use Rattle.http_header.specs.FieldValue.{IsFieldValue, plain_value};
ghost use Rattle.rfc_fields.specs.Values.{value_text};
ghost use Rattle.gateway_hops.{specs.Arrivals.arrival_parts, specs.Elements.{element_text, escaped}};
ghost use Rattle.gateway_hops.specs.Elements.{optional_pair, pair_text, quoted_text, value_of};
ghost use Rattle.gateway_hops.specs.Nodes.{node_text};

use crate::arrival::Arrival;
use crate::node::Node;
use headers::HeaderValue;
use http_header::HeaderValueError;
use rfc_fields::is_token;
use std::alloc::{AllocError, Global};

// Appends an octet of a quoted-string.
fn push_escaped(text: &mut Vec<u8>, octet: u8) -> Result<(), AllocError>
    ensures { OnOk result (text.new.items ≡ text.old.items ++ escaped octet) }
{
    if octet == b'"' || octet == b'\\' {
        text.push(b'\\')?;
    }
    text.push(octet)?;
    Ok(())
}

// Appends octets as a quoted-string.
fn push_quoted(text: &mut Vec<u8>, octets: &[u8]) -> Result<(), AllocError>
    ensures { OnOk result (text.new.items ≡ text.old.items ++ quoted_text octets.now) }
{
    text.push(b'"')?;
    for octet in octets {
        push_escaped(text, *octet)?;
    }
    text.push(b'"')?;
    Ok(())
}

// Appends octets as a value: a token, if they are one, else a quoted-string.
fn push_value(text: &mut Vec<u8>, octets: &[u8]) -> Result<(), AllocError>
    ensures { OnOk result (text.new.items ≡ text.old.items ++ value_text (value_of octets.now)) }
{
    if is_token(octets) {
        text.extend_from_slice(octets)
    } else {
        push_quoted(text, octets)
    }
}

// Appends a pair.
fn push_pair(text: &mut Vec<u8>, name: &[u8], octets: &[u8]) -> Result<(), AllocError>
    ensures { OnOk result (text.new.items ≡ text.old.items ++ pair_text name.now octets.now) }
{
    text.extend_from_slice(name)?;
    text.push(b'=')?;
    push_value(text, octets)
}

// Appends the node at which the gateway received the request, if that is told.
fn push_interface(
    alloc: Global,
    interface: Option<&Node>,
    text: &mut Vec<u8>,
) -> Result<(), AllocError>
    ensures added { OnOk result (text.new.items ≡ text.old.items
        ++ optional_pair (codes "by") (option_map node_text (option_map (λ node. node.now) interface.entry))) }
    ensures valid { OnOk result (IsFieldValue
        (optional_pair (codes "by") (option_map node_text (option_map (λ node. node.now) interface.entry)))) }
{
    match interface {
        Some(node) => {
            let octets = node.text(alloc)?;
            text.push(b';')?;
            push_pair(text, b"by", octets.as_slice())
        }
        None => Ok(()),
    }
}

// Appends the host, if it is told.
fn push_host(host: Option<&HeaderValue>, text: &mut Vec<u8>) -> Result<(), AllocError>
    ensures added { OnOk result (text.new.items ≡ text.old.items
        ++ optional_pair (codes "host") (option_map (λ value. value.now.bytes) host.entry)) }
    ensures valid { OnOk result (IsFieldValue
        (optional_pair (codes "host") (option_map (λ value. value.now.bytes) host.entry))) }
{
    match host {
        Some(host) => {
            text.push(b';')?;
            push_pair(text, b"host", host.as_bytes())
        }
        None => Ok(()),
    }
}

// The element that tells how a request arrived, as text.
fn element_text(alloc: Global, arrival: &Arrival<'_>) -> Result<Vec<u8>, AllocError>
    ensures value { IfOk result (λ text. text.items ≡ element_text (arrival_parts arrival.now)) }
    ensures valid { OnOk result (IsFieldValue (element_text (arrival_parts arrival.now))) }
{
    let mut text = Vec::new(alloc);
    let client = arrival.client.text(alloc)?;
    push_pair(&mut text, b"for", client.as_slice())?;
    push_interface(alloc, arrival.interface, &mut text)?;
    push_host(arrival.host, &mut text)?;
    text.push(b';')?;
    push_pair(&mut text, b"proto", arrival.scheme.as_str().as_bytes())?;
    Ok(text)
}

/// Makes the element of Forwarded that says how a request arrived.
pub(crate) fn element(alloc: Global, arrival: &Arrival<'_>) -> Result<HeaderValue, AllocError>
    ensures { IfOk result (λ line. line ≡ plain_value (element_text (arrival_parts arrival.now))) }
{
    match HeaderValue::from_vec(element_text(alloc, arrival)?) {
        Ok(line) => Ok(line),
        Err(HeaderValueError::Invalid) => unreachable!(),
        Err(HeaderValueError::OutOfMemory) => Err(AllocError),
    }
}
