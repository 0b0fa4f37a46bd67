//! Nodes: clients and gateways.
ghost use Rattle.std.specs.Prelude.{◌≡◌};
ghost use Rattle.c_gateway.specs.Nodes.{IsHiddenOf, IsNodeNameOf, IsNodeOf, IsOptionalNodeOf, port_of};

use c_parts::Failure;
use gateway_hops::{Node, NodeName, NodePort, Obfuscated};
use headers::Refused;
use std::alloc::Global;
use std::net::IpAddr;

// An identifier that hides a node.
fn read_hidden(alloc: Global, text: &[u8]) -> Result<Obfuscated, Failure>
    ensures { IsHiddenOf text.now result }
{
    let Ok(text) = str::from_utf8(text) else {
        return Err(Failure::Refused);
    };
    match Obfuscated::new(alloc, text) {
        Ok(hidden) => Ok(hidden),
        Err(Refused::Invalid(_)) => Err(Failure::Refused),
        Err(Refused::Memory(_)) => Err(Failure::Memory),
    }
}

// What identifies a node: an address, an identifier that hides it, or nothing.
fn read_node_name(alloc: Global, text: &[u8]) -> Result<NodeName, Failure>
    ensures { IsNodeNameOf text.now result }
{
    if text.is_empty() {
        return Ok(NodeName::Unknown);
    }
    match IpAddr::parse_ascii(text) {
        Ok(address) => Ok(NodeName::Address(address)),
        Err(_) => Ok(NodeName::Hidden(read_hidden(alloc, text)?)),
    }
}

fn port_of(number: u16) -> Option<NodePort>
    ensures { result ≡ port_of number }
{
    if number == 0 {
        None
    } else {
        Some(NodePort::Number(number))
    }
}

/// The node of a text and a port.
pub fn read_node(alloc: Global, text: &[u8], port: u16) -> Result<Node, Failure>
    ensures { IsNodeOf text.now port result }
{
    let name = read_node_name(alloc, text)?;
    Ok(Node {
        name,
        port: port_of(port),
    })
}

/// The node of a text and a port, or none if the text is empty.
pub(crate) fn read_optional_node(
    alloc: Global,
    text: &[u8],
    port: u16,
) -> Result<Option<Node>, Failure>
    ensures { IsOptionalNodeOf text.now port result }
{
    if text.is_empty() {
        return Ok(None);
    }
    Ok(Some(read_node(alloc, text, port)?))
}
