//! Nodes: clients and gateways.
ghost use Rattle.std.{specs.Prelude.{◌≡◌, ◌++◌, IfOk, OnOk, Some}, specs.Net.Addr.{ipv4_octets, ipv6_segments}};
ghost use Rattle.std.specs.Net.Text.{ipv4_text, ipv6_text};
ghost use Rattle.http_header.specs.FieldValue.{IsFieldValue};
ghost use Rattle.gateway_hops.specs.Nodes.{bare_text, bracketed_text, name_text, node_text, port_text};
ghost use Rattle.gateway_hops.specs.declared.node.NodePort.TheVariants.{Number};

use crate::obfuscated::Obfuscated;
use std::alloc::{AllocError, Global};
use std::net::{IpAddr, Ipv4Addr, Ipv6Addr};

/// The name of a node: an address, unknown, or an identifier that hides the address.
#[derive(Debug, Drop)]
pub enum NodeName {
    /// The address of the node.
    Address(IpAddr),
    /// The gateway doesn't know the node (RFC 7239, section 6.2).
    Unknown,
    /// An identifier that hides the address (RFC 7239, section 6.3).
    Hidden(Obfuscated),
}

/// The port of a node: a number, or an identifier that hides it.
#[derive(Debug, Drop)]
pub enum NodePort {
    /// The number of the port.
    Number(u16),
    /// An identifier that hides the port (RFC 7239, section 6.3).
    Hidden(Obfuscated),
}

/// A client or a gateway, as Forwarded names it (RFC 7239, section 6).
#[derive(Debug, Drop)]
pub struct Node {
    /// The name of the node.
    pub name: NodeName,
    /// The port of the node, if the next server may know it.
    pub port: Option<NodePort>,
}

fn push_ipv4(alloc: Global, ip: Ipv4Addr, text: &mut Vec<u8>) -> Result<(), AllocError>
    ensures added { OnOk result (text.new.items ≡ text.old.items ++ ipv4_text (ipv4_octets ip)) }
    ensures valid { OnOk result (IsFieldValue (ipv4_text (ipv4_octets ip))) }
{
    let _octets = ip.octets();
    text.extend_from_slice(format!(in alloc; "{ip}")?.as_bytes())
}

fn push_ipv6(alloc: Global, ip: Ipv6Addr, text: &mut Vec<u8>) -> Result<(), AllocError>
    ensures added { OnOk result (text.new.items ≡ text.old.items ++ ipv6_text (ipv6_segments ip)) }
    ensures valid { OnOk result (IsFieldValue (ipv6_text (ipv6_segments ip))) }
{
    let _segments = ip.segments();
    text.extend_from_slice(format!(in alloc; "{ip}")?.as_bytes())
}

// Appends the address in brackets.
fn push_bracketed(alloc: Global, ip: Ipv6Addr, text: &mut Vec<u8>) -> Result<(), AllocError>
    ensures added { OnOk result (text.new.items ≡ text.old.items ++ bracketed_text ip) }
    ensures valid { OnOk result (IsFieldValue (bracketed_text ip)) }
{
    text.extend_from_slice(b"[")?;
    push_ipv6(alloc, ip, text)?;
    text.extend_from_slice(b"]")
}

impl NodeName {
    // Appends the name.
    fn push(&self, alloc: Global, text: &mut Vec<u8>) -> Result<(), AllocError>
        ensures added { OnOk result (text.new.items ≡ text.old.items ++ name_text self.now) }
        ensures valid { OnOk result (IsFieldValue (name_text self.now)) }
    {
        match self {
            NodeName::Address(IpAddr::V4(ip)) => push_ipv4(alloc, *ip, text),
            NodeName::Address(IpAddr::V6(ip)) => push_bracketed(alloc, *ip, text),
            NodeName::Unknown => text.extend_from_slice(b"unknown"),
            NodeName::Hidden(name) => text.extend_from_slice(name.as_bytes()),
        }
    }

    /// Appends the name without brackets.
    pub(crate) fn push_bare(&self, alloc: Global, text: &mut Vec<u8>) -> Result<(), AllocError>
        ensures added { OnOk result (text.new.items ≡ text.old.items ++ bare_text self.now) }
        ensures valid { OnOk result (IsFieldValue (bare_text self.now)) }
    {
        match self {
            NodeName::Address(IpAddr::V4(ip)) => push_ipv4(alloc, *ip, text),
            NodeName::Address(IpAddr::V6(ip)) => push_ipv6(alloc, *ip, text),
            NodeName::Unknown => text.extend_from_slice(b"unknown"),
            NodeName::Hidden(name) => text.extend_from_slice(name.as_bytes()),
        }
    }
}

fn push_number(alloc: Global, port: u16, text: &mut Vec<u8>) -> Result<(), AllocError>
    ensures added { OnOk result (text.new.items ≡ text.old.items ++ port_text (Some (Number port))) }
    ensures valid { OnOk result (IsFieldValue (port_text (Some (Number port)))) }
{
    text.extend_from_slice(format!(in alloc; ":{port}")?.as_bytes())
}

// Appends the port, after a colon.
fn push_port(alloc: Global, port: &Option<NodePort>, text: &mut Vec<u8>) -> Result<(), AllocError>
    ensures added { OnOk result (text.new.items ≡ text.old.items ++ port_text port.now) }
    ensures valid { OnOk result (IsFieldValue (port_text port.now)) }
{
    match port {
        None => Ok(()),
        Some(NodePort::Number(port)) => push_number(alloc, *port, text),
        Some(NodePort::Hidden(port)) => {
            text.extend_from_slice(b":")?;
            text.extend_from_slice(port.as_bytes())
        }
    }
}

impl Node {
    /// Returns the node identifier as text.
    pub(crate) fn text(&self, alloc: Global) -> Result<Vec<u8>, AllocError>
        ensures value { IfOk result (λ text. text.items ≡ node_text self.now) }
        ensures valid { OnOk result (IsFieldValue (node_text self.now)) }
    {
        let mut text = Vec::new(alloc);
        self.name.push(alloc, &mut text)?;
        push_port(alloc, &self.port, &mut text)?;
        Ok(text)
    }
}
