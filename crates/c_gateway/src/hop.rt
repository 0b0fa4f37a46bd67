//! How a request arrived, and what is known of the next connection, as C hands it in.
ghost use Rattle.std.specs.Prelude.{◌≡◌, option_map};
ghost use Rattle.headers.specs.LineMap.{lines_at};
ghost use Rattle.gateway_hops.specs.Arrivals.{arrival_parts};
ghost use Rattle.gateway_hops.specs.Connections.{connection_parts};
ghost use Rattle.c_gateway.specs.Hops.{AreNodesOf, arrival_of, connection_of, forwarding_of, scheme_of, told_host};

use crate::node::{read_node, read_optional_node};
use c_parts::Failure;
use gateway_hops::{Arrival, Forwarding, NextConnection, Node, Received, Scheme};
use headers::{HeaderMap, HeaderValue};
use http_header::HOST;
use std::alloc::Global;

/// How a request arrived, and what is known of the next connection.
#[repr(C)]
#[derive(Clone, Copy)]
pub struct HopOptions<'a> {
    /// The node that sent it: an IP address without brackets, an identifier that hides it and begins
    /// with an underscore (RFC 7239, section 6.3), or empty if it isn't known.
    pub client: &'a [u8],
    /// The node at which it was received, likewise, or empty if that isn't told.
    pub interface: &'a [u8],
    /// The port of the client, or 0 if it isn't told.
    pub client_port: u16,
    /// The port at which it was received, or 0 if it isn't told.
    pub interface_port: u16,
    /// The version of HTTP that the next server is known to speak: 10 or 11.
    pub server_version: u8,
    /// Whether it came over TLS.
    pub is_secure: bool,
    /// Whether the client is trusted to tell who sent it the request.
    pub is_trusted: bool,
    /// Whether Forwarded is written (RFC 7239).
    pub writes_forwarded: bool,
    /// Whether X-Forwarded-For, X-Forwarded-Host and X-Forwarded-Proto are written.
    pub writes_x_forwarded: bool,
    /// Whether these tell the host to which the request came.
    pub tells_host: bool,
    /// Whether the next connection is closed after the request.
    pub closes: bool,
    /// Whether trailer fields of the response are accepted.
    pub accepts_trailers: bool,
}

/// The nodes of a hop.
#[derive(Drop)]
pub(crate) struct Nodes {
    pub(crate) client: Node,
    pub(crate) interface: Option<Node>,
}

/// The nodes that are handed in.
pub(crate) fn read_nodes(alloc: Global, options: &HopOptions<'_>) -> Result<Nodes, Failure>
    ensures { AreNodesOf options.entry.now result }
{
    let client = read_node(alloc, options.client, options.client_port)?;
    let interface = read_optional_node(alloc, options.interface, options.interface_port)?;
    Ok(Nodes { client, interface })
}

/// What is said about the next connection.
pub(crate) fn connection_of(options: &HopOptions<'_>) -> NextConnection<'static>
    ensures { connection_parts result ≡ connection_of options.entry.now }
{
    NextConnection {
        closes: options.closes,
        accepts_trailers: options.accepts_trailers,
        upgrade: None,
    }
}

/// What is told of who made the request.
pub(crate) fn forwarding_of(options: &HopOptions<'_>) -> Forwarding
    ensures { result ≡ forwarding_of options.entry.now }
{
    Forwarding {
        received: Received::KeptFromTrusted,
        writes_forwarded: options.writes_forwarded,
        writes_x_forwarded: options.writes_x_forwarded,
    }
}

/// The scheme of a connection, by whether it is secure.
pub fn scheme_of(is_secure: bool) -> Scheme
    ensures { result ≡ scheme_of is_secure }
{
    if is_secure {
        Scheme::Https
    } else {
        Scheme::Http
    }
}

// The host to which the request came, if it is told: that of a target in absolute-form, else of Host.
fn told_host<'a>(
    tells_host: bool,
    authority: Option<&'a HeaderValue>,
    fields: &'a HeaderMap,
) -> Option<&'a HeaderValue>
    ensures { option_map (λ value. value.now.bytes) result
        ≡ told_host tells_host (option_map (λ value. value.now.bytes) authority.entry) (lines_at fields.now) }
{
    if !tells_host {
        return None;
    }
    match authority {
        Some(authority) => Some(authority),
        None => fields.get_all(HOST).iter().next(),
    }
}

/// How the request arrived.
pub(crate) fn arrival_of<'a>(
    options: &HopOptions<'_>,
    nodes: &'a Nodes,
    authority: Option<&'a HeaderValue>,
    fields: &'a HeaderMap,
) -> Arrival<'a>
    ensures { arrival_parts result ≡ arrival_of options.entry.now nodes.now
        (option_map (λ value. value.now.bytes) authority.entry) (lines_at fields.now) }
{
    Arrival {
        client: &nodes.client,
        interface: nodes.interface.as_ref(),
        host: told_host(options.tells_host, authority, fields),
        scheme: scheme_of(options.is_secure),
        is_trusted: options.is_trusted,
    }
}
