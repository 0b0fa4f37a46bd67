//! The settings of a gateway, and the client of a connection.
ghost use Rattle.std.specs.Prelude.{◌≡◌, option_map};
ghost use Rattle.gateway_hops.{specs.Arrivals.arrival_parts, specs.Connections.connection_parts};
ghost use Rattle.gateway_exchange.specs.Decisions.{offering, peer_arrival};

use gateway_hops::{Arrival, Forwarding, NextConnection, Node, Scheme};
use gateway_messages::Gateway;
use headers::HeaderValue;

/// The settings of a gateway in front of origin servers.
#[derive(Debug, Drop)]
pub struct GatewayRules {
    /// The gateway's name in Via, and which fields it consumes and protects.
    pub gateway: Gateway,
    /// The authority that a request of HTTP/1.0 without Host is for.
    pub authority: HeaderValue,
    /// What it tells the origin server about who sent the request.
    pub forwarding: Forwarding,
    /// Whether the gateway sends the 100 (Continue) that a client waits for itself. Otherwise Expect is
    /// forwarded (RFC 9110, section 10.1.1).
    pub answers_expect: bool,
    /// Whether an opening handshake of a WebSocket goes on as one (RFC 6455, section 4).
    pub passes_websocket: bool,
    /// Whether CONNECT is told to the caller. Otherwise it is answered by 501.
    pub passes_connect: bool,
}

/// The client of a connection.
#[derive(Debug, Drop)]
pub struct Peer {
    /// The client, as the origin server is told of it.
    pub node: Node,
    /// The scheme by which its requests arrive.
    pub scheme: Scheme,
    /// Whether the gateway trusts what it says about earlier nodes.
    pub is_trusted: bool,
}

impl Peer {
    // How a request of the client arrives.
    pub(crate) fn arrival(&self) -> Arrival<'_>
        ensures { arrival_parts result ≡ peer_arrival self.now }
    {
        Arrival {
            client: &self.node,
            interface: None,
            host: None,
            scheme: self.scheme,
            is_trusted: self.is_trusted,
        }
    }
}

// What the gateway says about its connection to an origin server: that stays open, and offers this protocol.
pub(crate) fn next_connection(upgrade: Option<&HeaderValue>) -> NextConnection<'_>
    ensures { connection_parts result ≡ offering (option_map (λ value. value.now.bytes) upgrade.entry) }
{
    NextConnection {
        closes: false,
        accepts_trailers: false,
        upgrade,
    }
}
