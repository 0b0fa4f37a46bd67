//! How the handles are opened.
ghost use Rattle.std.specs.Prelude.{◌≡◌};
ghost use Rattle.c_handles.specs.Handles.{Opens};
ghost use Rattle.c_gate.specs.Openings.{IsGateHeld, IsOriginHeld, IsRulesHeld, IsValueOf, limits_of};

use c_gateway::{GatewayOptions, read_gateway, read_node, scheme_of};
use c_handles::{Handle, Held, HeldGate};
use c_parts::{Failure, HashKeys};
use gateway_connection::OriginConnection;
use gateway_exchange::{GatewayConnection, GatewayRules, Peer};
use gateway_hops::{Forwarding, Received};
use headers::HeaderValue;
use http_header::HeaderValueError;
use http1::Limits;
use std::alloc::Global;
use std::hash::RandomState;

/// What a gateway does, beside what it is to messages.
#[repr(C)]
#[derive(Clone, Copy)]
pub struct GateRules<'a> {
    /// The host that a request of HTTP/1.0 without one is for.
    pub authority: &'a [u8],
    /// Whether Forwarded is written (RFC 7239).
    pub writes_forwarded: bool,
    /// Whether X-Forwarded-For, X-Forwarded-Host and X-Forwarded-Proto are written.
    pub writes_x_forwarded: bool,
    /// Whether the gateway sends 100 (Continue) itself.
    pub answers_expect: bool,
    /// Whether an opening handshake of a WebSocket goes on as one.
    pub passes_websocket: bool,
    /// Whether a CONNECT waits for the caller. Otherwise it is answered by 501.
    pub passes_connect: bool,
}

/// The client of a connection.
#[repr(C)]
#[derive(Clone, Copy)]
pub struct GatePeer<'a> {
    /// Its node, as `HopOptions::client`.
    pub node: &'a [u8],
    /// Its port, or 0 if that isn't told.
    pub port: u16,
    /// Whether it came over TLS.
    pub is_secure: bool,
    /// Whether it is trusted to tell who sent it a request.
    pub is_trusted: bool,
}

fn value_of(alloc: Global, text: &[u8]) -> Result<HeaderValue, Failure>
    ensures { IsValueOf text.now result }
{
    match HeaderValue::from_bytes(alloc, text) {
        Ok(value) => Ok(value),
        Err(HeaderValueError::OutOfMemory) => Err(Failure::Memory),
        Err(_) => Err(Failure::Refused),
    }
}

fn rules_of(
    alloc: Global,
    gateway: &GatewayOptions<'_>,
    rules: &GateRules<'_>,
) -> Result<Held, Failure>
    ensures { IsRulesHeld gateway.entry.now rules.entry.now result }
{
    let gateway = read_gateway(alloc, gateway)?;
    let authority = value_of(alloc, rules.authority)?;
    Ok(Held::GateRules(GatewayRules {
        gateway,
        authority,
        forwarding: Forwarding {
            received: Received::KeptFromTrusted,
            writes_forwarded: rules.writes_forwarded,
            writes_x_forwarded: rules.writes_x_forwarded,
        },
        answers_expect: rules.answers_expect,
        passes_websocket: rules.passes_websocket,
        passes_connect: rules.passes_connect,
    }))
}

/// Opens a closed handle with the rules of a gateway. Rejected if the handle is open, the gateway's name is no token, a
/// protected name is no field name, or the authority no field value.
pub fn open_rules(
    alloc: Global,
    handle: &mut Handle,
    gateway: &GatewayOptions<'_>,
    rules: &GateRules<'_>,
) -> Result<(), Failure>
    ensures { Opens (IsRulesHeld gateway.entry.now rules.entry.now) handle.old.held handle.new.held result }
{
    c_handles::open(alloc, handle, rules_of(alloc, gateway, rules))
}

fn limits_of(most_head: usize) -> Limits
    ensures { result ≡ limits_of most_head }
{
    let mut limits = Limits::default();
    limits.max_head_len = most_head;
    limits
}

fn gate_of(
    alloc: Global,
    peer: &GatePeer<'_>,
    most_head: usize,
    keys: &HashKeys,
) -> Result<Held, Failure>
    ensures { IsGateHeld peer.entry.now most_head result }
{
    // The keys are always given.
    let Ok(keys) = RandomState::new(keys) else {
        return Err(Failure::Memory);
    };
    let scheme = scheme_of(peer.is_secure);
    let client = Peer {
        node: read_node(alloc, peer.node, peer.port)?,
        scheme,
        is_trusted: peer.is_trusted,
    };
    let connection = GatewayConnection::new(alloc, keys, limits_of(most_head), client);
    Ok(Held::Gate(HeldGate { connection, scheme }))
}

/// Opens a closed handle with a connection that has received nothing. Rejected if the handle is open, or the node is
/// none. Names of fields come from outside: so the keys should be random.
pub fn open_gate(
    alloc: Global,
    handle: &mut Handle,
    peer: &GatePeer<'_>,
    most_head: usize,
    keys: &HashKeys,
) -> Result<(), Failure>
    ensures { Opens (IsGateHeld peer.entry.now most_head) handle.old.held handle.new.held result }
{
    c_handles::open(alloc, handle, gate_of(alloc, peer, most_head, keys))
}

fn origin_of(alloc: Global, most_head: usize, keys: &HashKeys) -> Result<Held, Failure>
    ensures { IsOriginHeld most_head result }
{
    // The keys are always given.
    let Ok(keys) = RandomState::new(keys) else {
        return Err(Failure::Memory);
    };
    Ok(Held::GateOrigin(OriginConnection::new(alloc, keys, limits_of(most_head))))
}

/// Opens a closed handle with a new connection to an origin. Rejected if the handle is open.
pub fn open_origin(
    alloc: Global,
    handle: &mut Handle,
    most_head: usize,
    keys: &HashKeys,
) -> Result<(), Failure>
    ensures { Opens (IsOriginHeld most_head) handle.old.held handle.new.held result }
{
    c_handles::open(alloc, handle, origin_of(alloc, most_head, keys))
}
