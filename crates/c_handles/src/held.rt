//! What an open handle has.

use c_files::HeldFiles;
use c_pass::{Shared, Stepped};
use decide_cors::CorsPolicy;
use decide_resource::Resource;
use gateway_connection::OriginConnection;
use gateway_exchange::{GatewayConnection, GatewayRules, Tunnel};
use gateway_hops::Scheme;
use gateway_pool::Pool;
use headers::HeaderMap;
use server_connection::{ResponsePlan, ServerConnection};

/// A connection, and the plan that is being made for the request that waits.
#[derive(Drop)]
pub struct HeldConnection {
    /// The connection.
    pub connection: ServerConnection,
    /// The plan.
    pub plan: ResponsePlan,
    /// Whether bytes were received since the last response.
    pub has_begun: bool,
    /// The status by which it rejected what it received, or 0.
    pub rejection: u16,
}

/// A gateway's connection, and the scheme by which its requests arrive.
#[derive(Drop)]
pub struct HeldGate {
    /// The connection.
    pub connection: GatewayConnection,
    /// The scheme.
    pub scheme: Scheme,
}

/// What an open handle has.
#[derive(Drop)]
pub enum Held {
    /// The fields of a section.
    Section(HeaderMap),
    /// A server's policy for requests from other origins.
    Policy(CorsPolicy),
    /// What a server knows of the target of a request.
    Resource(Resource),
    /// A cache.
    Cache(Shared),
    /// A pass through one.
    Pass(Stepped),
    /// A server's connection.
    Connection(HeldConnection),
    /// A service of files.
    Files(HeldFiles),
    /// A gateway's connection.
    Gate(HeldGate),
    /// What became of one that is no longer HTTP.
    Tunnel(Tunnel),
    /// What a gateway does with each request.
    GateRules(GatewayRules),
    /// A connection to an origin.
    GateOrigin(OriginConnection),
    /// The connections to origins.
    GatePool(Pool),
}
