//! A gateway's connection to a client, and at most one to an origin server, as one value without input
//! and output: bytes of either side are received by any cuts, and events and bytes for either side come
//! out (RFC 9110, section 7; RFC 9112).
#![tactic(auto)]

mod authority;
mod connection;
mod date;
mod decision;
mod event;
mod message;
mod own;
mod pass;
mod rules;
mod target;
mod tunnel;

pub use crate::connection::GatewayConnection;
pub use crate::decision::{AskedRequest, Outgoing};
pub use crate::event::{ExchangePhase, GatewayEvent, Wants};
pub use crate::own::Own;
pub use crate::rules::{GatewayRules, Peer};
pub use crate::tunnel::Tunnel;
