//! What a gateway sends with a request on its next connection: the fields that it forwards, and those
//! that it writes for the next server (RFC 9110, sections 7.6.1, 7.8, 10.1.1 and 10.1.4).
//!
//! Among these it tells who sent the request, to which host and by which scheme: Forwarded (RFC 7239),
//! X-Forwarded-For, X-Forwarded-Host and X-Forwarded-Proto, as data.
#![tactic(auto)]

mod arrival;
mod connection;
mod element;
mod fields;
pub mod laws;
mod node;
mod obfuscated;
mod replace;
mod request;

pub use crate::arrival::{Arrival, Scheme};
pub use crate::connection::NextConnection;
pub use crate::fields::{Forwarding, Received, forwarding_fields};
pub use crate::node::{Node, NodeName, NodePort};
pub use crate::obfuscated::{InvalidObfuscated, Obfuscated};
pub use crate::replace::replace_fields;
pub use crate::request::{HopOutcome, SentRequest, send_request};
