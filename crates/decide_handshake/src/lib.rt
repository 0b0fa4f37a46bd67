//! The opening handshake of a WebSocket, both sides: a server's answer to a request, and a client's
//! check of the response (RFC 6455, sections 4.1 and 4.2).
#![tactic(auto)]

mod client;
mod extensions;
mod fields;
pub mod laws;
mod origins;
mod protocols;
mod server;

pub use crate::client::{Checked, Flaw, check, request};
pub use crate::origins::Origins;
pub use crate::server::{Fault, HandshakeAnswer, accept};
