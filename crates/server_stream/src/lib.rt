//! One connection of an HTTP/1.1 server, in pieces, as a value without input and output (RFC 9112).
#![tactic(auto)]

mod connection;
mod event;
mod rejection;

pub use crate::connection::StreamConnection;
pub use crate::event::{StreamEvent, StreamRequest};
pub use crate::rejection::StreamRejection;
