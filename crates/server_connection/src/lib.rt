//! One connection of an HTTP/1.1 server.
//!
//! `ServerConnection` has no input and output of its own. Its host passes in what it received, and writes what it is
//! offered: literal bytes, and ranges of what the application has open. `serve_exchanges` is such a host, over a reader
//! and a writer that block. A handler answers each request with a plan, and its ranges are read in pieces of at most 64
//! KiB.
#![tactic(auto)]

mod application;
mod connection;
mod encode;
mod handler;
mod host;
mod machine;
mod piece;
mod plan;
mod refusal;
mod serve;

pub use crate::application::Application;
pub use crate::connection::{Event, ServerConnection};
pub use crate::handler::Handler;
pub use crate::piece::{OpenRange, Piece};
pub use crate::plan::ResponsePlan;
pub use crate::refusal::rejection_status;
pub use crate::serve::serve_exchanges;
