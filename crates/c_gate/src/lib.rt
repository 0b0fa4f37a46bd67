//! A gateway's connection for C: a client's connection and at most one origin's, behind handles.
//!
//! Nothing here opens a socket. The host, a program in C, gives what it received, and writes what it is offered.
//! `include/typed_headers.h` documents the calls.
#![tactic(auto)]

mod answering;
mod calling;
mod connecting;
mod forwarding;
mod moving;
mod opening;
pub mod pool;
mod reading;
mod routing;

pub use crate::answering::{add, answer, end, pass, push, respond};
pub use crate::connecting::{connect_to, connected};
pub use crate::forwarding::{again, closes_after, forward, set_conditions, take_origin};
pub use crate::moving::{
    GateFacts, ask_for, finish, next, open_tunnel, receive, sent, set_clock, timed_out,
};
pub use crate::opening::{GatePeer, GateRules, open_gate, open_origin, open_rules};
pub use crate::reading::{
    GateText, fields_of, key_of, own_of, response_of, write_output, write_text,
};
pub use crate::routing::is_for;
