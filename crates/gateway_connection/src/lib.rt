//! The connections of a gateway, as values without input and output: bytes are received by any cuts,
//! and events and bytes to send come out (RFC 9112).
#![tactic(auto)]

mod event;
mod head;
pub mod laws;
mod origin;

pub use crate::event::{OriginEvent, OriginFault, OriginResponse};
pub use crate::head::{MAX_FIELDS, take_fields, take_piece};
pub use crate::origin::OriginConnection;
