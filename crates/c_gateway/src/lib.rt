//! What a gateway forwards, for C: requests on the next connection, responses, and how messages are
//! delimited, by what a caller hands in.
#![tactic(auto)]

mod content;
mod date;
mod framing;
mod gateway;
mod hop;
mod lines;
mod names;
mod node;
mod protocol;
mod reason;
mod request;
mod response;

pub use crate::content::ContentFacts;
pub use crate::date::read_date;
pub use crate::framing::{FramingFacts, MessageParts, frame_message};
pub use crate::gateway::{GatewayOptions, read_gateway};
pub use crate::hop::{HopOptions, scheme_of};
pub use crate::node::read_node;
pub use crate::request::{RequestFacts, RequestStep, pass_request};
pub use crate::response::{ForwardedFacts, ResponseStep, pass_response};
