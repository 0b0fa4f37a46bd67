//! What a gateway forwards of a request and of a response, as data (RFC 9110, section 7.6; RFC 9112,
//! section 6).
//!
//! The decisions allocate nothing. Only the forwarded field lines do.
#![tactic(auto)]

mod expectation;
mod field_line;
mod framing;
mod gateway;
mod hop_by_hop;
mod hops;
mod host;
pub mod laws;
mod message;
mod own;
mod protocol;
mod received;
mod rejection;
mod request;
mod response;
mod spelling;
mod target;
mod trailers;
mod via;

pub use crate::expectation::{Expectation, expectation_of, has_known_expectation};
pub use crate::field_line::FieldLine;
pub use crate::framing::{Framing, stated_framing};
pub use crate::gateway::Gateway;
pub use crate::hop_by_hop::is_hop_by_hop;
pub use crate::host::{has_host, is_port};
pub use crate::protocol::Protocol;
pub use crate::rejection::Rejection;
pub use crate::request::{ForwardedRequest, ReceivedRequest, RequestOutcome, forward_request};
pub use crate::response::{
    ContentFraming, ForwardedResponse, ResponseHead, ResponseOutcome, forward_response,
    response_content,
};
pub use crate::target::{authority_len, scheme_len};
pub use crate::trailers::{MessageHead, forward_trailers};
pub use crate::via::{InvalidPseudonym, Pseudonym};
