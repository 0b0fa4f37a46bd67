//! The whole answer of a resource to a request: the status, the fields and what is sent (RFC 9110).
#![tactic(auto)]

mod allow;
mod answer;
mod chosen;
mod content;
mod denied;
pub mod laws;
mod order;
mod reason;
mod representation;
mod request;
mod resource;
mod response;
mod shared;
mod target;

pub use crate::answer::{Answer, Sends, answer_request};
pub use crate::denied::Denied;
pub use crate::reason::Reason;
pub use crate::representation::{Negotiation, Representation};
pub use crate::request::{RequestContent, ResourceRequest};
pub use crate::resource::{MethodRule, Redirect, Resource, State};
