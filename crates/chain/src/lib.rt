//! What a client gets from a resource behind gateways and caches, as theorems over the definitions of
//! `gateway_messages`, `cache_store` and `decide_resource` (RFC 9110, section 7.6; RFC 9111), and the calls
//! of a cache in such a chain.
#![tactic(auto)]

mod cache;
pub mod laws;
pub mod sharing;
pub mod updating;

pub use crate::cache::{Action, ArrivedResponse, Pending, answer_from_store, take_response};
