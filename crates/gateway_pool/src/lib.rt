//! The connections of a gateway to origin servers, as a value without input and output: which connection a request
//! goes out on, and which origin is asked (RFC 9110, section 9.2.2; RFC 9112, section 9.3).
#![tactic(auto)]

pub mod laws;
mod pool;

pub use crate::pool::{Lease, Pool, PoolRules};
