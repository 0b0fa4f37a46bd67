//! Paths to resources: the answer to a request by the path of its target (RFC 9110, sections 7.1 and
//! 15.5.5).
#![tactic(auto)]

mod absent;
pub mod laws;
mod routes;

pub use crate::absent::{ServerWide, nowhere, server_wide};
pub use crate::routes::{RoutedRequest, Routes};
