//! Headers of hosts and origins (RFC 9110, section 7.2; RFC 6454).
#![tactic(auto)]

mod host;
mod origin;

pub use crate::host::{Host, hosts_read_back};
pub use crate::origin::{
    InvalidOrigin, Origin, line_of_origin, origin_of_line, origin_of_own_text, origin_of_text,
};
