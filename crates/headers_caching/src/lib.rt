//! Headers of caching: Age, Cache-Control, Expires, Pragma, Vary (RFC 9111; RFC 9110, section 12.5.5).
#![tactic(auto)]

mod age;
mod cache_control;
mod expires;
mod pragma;
mod vary;

pub use crate::age::Age;
pub use crate::cache_control::{
    CacheControl, cache_control_survives_cuts, directives_read_back, equal_by_encoding,
};
pub use crate::expires::Expires;
pub use crate::pragma::Pragma;
pub use crate::vary::Vary;
