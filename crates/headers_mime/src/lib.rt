//! Media types (RFC 9110, section 8.3.1).
#![tactic(auto)]

mod mime;
mod reading;
mod writing;

pub use crate::mime::{Mime, media_types_are_read_once};
