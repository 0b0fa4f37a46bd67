//! Headers of range requests (RFC 9110, section 14).
#![tactic(auto)]

mod accept_ranges;
mod content_range;
mod cut;
mod range;
mod satisfiable;

pub use crate::accept_ranges::AcceptRanges;
pub use crate::content_range::{ContentRange, InvalidContentRange, content_ranges_read_back};
pub use crate::range::{InvalidRange, Range, ranges_read_back};
pub use crate::satisfiable::Satisfiable;
