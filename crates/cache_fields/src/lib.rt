//! What the fields of a message tell a cache: the directives of Cache-Control (RFC 9111, section 5.2, RFC
//! 5861 and RFC 8246) or of a targeted field in place of it (RFC 9213), how long a response is fresh by
//! them, and how old it is (RFC 9111, section 4.2).
//!
//! Fields are parsed by the grammar of the RFCs, and what is malformed is taken strictly. Nothing
//! allocates.
#![tactic(auto)]

mod age;
mod directives;
mod fields;
mod freshness;
mod governing;
mod kind;
mod targets;

pub use crate::age::{Times, current_age};
pub use crate::directives::{Directives, read_directives};
pub use crate::fields::date;
pub use crate::freshness::{has_expires, heuristic_by, is_heuristic, lifetime_by};
pub use crate::governing::{Governing, read_governing};
pub use crate::kind::Kind;
