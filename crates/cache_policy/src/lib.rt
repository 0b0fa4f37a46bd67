//! What a cache may do with a response: whether it may store it, how long it is fresh, how old it
//! is, and what it does with a request that the stored response could answer (RFC 9111, RFC 5861).
//! As options it follows RFC 8246 and RFC 9213.
//!
//! Fields are parsed by the grammar of the RFCs, and what is malformed makes each answer stricter.
//! Only `validation_fields`, `freshening_fields` and `date_field` allocate.
#![tactic(auto)]

mod dating;
mod decision;
mod fields;
mod freshening;
mod freshness;
pub mod laws;
mod policy;
mod request;
mod stored;
mod storing;
mod updating;
mod validating;
mod vary;

pub use crate::dating::{END_OF_DATES, date_field};
pub use crate::decision::{Decision, Freshness, decide, decide_by, decide_unstored};
pub use crate::freshening::freshening_fields;
pub use crate::freshness::{heuristic_lifetime, lifetime};
pub use crate::policy::Policy;
pub use crate::stored::StoredHeads;
pub use crate::storing::may_store;
pub use crate::updating::{has_strong_tag, has_validator, is_updated};
pub use crate::validating::validation_fields;
pub use crate::vary::matches;
pub use cache_fields::{
    Directives, Governing, Kind, Times, current_age, date, heuristic_by, lifetime_by,
    read_directives,
};
pub use rfc_fields::RequestHead;
