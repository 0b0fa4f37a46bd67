//! What a cache does with the responses that it has stored, and what it stores (RFC 9111).
//!
//! Each rule is a pure call over fields and times: there is no store here, no clock, and no input or
//! output. A store calls them.
#![tactic(auto)]

mod age;
mod conditions;
mod errors;
mod fields;
mod freshening;
mod identifying;
mod invalidation;
pub mod laws;
mod selection;
mod stored;
mod storing;

pub use crate::age::{age_field, age_field_of};
pub use crate::conditions::{
    StoredAnswer, answer_conditions, is_for_cache, one_part, validators_of,
};
pub use crate::errors::serves_on_error;
pub use crate::fields::set_fields;
pub use crate::freshening::{Exchange, Freshened, freshen, is_head_of};
pub use crate::identifying::{select_updated, updated_by};
pub use crate::invalidation::invalidates;
pub use crate::selection::select;
pub use crate::stored::{StoredResponse, number_after};
pub use crate::storing::{Reception, is_stored, storing_fields};
