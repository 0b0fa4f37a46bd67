//! Requests of clients through a cache, as C hands them in: a cache and its passes (RFC 9111).
//!
//! Each call makes one step of a pass, or none. `include/typed_headers.h` documents the calls.
#![tactic(auto)]

mod content;
mod held;
mod names;
mod opening;
mod outcome;
mod reading;
mod removing;
mod sending;
mod status;
mod stepping;
mod telling;
mod validating;
mod waiting;

pub use crate::content::copy_content;
pub use crate::held::{Place, Shared, Stepped};
pub use crate::opening::{CacheExtensions, CacheOptions, new_cache, new_cache_with};
pub use crate::outcome::{By, PassOutcome};
pub use crate::reading::CacheRequest;
pub use crate::removing::remove;
pub use crate::status::{Course, ForwardReason, Standing, status_line};
pub use crate::stepping::{begin, came, ended, failed, received, resume};
pub use crate::telling::PassFacts;
pub use crate::validating::validation_text;
