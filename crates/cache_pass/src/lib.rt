//! Requests of clients through a cache: each is a pass, from its arrival to its last byte (RFC 9111).
//!
//! The steps of passes may interleave in any way. Each step is done while the cache is held, and holds
//! it no longer: it decides by what is stored then, and remembers no stored response.
#![tactic(auto)]

mod answering;
mod cache;
mod failing;
mod keeping;
pub mod laws;
mod noting;
mod pass;
mod queue;
mod removals;
mod replying;
mod revalidating;
mod steps;
mod validation;

pub use crate::cache::Cache;
pub use crate::pass::{Asked, Pass, Phase};
pub use crate::queue::{PendingRequest, Queue};
pub use crate::removals::Removals;
pub use crate::replying::{First, Reply};
pub use crate::revalidating::Next;
pub use crate::steps::OutOfOrder;
