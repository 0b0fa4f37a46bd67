//! Typed reads and inserts over a header map, and lists of steps that change one.
#![tactic(auto)]

mod encoded;
mod ext;
mod fields;
mod insert;
mod laws;
mod steps;

pub use crate::encoded::{Encoded, canonical, encoding};
pub use crate::ext::HeaderMapExt;
pub use crate::fields::set_all;
pub use crate::insert::InsertError;
pub use crate::laws::{reads_the_inserted, reads_the_last_put};
pub use crate::steps::{ApplyError, Step, apply};
