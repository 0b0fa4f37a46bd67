//! Partial content in a cache: which received parts of a representation it may store, how they are
//! combined, and which requests a stored part answers (RFC 9111, sections 3.3 and 3.4).
//!
//! Each rule is a pure call over fields, bytes and times, and a `PartStore` calls them. It is beside a
//! cache's store of complete responses, by the same keys and limits. A representation that becomes whole
//! is handed to the caller, for that store.

mod answering;
mod combining;
mod completing;
mod extent;
mod invalidating;
pub mod laws;
mod making;
mod received;
mod recording;
mod store;
mod store_answering;
mod store_recording;

pub use crate::parts::answering::{answer_part, bytes_of_part, part_fields};
pub use crate::parts::combining::{Combined, PartPair, combine, have_same_tag};
pub use crate::parts::completing::{completing_fields, lacking};
pub use crate::parts::extent::{Extent, extent_in, strong_tag};
pub use crate::parts::received::{is_part, received_extent};
pub use crate::parts::recording::record;
pub use crate::parts::store::PartStore;
pub use crate::parts::store_answering::{PartAnswer, PartLookup};
pub use crate::parts::store_recording::Recorded;
