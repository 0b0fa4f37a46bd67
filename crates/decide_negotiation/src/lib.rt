//! Content negotiation: which of a server's offers a client prefers, by `Accept`, `Accept-Encoding`
//! and `Accept-Language` (RFC 9110, section 12). No call allocates.
#![tactic(auto)]

mod acceptability;
mod choice;
mod coding;
mod dimension;
mod element;
mod language;
pub mod laws;
mod lookup;
mod media;
mod parameter;
mod preference;

pub use crate::acceptability::Quality;
pub use crate::coding::AcceptEncoding;
pub use crate::dimension::{Dimension, negotiate, quality, varies_by};
pub use crate::language::AcceptLanguage;
pub use crate::lookup::look_up;
pub use crate::media::Accept;
