//! An example of a header and of credentials of one's own, and a proxy's step that uses them.
#![tactic(auto)]

mod api_key;
mod forwarding;
mod max_forwards;

pub use crate::api_key::{ApiKey, key_of};
pub use crate::forwarding::{ForwardError, Forwarded, forward};
pub use crate::max_forwards::MaxForwards;
