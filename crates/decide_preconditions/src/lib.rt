//! Conditional and range requests: the result of the preconditions (RFC 9110, section 13.2.2), the
//! selected part of a representation (section 14.2), and the response.
#![tactic(auto)]

mod boundary;
mod content;
mod fields;
pub mod laws;
mod limits;
mod part;
mod plan;
mod precondition;
mod range_set;
mod resource;
mod response;
mod selection;
mod tags;

pub use crate::boundary::{Boundary, InvalidBoundary};
pub use crate::content::{Content, Sending};
pub use crate::limits::{RangeFacts, RangeLimits};
pub use crate::part::Part;
pub use crate::plan::{Plan, plan_answer};
pub use crate::precondition::{Precondition, evaluate, is_get_or_head};
pub use crate::resource::{TargetState, Validators};
pub use crate::response::{Response, is_known_by, respond};
pub use crate::selection::{Selection, select};
pub use crate::tags::is_tag;
pub use rfc_fields::RequestHead;
