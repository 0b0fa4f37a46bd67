//! The grammar of field values: lists, quoted-strings, comments, parameters, directives and numbers
//! (RFC 9110, section 5.6), and the head of a request.
//!
//! A member of a list is a slice of its field line, and no call allocates. A text that doesn't
//! parse is malformed: no meaning is guessed, and a caller treats it in the strictest way.
#![tactic(auto)]

mod comments;
mod cuts;
mod directives;
mod error;
mod field;
pub mod laws;
mod members;
mod numbers;
mod parameters;
mod request;
mod scan;
mod values;
mod weights;

pub use crate::comments::skip_comment;
pub use crate::cuts::cut;
pub use crate::directives::{Directive, directive_in, read_directive};
pub use crate::error::Malformed;
pub use crate::field::{
    are_tokens, contains_token, find_directive, has_line, is_clear_of, only_value,
};
pub use crate::members::{FieldMembers, Members, is_well_formed};
pub use crate::numbers::{delta_seconds, number};
pub use crate::parameters::Parameterized;
pub use crate::request::RequestHead;
pub use crate::values::{Octets, Value, is_token, read_value};
pub use crate::weights::weight;
