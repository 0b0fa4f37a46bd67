//! The whole answer of a resource for C, by what a caller hands in.
#![tactic(auto)]

mod answer;
mod implemented;
pub mod laws;
mod lists;
mod method_rule;
mod representation;
mod request;
mod resource;
mod settled;
mod shown;
mod values;

pub use crate::answer::{Answered, answer_for, answer_with};
pub use crate::representation::RepresentationParts;
pub use crate::request::{DenialParts, RequestParts};
pub use crate::resource::{GivenResource, ResourceParts, read_resource};
pub use crate::shown::AnswerFacts;
