//! Lists and fields whose values have parts, each as lines of text: a program that isn't in Rattle gets them so.
//!
//! A line is a letter, a text, and a byte 10:
//!
//! - `v`: a text.
//! - `n`: a name without a value.
//! - `p`: a name, `=`, and the octets that its value means.
//! - `e`, `o`: the text of the name of a file, or of a title: an extended value (RFC 8187), or octets.
//! - `s`: the scheme of a challenge. `k`: the token68 that may follow it.
//! - `r`: what browsers reject a cookie by.
//! - `a`, without a text: a recipient saves the content (RFC 6266, section 4.2).
//! - `!`, without a text: what is here is malformed.
//!
//! An empty line ends each element. No text has a byte 10, since no field value has.
#![tactic(auto)]

mod attributes;
mod caches;
mod challenges;
mod cookie_dates;
mod elements;
mod extended;
pub mod laws;
mod lines;
mod links;
mod named;
mod parameters;
mod set_cookies;

pub use crate::challenges::challenges_text;
pub use crate::elements::{Form, elements_text, values_text};
pub use crate::extended::extended_text;
pub use crate::lines::push_octets;
pub use crate::links::links_text;
pub use crate::named::place_named;
pub use crate::parameters::{ParameterKind, parameter_text};
pub use crate::set_cookies::set_cookies_text;
