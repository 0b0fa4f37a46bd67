//! Cross-origin requests: which fields a server's policy gives a response. Browsers then let
//! scripts do exactly what the rules allow (Fetch standard).
#![tactic(auto)]

mod error;
mod fields;
mod kind;
pub mod laws;
mod listed;
mod origin;
mod policy;
mod refusal;
mod rules;
mod sent;
mod vary;
mod written;

pub use crate::error::RulesError;
pub use crate::kind::CorsKind;
pub use crate::policy::{CorsAnswer, CorsPolicy};
pub use crate::rules::{Allowed, AllowedNames, CorsRules};
pub use crate::sent::{UnsentOrigin, check_origins};
pub use rfc_fields::RequestHead;
