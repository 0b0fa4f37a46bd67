//! Decisions for C: preconditions, selections, responses, negotiation, handshakes and rules for other
//! origins, by what a caller hands in.
#![tactic(auto)]

mod choice;
mod content;
mod cors;
mod evaluation;
mod field_lines;
mod flag;
mod handshake;
mod method;
mod numbers;
mod origins;
mod quality;
mod request;
mod response;
mod rules;
mod selection;
mod star;
mod status_code;
mod target;
mod texts;

pub use crate::choice::{choose, given, look_up_language};
pub use crate::content::{ContentParts, boundary_of, content_of, limits_of};
pub use crate::cors::{CorsFacts, PolicyAnswer, answer_by_rules, show_shared};
pub use crate::evaluation::{code_of, evaluate_request};
pub use crate::field_lines::fields_text;
pub use crate::flag::flag_of;
pub use crate::handshake::{
    AnsweredHandshake, HandshakeExchange, HandshakeFacts, HandshakeRules, answer_handshake,
    check_response, offer_handshake,
};
pub use crate::method::read_method;
pub use crate::numbers::known;
pub use crate::origins::find_unsent;
pub use crate::quality::{OfferQuality, rate};
pub use crate::request::RequestTexts;
pub use crate::response::{Responded, ResponseFacts, parts_sent, respond_to, show_response};
pub use crate::rules::{Listed, Rules, read_line, read_policy};
pub use crate::selection::{BytesRange, Selected, select_ranges, show_selection};
pub use crate::star::is_any;
pub use crate::status_code::read_status;
pub use crate::target::{TargetFacts, read_date, read_resource};
pub use crate::texts::{optional_value, request_with, values_of};
