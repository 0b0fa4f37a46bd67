//! Parsers for the parts of header fields: field lines, text, numbers, dates and entity tags.
#![tactic(auto)]

mod ascii_case;
mod date;
mod entity_tag;
mod error;
mod item;
mod lines;
mod number;
mod seconds;
mod text;
mod trimming;
mod value_string;

pub use crate::ascii_case::same_but_for_case;
pub use crate::date::{Date1, date_reads_back, dates_by_the_calendar, only_date};
pub use crate::entity_tag::{
    EntityTag, EntityTagRef, strong_eq_by_bytes, tag_has_parts_once, weak_eq_is_equivalence,
};
pub use crate::error::{Error, Refused};
pub use crate::item::AsHeaderValue;
pub use crate::lines::{first, first_word, just_one, only_word, push_clone};
pub use crate::number::{numbers_read_back, parse_number, read_number};
pub use crate::seconds::{Seconds, only_seconds};
pub use crate::text::{after_last, read_text, trim_text, unquoted};
pub use crate::trimming::{trim, trim_start, trimmed};
pub use crate::value_string::HeaderValueString;
