//! Values by their RFCs. HTTP-date by RFC 9110, section 5.6.7, with the years before 1970 and leap seconds: the types
//! of `headers` parse dates as `httpdate` does, while here the present decides which year two digits mean.
//!
//! Structured fields by RFC 8941: the members of a dictionary, with the values that a cache directive may have. A field
//! that isn't well formed is malformed as a whole. No call allocates.
#![tactic(auto)]

mod bytes;
mod date_time;
mod dictionaries;
mod items;
mod laws;
mod names;
mod parameters;
mod parser;
mod timestamp;

pub use crate::dictionaries::{DictionaryMember, Member, read_entry};
pub use crate::items::ItemValue;
pub use crate::laws::{http_dates_read_back, timestamps_by_the_calendar};
pub use crate::timestamp::{Timestamp, read_date};
