//! The encoding shapes that headers share.

mod date;
mod entity_tag;
mod flat_csv;
mod seconds;
mod text;
mod value;
