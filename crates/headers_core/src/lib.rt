//! The trait `Header`, and the encoding shapes that headers share. Exports field syntax, list items
//! and media types as well.
#![tactic(auto)]

mod built;
mod date_header;
mod entity_tag_range;
mod field_form;
mod form_header;
mod forms;
mod header;
mod laws;
mod named_field;
mod seconds_header;
mod value_header;

pub use crate::built::{
    lines_read_back, lists_read_all, lists_read_back, tags_read_back, texts_read_back,
    words_read_back,
};
pub use crate::date_header::DateHeader;
pub use crate::entity_tag_range::{EntityTagRange, tag_ranges_read_back};
pub use crate::field_form::FieldForm;
pub use crate::form_header::FormHeader;
pub use crate::header::Header;
pub use crate::laws::{decode_values, encodes_as_before, same_by_writes};
pub use crate::named_field::NamedField;
pub use crate::seconds_header::SecondsHeader;
pub use crate::value_header::ValueHeader;
pub use headers_items::{Comma, Entries, FlatCsv, Items, Mark, Pairs, Scan, SemiColon, Separator};
pub use headers_mime::Mime;
pub use headers_syntax::{
    AsHeaderValue, Date1, EntityTag, EntityTagRef, Error, HeaderValueString, Refused, Seconds,
    date_reads_back, dates_by_the_calendar, first, first_word, just_one, numbers_read_back,
    only_date, only_seconds, only_word, parse_number, push_clone, read_number, read_text,
    same_but_for_case, strong_eq_by_bytes, tag_has_parts_once, trim, trim_text, unquoted,
    weak_eq_is_equivalence,
};
