//! What the calls for C share: lines, sections and keys in, statuses and bytes out; fields as C sees them, what
//! their lines say, and values that are formatted; boxes as pointers, of which handles are made.
#![tactic(auto)]

mod flags;
mod formats;
mod keys;
mod lines;
mod loose;
mod name;
mod raw_box;
mod section;
mod status;
mod written;

pub use crate::flags::has_flag;
pub use crate::formats::{ContentRangeParts, format_content_range, format_date, format_tag};
pub use crate::keys::HashKeys;
pub use crate::lines::{cut_line, read_field, read_values};
pub use crate::loose::Loose;
pub use crate::name::read_name;
pub use crate::raw_box::RawBox;
pub use crate::section::{has_line, read_map};
pub use crate::status::{DONE, Failure, MARKED, NO_ROOM, copy_into};
pub use crate::written::{credentials_lines, has_credentials, lines_text, map_of, written_lines};
