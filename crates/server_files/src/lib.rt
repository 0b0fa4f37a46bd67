//! Files as a server names and describes them: the paths of a store, and which of them the path of a URI
//! names; media types and codings; bytes in memory with their entity tag; the pages of statuses, and
//! those that list the names in a folder.
#![tactic(auto)]

mod coding;
mod kept;
pub mod laws;
mod listing;
mod media_type;
mod page;
mod path;
mod redirect;
mod tag;

pub use crate::coding::Coding;
pub use crate::kept::Kept;
pub use crate::listing::Listing;
pub use crate::media_type::media_type_of;
pub use crate::page::status_page;
pub use crate::path::{ends_in_slash, folder_of, is_plain, store_path};
pub use crate::redirect::index_location;
