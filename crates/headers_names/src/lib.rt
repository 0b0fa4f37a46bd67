//! Lists of field names and of methods: how they are joined, and the iterators over them.
#![tactic(auto)]

mod list_header;
mod list_item;
mod methods;
mod names;
mod skip_names;

pub use crate::list_header::{ListField, ListHeader};
pub use crate::list_item::ListItem;
pub use crate::methods::{Methods, methods_of_own_list};
pub use crate::names::{Names, list_of_names, names_of_own_list};
pub use crate::skip_names::{ItemsRead, SkipNames};
