//! A service of a folder's files that opens none, for C.
//!
//! The service says which path is to be opened next. The host, a program in C, opens it and tells what it found, and
//! the service makes the plan of the response. `include/typed_headers.h` documents the calls.
#![tactic(auto)]

mod entry;
mod held;
mod known;
mod paths;
mod planning;
mod settings;
mod store;
mod tag;

pub use crate::entry::Facts;
pub use crate::held::HeldFiles;
pub use crate::known::KnownFiles;
pub use crate::paths::path_for;
pub use crate::planning::plan_response;
pub use crate::settings::{FilesOptions, new_files, settings_of};
pub use crate::store::Found;
