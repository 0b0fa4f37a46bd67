//! Answers requests from a store of files, with conditional requests and ranges (RFC 9110, sections
//! 13 and 14), over any reader and writer. A file is read while it is sent, and only what is sent of it.
#![tactic(auto)]

mod answer;
mod asked;
mod cache;
mod connection;
mod date;
mod fields;
mod file;
mod found;
pub mod laws;
mod memory;
mod multipart;
mod page;
mod representation;
mod service;
mod settings;
mod site;
mod source;
mod store;
mod whole;

pub use crate::connection::serve_store;
pub use crate::date::KnownDate;
pub use crate::file::{Entry, File, media_type_at};
pub use crate::memory::Memory;
pub use crate::service::FileService;
pub use crate::settings::{Divider, Page, Settings, Site};
pub use crate::source::{Opened, Reader, Source};
pub use crate::store::FileStore;
pub use server_files::{
    Coding, Kept, Listing, ends_in_slash, folder_of, index_location, is_plain, status_page,
    store_path,
};
