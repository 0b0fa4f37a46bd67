//! A server's connection for C, and a service of files that answers on it, behind handles.
//!
//! Nothing here opens a socket or a file. The host, a program in C, passes what it received, and writes what it is
//! offered. `include/typed_headers.h` documents the calls.
#![tactic(auto)]

mod calling;
mod files;
mod host;
mod moving;
mod planning;
mod reading;

pub use crate::files::{next_path, open_files, plan_files};
pub use crate::moving::{finish_input, next, open_connection, receive, respond, sent};
pub use crate::planning::{add_bytes, add_field, add_range, begin};
pub use crate::reading::{
    Text, fields_of, front_of, lines_of_map, planned_of, range_of, rejection_of, version_of,
    write_text,
};
