//! The fields of a header section in a map, and its canonical text.
#![tactic(auto)]

mod block;
mod field;
mod input;
mod output;
mod runs;
mod status;
mod text;

pub use crate::block::read_block;
pub use crate::field::{empty_map, read_map};
pub use crate::runs::{run, run_with_keys, run_with_system_keys};
pub use crate::status::{Outcome, RunError, exit_status};
pub use crate::text::{print_line, print_lines};
