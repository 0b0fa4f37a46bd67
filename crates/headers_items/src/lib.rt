//! The items of list fields: separators outside quotes, iterators, and field lines joined and cut.
#![tactic(auto)]

mod entries;
mod flat_csv;
mod items;
mod pairs;
mod scan;
mod separator;

pub use crate::entries::Entries;
pub use crate::flat_csv::FlatCsv;
pub use crate::items::Items;
pub use crate::pairs::Pairs;
pub use crate::scan::{Mark, Scan};
pub use crate::separator::{Comma, SemiColon, Separator};
