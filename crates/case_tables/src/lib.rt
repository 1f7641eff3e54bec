//! Tables that stand in the program and are only read: sets of characters as rows, and
//! lists of names.
#![tactic(auto)]

mod names;
mod ranges;

pub use names::NameTable;
pub use ranges::RangeTable;
