//! A log of edits of lines, and the lines that they make.
//!
//! The lines of all edits stand one after another in one text. To tell which lines are left they
//! are sorted, those that are alike by the order of their edits: the last edit of a line decides.
#![tactic(auto)]

mod edits;
mod lines;
mod log;
mod sorting;

pub use lines::MadeLines;
pub use log::LineLog;
