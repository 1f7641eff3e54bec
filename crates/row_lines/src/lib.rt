//! The canonical line of the quad that a row adds or deletes, written as the row is read, in
//! whatever form it stands (`specs/Written.antt`).
//!
//! A row whose line was written is promised to be right. That none was written promises nothing:
//! then the row is read.
#![tactic(auto)]

mod fault;
mod quad;
mod row;
mod terms;

pub use row::{WrittenRow, write_row};
