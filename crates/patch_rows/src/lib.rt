//! The rows of patches: they are read and printed.
//!
//! `specs/Grammar.antt` says what a row is, and `specs/Faults.antt` what its first fault is.
//! Rows are read by `patch_reader`, which keeps their limit; what it reads them with stands in
//! `parts` (`specs/Rows.antt`). `print_row` writes a row's canonical text, which is read as that
//! row again. The functions of `laws` do nothing: their contracts tie the reading to the grammar
//! and the faults.
#![tactic(auto)]

mod codes;
mod cut;
mod fault;
mod laws;
pub mod parts;
mod printing;
mod row;
mod rows;
mod space;
mod terms;
mod words;

pub use cut::TextEnd;
pub use fault::{RowFault, RowKind};
pub use laws::{row_terms_are_read, rows_are_read, rows_are_writable, space_is_skipped};
pub use printing::print_row;
pub use rdf_terms::Change;
pub use row::{ROW_LIMIT, Row};
pub use space::{is_space, skip_space};
