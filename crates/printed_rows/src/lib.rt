//! Canonical rows on lines of their own are read as these rows, and a row that stands in a text has
//! values, so that it can be printed. The crate holds definitions and laws; it has no code.
#![tactic(auto)]

mod laws;

pub use laws::{printed_rows_are_read, rows_have_values};
