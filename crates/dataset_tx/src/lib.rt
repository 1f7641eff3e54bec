//! A dataset of quads and prefixes that takes the changes of a patch at once, or stages them and
//! keeps its contents beside them.
//!
//! The quads are keys of numbered terms in six orders, so that a search walks over what it finds.
//! Contracts see the dataset that `rdf_terms` defines: the quads in the order of their canonical
//! lines, and the prefixes in the order of their rows.
#![tactic(auto)]

mod blocks;
mod dataset;
mod keys;
mod numbering;
mod pattern;
mod prefixes;
mod store;

pub use dataset::{DataFault, Dataset};
pub use pattern::{GraphPart, Pattern};
