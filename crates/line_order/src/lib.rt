//! Lines in the order of their bytes.
//!
//! Lines of RDF share long fronts, so a sort that compares whole lines reads each of them from far
//! memory again and again. Here each line is read beside one in the middle of them, up to where it
//! leaves that one, and a key is held that tells where that is, on which side, and how it goes on.
//! The lines that have one key are sorted in the same way behind what they have in common, so each
//! byte is read about once, however they are made. Only few lines are compared with one another,
//! and each run with the one before it, while both are near. Were a run not to go on with the one
//! before it, a plain sort would make the order right.
#![tactic(auto)]

mod presort;
mod sort;

pub use presort::{Keyed, sort_keyed};
pub use sort::{Line, sort_lines};
