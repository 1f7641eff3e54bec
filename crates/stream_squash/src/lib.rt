//! A stream with one net patch in the place of some of its patches, and the patch that undoes its
//! last one.
//!
//! The stream is held as one text. It is read once for its first fault, for its chain and for the
//! places of its patches, and no change is made by then. The patches that stand before are applied
//! one after another, and those of the run are gathered from the last one to the first, and none
//! of them is kept. What `squash` and `invert` make of a text stands in `specs/Squashes.antt`, and
//! why they don't in `specs/Faults.antt`.
#![tactic(auto)]

mod fault;
mod inverting;
mod laws;
mod pieces;
mod placing;
mod squashing;

pub use fault::SquashFault;
pub use inverting::invert;
pub use laws::squashes_keep_datasets;
pub use squashing::{Squashed, squash};
