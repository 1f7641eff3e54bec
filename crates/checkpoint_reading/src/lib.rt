//! Reads a checkpoint. A text is the checkpoint of one generation and one brief, or of none.
#![tactic(auto)]

mod applying;
mod checkpoint;
mod fault;
mod front;
mod ids;
mod prefixes;
mod quads;

pub use checkpoint::{Checkpoint, read_checkpoint};
pub use fault::CheckpointFault;
