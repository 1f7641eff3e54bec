//! Reads the payloads of the current file of a zone on two files: a checkpoint, or none, and the
//! patches behind it.
#![tactic(auto)]

mod fault;
mod ids;
mod limit;
mod reading;

pub use fault::PayloadsFault;
pub use limit::CHECKPOINT_FILE_LIMIT;
pub use reading::{FoundZone, PairReading};
