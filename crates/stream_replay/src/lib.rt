//! The replay of a stream of patches that is read once, in pieces.
//!
//! `replay_source` reads an input to its end and answers the dataset that its patches make, or the
//! first fault (`specs/Source.antt`). It holds one piece and the open row, the ids of the chain,
//! and the lines of the dataset as a log of edits that is settled now and then. Whatever the
//! stream, this log has at most twice the bytes that the lines of the dataset had behind one of the
//! patches, and 20 MiB: clause `memory` of `Streaming::feed`.
#![tactic(auto)]

mod edits;
mod fault;
mod lines;
mod progress;
mod replay;
mod source;
mod stream;

pub use fault::ReplayFault;
pub use lines::write_lines;
pub use replay::Replayed;
pub use source::{STREAM_LIMIT, replay_source};
