//! What the generator's stream says: its text is a stream of patches, these are a chain, and what
//! they come to is known. The crate holds definitions and one law; it has no code.
#![tactic(auto)]

mod laws;

pub use laws::generated_streams_are_chains;
