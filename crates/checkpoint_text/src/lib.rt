//! A checkpoint as a text: what a follower's copy keeps of the patches that it took, without them.
//!
//! The first line says how much stands behind it: the generation, how many patches were taken, how
//! many bytes their texts have, how many prefixes and how many quads there are. Then come the ids, a
//! line each, the rows that set the prefixes and the lines of the quads, both in the order of their
//! bytes.
#![tactic(auto)]

mod laws;
mod printing;

pub use laws::a_text_is_one_checkpoint;
pub use printing::{MOST_OF_FIRST, push_checkpoint};
