//! A work and a published list that threads take in two turns.
//!
//! A pass that has the work may wait for the outside as long as it takes: others find the list
//! meanwhile, as it was published. Only a pass that has both turns publishes more, once the work
//! stands for it. How long the list is can be asked at any time, without waiting.
#![tactic(auto)]

mod ends;
mod held;
mod laws;
mod makes;
mod parts;
mod plays;
mod rule;
mod steps;
mod twin;
mod waits;

pub use laws::twins_stand_at_each_moment;
pub use parts::{BackTwo, Backed, Kept, Listed};
pub use rule::{Making, TwinRule};
pub use twin::{HeldList, HeldWork, Twin, TwinPass};
