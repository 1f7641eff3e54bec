//! A zone that threads share over a turn: each reads it with a pass of its own, and any of them may
//! have it take the next patch.
//!
//! What each call answers is told in `specs/Legal.antt`, over what the pass then knows: the patches
//! taken since the zone was shared. The turn keeps none of their texts; that history is of proofs
//! alone. What a stay does to the zone and to its files is told in `specs/Stays.antt`.
#![tactic(auto)]

mod answers;
mod fixed;
mod hall;
mod laws;
mod past;
mod value;
mod was;

pub use answers::{Shown, Stayed};
pub use fixed::{KeptBrief, ZoneFixed};
pub use hall::{ZoneHall, ZonePass};
pub use laws::zones_are_closed_at_each_moment;
pub use past::TakenSince;
pub use value::ZoneValue;
pub use was::Was;
