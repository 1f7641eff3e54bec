//! A turn that threads take one after another, over a value whose history only grows.
//!
//! A pass waits for the turn, has the value for the time of its stay, and hands it on. What
//! one pass published, each later stay finds; how long the history is can be asked at any
//! time, without waiting.
#![tactic(auto)]

mod chained;
mod door;
mod give_back;
mod held;
mod laws;
mod makes;
mod plays;
mod rule;
mod steps;
mod turn;
mod view;
mod wait;

pub use chained::Chained;
pub use door::Door;
pub use laws::turns_stand_at_each_moment;
pub use rule::{Making, TurnRule};
pub use turn::{Held, Pass, Turn};
pub use view::{Known, Offered, Published, Role, Stage, TakenIn, View};
