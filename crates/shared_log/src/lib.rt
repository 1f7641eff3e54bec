//! One log that threads share over two turns, of its list and of the work behind it.
//!
//! Each thread has a pass of its own. An append takes the turn of the work for as long as the disk
//! is asked; a fetch takes the turn of the list alone, and waits for no call of the disk; how long
//! the log is can be asked without waiting. What each call replies, and what it finds and leaves, is
//! told by `CalledOnLog` in `specs/`.
#![tactic(auto)]

mod laws;
mod replies;
mod shared;
mod value;

pub use laws::{
    calls_add_up, calls_are_made, calls_compose, logs_are_closed_at_each_moment, stays_in_sight,
    told_is_on_disk,
};
pub use replies::Fetched;
pub use shared::{LogPass, SharedLog};
pub use value::{LogFixed, LogList, LogWork};
