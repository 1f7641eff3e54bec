//! Catching up with a log of a server: asks for the log, and hands the texts of the versions behind
//! those that a replica has to it, one after another.
//!
//! Who takes the texts is a `Replica`; all that is asked over connections stands here.
//! `specs/Runs.antt` says what a run of catching up was and why it ended, and `specs/Ends.antt` how
//! an answer ends it that isn't what was asked for. Which calls go over which connections, and what
//! is said on them, is `Exchanged` of `delta_client`.
#![tactic(auto)]

mod asking;
mod catching_up;
mod end;
mod replica;

pub use catching_up::catch_up;
pub use end::RunEnd;
pub use replica::{Replica, Standing};
