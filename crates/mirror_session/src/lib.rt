//! Sessions of a mirror: a log that takes the patches of an origin's log, which up to sixteen passes
//! share.
//!
//! A request asks the log, as it would that of a hall, or that it catches up with its origin.
//! `specs/Answered.antt` says what the pass and the net that serve it do then, and what is said;
//! `specs/Sessions.antt` what a session comes to for both.
#![tactic(auto)]

mod answering;
mod asking;
mod laws;
mod logs;
mod serving;
mod session;
mod telling;
mod worker;

pub use laws::sessions_are_served;
pub use serving::{Worked, serve_mirror};
pub use session::serve_mirror_session;
pub use worker::MirrorWorker;
