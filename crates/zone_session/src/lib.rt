//! Sessions of a zone: queries over a dataset that follows a log, which up to sixteen passes share.
//!
//! A request asks for the zone's version, for the quads that match a pattern, or that the zone
//! catches up with its log. `specs/Answered.antt` says what the pass and the net that serve it do
//! then, and what is said; `specs/Sessions.antt` what a session comes to for both.
#![tactic(auto)]

mod answering;
mod asking;
mod laws;
mod matching;
mod serving;
mod session;
mod telling;
mod worker;

pub use laws::sessions_are_served;
pub use serving::{Worked, serve_zone};
pub use session::serve_zone_session;
pub use worker::ZoneWorker;
