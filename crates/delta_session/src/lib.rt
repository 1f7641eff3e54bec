//! A hall: the registry of named sources and the log of each slot, which up to sixteen passes
//! share; and the sessions that serve it.
//!
//! A request asks the registry, or a log whose source it names, each at a point of its own list.
//! `specs/Answered.antt` says which lists a request asks and what is said to it;
//! `specs/Sessions.antt` says what a session comes to for the pass that serves it.
#![tactic(auto)]

mod answering;
mod closing;
mod dice;
mod fault;
mod hall;
mod laws;
mod logs;
mod opening;
mod pass;
mod serving;
mod session;
mod sharing;
mod sources;
mod telling;
mod worker;

pub use fault::{HallFault, HallRefusal};
pub use hall::Hall;
pub use laws::{halls_are_found_again, passes_stay, sessions_are_served, sessions_say_answers};
pub use opening::open_hall;
pub use pass::{HallPass, HallPasses, HallRoom};
pub use serving::{Worked, serve_gates};
pub use session::serve_session;
pub use worker::HallWorker;
