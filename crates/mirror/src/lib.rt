//! A mirror: a log that takes the patches of an origin's log, and no others.
//!
//! `pull` catches up with the origin: the log is asked what it has, and then each text that the
//! origin answers is appended by itself. `specs/Pulling.antt` says what that makes of the log, in
//! calls of one pass that are legal at their points, and `specs/Following.antt` that the log
//! begins the origin's.
#![tactic(auto)]

mod ends;
mod laws;
mod mirroring;
mod pulling;

pub use ends::{PullEnd, PullRefusal};
pub use laws::{mirrors_begin_their_origin, pulls_are_calls, pulls_bring_what_they_read};
pub use pulling::pull;
