//! What a server says to a call: the answer of each reply of a log, of each fault of a text and of
//! each refusal of a request, and how a catching up ended.
//!
//! The sessions of a hall, of a zone and of a mirror say them alike. Which of them is said to a
//! request is for the session; nothing here asks a list. `specs/Says.antt` tells when an answer or
//! a reply is said; `specs/Ends.antt` has the replies of a catching up.
#![tactic(auto)]

mod ends;
mod refusing;
mod telling;

pub use ends::{EndTold, say_end};
pub use refusing::{refuse, say_fault, say_run_fault};
pub use telling::{append_answer, say, say_fetched, version_within};
