//! Commands that ask a server over a connection of their own, and what they print.
//!
//! `specs/Answers.antt` says what is printed of an answer, and why there is nothing to print;
//! `specs/Asks.antt` says which calls a command makes. Over which connections they go, what is
//! sent on them and which replies are read is said by `Exchanged` of `delta_client`.
#![tactic(auto)]

mod commands;
mod fault;
mod printed;

pub use commands::{ask_once, describe};
pub use fault::ClientFault;
