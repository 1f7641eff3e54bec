//! The program's command `serve`: workers over a hall and its files.
//!
//! `run_server` opens the hall of a directory's files and has each worker serve the connections of
//! its own gate. `specs/Ends.antt` says what it answers, and why; `specs/Serving.antt` what it has
//! done by then.
#![tactic(auto)]

mod files;
mod opening;
mod server;
mod words;

pub use server::{Served, run_server};
pub use words::{Serve, read_serve};
