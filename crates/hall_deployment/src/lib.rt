//! The promise of the whole, for the registry and all logs of a hall at once.
//!
//! `deployment` says it of one log, by runs of a server that are data: each pass's calls on that
//! log, with what it showed before and behind each. This crate shows such runs: what a session
//! ensures has these calls of the log of each slot and of the registry (`specs/Seen.antt`), and a
//! hall that was opened, served, and closed or killed has a run of each (`specs/Halls.antt`).
#![tactic(auto)]

mod laws;

pub use laws::{
    hall_runs_are_registry_runs, hall_runs_are_runs, halls_keep_their_promise,
    halls_keep_their_registry, idle_servers_show_runs, servers_show_runs, sessions_ask_by_name,
    sessions_show_calls, sessions_show_steps,
};
