//! The promise of a registry, as one law: for every history of its life.
//!
//! `specs/History.antt` says what such a history is: runs of the server, one after another, each
//! on the image that the run before left at its stop, each with any calls of its passes. It is
//! built of the relations that the contracts of `shared_registry` and `log_registry` ensure.
#![tactic(auto)]

mod laws;

pub use laws::{
    closed_registry_runs_are_runs, killed_registry_runs_are_runs, registries_keep_their_promise,
    slots_are_never_used_again, stops_leave_a_registry,
};
