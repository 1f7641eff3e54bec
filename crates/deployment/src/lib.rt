//! The promise of the whole, as one law: for every history of a log's deployment.
//!
//! `specs/History.antt` says what such a history is: runs of the server, one after another, each
//! on the image that the run before left at its stop, each with any calls of its passes. It is
//! built of the relations that the contracts of `shared_log` and `patch_log` ensure.
#![tactic(auto)]

mod laws;

pub use laws::{
    closed_runs_are_runs, deployments_keep_their_promise, followers_follow, killed_runs_are_runs,
    stops_leave_a_log,
};
