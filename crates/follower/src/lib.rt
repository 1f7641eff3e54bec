//! A zone that catches up with a log of a server, as a replica of `catch_up`.
//!
//! It stands on one file or on two, and `specs/Footing.antt` says what differs between them.
//! `specs/Calls.antt` says which calls are made (what is sent and answered on which connections is
//! said by `Exchanged` of `delta_client`); `specs/Grown.antt` what a zone has gone through then;
//! `specs/Syncing.antt` why catching up ended, and `specs/Causes.antt` the cause of each end.
//! `specs/Chains.antt` says what follows where the peer answers as a log does.
#![tactic(auto)]

mod ends;
mod laws;
mod own_zone;
mod syncing;
mod taking;
mod zones;

pub use ends::{SyncEnd, TextRefusal};
pub use laws::{catching_up_completes, ends_have_causes, followers_follow, runs_are_syncs};
pub use syncing::{sync, sync_end};
pub use zones::Follower;
