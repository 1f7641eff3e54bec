//! The world of one log: what happens to it and to its zones, what it sends, and what a crash
//! leaves, for every list of events.
//!
//! `specs/World.antt` says what events make of a world, over plain lists. `world_run` makes that
//! world by the calls of logs and zones over disks whose syncs fail as planned. The laws hold of
//! every list of events. `specs/Mirrors.antt` and `mirror_run` are the same of a world with a
//! mirror.
#![tactic(auto)]

mod disks;
mod event;
mod laws;
mod log;
mod message;
mod mirror;
mod plan;
mod world;
mod zone;
mod zones;

pub use event::{WorldEvent, WorldEvents};
pub use laws::{
    accepted_patches_stay, chains_stay_chains, mirrors_follow, served_patches_stay, zones_follow,
};
pub use log::{LOG_NUMBER, LogPart};
pub use message::{Message, Messages};
pub use mirror::{MirrorEvent, MirrorEvents, MirrorWorld, mirror_run};
pub use world::{World, world_run};
pub use zone::ZonePart;
pub use zones::ZoneParts;
