//! The registry that threads share over a turn.
//!
//! Each thread has a pass of its own. A call takes the turn, asks the registry or changes it, and
//! hands the turn on. What each call replies is told by `LegalOnRegistry` in `specs/`.
#![tactic(auto)]

mod laws;
mod names;
mod shared;
mod value;

pub use laws::{
    calls_are_lookups, lookups_add_up, lookups_compose, made_is_on_disk,
    registries_are_closed_at_each_moment,
};
pub use names::{Names, RegistryPass};
pub use shared::SharedRegistry;
pub use value::{RegistryFixed, RegistryValue};
