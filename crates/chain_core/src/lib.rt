//! Chains of accepted patches, what is decided of one more, and what an append may come to.
#![tactic(auto)]

mod answer;
mod chain;
mod deciding;
mod fate;
mod id_index;
mod laws;
mod lookup;
mod sent;
mod testing;

pub use answer::{Decision, LogAnswer};
pub use chain::{Chain, Entry, Patch};
pub use deciding::{decide, decide_run};
pub use fate::Fate;
pub use id_index::IdIndex;
pub use laws::{
    chain_of_its_patches_begins_it, chains_have_no_fault, patches_have_one_fault, stays_keep_logs,
    stops_keep_logs,
};
pub use lookup::Lookup;
pub use testing::{ChainFault, ChainTest};
