//! A follower's copy on two files: the patches that it took stand behind a checkpoint, so that those
//! before it needn't be read again.
//!
//! Of each disk is said what its images hold at any moment. Any two of them are those of the copy,
//! without a common clock of the two disks.
#![tactic(auto)]

mod answer;
mod fault;
mod making;
mod zone;

pub use answer::CheckEnd;
pub use fault::{PairFault, PairRefusal};
pub use zone::PairedZone;
