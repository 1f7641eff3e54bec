//! A journal on two files, one of which is current: opened, appended to, and begun anew in the
//! other file.
//!
//! Of each disk is said what its images hold at any moment, so that any two of them can be told
//! together without a common clock of the two disks.
#![tactic(auto)]

mod appending;
mod files;
mod renewing;

pub use appending::append;
pub use files::{Files, in_order};
pub use renewing::renew;
