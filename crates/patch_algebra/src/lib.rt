//! Net patches and inverses.
//!
//! A net patch does what a run of patches does to a dataset, by the fewest changes: of the changes
//! of each quad and of each prefix in its graph the last one, where it changes the dataset. An
//! inverse undoes a patch. What they are stands in `net_changes`.
#![tactic(auto)]

mod fault;
mod gathering;
mod laws;
mod net;
mod rows;
mod writing;

pub use fault::NetFault;
pub use gathering::{Direction, Gathering};
pub use laws::{nets_decide, squashes_keep_streams, written_patches_are_read};
pub use net::{inverse, net_patch};
