//! What the commands on a follower's copy read of its two files, which they leave as they were, and
//! how the copy catches up and is written as a checkpoint.
#![tactic(auto)]

mod checkpointing;
mod disks;
mod following;
mod laws;
mod reading;
mod visiting;

pub use checkpointing::{checkpoint_files, checkpoint_zone};
pub use following::{follow_files, follow_zone};
pub use laws::files_follow;
pub use reading::Reading;
pub use visiting::{read_files, read_zone};
