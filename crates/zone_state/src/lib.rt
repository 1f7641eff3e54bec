//! A follower's copy: the patches that it took stand on its disk, and beside them it keeps their
//! ids and the dataset that they make.
//!
//! A zone takes the next patch of a chain or says why not. What it has taken stands in every image
//! that a crash may leave.
#![tactic(auto)]

mod answer;
mod doubt;
mod fault;
mod file;
mod ids;
mod kept;
mod laws;
mod opening;
mod zone;

pub use answer::TakeAnswer;
pub use doubt::Doubtful;
pub use fault::{ZoneFault, ZoneRefusal};
pub use file::ZONE_NUMBER;
pub use ids::Ids;
pub use kept::Kept;
pub use laws::{zones_are_found_again, zones_decide_as_logs, zones_stand_as_logs};
pub use opening::Reading;
pub use zone::Zone;
