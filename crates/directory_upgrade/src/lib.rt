//! Brings the files of a directory to the new form: those of a registry and its logs, or those of
//! a zone.
//!
//! Each file has a spare of its number plus 2000 in the same directory, and the set a marker. All
//! of their disks are held until the upgrade has ended.
#![tactic(auto)]

mod directory;
mod fault;
mod putting;
mod slots;
mod taking;
mod zone;

pub use directory::upgrade_directory;
pub use fault::check_fault;
pub use zone::upgrade_zone;
