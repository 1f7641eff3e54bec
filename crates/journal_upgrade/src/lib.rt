//! Brings files of the old form to the new one.
//!
//! The payloads of the files are copied to spares in the new form, a marker says that the spares
//! are whole, the files are written anew from them, and the marker is emptied. A crash at any
//! moment leaves the payloads whole in the files or, under the marker, in their spares; the
//! upgrade is then made again.
#![tactic(auto)]

mod copying;
mod fault;
mod filling;
mod marking;
mod restoring;
mod set;
mod upgrade;

pub use fault::UpgradeFault;
pub use filling::fill_spares;
pub use marking::{mark, unmark};
pub use restoring::overwrite_files;
pub use set::{Disks, UpgradeSet};
pub use upgrade::{Upgraded, upgrade_files};
