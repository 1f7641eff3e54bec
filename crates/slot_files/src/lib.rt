//! Makes the files of a registry and of its logs.
//!
//! The logs' files come first and the registry's last, so that a registry that can be opened has
//! all its logs' files. A file that has bytes is never written.
#![tactic(auto)]

mod fault;
mod journal;
mod logs;
mod making;
mod opening;
mod registry;

pub use fault::InitFault;
pub use journal::format_file;
pub use making::init_slots;
