//! One log: the list of its patches with an index by id, and its tail, the journal on a disk.
#![tactic(auto)]

mod appending;
mod fault;
mod indexed;
mod laws;
mod next_fault;
mod opening;
mod reading;
mod ready;
mod run;
mod state;
mod tail;

pub use appending::{append, append_all, append_made};
pub use fault::{LogFault, LogRefusal};
pub use indexed::IndexedChain;
pub use laws::{logs_are_found_again, logs_have_no_fault};
pub use next_fault::NextFault;
pub use reading::{check_run, read_patch, read_run};
pub use ready::Ready;
pub use run::{Run, RunFault};
pub use state::LogState;
pub use tail::LogTail;
