//! What the calls that ask a log answer.
use chain_core::Patch;

/// A patch, or that the log of this length has no such one.
#[derive(Debug, Drop)]
pub enum Fetched {
    Found { patch: Patch },
    Missing { version: u32 },
}
