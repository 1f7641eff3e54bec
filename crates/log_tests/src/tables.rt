//! What the tests run on, and where in a table they are.
use delta_base::{Calls, Listing};
use std::alloc::Global;
use std::process::Abort;

/// The file of a log without patches.
pub const EMPTY: &[u8] = b"RDJ2\0\0\0\x01\0";

/// A step of a case of a table.
#[derive(Clone, Copy)]
pub struct Place {
    /// What the case shows.
    pub shows: &'static str,
    pub step: usize,
}

/// What was found at a place is what stands there.
pub fn is<T: PartialEq>(rt: &impl Abort, at: Place, found: &T, wanted: &T) {
    assert!(rt; found == wanted, "{}: step {}", at.shows, at.step);
}

/// The same of bytes.
pub fn are_bytes(rt: &impl Abort, at: Place, found: &[u8], wanted: &[u8]) {
    assert!(rt; found == wanted, "{}: step {}", at.shows, at.step);
}

pub fn no_calls(alloc: Global) -> Calls {
    Listing::new(alloc)
}
