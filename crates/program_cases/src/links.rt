//! Links in memory, their content, and which of their calls fail. Where memory is wanting these are empty, and the line
//! differs.
use delta_base::{Bytes, Calls, MemLink};
use std::alloc::Global;

/// The list of this call's number.
pub(crate) fn calls(alloc: Global, number: Option<u64>) -> Calls {
    let mut calls = Calls::new(alloc);
    if let Some(number) = number {
        let _ = calls.push(number);
    }
    calls
}

/// These bytes.
pub(crate) fn bytes_of(alloc: Global, bytes: &[u8]) -> Bytes {
    match Bytes::from_slice(alloc, bytes) {
        Ok(bytes) => bytes,
        Err(_) => Bytes::from_vec(Vec::new(alloc)),
    }
}

/// A link that gives a text in pieces, of which a call may fail.
pub(crate) fn link_of(alloc: Global, text: &[u8], piece: usize, failing: Option<u64>) -> MemLink {
    let content = bytes_of(alloc, text);
    MemLink::new(alloc, content, piece.max(1), calls(alloc, failing))
}
