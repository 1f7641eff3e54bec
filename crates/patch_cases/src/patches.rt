//! What the rows of a patch say together, and how a stream is cut.
use case_scripts::Answer;
use delta_base::{Id, id_text};
use log_base::Sent;
use patch_meaning::{Checked, Linked, PatchFault, check_link, check_patch, split_links};
use std::alloc::Global;
use std::fmt::Write;

/// Writes an id, or `none`.
pub(crate) fn tell_id(id: Option<Id>, answer: &mut Answer) {
    match id {
        Some(id) => answer.push(&id_text(id)),
        None => answer.push(b"none"),
    }
}

// Writes a fault and its place.
fn tell_fault(fault: PatchFault, answer: &mut Answer) {
    let _ = match fault {
        PatchFault::At { at, kind } => write!(answer, "byte {at}: {}", kind.name()),
        PatchFault::TooLong { length, limit } => write!(answer, "too long: {length} of {limit}"),
        PatchFault::OutOfMemory => write!(answer, "out of memory"),
    };
}

// Writes what a patch says, and its text.
fn tell_patch(patch: &Checked, answer: &mut Answer) {
    tell_id(Some(patch.id()), answer);
    answer.push(b" behind ");
    tell_id(patch.prev(), answer);
    let _ = write!(answer, " with {} changes: ", patch.changes().len());
    answer.push(patch.text().as_slice());
}

// The same of a copy of a patch, which goes.
fn tell_copy(patch: Checked, answer: &mut Answer) {
    let copy = patch.copy();
    drop(patch);
    if let Ok(copy) = copy {
        tell_patch(&copy, answer);
        drop(copy);
    }
}

/// `patch TEXT`: its ids, how many changes it has and its text, or its first fault. Read for its ids alone it has the same.
pub(crate) fn patch(alloc: Global, text: &[u8], answer: &mut Answer) {
    let link = check_link(alloc, text);
    match check_patch(alloc, text) {
        Ok(patch) => {
            if link != Ok(patch.link()) {
                answer.push(b"otherwise by its ids, ");
            }
            tell_copy(patch, answer);
        }
        Err(fault) => {
            if link != Err(fault) {
                answer.push(b"otherwise by its ids, ");
            }
            tell_fault(fault, answer);
        }
    }
}

// Writes what the text of a patch of a stream says as a patch by itself.
fn tell_linked(alloc: Global, patch: &Linked, answer: &mut Answer) {
    match check_patch(alloc, patch.text()) {
        Ok(alone) => {
            if alone.link() != patch.link() {
                answer.push(b"otherwise by its ids, ");
            }
            tell_patch(&alone, answer);
            drop(alone);
        }
        Err(fault) => tell_fault(fault, answer),
    }
}

/// `stream TEXT`: its patches, each with its text and a line feed, or its first fault.
pub(crate) fn stream(alloc: Global, text: &[u8], answer: &mut Answer) {
    match split_links(alloc, text) {
        Ok(patches) => {
            for patch in patches.as_slice() {
                tell_linked(alloc, patch, answer);
                answer.push(b"\n");
            }
            let _ = write!(answer, "{} patches", patches.len());
            drop(patches);
        }
        Err(fault) => tell_fault(fault, answer),
    }
}
