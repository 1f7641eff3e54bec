//! One term, read and printed.
ghost use Rattle.std.specs.Prelude.{◌≤◌, length};

use case_scripts::{Answer, Words};
use nquads_text::{ReadFault, copy_term, print_term, read_term};
use std::alloc::Global;
use std::fmt::Write;

/// Writes a fault and its place.
pub(crate) fn tell_fault(fault: ReadFault, answer: &mut Answer) {
    let _ = match fault {
        ReadFault::At { at, kind } => write!(answer, "byte {at}: {}", kind.name()),
        ReadFault::OutOfMemory => write!(answer, "out of memory"),
    };
}

/// The place in a text that a word tells, or its end where the text is shorter.
pub(crate) fn place_in(text: &[u8], told: Option<u64>) -> usize
    ensures { result ≤ length text.now }
{
    match told {
        Some(place) if place < text.len() as u64 => place as usize,
        Some(_) => text.len(),
        None => 0,
    }
}

// The canonical text of the term that stands at a place, as it is printed, and where the term ends.
fn printed(alloc: Global, text: &[u8], at: usize) -> Result<(Vec<u8>, usize), ReadFault>
    requires { at ≤ length text.now }
{
    let (term, end) = read_term(alloc, text, at)?;
    let printed = print_term(alloc, &term);
    drop(term);
    Ok((printed?.as_bytes().to_vec(alloc)?, end))
}

// The same, as it is copied.
fn copied(alloc: Global, text: &[u8], at: usize) -> Result<(Vec<u8>, usize), ReadFault>
    requires { at ≤ length text.now }
{
    let mut out = Vec::new(alloc);
    let end = copy_term(alloc, text, at, &mut out)?;
    Ok((out, end))
}

/// `term TEXT [PLACE]`: the canonical text and the end of the term that stands there, or its first fault.
pub(crate) fn term(alloc: Global, words: &Words, answer: &mut Answer) {
    let text = words.bytes(1);
    let at = place_in(text, words.number(2));
    let printed = printed(alloc, text, at);
    if printed != copied(alloc, text, at) {
        answer.push(b"a copy that differs from ");
    }
    match printed {
        Ok((printed, end)) => {
            answer.push(printed.as_slice());
            let _ = write!(answer, " to {end}");
        }
        Err(fault) => tell_fault(fault, answer),
    }
}
