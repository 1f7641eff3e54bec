//! One row, read and printed. A row is let go by `drop`: where it goes out of scope by itself, the proof of its function
//! takes a minute longer.
use case_scripts::Answer;
use patch_reader::{decided_row, read_row};
use patch_rows::{Row, RowFault, print_row, skip_space};
use row_lines::write_row;
use std::alloc::Global;
use std::fmt::Write;

/// Writes a fault and its place.
pub(crate) fn tell_fault(fault: RowFault, answer: &mut Answer) {
    let _ = match fault {
        RowFault::At { at, kind } => write!(answer, "byte {at}: {}", kind.name()),
        RowFault::OutOfMemory => write!(answer, "out of memory"),
    };
}

// Writes where a row ends, or its fault.
fn tell_end(found: Result<usize, RowFault>, answer: &mut Answer) {
    match found {
        Ok(end) => {
            let _ = write!(answer, "to {end}");
        }
        Err(fault) => tell_fault(fault, answer),
    }
}

/// `space TEXT`: the place behind the white space and the comments at the front.
pub(crate) fn space(text: &[u8], answer: &mut Answer) {
    let _ = write!(answer, "to {}", skip_space(text, 0));
}

// Writes the canonical text of a copy of a row, which goes.
fn tell_row(alloc: Global, row: Row, answer: &mut Answer) {
    let copy = row.copy();
    drop(row);
    if let Ok(copy) = copy {
        if let Ok(line) = print_row(alloc, &copy) {
            answer.push(line.as_bytes());
        }
        drop(copy);
    }
}

/// `row TEXT`: the canonical text and the end of the first row, or its first fault.
pub(crate) fn row(alloc: Global, text: &[u8], answer: &mut Answer) {
    let at = skip_space(text, 0);
    if at == text.len() {
        return answer.push(b"none");
    }
    match read_row(alloc, text, at) {
        Ok((row, end)) => {
            tell_row(alloc, row, answer);
            let _ = write!(answer, " to {end}");
        }
        Err(fault) => tell_fault(fault, answer),
    }
}

// Where the row at the front ends, or none where more text decides.
fn decided_end(alloc: Global, text: &[u8]) -> Result<Option<usize>, RowFault> {
    match decided_row(alloc, text, 0) {
        Ok(Some((row, end))) => {
            drop(row);
            Ok(Some(end))
        }
        Ok(None) => Ok(None),
        Err(fault) => Err(fault),
    }
}

/// `decided TEXT`: where the row ends that the text decides, its fault, or that it waits for more text.
pub(crate) fn decided(alloc: Global, text: &[u8], answer: &mut Answer) {
    match decided_end(alloc, text).transpose() {
        Some(found) => tell_end(found, answer),
        None => answer.push(b"waits"),
    }
}

// Where the first row of a whole text ends.
fn whole_end(alloc: Global, text: &[u8]) -> Result<usize, RowFault> {
    let at = skip_space(text, 0);
    if at == text.len() {
        return Err(RowFault::OutOfMemory);
    }
    match read_row(alloc, text, at) {
        Ok((row, end)) => {
            drop(row);
            Ok(end)
        }
        Err(fault) => Err(fault),
    }
}

/// `fronts TEXT`: what its first row comes to. Each front of the text that decides a row decides this one, and so does
/// each longer front.
pub(crate) fn fronts(alloc: Global, text: &[u8], answer: &mut Answer) {
    let whole = whole_end(alloc, text);
    let mut is_decided = false;
    for size in 0..text.len() {
        match decided_end(alloc, &text[..size + 1]).transpose() {
            Some(found) if found == whole => is_decided = true,
            None if !is_decided => {}
            _ => {
                let _ = write!(answer, "otherwise at {size}, ");
            }
        }
    }
    if !is_decided {
        answer.push(b"never decided, ");
    }
    tell_end(whole, answer);
}

/// `written TEXT`: whether the row in front adds or deletes a quad, where it ends, and the quad's line, which is written
/// while the row is read.
pub(crate) fn written(alloc: Global, text: &[u8], answer: &mut Answer) {
    let mut line = Vec::new(alloc);
    match write_row(alloc, text, 0, &mut line) {
        Ok(Some(row)) => {
            let change = if row.adds { "adds" } else { "deletes" };
            let _ = write!(answer, "{change} to {}: ", row.end);
            answer.push(&line);
        }
        Ok(None) => answer.push(b"none"),
        Err(_) => answer.push(b"out of memory"),
    }
}
