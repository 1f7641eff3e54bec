//! The scans that spare a reading: that they find what they are for. No contract asks for that.
use case_scripts::{Answer, Words};
use patch_reader::RowWindow;
use patch_rows::{Row, TextEnd, print_row};
use rdf_terms::Change;
use row_scan::{MadeRow, Says, made_row, scan_row};
use std::alloc::Global;
use std::fmt::Write;

/// `scan TEXT`: what the scan finds at the front, and the place behind it.
pub(crate) fn scan(text: &[u8], answer: &mut Answer) {
    let Some(row) = scan_row(text, 0) else {
        return answer.push(b"none");
    };
    let _ = match row.says {
        Says::Quad { adds: true, line } => write!(answer, "adds the line at {line}"),
        Says::Quad { adds: false, line } => write!(answer, "deletes the line at {line}"),
        Says::Begin => write!(answer, "begins a block"),
        Says::Commit => write!(answer, "keeps a block"),
        Says::Abort => write!(answer, "ends a block"),
        Says::Id(_) => write!(answer, "names its id"),
        Says::Prev(_) => write!(answer, "names the id before"),
    };
    let _ = write!(answer, ", to {}", row.end);
}

/// `make TEXT`: the canonical text of the row at the front, of which the scan made the quad.
pub(crate) fn make(alloc: Global, text: &[u8], answer: &mut Answer) {
    let Ok(Some(MadeRow { row, quad })) = made_row(alloc, text, 0) else {
        return answer.push(b"none");
    };
    let change = Row::Change(if row.adds {
        Change::Add(quad)
    } else {
        Change::Delete(quad)
    });
    if let Ok(line) = print_row(alloc, &change) {
        answer.push(line.as_bytes());
    }
    drop(change);
}

// Writes where the next row begins, where the window knows.
fn tell_place(window: &RowWindow, answer: &mut Answer) {
    let _ = match window.row_place() {
        Some(place) => write!(answer, "{place} "),
        None => write!(answer, "- "),
    };
}

// Reads the rows that are decided, up to eight, and writes where the next one begins behind each.
fn read_rows(window: &mut RowWindow, answer: &mut Answer) {
    for _ in 0..8 {
        match window.next(TextEnd::Open) {
            Ok(Some(row)) => drop(row),
            _ => return,
        }
        tell_place(window, answer);
    }
}

/// `places PIECE ..`: where the next row begins behind each piece, and behind each row that is then read, as far as the
/// window knows.
pub(crate) fn places(alloc: Global, words: &Words, answer: &mut Answer) {
    let mut window = RowWindow::new(alloc);
    for place in 0..words.count() {
        if window.push(words.bytes(place.saturating_add(1))).is_err() {
            answer.push(b"out of memory");
        }
        tell_place(&window, answer);
        read_rows(&mut window, answer);
    }
    drop(window);
}
