//! Rows of a text that comes in pieces.
ghost use Rattle.std.specs.Prelude.{◌≡◌};

use crate::rows::tell_fault;
use case_scripts::{Answer, Words};
use patch_reader::{PatchReader, PlacedRow};
use patch_rows::RowFault;
use std::alloc::Global;
use std::fmt::Write;

fn end_of(placed: PlacedRow) -> u64 {
    let end = placed.end;
    drop(placed);
    end
}

// Takes the rows that are ready, up to eight, and writes the places behind them.
fn take_ends(reader: &mut PatchReader, answer: &mut Answer)
    ensures { reader.new.end ≡ reader.old.end }
{
    for _ in 0..8 {
        match reader.take_placed() {
            Some(placed) => {
                let _ = write!(answer, "{} ", end_of(placed));
            }
            None => return,
        }
    }
}

// Writes what a text in pieces comes to.
fn tell(told: Result<(), RowFault>, answer: &mut Answer) {
    match told {
        Ok(()) => answer.push(b"well"),
        Err(fault) => tell_fault(fault, answer),
    }
}

// The places behind the rows of a text that is fed in two pieces, and what it comes to.
fn cut_at(alloc: Global, text: &[u8], at: usize, answer: &mut Answer) {
    let mut reader = PatchReader::new(alloc);
    let (first, second) = text.split_at(at.min(text.len()));
    let _ = reader.feed(first);
    take_ends(&mut reader, answer);
    let _ = reader.feed(second);
    let told = reader.finish();
    take_ends(&mut reader, answer);
    drop(reader);
    tell(told, answer);
}

// The same where each byte is a piece.
fn in_bytes(alloc: Global, text: &[u8], answer: &mut Answer) {
    let mut reader = PatchReader::new(alloc);
    for at in 0..text.len() {
        let _ = reader.feed(&text[at..at + 1]);
        take_ends(&mut reader, answer);
    }
    let told = reader.finish();
    take_ends(&mut reader, answer);
    drop(reader);
    tell(told, answer);
}

/// `pieces TEXT`: the places behind its rows and what it comes to, fed byte by byte. Where it is fed in two pieces it is
/// the same, wherever it is cut.
pub(crate) fn pieces(alloc: Global, text: &[u8], answer: &mut Answer) {
    let mut in_one = Answer::new(alloc);
    in_bytes(alloc, text, &mut in_one);
    for at in 0..text.len() {
        let mut in_two = Answer::new(alloc);
        cut_at(alloc, text, at, &mut in_two);
        if in_two.bytes() != in_one.bytes() {
            let _ = write!(answer, "otherwise cut at {at}, ");
        }
    }
    answer.push(in_one.bytes());
}

/// `feed PIECE ..`: what each piece is answered with the rows that are then ready, and the end, twice.
pub(crate) fn feed(alloc: Global, words: &Words, answer: &mut Answer) {
    let mut reader = PatchReader::new(alloc);
    for place in 0..words.count() {
        let told = reader.feed(words.bytes(place.saturating_add(1)));
        tell(told, answer);
        answer.push(b" ");
        take_ends(&mut reader, answer);
    }
    tell(reader.finish(), answer);
    answer.push(b" ");
    take_ends(&mut reader, answer);
    tell(reader.finish(), answer);
    drop(reader);
}
