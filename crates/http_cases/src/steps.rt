//! Requests in given pieces, and what each piece gives.
use crate::streams::{Stream, tell_end};
use case_scripts::Words;
use delta_base::OutOfMemory;
use http_text::RequestReader;
use std::alloc::{AllocError, Global};

// Tells whether the head at the front asks for 100 Continue, as often as it does so.
fn tell_asking(reader: &mut RequestReader, told: &mut Vec<u8>) -> Result<(), AllocError> {
    for _ in 0..3 {
        if reader.take_expect() {
            told.extend_from_slice(b"continue | ")?;
        }
    }
    Ok(())
}

// Gives a piece, and tells what comes of it.
fn tell_piece(
    reader: &mut RequestReader,
    piece: &[u8],
    told: &mut Vec<u8>,
) -> Result<(), AllocError> {
    let given = reader.give(piece);
    tell_asking(reader, told)?;
    for _ in 0..=piece.len() {
        if !reader.tell_next(told)? {
            break;
        }
        tell_asking(reader, told)?;
    }
    tell_end(reader, given, told)
}

fn tell_pieces(
    reader: &mut RequestReader,
    words: &Words,
    told: &mut Vec<u8>,
) -> Result<(), AllocError> {
    for place in 1..=words.count() {
        if place > 1 {
            told.extend_from_slice(b" | ")?;
        }
        tell_piece(reader, words.bytes(place), told)?;
    }
    Ok(())
}

/// `steps PIECE ..`: for each piece the requests that it ends, `continue` before each head that asks for that, and
/// where the stream stands then.
pub(crate) fn told(alloc: Global, words: &Words) -> Result<Vec<u8>, OutOfMemory> {
    let mut reader = RequestReader::new(alloc);
    let mut told = Vec::new(alloc);
    let is_told = tell_pieces(&mut reader, words, &mut told);
    drop(reader);
    is_told?;
    Ok(told)
}
