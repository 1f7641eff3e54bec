//! Texts in pieces.
use crate::streams::{Stream, tell_end};
use case_scripts::Words;
use delta_base::OutOfMemory;
use http_heads::FrameFault;
use std::alloc::{AllocError, Global};

/// How a text is cut: a first piece of so many bytes, and then pieces of one size.
#[derive(Clone, Copy)]
struct Cutting {
    first: usize,
    size: usize,
}

// Gives a text in pieces, up to the first fault.
fn give<S: Stream>(stream: &mut S, text: &[u8], cutting: Cutting) -> Result<(), FrameFault> {
    let (first, rest) = text.split_at(cutting.first.min(text.len()));
    stream.give(first)?;
    for piece in rest.chunks(cutting.size.max(1)) {
        stream.give(piece)?;
    }
    Ok(())
}

// Gives a text in pieces, and tells each message behind it, and how it ends.
fn tell_text<S: Stream>(
    stream: &mut S,
    text: &[u8],
    cutting: Cutting,
    told: &mut Vec<u8>,
) -> Result<(), AllocError> {
    let given = give(stream, text, cutting);
    for _ in 0..=text.len() {
        if !stream.tell_next(told)? {
            break;
        }
    }
    tell_end(stream, given, told)
}

// What a text gives that is cut so.
fn cut<S: Stream>(alloc: Global, text: &[u8], cutting: Cutting) -> Result<Vec<u8>, AllocError> {
    let mut stream = S::start(alloc);
    let mut told = Vec::new(alloc);
    let is_told = tell_text(&mut stream, text, cutting, &mut told);
    drop(stream);
    is_told?;
    Ok(told)
}

// What a text gives whole, byte by byte, and cut at each place; or the first place where it gives something else.
fn cut_anywhere<S: Stream>(alloc: Global, text: &[u8]) -> Result<Vec<u8>, AllocError> {
    let bytes = cut::<S>(alloc, text, Cutting { first: 0, size: 1 })?;
    for first in 0..=text.len() {
        let size = text.len();
        if cut::<S>(alloc, text, Cutting { first, size })? != bytes {
            return Ok(format!(in alloc; "something else where it is cut at {first}")?.into_bytes());
        }
    }
    Ok(bytes)
}

/// `requests TEXT [SIZE]`, `replies TEXT [SIZE]`: the messages that a text gives, however it is cut, or in pieces of
/// one size, and where it ends: `end` between two of them, `cut short` inside one, or a fault.
pub(crate) fn told<S: Stream>(alloc: Global, words: &Words) -> Result<Vec<u8>, OutOfMemory> {
    let text = words.bytes(1);
    match words.number(2) {
        Some(size) => {
            let size = size as usize;
            Ok(cut::<S>(alloc, text, Cutting { first: size, size })?)
        }
        None => Ok(cut_anywhere::<S>(alloc, text)?),
    }
}
