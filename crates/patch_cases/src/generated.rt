//! Streams that are made by rule.
ghost use Rattle.std.specs.Prelude.{◌≤◌};

use case_scripts::{Answer, Words};
use delta_base::Source;
use std::alloc::Global;
use stream_generator::{GeneratedSource, patch_text};

// The number at a place, up to that of the last patch that is made.
fn number(words: &Words, place: usize) -> u32
    ensures { result ≤ 65536 }
{
    match words.number(place) {
        Some(number) if number < 65_536 => number as u32,
        Some(_) => 65_536,
        None => 0,
    }
}

/// `generated N`: the text of the patch of this number.
pub(crate) fn generated(alloc: Global, words: &Words, answer: &mut Answer) {
    match patch_text(alloc, number(words, 1).max(1)) {
        Ok(text) => answer.push(text.as_slice()),
        Err(_) => answer.push(b"out of memory"),
    }
}

/// `emitted N READS`: what a stream of N patches gives in so many reads of at most 50 bytes.
pub(crate) fn emitted(alloc: Global, words: &Words, answer: &mut Answer) {
    let mut source = GeneratedSource::new(alloc, number(words, 1));
    let mut into = [0; 50];
    for _ in 0..number(words, 2) {
        match source.read(&mut into) {
            Ok(count) => answer.push(into.get(..count).unwrap_or(b"")),
            Err(_) => answer.push(b"read failed"),
        }
    }
    drop(source);
}
