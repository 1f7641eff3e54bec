//! Values that are made of words. Where memory is wanting they are empty, and the line differs.
use case_scripts::{Answer as Told, Words};
use delta_base::{Bytes, Calls, OutOfMemory, Text};
use std::alloc::Global;

/// These bytes.
pub(crate) fn bytes_of(alloc: Global, bytes: &[u8]) -> Bytes {
    match Bytes::from_slice(alloc, bytes) {
        Ok(bytes) => bytes,
        Err(_) => Bytes::from_vec(Vec::new(alloc)),
    }
}

/// The word at a place, as text.
pub(crate) fn word(words: &Words, place: usize) -> &str {
    str::from_utf8(words.bytes(place)).unwrap_or("")
}

/// The text at a place.
pub(crate) fn text_at(alloc: Global, words: &Words, place: usize) -> Text {
    match Text::from_str(alloc, word(words, place)) {
        Ok(text) => text,
        Err(_) => Text::from_string(String::new(alloc)),
    }
}

/// The numbers of the calls that fail: one, or none.
pub(crate) fn calls(alloc: Global, number: Option<u64>) -> Calls {
    let mut calls = Calls::new(alloc);
    if let Some(number) = number {
        let _ = calls.push(number);
    }
    calls
}

/// Tells a text that was made, if there was memory for it.
pub(crate) fn tell_text(text: Result<Bytes, OutOfMemory>, told: &mut Told) {
    match text {
        Ok(text) => told.push(text.as_slice()),
        Err(_) => told.push(b"out of memory"),
    }
}
