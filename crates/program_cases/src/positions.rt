//! Words as positions.
use crate::arguments::strings_of;
use case_scripts::{Answer, Words};
use command_tables::{WordsFault, read_words};
use std::alloc::Global;

// Writes the values, each in brackets.
fn tell(values: Result<Vec<&str>, WordsFault>, answer: &mut Answer) {
    match values {
        Ok(values) => {
            answer.push(b"values ");
            for value in &values {
                answer.push(b"[");
                answer.push(value.as_bytes());
                answer.push(b"]");
            }
        }
        Err(WordsFault::Usage) => answer.push(b"usage"),
        Err(WordsFault::OutOfMemory) => answer.push(b"out of memory"),
    }
}

/// `positions COUNT COMMAND WORD ..`: the values of so many positions, none, one or three, behind a command.
pub(crate) fn positions(alloc: Global, words: &Words, answer: &mut Answer) {
    let end = words.count().saturating_add(1);
    let Ok(made) = strings_of(alloc, words, 2, end) else {
        return answer.push(b"out of memory");
    };
    if made.is_empty() {
        return answer.push(b"no command");
    }
    match words.number(1) {
        Some(0) => tell(read_words(alloc, &[], &made), answer),
        Some(1) => tell(read_words(alloc, &["N"], &made), answer),
        _ => tell(read_words(alloc, &["DIR", "ADDR", "NAME"], &made), answer),
    }
}
