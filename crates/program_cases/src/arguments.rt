//! The words behind a command, as numbers and as words of a command line.
use case_scripts::Words;
use delta_base::OutOfMemory;
use std::alloc::Global;

/// The number at a place; 0 where there is none of 32 bits.
pub(crate) fn number_at(words: &Words, place: usize) -> u32 {
    u32::try_from(words.number(place).unwrap_or(0)).unwrap_or(0)
}

/// The words from a place on, up to that of another.
pub(crate) fn strings_of(
    alloc: Global,
    words: &Words,
    from: usize,
    end: usize,
) -> Result<Vec<String>, OutOfMemory> {
    let mut strings = Vec::new(alloc);
    for place in from..end {
        strings.push(String::from_utf8_lossy(alloc, words.bytes(place))?)?;
    }
    Ok(strings)
}
