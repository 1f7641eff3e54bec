//! What is measured. Each gives how many keys it met.
ghost use Rattle.std.specs.Prelude.{◌≡◌, ◌<◌};

use crate::keys::{key_of, pattern_of};
use delta_base::OutOfMemory;
use quad_index::{QuadIndex, Steps};
use std::sync::ledger::{Blank, Ledger};

/// Inserts the keys of so many numbers, and counts those that are new.
pub fn insert_keys(index: &mut QuadIndex, count: u32) -> Result<u32, OutOfMemory> {
    let mut new: u32 = 0;
    for number in 0..count {
        if index.insert(key_of(number))? {
            new = new.saturating_add(1);
        }
    }
    Ok(new)
}

/// Matches the patterns of so many numbers, and counts what is found.
pub fn match_keys<L: Ledger>(
    index: &mut QuadIndex,
    count: u32,
    blank: Blank,
) -> Result<usize, OutOfMemory>
    requires name { blank.name ≡ L.name }
    requires parts { blank.parts ≡ L.parts }
    requires some { 0 < L.parts }
{
    let mut steps = Steps::<L>::new(blank);
    let mut found: usize = 0;
    for number in 0..count {
        let keys = index.matching(&pattern_of(number), &mut steps)?;
        found = found.saturating_add(keys.len());
    }
    Ok(found)
}

/// Removes the keys of so many numbers, and counts those that were there.
pub fn remove_keys(index: &mut QuadIndex, count: u32) -> u32 {
    let mut removed: u32 = 0;
    for number in 0..count {
        if index.remove(&key_of(number)) {
            removed = removed.saturating_add(1);
        }
    }
    removed
}
