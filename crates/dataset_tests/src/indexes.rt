//! Keys in six orders, beside walks over all keys.
ghost use Rattle.std.specs.Prelude.{◌≡◌, ◌<◌};

use delta_base::OutOfMemory;
use quad_index::{KeyPattern, QuadIndex, QuadKey, Steps};
use std::alloc::Global;
use std::marker::Brand;
use std::process::Abort;
use std::sync::ledger::{Blank, Ledger};
use std::test::Fail;

// The key of a number, whose parts are below 3.
fn key_of(number: u32) -> QuadKey {
    QuadKey {
        g: number / 27 % 3,
        s: number / 9 % 3,
        p: number / 3 % 3,
        o: number % 3,
    }
}

// Two thirds of the keys.
fn is_chosen(key: &QuadKey) -> bool {
    (key.g % 3 + 2 * (key.s % 3) + key.p % 3 + key.o % 3) % 3 != 0
}

// A new key is inserted. Where memory is wanting it isn't there, and comes in at a second try.
fn insert(rt: &impl Abort, index: &mut QuadIndex, key: QuadKey) {
    let mut added = index.insert(key);
    if added.is_err() {
        assert!(rt; !index.contains(&key));
        added = index.insert(key);
    }
    assert!(rt; added == Ok(true));
    assert!(rt; index.contains(&key));
    assert!(rt; index.insert(key) == Ok(false));
}

// The chosen keys, the last ones first.
fn fill(rt: &impl Abort, index: &mut QuadIndex) {
    for number in 0..81 {
        let key = key_of(80 - number);
        if is_chosen(&key) {
            insert(rt, index, key);
        }
    }
}

// A part that is free or has a number, which at the last one no key has.
fn part(choice: u32) -> Option<u32> {
    match choice % 4 {
        0 => None,
        1 => Some(0),
        2 => Some(1),
        _ => Some(3),
    }
}

fn pattern_of(number: u32) -> KeyPattern {
    KeyPattern {
        g: part(number / 64),
        s: part(number / 16),
        p: part(number / 4),
        o: part(number),
    }
}

fn fits(part: Option<u32>, number: u32) -> bool {
    part.is_none() || part == Some(number)
}

fn fits_key(pattern: &KeyPattern, key: &QuadKey) -> bool {
    fits(pattern.g, key.g)
        && fits(pattern.s, key.s)
        && fits(pattern.p, key.p)
        && fits(pattern.o, key.o)
}

// Whether these are the keys that a walk over all finds, each once.
fn are_those(found: &[QuadKey], all: &[QuadKey], pattern: &KeyPattern) -> bool {
    let mut left = found.len();
    for key in all {
        if fits_key(pattern, key) {
            if left == 0 || !found.contains(key) {
                return false;
            }
            left -= 1;
        }
    }
    left == 0
}

fn finds<L: Ledger>(
    index: &mut QuadIndex,
    all: &[QuadKey],
    pattern: &KeyPattern,
    steps: &mut Steps<L>,
) -> Result<bool, OutOfMemory> {
    let found = index.matching(pattern, steps)?;
    Ok(are_those(found.as_slice(), all, pattern))
}

// Whether each pattern finds what a walk finds: each part is free, or bound in three ways.
fn all_found<L: Ledger>(
    index: &mut QuadIndex,
    all: &[QuadKey],
    blank: Blank,
) -> Result<bool, OutOfMemory>
    requires name { blank.name ≡ L.name }
    requires parts { blank.parts ≡ L.parts }
    requires some { 0 < L.parts }
{
    let mut steps = Steps::<L>::new(blank);
    for number in 0..256 {
        if !finds(index, all, &pattern_of(number), &mut steps)? {
            return Ok(false);
        }
    }
    Ok(true)
}

// The index has these keys alone, by whichever pattern they are asked for. The first search over an
// order makes it.
fn has_all(rt: &impl Abort, index: &mut QuadIndex, keys: &[QuadKey]) -> Result<(), OutOfMemory> {
    let all = index.all()?;
    assert!(rt; all.as_slice() == keys);
    assert!(rt; all_found::<Brand>(index, keys, Blank::new(1))?);
    Ok(())
}

fn remove(rt: &impl Abort, index: &mut QuadIndex, keys: &[QuadKey]) {
    for key in keys {
        assert!(rt; index.remove(key));
        assert!(rt; !index.remove(key));
        assert!(rt; !index.contains(key));
    }
}

fn searched(rt: &impl Abort, index: &mut QuadIndex) -> Result<(), OutOfMemory> {
    fill(rt, index);
    let all = index.all()?;
    assert!(rt; all.len() == 54);
    assert!(rt; all.as_slice().is_sorted());
    has_all(rt, index, all.as_slice())?;
    let (gone, left) = all.as_slice().split_at(20);
    remove(rt, index, gone);
    has_all(rt, index, left)?;
    for key in gone {
        insert(rt, index, *key);
    }
    has_all(rt, index, all.as_slice())
}

fn keys_are_searched(rt: &impl Abort, alloc: Global) -> Result<(), OutOfMemory> {
    let mut index = QuadIndex::new(alloc);
    let searched = searched(rt, &mut index);
    drop(index);
    searched
}

#[test]
fn all_patterns_find_what_a_walk_finds(rt: HostRuntime) -> Result<(), Fail> {
    if keys_are_searched(&rt, rt.alloc()).is_err() {
        keys_are_searched(&rt, rt.alloc())?;
    }
    Ok(())
}
