//! Keys and patterns made by rule.
use quad_index::{KeyPattern, QuadKey};

/// The key of a number: some ten keys have one subject, three have one object.
pub fn key_of(number: u32) -> QuadKey {
    let mixed = number.wrapping_mul(2_654_435_761);
    QuadKey {
        g: number % 4,
        s: 1 + (mixed >> 8) % 100_000,
        p: 1 + number % 20,
        o: 1 + mixed % 300_007,
    }
}

/// A pattern that the key of a number matches: by its subject, its subject and predicate, its
/// object, or its predicate and object.
pub fn pattern_of(number: u32) -> KeyPattern {
    let QuadKey { g: _, s, p, o } = key_of(number);
    let kind = number / 4 % 4;
    KeyPattern {
        g: None,
        s: if kind < 2 { Some(s) } else { None },
        p: if kind % 2 == 1 { Some(p) } else { None },
        o: if kind >= 2 { Some(o) } else { None },
    }
}
