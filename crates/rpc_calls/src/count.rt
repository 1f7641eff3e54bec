//! How many values a body has, before any is made.

/// The most values of a body that is read. Each may take some 330 bytes, where its text has two.
pub(crate) const MOST_VALUES: usize = 8_192;

/// What the next byte of a JSON text belongs to.
#[derive(Clone, Copy)]
enum Place {
    Outside,
    InString,
    /// Behind the backslash of an escape.
    Escaped,
}

// Where the byte behind this one stands.
fn place_behind(place: Place, byte: u8) -> Place {
    match (place, byte) {
        (Place::Outside, b'"') => Place::InString,
        (Place::InString, b'"') => Place::Outside,
        (Place::InString, b'\\') => Place::Escaped,
        (Place::Escaped, _) => Place::InString,
        (place, _) => place,
    }
}

/// Whether a body has more values than are read, by the bytes outside its strings that begin or
/// part values.
pub(crate) fn has_too_many_values(body: &[u8]) -> bool {
    let mut place = Place::Outside;
    let mut count = 0usize;
    for byte in body {
        if matches!((place, *byte), (Place::Outside, b',' | b'[' | b'{')) {
            count = count.saturating_add(1);
        }
        place = place_behind(place, *byte);
    }
    count > MOST_VALUES
}
