//! The classes of characters.
use case_scripts::Answer;
use rdf_terms::{begins_name, has_scheme, is_forbidden, is_name_base, is_name_char, is_name_start};

// The words of the classes that a character belongs to.
fn classes(c: char) -> &'static [u8] {
    match (
        is_name_base(c),
        is_name_start(c),
        begins_name(c),
        is_name_char(c),
        is_forbidden(c),
    ) {
        (true, true, true, true, false) => b"base start begins in",
        (false, true, true, true, false) => b"start begins in",
        (false, false, true, true, false) => b"begins in",
        (false, false, false, true, false) => b"in",
        (false, false, false, false, true) => b"forbidden",
        (false, false, false, false, false) => b"none",
        _ => b"classes that do not hold one another",
    }
}

/// `character C`: the classes of a character, from PN_CHARS_BASE on.
pub(crate) fn character(text: &[u8], answer: &mut Answer) {
    let text = str::from_utf8(text).unwrap_or("");
    for c in text.chars() {
        answer.push(classes(c));
    }
}

/// `scheme TEXT`: whether a text begins with a scheme.
pub(crate) fn scheme(text: &[u8], answer: &mut Answer) {
    answer.push(if has_scheme(text) { b"yes" } else { b"no" });
}
