//! Terms.

ghost use Rattle.std.specs.Prelude.{◌≤◌, length, IfSome, IsTrue};
ghost use Rattle.canonical_scan.specs.Found.{HasIri, HasNode, HasTerm, HasPlaces};
ghost use Rattle.canonical_scan.specs.Parts.{IsSpaced};

use crate::iris::iri_close;
use crate::labels::label_end;
use crate::literals::kind_end;
use crate::strings::string_end;

/// Where a term ends.
#[derive(Clone, Copy)]
pub struct TermPlaces {
    /// The place behind its string, where it is a literal.
    pub string: Option<usize>,
    pub end: usize,
}

/// Whether a space stands at a place, and behind it a byte that is no blank and no `^`.
#[inline]
fn is_spaced(text: &[u8], at: usize) -> bool
    requires { at ≤ length text.now }
    ensures { IsTrue result → IsSpaced text.now at }
{
    if text.len() - at < 2 || text[at] != b' ' {
        return false;
    }
    let b = text[at + 1];
    if b == b' ' || b == b'\t' || b == b'^' {
        return false;
    }
    true
}

/// The place behind the blank node at a place.
fn blank_end(text: &[u8], at: usize) -> Option<usize>
    requires { at ≤ length text.now }
    ensures { IfSome result (HasNode text.now at) }
{
    if text.len() - at < 2 || text[at] != b'_' || text[at + 1] != b':' {
        return None;
    }
    let end = label_end(text, at + 2)?;
    if is_spaced(text, end) {
        return Some(end);
    }
    None
}

/// Where the literal at a place ends, and its string.
fn literal_places(text: &[u8], at: usize) -> Option<TermPlaces>
    requires { at ≤ length text.now }
    ensures { IfSome result (HasPlaces text.now at) }
{
    let string = string_end(text, at)?;
    let end = kind_end(text, string)?;
    if is_spaced(text, end) {
        return Some(TermPlaces {
            string: Some(string),
            end,
        });
    }
    None
}

/// Where the canonical text of a term ends that stands at a place, where what follows can't go on
/// with it.
pub(crate) fn term_places(text: &[u8], at: usize) -> Option<TermPlaces>
    requires { at ≤ length text.now }
    ensures { IfSome result (HasPlaces text.now at) }
{
    if at < text.len() && text[at] == b'"' {
        return literal_places(text, at);
    }
    let end = node_end(text, at)?;
    Some(TermPlaces { string: None, end })
}

/// The place behind the canonical text of such a term.
pub fn term_end(text: &[u8], at: usize) -> Option<usize>
    requires { at ≤ length text.now }
    ensures { IfSome result (HasTerm text.now at) }
{
    let places = term_places(text, at)?;
    Some(places.end)
}

/// The place behind the canonical text of an IRI or a blank node, where what follows can't go on
/// with it.
pub fn node_end(text: &[u8], at: usize) -> Option<usize>
    requires { at ≤ length text.now }
    ensures { IfSome result (HasNode text.now at) }
{
    if at == text.len() {
        return None;
    }
    match text[at] {
        b'<' => iri_end(text, at),
        _ => blank_end(text, at),
    }
}

/// The same of an IRI.
pub fn iri_end(text: &[u8], at: usize) -> Option<usize>
    requires { at ≤ length text.now }
    ensures { IfSome result (HasIri text.now at) }
{
    if at == text.len() || text[at] != b'<' {
        return None;
    }
    let close = iri_close(text, at + 1)?;
    Some(close + 1)
}
