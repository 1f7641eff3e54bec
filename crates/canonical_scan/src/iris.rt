//! IRIs.

ghost use Rattle.std.specs.Prelude.{◌≤◌, length, IfSome};
ghost use Rattle.canonical_scan.specs.Parts.{Between, Closed, InIri, IsIriText};

use crate::chars::long_char_end;
use nquads_text::plain_iri_end;
use rdf_terms::has_scheme;

/// The end of the characters from a place on that an IRI may hold.
fn iri_chars_end(text: &[u8], from: usize) -> usize
    requires { from ≤ length text.now }
    ensures { Between InIri text.now from result }
{
    let mut at = from;
    loop {
        let run = plain_iri_end(text, at);
        match long_char_end(text, run) {
            None => return run,
            Some(next) => at = next,
        }
    }
}

/// The place of the `>` that closes the IRI at a place.
pub fn iri_close(text: &[u8], at: usize) -> Option<usize>
    requires { at ≤ length text.now }
    ensures { IfSome result (Closed IsIriText 62 text.now at) }
{
    let end = iri_chars_end(text, at);
    if end < text.len() && text[end] == b'>' && has_scheme(&text[at..end]) {
        return Some(end);
    }
    None
}
