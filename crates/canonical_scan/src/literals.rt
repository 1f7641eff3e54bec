//! What stands behind a string in a literal.

ghost use Rattle.std.specs.Prelude.{◌≡◌, ◌≤◌, ◌&&◌, not, length, IfSome};
ghost use Rattle.std.specs.Str.{bytes_eq};
ghost use Rattle.rdf_terms.specs.Datatype.{xsd_string, lang_string};
ghost use Rattle.canonical_scan.specs.Parts.{HasKind};

use crate::iris::iri_close;
use crate::tags::tag_end;

/// Whether the IRI is neither xsd:string, which isn't written, nor rdf:langString, which needs a
/// tag.
fn is_datatype(iri: &[u8]) -> bool
    ensures { result ≡ (not (bytes_eq iri.now xsd_string) && not (bytes_eq iri.now lang_string)) }
{
    iri != b"http://www.w3.org/2001/XMLSchema#string".as_slice()
        && iri != b"http://www.w3.org/1999/02/22-rdf-syntax-ns#langString".as_slice()
}

/// The place behind `^^` and a datatype.
fn datatype_end(text: &[u8], at: usize) -> Option<usize>
    requires { at ≤ length text.now }
    ensures { IfSome result (HasKind text.now at) }
{
    if text.len() - at < 3 || text[at] != b'^' || text[at + 1] != b'^' || text[at + 2] != b'<' {
        return None;
    }
    let close = iri_close(text, at + 3)?;
    if is_datatype(&text[at + 3..close]) {
        return Some(close + 1);
    }
    None
}

/// The place behind `@` and a language tag.
fn language_end(text: &[u8], at: usize) -> Option<usize>
    requires { at ≤ length text.now }
    ensures { IfSome result (HasKind text.now at) }
{
    if at == text.len() || text[at] != b'@' {
        return None;
    }
    tag_end(text, at + 1)
}

/// The place behind a language tag or a datatype, or this place where there is neither.
pub fn kind_end(text: &[u8], at: usize) -> Option<usize>
    requires { at ≤ length text.now }
    ensures { IfSome result (HasKind text.now at) }
{
    if at == text.len() {
        return None;
    }
    match text[at] {
        b'^' => datatype_end(text, at),
        b'@' => language_end(text, at),
        _ => Some(at),
    }
}
