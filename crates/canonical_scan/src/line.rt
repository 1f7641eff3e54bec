//! Lines of quads.

ghost use Rattle.std.specs.Prelude.{◌≤◌, [], ◌∷◌, length, IfSome};
ghost use Rattle.canonical_scan.specs.Found.{HasLine};
ghost use Rattle.canonical_scan.specs.Parts.{Stands, HasGraph};
ghost use Rattle.canonical_scan.specs.Places.{ArePlaces};

use crate::term::{iri_end, node_end, term_places};

/// Where the parts of a quad's canonical line end.
#[derive(Clone, Copy)]
pub struct LinePlaces {
    pub subject: usize,
    pub predicate: usize,
    /// The place behind the object's string, where the object is a literal.
    pub string: Option<usize>,
    pub object: usize,
    /// The place behind the graph, or behind the object where there is none.
    pub graph: usize,
    /// The place behind the line feed.
    pub end: usize,
}

/// The place behind the space at a place.
#[inline]
fn space_end(text: &[u8], at: usize) -> Option<usize>
    requires { at ≤ length text.now }
    ensures { IfSome result (Stands (32 ∷ []) text.now at) }
{
    if at == text.len() || text[at] != b' ' {
        return None;
    }
    Some(at + 1)
}

/// The place behind a space and the graph behind it, or this place where a dot stands there.
fn graph_end(text: &[u8], at: usize) -> Option<usize>
    requires { at ≤ length text.now }
    ensures { IfSome result (HasGraph text.now at) }
{
    let graph = space_end(text, at)?;
    if graph < text.len() && text[graph] == b'.' {
        return Some(at);
    }
    let end = node_end(text, graph)?;
    Some(end)
}

/// The place behind a space, the dot and the line feed.
#[inline]
fn dot_end(text: &[u8], at: usize) -> Option<usize>
    requires { at ≤ length text.now }
    ensures { IfSome result (Stands (32 ∷ 46 ∷ 10 ∷ []) text.now at) }
{
    if text.len() - at < 3 || text[at] != b' ' || text[at + 1] != b'.' || text[at + 2] != b'\n' {
        return None;
    }
    Some(at + 3)
}

/// Where the parts of the canonical line of a quad end that stands at a place.
#[inline]
pub fn line_places(text: &[u8], at: usize) -> Option<LinePlaces>
    requires { at ≤ length text.now }
    ensures { IfSome result (ArePlaces text.now at) }
{
    let subject = node_end(text, at)?;
    let second = space_end(text, subject)?;
    let predicate = iri_end(text, second)?;
    let third = space_end(text, predicate)?;
    let object = term_places(text, third)?;
    let graph = graph_end(text, object.end)?;
    let end = dot_end(text, graph)?;
    Some(LinePlaces {
        subject,
        predicate,
        string: object.string,
        object: object.end,
        graph,
        end,
    })
}

/// The place behind the canonical line of a quad that stands at a place, with its line feed.
pub fn line_end(text: &[u8], at: usize) -> Option<usize>
    requires { at ≤ length text.now }
    ensures { IfSome result (HasLine text.now at) }
{
    let places = line_places(text, at)?;
    Some(places.end)
}
