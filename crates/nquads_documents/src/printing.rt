//! Canonical lines, and documents of them.

ghost use Rattle.std.specs.Prelude.{◌≡◌, ◌++◌, ◌∷◌, [], OnOk, IfOk, map};
ghost use Rattle.std.specs.List.{All};
ghost use Rattle.nquads_documents.specs.Canonical.{IsCanonical};
ghost use Rattle.nquads_documents.specs.Grammar.{IsDocument};
ghost use Rattle.nquads_documents.specs.Laws.{IsQuadValue, IsDocumentOf};
ghost use Rattle.rdf_terms.specs.Line.{line};

use delta_base::{OutOfMemory, Text};
use nquads_text::{push_graph, push_term};
use rdf_terms::{LiteralKind, Quad, Quads, Term};
use std::alloc::Global;

/// Appends the canonical line of a quad.
#[tactic(auto, using(crate::proofs::Parted::line_parts))]
pub fn push_line(out: &mut Vec<u8>, quad: &Quad) -> Result<(), OutOfMemory>
    ensures text { OnOk result (out.new.items ≡ out.old.items ++ line quad.now) }
    ensures value { OnOk result (IsQuadValue quad.now) }
{
    push_term(out, quad.subject())?;
    out.push(b' ')?;
    push_term(out, quad.predicate())?;
    out.push(b' ')?;
    push_term(out, quad.object())?;
    push_graph(out, quad.graph())?;
    out.extend_from_slice(b" .\n")?;
    Ok(())
}

/// The bytes of a line beside those of its terms: spaces, brackets and quotes, the dot and
/// the line feed.
const LINE_MARKS: usize = 16;

fn kind_room(kind: &LiteralKind) -> usize {
    match kind {
        LiteralKind::Plain => 0,
        LiteralKind::Typed(datatype) => datatype.as_bytes().len().saturating_add(4),
        LiteralKind::Tagged(tag) => tag.as_bytes().len().saturating_add(1),
    }
}

fn term_room(term: &Term) -> usize {
    match term {
        Term::Iri(iri) => iri.as_bytes().len(),
        Term::Blank(label) => label.as_bytes().len(),
        Term::Literal(literal) => {
            let lexical = literal.lexical.as_bytes().len();
            lexical.saturating_add(kind_room(&literal.kind))
        }
    }
}

// The room that the line of a quad takes where nothing is escaped.
fn line_room(quad: &Quad) -> usize {
    let graph = match quad.graph() {
        Some(graph) => term_room(graph),
        None => 0,
    };
    LINE_MARKS
        .saturating_add(term_room(quad.subject()))
        .saturating_add(term_room(quad.predicate()))
        .saturating_add(term_room(quad.object()))
        .saturating_add(graph)
}

// The canonical line of a quad.
pub fn line_of(alloc: Global, quad: &Quad) -> Result<Vec<u8>, OutOfMemory>
    ensures text { IfOk result (λ v. v.items ≡ line quad.now) }
    ensures value { IfOk result (λ _. IsQuadValue quad.now) }
{
    let mut out = Vec::with_capacity(alloc, line_room(quad))?;
    push_line(&mut out, quad)?;
    Ok(out)
}

/// The canonical line of a quad, which is read again as that quad.
pub fn print_line(alloc: Global, quad: &Quad) -> Result<Text, OutOfMemory>
    ensures text { IfOk result (λ text. text ≡ line quad.now) }
    ensures read_again { IfOk result (λ text. IsDocument text (quad.now ∷ [])) }
{
    let line = line_of(alloc, quad)?;
    // Its terms are in UTF-8, and what stands between them is ASCII.
    Ok(Text::from_string(unsafe { String::from_utf8_unchecked(line) }))
}

// The canonical line of each quad.
fn lines_of(alloc: Global, quads: &[Quad]) -> Result<Vec<Vec<u8>>, OutOfMemory>
    ensures text { IfOk result (λ v. map (λ l. l.items) v.items ≡ map line quads.now) }
    ensures values { IfOk result (λ _. All IsQuadValue quads.now) }
{
    let mut lines = Vec::new(alloc);
    for quad in quads {
        lines.push(line_of(alloc, quad)?)?;
    }
    Ok(lines)
}

// The canonical lines of the quads, each once, in the order of their bytes.
fn canonical(alloc: Global, quads: &[Quad]) -> Result<Vec<u8>, OutOfMemory>
    ensures text { IfOk result (λ v. IsCanonical quads.now v.items) }
    ensures values { IfOk result (λ _. All IsQuadValue quads.now) }
{
    let mut lines = lines_of(alloc, quads)?;
    lines.sort()?;
    lines.dedup();
    match lines.concat(alloc) {
        Ok(text) => Ok(text),
        Err(_) => Err(OutOfMemory),
    }
}

/// The canonical lines of the quads, each once, in the order of their bytes. They are read again
/// as these quads.
#[tactic(auto, using(crate::proofs::Again::document_again))]
pub fn print_document(alloc: Global, quads: &Quads) -> Result<Text, OutOfMemory>
    ensures text { IfOk result (λ text. IsCanonical quads.now.items text) }
    ensures read_again { IfOk result (IsDocumentOf quads.now.items) }
{
    let lines = canonical(alloc, quads.as_slice())?;
    // Each line is in UTF-8.
    Ok(Text::from_string(unsafe { String::from_utf8_unchecked(lines) }))
}
