//! Statements whose canonical lines are written as they are read.
//!
//! An IRI is copied where it is canonical, and a literal is written as it is read.

ghost use Rattle.std.specs.Prelude.{◌≡◌, ◌≤◌, ◌<◌, ◌==◌, ◌||◌, length, drop, None};
ghost use Rattle.nquads_text.specs.Fault.{Gives, Pushes};
ghost use Rattle.nquads_text.specs.Statement.{node_at, predicate_at, final_dot_at};
ghost use Rattle.nquads_text.specs.Statement.{graph_at, statement_at};
ghost use Rattle.nquads_text.specs.Terms.{term_at};
ghost use Rattle.nquads_documents.specs.Reading.{document_part_at};
ghost use Rattle.nquads_documents.specs.Shown.{PushesPart};
ghost use Rattle.rdf_terms.specs.Line.{graph_text, line, term_text};

use crate::lines::{comment_end, is_end, line_end};
use canonical_scan::iri_end;
use nquads_text::{ReadFault, TextKind, char_at, copy_term, skip_blanks};
use std::alloc::Global;

/// Appends the canonical text of the term at a place, and gives the place behind it.
///
/// A canonical IRI is copied as it stands. No other term is looked at for that, since a line is
/// read here because one of its terms isn't canonical, and that is seldom an IRI.
pub fn push_next_term(
    alloc: Global,
    text: &[u8],
    at: usize,
    out: &mut Vec<u8>,
) -> Result<usize, ReadFault>
    requires { at ≤ length text.now }
    ensures { Pushes term_text text.now out.old.items out.new.items result
        (term_at (drop at text.now)) }
{
    if let Some(end) = iri_end(text, at) {
        out.extend_from_slice(&text[at..end])?;
        return Ok(end);
    }
    copy_term(alloc, text, at, out)
}

/// The same of an IRI or a blank node.
pub fn push_node(
    alloc: Global,
    text: &[u8],
    at: usize,
    out: &mut Vec<u8>,
) -> Result<usize, ReadFault>
    requires { at ≤ length text.now }
    ensures { Pushes term_text text.now out.old.items out.new.items result
        (node_at (drop at text.now)) }
{
    let end = push_next_term(alloc, text, at, out)?;
    if text[at] == b'"' {
        return Err(ReadFault::At {
            at,
            kind: TextKind::BadPosition,
        });
    }
    Ok(end)
}

/// The same of an IRI.
pub fn push_predicate(
    alloc: Global,
    text: &[u8],
    at: usize,
    out: &mut Vec<u8>,
) -> Result<usize, ReadFault>
    requires { at ≤ length text.now }
    ensures { Pushes term_text text.now out.old.items out.new.items result
        (predicate_at (drop at text.now)) }
{
    let end = push_next_term(alloc, text, at, out)?;
    if text[at] != b'<' {
        return Err(ReadFault::At {
            at,
            kind: TextKind::BadPosition,
        });
    }
    Ok(end)
}

// The place behind the dot.
#[tactic(auto, unfolding(nquads_text::specs::Statement::final_dot_at))]
fn dot_end(text: &[u8], at: usize) -> Result<((), usize), ReadFault>
    requires { at ≤ length text.now }
    ensures { Gives text.now (λ _. None) result (final_dot_at (drop at text.now)) }
{
    let (c, next) = char_at(text, at)?;
    if c != '.' {
        return Err(ReadFault::At {
            at,
            kind: TextKind::MissingDot,
        });
    }
    Ok(((), next))
}

// Whether a term may begin with the character.
fn begins_term(c: char) -> bool
    ensures { result ≡ (c == 60 || c == 95 || c == 34) }
{
    c == '<' || c == '_' || c == '"'
}

// The same of a graph, with a space before it, or of none. The place is that behind the dot.
fn push_graph(alloc: Global, text: &[u8], at: usize, out: &mut Vec<u8>) -> Result<usize, ReadFault>
    requires { at ≤ length text.now }
    ensures { Pushes graph_text text.now out.old.items out.new.items result
        (graph_at (drop at text.now)) }
{
    let (c, _) = char_at(text, at)?;
    if begins_term(c) {
        out.push(b' ')?;
        let end = push_node(alloc, text, at, out)?;
        let (_, next) = dot_end(text, skip_blanks(text, end))?;
        return Ok(next);
    }
    let (_, next) = dot_end(text, at)?;
    Ok(next)
}

// Appends the canonical line of the statement at a place, and gives the place behind its dot.
fn push_statement(
    alloc: Global,
    text: &[u8],
    at: usize,
    out: &mut Vec<u8>,
) -> Result<usize, ReadFault>
    requires { at ≤ length text.now }
    ensures { Pushes line text.now out.old.items out.new.items result
        (statement_at (drop at text.now)) }
{
    let end = push_node(alloc, text, at, out)?;
    out.push(b' ')?;
    let end = push_predicate(alloc, text, skip_blanks(text, end), out)?;
    out.push(b' ')?;
    let end = push_next_term(alloc, text, skip_blanks(text, end), out)?;
    let end = push_graph(alloc, text, skip_blanks(text, end), out)?;
    out.extend_from_slice(b" .\n")?;
    Ok(end)
}

/// Appends the canonical line of the next part of a document, where it is a statement. Answers
/// whether it is one, and the place behind the part.
pub fn push_part(
    alloc: Global,
    text: &[u8],
    from: usize,
    out: &mut Vec<u8>,
) -> Result<(bool, usize), ReadFault>
    requires { from < length text.now }
    ensures { PushesPart text.now out.old.items out.new.items result
        (document_part_at (drop from text.now)) }
{
    let at = skip_blanks(text, from);
    if at == text.len() {
        return Ok((false, at));
    }
    if is_end(text[at]) {
        return Ok((false, at + 1));
    }
    if text[at] == b'#' {
        let (_, end) = comment_end(text, at + 1)?;
        return Ok((false, end));
    }
    let behind = push_statement(alloc, text, at, out)?;
    let (_, end) = line_end(text, behind)?;
    Ok((true, end))
}
