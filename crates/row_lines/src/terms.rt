//! Terms whose canonical text is written as they are read, where nothing that may follow the text
//! changes them.

ghost use Rattle.std.specs.Prelude.{◌≡◌, ◌≤◌, length, drop, true};
ghost use Rattle.rdf_terms.specs.Line.{term_text};
ghost use Rattle.rdf_terms.specs.Quad.{is_iri};
ghost use Rattle.patch_rows.specs.declared.cut.TextEnd.TheVariants as ends;
ghost use Rattle.patch_rows.specs.Grammar.{is_any, is_node};
ghost use Rattle.patch_rows.specs.Rows.{placed_of};
ghost use Rattle.row_lines.specs.Written.{SettlesTerm, WritesRead};

use crate::fault::Unwritten;
use nquads_documents::{push_next_term, push_node, push_predicate};
use nquads_text::{push_term, skip_blanks};
use patch_rows::TextEnd;
use patch_rows::parts::node;
use std::alloc::Global;

// Whether a term that ends at a place stays what it is, whatever follows the text.
fn is_settled(text: &[u8], end: usize) -> bool
    requires { end ≤ length text.now }
    ensures { result ≡ true → SettlesTerm (drop end text.now) }
{
    if skip_blanks(text, end) == text.len() {
        return false;
    }
    if text[end] != b'.' {
        return text[end] < 128;
    }
    let next = end + 1;
    if next == text.len() || text[next] == b'.' {
        return false;
    }
    text[next] < 128
}

// Whether a blank node in brackets may begin at a place.
fn is_bracketed(text: &[u8], at: usize) -> bool
    requires { at ≤ length text.now }
{
    text.len() - at > 1 && text[at] == b'<' && text[at + 1] == b'_'
}

// Appends the canonical text of an IRI or a blank node, and gives the place behind it. The term is
// made, since rows alone have blank nodes in brackets.
fn write_made(alloc: Global, text: &[u8], at: usize, out: &mut Vec<u8>) -> Result<usize, Unwritten>
    requires { at ≤ length text.now }
    ensures { WritesRead term_text text.now out.old.items out.new.items result
        (placed_of ends.Open is_node (drop at text.now)) }
{
    let (term, end) = node(alloc, text, at, TextEnd::Open)?;
    push_term(out, &term)?;
    Ok(end)
}

/// Appends the canonical text of the term at a place, and gives the place behind it.
pub fn write_term(
    alloc: Global,
    text: &[u8],
    at: usize,
    out: &mut Vec<u8>,
) -> Result<usize, Unwritten>
    requires { at ≤ length text.now }
    ensures { WritesRead term_text text.now out.old.items out.new.items result
        (placed_of ends.Open is_any (drop at text.now)) }
{
    if is_bracketed(text, at) {
        let end = write_made(alloc, text, at, out)?;
        return Ok(end);
    }
    let end = push_next_term(alloc, text, at, out)?;
    if !is_settled(text, end) {
        return Err(Unwritten::NotFound);
    }
    Ok(end)
}

/// The same of an IRI or a blank node.
pub fn write_node(
    alloc: Global,
    text: &[u8],
    at: usize,
    out: &mut Vec<u8>,
) -> Result<usize, Unwritten>
    requires { at ≤ length text.now }
    ensures { WritesRead term_text text.now out.old.items out.new.items result
        (placed_of ends.Open is_node (drop at text.now)) }
{
    if is_bracketed(text, at) {
        let end = write_made(alloc, text, at, out)?;
        return Ok(end);
    }
    let end = push_node(alloc, text, at, out)?;
    if !is_settled(text, end) {
        return Err(Unwritten::NotFound);
    }
    Ok(end)
}

/// The same of an IRI.
pub fn write_predicate(
    alloc: Global,
    text: &[u8],
    at: usize,
    out: &mut Vec<u8>,
) -> Result<usize, Unwritten>
    requires { at ≤ length text.now }
    ensures { WritesRead term_text text.now out.old.items out.new.items result
        (placed_of ends.Open is_iri (drop at text.now)) }
{
    let end = push_predicate(alloc, text, at, out)?;
    if !is_settled(text, end) {
        return Err(Unwritten::NotFound);
    }
    Ok(end)
}
