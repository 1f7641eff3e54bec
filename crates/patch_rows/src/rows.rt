//! Rows, by their codes. Each kind of row has a function of its own, so that a row pays for its
//! own parts alone.

ghost use Rattle.std.specs.Prelude.{◌≡◌, ◌≤◌, ◌<◌, length, drop, true, false, IfOk};
ghost use Rattle.rdf_terms.specs.Quad.{may_be_graph};
ghost use Rattle.patch_rows.specs.declared.codes.Code.TheVariants as codes;
ghost use Rattle.patch_rows.specs.Fault.{RowGives, GivesEnd};
ghost use Rattle.patch_rows.specs.Reading.{dot_at, end_at};
ghost use Rattle.patch_rows.specs.Rows.{graph_or_dot_of, graph_of, header_of, bare_at, quad_of};
ghost use Rattle.patch_rows.specs.Rows.{added_of, removed_of, parts_of, row_of as row_given};

use crate::codes::{Code, find_code};
use crate::cut::TextEnd;
use crate::fault::{RowFault, RowKind};
use crate::row::Row;
use crate::space::pass_space;
use crate::terms::{any, iri, is_at, is_term_at, node, other};
use crate::words::{key, prefix, prefix_iri, word};
use nquads_text::TextKind;
use rdf_terms::{Change, Quad, Term};
use std::alloc::Global;

/// The dot of a row; `missing` is the kind of a byte that begins no term.
#[tactic(auto, unfolding(crate::specs::Reading::dot_at), using(crate::proofs::Steps::met))]
pub fn dot(text: &[u8], at: usize, missing: RowKind) -> Result<usize, RowFault>
    requires { at ≤ length text.now }
    ensures { GivesEnd text.now result (dot_at missing (drop at text.now)) }
{
    if is_at(text, at, b'.') {
        return Ok(at + 1);
    }
    if is_term_at(text, at) {
        return Err(RowFault::at(at, RowKind::WrongCount));
    }
    Err(other(text, at, missing))
}

/// White space and comments, and the dot of a row.
fn end(text: &[u8], at: usize, missing: RowKind) -> Result<usize, RowFault>
    requires { at ≤ length text.now }
    ensures { GivesEnd text.now result (end_at missing (drop at text.now)) }
{
    dot(text, pass_space(text, at), missing)
}

/// A graph and the dot, or the dot.
#[tactic(auto, unfolding(crate::specs::Rows::graph_or_dot_of))]
fn graph_or_dot(
    alloc: Global,
    text: &[u8],
    at: usize,
    text_end: TextEnd,
) -> Result<(Option<Term>, usize), RowFault>
    requires { at ≤ length text.now }
    ensures gives { RowGives text.now result (graph_or_dot_of text_end (drop at text.now)) }
    ensures graph { IfOk result (λ x. may_be_graph x.0 ≡ true) }
{
    if !is_term_at(text, at) {
        let behind = dot(text, at, RowKind::Common(TextKind::MissingDot))?;
        return Ok((None, behind));
    }
    let (term, after) = node(alloc, text, at, text_end)?;
    match end(text, after, RowKind::Common(TextKind::MissingDot)) {
        Ok(behind) => Ok((Some(term), behind)),
        Err(fault) => {
            drop(term);
            Err(fault)
        }
    }
}

/// The graph of a row, if it has one, and the row's end.
fn graph(
    alloc: Global,
    text: &[u8],
    at: usize,
    text_end: TextEnd,
) -> Result<(Option<Term>, usize), RowFault>
    requires { at ≤ length text.now }
    ensures gives { RowGives text.now result (graph_of text_end (drop at text.now)) }
    ensures graph { IfOk result (λ x. may_be_graph x.0 ≡ true) }
{
    graph_or_dot(alloc, text, pass_space(text, at), text_end)
}

/// The parts of a header row.
#[inline(never)]
#[tactic(auto, unfolding(crate::specs::Rows::header_of))]
fn header(
    alloc: Global,
    text: &[u8],
    at: usize,
    text_end: TextEnd,
) -> Result<(Row, usize), RowFault>
    requires { at ≤ length text.now }
    ensures { RowGives text.now result (header_of text_end (drop at text.now)) }
{
    let (key, after) = key(alloc, text, pass_space(text, at), text_end)?;
    let (value, after) = any(alloc, text, pass_space(text, after), text_end)?;
    let behind = end(text, after, RowKind::Common(TextKind::MissingDot))?;
    Ok((Row::Header { key, value }, behind))
}

/// The end of a row without parts.
#[inline(never)]
#[tactic(auto, unfolding(crate::specs::Rows::bare_at))]
fn bare(text: &[u8], at: usize, change: Change) -> Result<(Row, usize), RowFault>
    requires { at ≤ length text.now }
    ensures { RowGives text.now result (bare_at change (drop at text.now)) }
{
    match end(text, at, RowKind::Common(TextKind::BadToken)) {
        Ok(behind) => Ok((Row::Change(change), behind)),
        Err(fault) => {
            drop(change);
            Err(fault)
        }
    }
}

/// The quad of a row that adds or deletes one.
#[inline(always)]
#[tactic(auto, unfolding(crate::specs::Rows::quad_of))]
fn quad(alloc: Global, text: &[u8], at: usize, text_end: TextEnd) -> Result<(Quad, usize), RowFault>
    requires { at ≤ length text.now }
    ensures { RowGives text.now result (quad_of text_end (drop at text.now)) }
{
    let (subject, after) = node(alloc, text, pass_space(text, at), text_end)?;
    let (predicate, after) = iri(alloc, text, pass_space(text, after), text_end)?;
    let (object, after) = any(alloc, text, pass_space(text, after), text_end)?;
    let (graph, behind) = graph(alloc, text, after, text_end)?;
    Ok((Quad::of_checked(subject, predicate, object, graph), behind))
}

/// The parts of a row that adds a quad.
#[inline(never)]
#[tactic(auto, unfolding(crate::specs::Rows::parts_of))]
fn add(alloc: Global, text: &[u8], at: usize, text_end: TextEnd) -> Result<(Row, usize), RowFault>
    requires { at ≤ length text.now }
    ensures { RowGives text.now result (parts_of text_end codes.Add (drop at text.now)) }
{
    match quad(alloc, text, at, text_end) {
        Ok((quad, behind)) => Ok((Row::Change(Change::Add(quad)), behind)),
        Err(fault) => Err(fault),
    }
}

/// The parts of a row that deletes a quad.
#[inline(never)]
#[tactic(auto, unfolding(crate::specs::Rows::parts_of))]
fn delete(
    alloc: Global,
    text: &[u8],
    at: usize,
    text_end: TextEnd,
) -> Result<(Row, usize), RowFault>
    requires { at ≤ length text.now }
    ensures { RowGives text.now result (parts_of text_end codes.Delete (drop at text.now)) }
{
    match quad(alloc, text, at, text_end) {
        Ok((quad, behind)) => Ok((Row::Change(Change::Delete(quad)), behind)),
        Err(fault) => Err(fault),
    }
}

/// The parts of a row that sets a prefix.
#[inline(never)]
#[tactic(auto, unfolding(crate::specs::Rows::added_of))]
fn added(alloc: Global, text: &[u8], at: usize, text_end: TextEnd) -> Result<(Row, usize), RowFault>
    requires { at ≤ length text.now }
    ensures { RowGives text.now result (added_of text_end (drop at text.now)) }
{
    let (prefix, after) = prefix(alloc, text, pass_space(text, at), text_end)?;
    let (iri, after) = prefix_iri(alloc, text, pass_space(text, after), text_end)?;
    let (graph, behind) = graph(alloc, text, after, text_end)?;
    Ok((
        Row::Change(Change::PrefixAdd { prefix, iri, graph }),
        behind,
    ))
}

/// The parts of a row that removes a prefix.
#[inline(never)]
#[tactic(auto, unfolding(crate::specs::Rows::removed_of))]
fn removed(
    alloc: Global,
    text: &[u8],
    at: usize,
    text_end: TextEnd,
) -> Result<(Row, usize), RowFault>
    requires { at ≤ length text.now }
    ensures { RowGives text.now result (removed_of text_end (drop at text.now)) }
{
    let (prefix, after) = prefix(alloc, text, pass_space(text, at), text_end)?;
    let (graph, behind) = graph(alloc, text, after, text_end)?;
    Ok((Row::Change(Change::PrefixDelete { prefix, graph }), behind))
}

/// What follows a row's code.
#[tactic(auto, unfolding(crate::specs::Rows::parts_of))]
fn parts(
    alloc: Global,
    code: Code,
    text: &[u8],
    at: usize,
    text_end: TextEnd,
) -> Result<(Row, usize), RowFault>
    requires { at ≤ length text.now }
    ensures { RowGives text.now result (parts_of text_end code (drop at text.now)) }
{
    match code {
        Code::Header => header(alloc, text, at, text_end),
        Code::Begin => bare(text, at, Change::Begin),
        Code::Commit => bare(text, at, Change::Commit),
        Code::Abort => bare(text, at, Change::Abort),
        Code::PrefixAdd => added(alloc, text, at, text_end),
        Code::PrefixDelete => removed(alloc, text, at, text_end),
        Code::Add => add(alloc, text, at, text_end),
        Code::Delete => delete(alloc, text, at, text_end),
    }
}

/// The row at a place, of any length, and the place behind its dot; else its first fault. What more
/// text may change counts as cut by the text's end.
#[tactic(auto, unfolding(crate::specs::Rows::row_of))]
pub fn row_of(
    alloc: Global,
    text: &[u8],
    at: usize,
    text_end: TextEnd,
) -> Result<(Row, usize), RowFault>
    requires { at ≤ length text.now }
    ensures { RowGives text.now result (row_given text_end (drop at text.now)) }
{
    let (word, behind) = word(text, at)?;
    match find_code(word) {
        Some(code) => parts(alloc, code, text, behind, text_end),
        None => Err(RowFault::at(at, RowKind::UnknownCode)),
    }
}
