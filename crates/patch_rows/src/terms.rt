//! The terms of rows: as in N-Triples, and blank nodes in brackets.

ghost use Rattle.std.specs.Prelude.{◌≡◌, ◌≤◌, ◌<◌, ◌==◌, ◌+◌, IsTrue};
ghost use Rattle.std.specs.Prelude.{length, drop, IfOk, true, false};
ghost use Rattle.std.specs.Char.{is_ascii_alphabetic};
ghost use Rattle.rdf_terms.specs.Iri.{IsIri, has_scheme as spells_scheme};
ghost use Rattle.rdf_terms.specs.Quad.{is_iri as iri_stands, is_literal as literal_stands};
ghost use Rattle.nquads_text.specs.Faults.{begins_term as opens_term};
ghost use Rattle.nquads_text.specs.Reading.{iri_body_at};
ghost use Rattle.nquads_text.specs.Terms.{label_at, term_at};
ghost use Rattle.patch_rows.specs.Fault.{RowGives, IsThere, in_row};
ghost use Rattle.patch_rows.specs.Grammar.{is_any, is_node};
ghost use Rattle.patch_rows.specs.Faults.{is_dot};
ghost use Rattle.patch_rows.specs.Reading.{stands, other as other_of, begins_blank as blank_begins};
ghost use Rattle.patch_rows.specs.Reading.{whole_label, bracketed as bracketed_of, bracket_at};
ghost use Rattle.patch_rows.specs.Reading.{row_term_at, needed_term_at};
ghost use Rattle.patch_rows.specs.Rows.{open_term as open_term_of, term_of};
ghost use Rattle.patch_rows.specs.Rows.{unless_open as unless_open_of, placed_of};

use crate::cut::{TextEnd, cut_off, is_open_blank, is_open_literal};
use crate::fault::{RowFault, RowKind};
use delta_base::Text;
use nquads_text::{ReadFault, TextKind, char_at, iri_body, label, read_term};
use rdf_terms::{Iri, Term, has_scheme};
use std::alloc::Global;

/// Whether the byte stands at a place.
pub fn is_at(text: &[u8], at: usize, b: u8) -> bool
    requires { at ≤ length text.now }
    ensures stands { result ≡ stands (λ c. c == b) (drop at text.now) }
    ensures some { IsTrue result → at < length text.now }
    ensures next { IsTrue result → drop (at + 1) text.now ≡ drop 1 (drop at text.now) }
{
    at < text.len() && text[at] == b
}

/// Whether a letter stands at a place.
pub fn is_letter_at(text: &[u8], at: usize) -> bool
    requires { at ≤ length text.now }
    ensures { result ≡ stands is_ascii_alphabetic (drop at text.now) }
{
    at < text.len() && text[at].is_ascii_alphabetic()
}

/// Whether a term begins at a place.
pub fn is_term_at(text: &[u8], at: usize) -> bool
    requires { at ≤ length text.now }
    ensures { result ≡ stands opens_term (drop at text.now) }
{
    at < text.len() && matches!(text[at], b'<' | b'_' | b'"')
}

/// The fault where none of the bytes that are allowed stands.
#[tactic(auto, unfolding(crate::specs::Reading::other))]
pub fn other(text: &[u8], at: usize, kind: RowKind) -> RowFault
    requires { at ≤ length text.now }
    ensures { IsThere text.now result (other_of kind (drop at text.now)) }
{
    match char_at(text, at) {
        Ok(_) => RowFault::at(at, kind),
        Err(e) => RowFault::from(e),
    }
}

/// A term as in N-Triples.
fn plain_term(alloc: Global, text: &[u8], at: usize) -> Result<(Term, usize), RowFault>
    requires { at ≤ length text.now }
    ensures { RowGives text.now result (in_row (term_at (drop at text.now))) }
{
    let term = read_term(alloc, text, at)?;
    Ok(term)
}

/// What stands between the brackets of an IRIREF, and the place behind them.
fn body(alloc: Global, text: &[u8], at: usize) -> Result<(Text, usize), RowFault>
    requires { at ≤ length text.now }
    ensures { RowGives text.now result (in_row (iri_body_at (drop at text.now))) }
{
    let (body, end) = iri_body(alloc, text, at)?;
    Ok((Text::from_string(body), end))
}

fn begins_blank(bytes: &[u8]) -> bool
    ensures { result ≡ blank_begins bytes.now }
{
    match bytes {
        [] => false,
        [_] => false,
        [a, b, ..] => *a == b'_' && *b == b':',
    }
}

/// The blank node whose label, behind `_:`, is all of what stands between the brackets.
#[tactic(auto, using(crate::proofs::BracketSteps::whole_steps))]
fn blank(
    alloc: Global,
    text: &[u8],
    start: usize,
    body: &[u8],
    end: usize,
) -> Result<(Term, usize), RowFault>
    requires begins { start ≤ length text.now }
    requires within { end ≤ length text.now }
    requires some { 1 ≤ length body.now }
    ensures { RowGives text.now result (whole_label (drop start text.now)
        (drop end text.now) (label_at body.now (drop 1 body.now))) }
{
    let bad = RowFault::at(start, RowKind::Common(TextKind::BadLabel));
    match label(alloc, body, 0, 1) {
        Ok((label, size)) => {
            if size == body.len() {
                return Ok((Term::Blank(label), end));
            }
            Err(bad)
        }
        Err(ReadFault::At { .. }) => Err(bad),
        Err(ReadFault::OutOfMemory) => Err(RowFault::OutOfMemory),
    }
}

/// The IRIREF, or the blank node in brackets, whose `<` stands at `start`.
#[tactic(auto, unfolding(crate::specs::Reading::bracket_at, crate::specs::Reading::bracketed), using(crate::proofs::BracketSteps::bracket_steps))]
fn bracket(alloc: Global, text: &[u8], start: usize, at: usize) -> Result<(Term, usize), RowFault>
    requires begins { start ≤ length text.now }
    requires within { at ≤ length text.now }
    ensures { RowGives text.now result (bracket_at (drop start text.now) (drop at text.now)) }
{
    let (body, end) = body(alloc, text, at)?;
    if begins_blank(body.as_bytes()) {
        return blank(alloc, text, start, body.as_bytes(), end);
    }
    if !has_scheme(body.as_bytes()) {
        return Err(RowFault::at(start, RowKind::Common(TextKind::RelativeIri)));
    }
    Ok((Term::Iri(Iri::of_checked(body)), end))
}

/// A term of a row.
#[tactic(auto, using(crate::proofs::BracketSteps::term_steps))]
fn row_term(alloc: Global, text: &[u8], at: usize) -> Result<(Term, usize), RowFault>
    requires { at ≤ length text.now }
    ensures { RowGives text.now result (row_term_at (drop at text.now)) }
{
    if is_at(text, at, b'<') {
        return bracket(alloc, text, at, at + 1);
    }
    plain_term(alloc, text, at)
}

/// A term, where a dot means that the row has too few.
#[tactic(auto, unfolding(crate::specs::Reading::needed_term_at))]
fn needed_term(alloc: Global, text: &[u8], at: usize) -> Result<(Term, usize), RowFault>
    requires { at ≤ length text.now }
    ensures { RowGives text.now result (needed_term_at (drop at text.now)) }
{
    if is_at(text, at, b'.') {
        return Err(RowFault::at(at, RowKind::WrongCount));
    }
    row_term(alloc, text, at)
}

/// A term of a text that may go on, which more text doesn't change, but for the end of a label.
#[tactic(auto, unfolding(crate::specs::Rows::open_term))]
fn open_term(alloc: Global, text: &[u8], at: usize) -> Result<(Term, usize), RowFault>
    requires { at ≤ length text.now }
    ensures { RowGives text.now result (open_term_of (drop at text.now)) }
{
    let (term, end) = needed_term(alloc, text, at)?;
    if is_open_literal(text, at, &term, end) {
        drop(term);
        return Err(cut_off(text));
    }
    Ok((term, end))
}

/// A term whose end is known, but for a label's.
pub fn term(
    alloc: Global,
    text: &[u8],
    at: usize,
    text_end: TextEnd,
) -> Result<(Term, usize), RowFault>
    requires { at ≤ length text.now }
    ensures { RowGives text.now result (term_of text_end (drop at text.now)) }
{
    match text_end {
        TextEnd::Known => needed_term(alloc, text, at),
        TextEnd::Open => open_term(alloc, text, at),
    }
}

/// The same, unless it is a label that more text may change.
#[inline(always)]
fn unless_open(
    text: &[u8],
    at: usize,
    term: Term,
    end: usize,
    text_end: TextEnd,
) -> Result<(Term, usize), RowFault>
    requires begins { at ≤ length text.now }
    requires within { end ≤ length text.now }
    ensures gives { RowGives text.now result
        (unless_open_of text_end (drop at text.now) term (drop end text.now)) }
    ensures same { IfOk result (λ x. x.0 ≡ term) }
{
    match text_end {
        TextEnd::Known => Ok((term, end)),
        TextEnd::Open => {
            if is_open_blank(text, at, &term, end) {
                drop(term);
                return Err(cut_off(text));
            }
            Ok((term, end))
        }
    }
}

/// Any term.
#[tactic(auto, unfolding(crate::specs::Rows::placed_of))]
pub fn any(
    alloc: Global,
    text: &[u8],
    at: usize,
    text_end: TextEnd,
) -> Result<(Term, usize), RowFault>
    requires { at ≤ length text.now }
    ensures { RowGives text.now result (placed_of text_end is_any (drop at text.now)) }
{
    let (term, end) = term(alloc, text, at, text_end)?;
    unless_open(text, at, term, end, text_end)
}

/// An IRI or a blank node.
#[tactic(auto, unfolding(crate::specs::Rows::placed_of))]
pub fn node(
    alloc: Global,
    text: &[u8],
    at: usize,
    text_end: TextEnd,
) -> Result<(Term, usize), RowFault>
    requires { at ≤ length text.now }
    ensures gives { RowGives text.now result (placed_of text_end is_node (drop at text.now)) }
    ensures node { IfOk result (λ x. literal_stands x.0 ≡ false) }
{
    let (term, end) = term(alloc, text, at, text_end)?;
    if term.is_literal() {
        drop(term);
        return Err(RowFault::at(at, RowKind::Common(TextKind::BadPosition)));
    }
    unless_open(text, at, term, end, text_end)
}

/// An IRI.
#[tactic(auto, unfolding(crate::specs::Rows::placed_of))]
pub fn iri(
    alloc: Global,
    text: &[u8],
    at: usize,
    text_end: TextEnd,
) -> Result<(Term, usize), RowFault>
    requires { at ≤ length text.now }
    ensures gives { RowGives text.now result (placed_of text_end iri_stands (drop at text.now)) }
    ensures iri { IfOk result (λ x. iri_stands x.0 ≡ true) }
{
    let (term, end) = term(alloc, text, at, text_end)?;
    if !term.is_iri() {
        drop(term);
        return Err(RowFault::at(at, RowKind::Common(TextKind::BadPosition)));
    }
    unless_open(text, at, term, end, text_end)
}
