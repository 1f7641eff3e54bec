//! Rows in canonical form, found by one scan that makes no term (`specs/Found.antt`,
//! `specs/Rows.antt`); of a row that was found the quad is made, where it is asked for.
//!
//! A row that was found is promised to be right. That none was found promises nothing: then the row
//! is read.
#![tactic(auto)]

ghost use Rattle.std.specs.Prelude.{◌≡◌, ◌≤◌, ◌+◌, ◌++◌, ◌∷◌, drop, length, IfOk, IfSome};
ghost use Rattle.patch_rows.specs.Grammar.{letters};
ghost use Rattle.row_scan.specs.Found.{HasQuadRow, IsQuadRow, IsRowOfLine, code_by};

mod row;

use canonical_scan::{LinePlaces, line_places, made_quad};
use delta_base::OutOfMemory;
use patch_rows::ROW_LIMIT;
use rdf_terms::Quad;
pub use row::{Says, ScannedRow, scan_row};
use std::alloc::Global;

/// A row that adds or deletes a quad, in canonical form: its code, a space, and the quad's
/// canonical line.
#[derive(Clone, Copy)]
pub struct QuadRow {
    /// Whether the quad is added; else it is deleted.
    pub adds: bool,
    /// Where the quad's line begins.
    pub line: usize,
    /// The place behind the row's dot, where its line feed stands.
    pub end: usize,
}

/// A row that adds or deletes a quad, and its quad.
#[derive(Drop)]
pub struct MadeRow {
    pub row: QuadRow,
    pub quad: Quad,
}

/// The canonical row of a quad that stands at a place, found by one scan; none where the scan finds
/// none, and where it has more bytes than a row may have.
#[inline]
pub fn quad_row(text: &[u8], at: usize) -> Option<QuadRow>
    requires { at ≤ length text.now }
    ensures { IfSome result (HasQuadRow text.now at) }
{
    let (row, _places) = row_places(text, at)?;
    Some(row)
}

/// Such a row with its quad; none also where a string in it has an escape.
#[inline]
pub fn made_row(alloc: Global, text: &[u8], at: usize) -> Result<Option<MadeRow>, OutOfMemory>
    requires { at ≤ length text.now }
    ensures { IfOk result (λ made. IfSome made (λ m. IsQuadRow text.now at m.row m.quad)) }
{
    let Some((row, places)) = row_places(text, at) else {
        return Ok(None);
    };
    match made_quad(alloc, text, row.line, places)? {
        Some(quad) => Ok(Some(MadeRow { row, quad })),
        None => Ok(None),
    }
}

// Such a row, and where the parts of its quad's line end.
#[inline(always)]
fn row_places(text: &[u8], at: usize) -> Option<(QuadRow, LinePlaces)>
    requires { at ≤ length text.now }
    ensures { IfSome result (λ found. IsRowOfLine text.now at found.0 found.1) }
{
    let adds = quad_code(text, at)?;
    let line = at + 2;
    let places = line_places(text, line)?;
    let end = places.end - 1;
    if end - at > ROW_LIMIT {
        return None;
    }
    Some((QuadRow { adds, line, end }, places))
}

// Whether a quad is added, where the code of such a row and a space stand there.
#[inline(always)]
fn quad_code(text: &[u8], at: usize) -> Option<bool>
    requires { at ≤ length text.now }
    ensures code { IfSome result (λ adds.
        drop at text.now ≡ letters (code_by adds) ++ 32 ∷ drop (at + 2) text.now) }
    ensures within { IfSome result (λ adds. at + 2 ≤ length text.now) }
{
    if text.len() - at < 2 || text[at + 1] != b' ' {
        return None;
    }
    match text[at] {
        b'A' => Some(true),
        b'D' => Some(false),
        _ => None,
    }
}
