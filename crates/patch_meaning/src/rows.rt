//! The next row of a text.

ghost use Rattle.std.specs.Prelude.{◌≤◌, ℕ, drop, length, IfSome};
ghost use Rattle.nquads_text.specs.Grammar.{StartsWith};
ghost use Rattle.patch_meaning.specs.Next.{IsNextRead, IsNextRow};
ghost use Rattle.patch_reader.specs.Rows.{Gap};
ghost use Rattle.patch_rows.specs.Grammar.{begins_space};

use crate::role::{Role, found_role, role_of};
use patch_reader::read_row;
use patch_rows::RowFault;
use row_scan::scan_row;
use std::alloc::Global;

/// What a row says, its first byte, and the place behind its dot.
#[derive(Drop)]
pub struct Next {
    pub role: Role,
    pub at: usize,
    pub end: usize,
}

/// The row that begins at a place behind white space, unless the text ends there. One of an id or
/// of a word of blocks is found by the scan. It is inlined, so that what a row says isn't moved on
/// its way to who takes it.
#[inline(always)]
pub fn next_from(alloc: Global, text: &[u8], at: usize) -> Result<Option<Next>, RowFault>
    requires within { at ≤ length text.now }
    requires begins { StartsWith begins_space (drop at text.now) → ⊥ }
    ensures { (from : ℕ) → Gap text.now from at → IsNextRead text.now from result }
{
    if let Some(next) = word_from(text, at) {
        return Ok(Some(next));
    }
    row_from(alloc, text, at)
}

// The row of an id or of a word of blocks that the scan finds at a place.
fn word_from(text: &[u8], at: usize) -> Option<Next>
    requires { at ≤ length text.now }
    ensures { IfSome result (λ next. (from : ℕ)
        → Gap text.now from at → IsNextRow text.now from next) }
{
    if at == text.len() || !matches!(text[at], b'H' | b'T') {
        return None;
    }
    let row = scan_row(text, at)?;
    Some(Next {
        role: found_role(row.says)?,
        at,
        end: row.end,
    })
}

/// The row that begins at a place behind white space, unless the text ends there, by its reading.
/// It is inlined for the same reason.
#[inline(always)]
pub fn row_from(alloc: Global, text: &[u8], at: usize) -> Result<Option<Next>, RowFault>
    requires within { at ≤ length text.now }
    requires begins { StartsWith begins_space (drop at text.now) → ⊥ }
    ensures { (from : ℕ) → Gap text.now from at → IsNextRead text.now from result }
{
    if at == text.len() {
        return Ok(None);
    }
    match read_row(alloc, text, at) {
        Ok((row, end)) => Ok(Some(Next {
            role: role_of(row),
            at,
            end,
        })),
        Err(fault) => Err(fault),
    }
}
