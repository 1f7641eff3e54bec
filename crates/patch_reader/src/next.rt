//! The next rows of a text whose front isn't kept.

ghost use Rattle.std.specs.Prelude.{◌≡◌, ℕ, ◌+◌, ◌≤◌, List, length, drop};
ghost use Rattle.nquads_text.specs.Grammar.{StartsWith};
ghost use Rattle.patch_rows.specs.Grammar.{begins_space};
ghost use Rattle.patch_reader.specs.Decided.{ReadsRow, GivesRow};
ghost use Rattle.patch_reader.specs.Places.{IsNotBefore, moved_fault, placed_row};
ghost use Rattle.patch_reader.specs.Rows.{GivesNext, KeepsText};

use crate::placed::PlacedRow;
use crate::reading::{decided_row, read_row};
use patch_rows::{Row, RowFault, TextEnd, skip_space};
use std::alloc::Global;

/// The row with its places in the whole text, of which `base` bytes stand before what is kept.
fn placed(row: Row, base: u64, at: usize, end: usize) -> PlacedRow
    ensures { result ≡ placed_row base row at end }
{
    PlacedRow {
        row,
        at: base.saturating_add(at as u64),
        end: base.saturating_add(end as u64),
    }
}

/// The same of a fault.
fn moved(fault: RowFault, base: u64) -> RowFault
    ensures { result ≡ moved_fault base fault }
{
    match fault {
        RowFault::At { at, kind } => RowFault::At {
            at: base.saturating_add(at),
            kind,
        },
        RowFault::OutOfMemory => RowFault::OutOfMemory,
    }
}

/// The row at a place of a whole text, and none at its end.
fn whole_row(alloc: Global, text: &[u8], at: usize) -> Result<Option<(Row, usize)>, RowFault>
    requires within { at ≤ length text.now }
    requires begins { StartsWith begins_space (drop at text.now) → ⊥ }
    ensures { ReadsRow text.now at result }
{
    if at == text.len() {
        return Ok(None);
    }
    match read_row(alloc, text, at) {
        Ok(found) => Ok(Some(found)),
        Err(fault) => Err(fault),
    }
}

/// The row at a place, as far as it is known.
fn row_there(
    alloc: Global,
    text: &[u8],
    at: usize,
    end: TextEnd,
) -> Result<Option<(Row, usize)>, RowFault>
    requires within { at ≤ length text.now }
    requires begins { StartsWith begins_space (drop at text.now) → ⊥ }
    ensures { GivesRow end text.now at result }
{
    match end {
        TextEnd::Open => decided_row(alloc, text, at),
        TextEnd::Known => whole_row(alloc, text, at),
    }
}

/// The next row behind a place of what is kept; none where more text decides, or at the text's end.
#[inline(never)]
pub fn next_row(
    alloc: Global,
    kept: &[u8],
    at: usize,
    base: u64,
    end: TextEnd,
) -> Result<Option<PlacedRow>, RowFault>
    requires { at ≤ length kept.now }
    ensures gives { (text : List ℕ) → KeepsText text base kept.now
        → GivesNext end text (base + at) result }
    ensures from { IsNotBefore base result }
{
    let start = skip_space(kept, at);
    match row_there(alloc, kept, start, end) {
        Ok(Some((row, behind))) => Ok(Some(placed(row, base, start, behind))),
        Ok(None) => Ok(None),
        Err(fault) => Err(moved(fault, base)),
    }
}
