//! Rows within their limit.

ghost use Rattle.std.specs.Prelude.{◌≡◌, ◌≤◌, ◌<◌, ◌+◌, ℕ, true, false};
ghost use Rattle.std.specs.Prelude.{length, take, drop, IfOk, IfErr};
ghost use Rattle.nquads_text.specs.Grammar.{StartsWith};
ghost use Rattle.patch_rows.specs.declared.row.Row.{Row};
ghost use Rattle.patch_rows.specs.Fault.{Fault, RowGives, RowFailsBy, IsRowAnswer};
ghost use Rattle.patch_rows.specs.Fault.{IsRowFaultAnswer};
ghost use Rattle.patch_rows.specs.Faults.{FirstFault};
ghost use Rattle.patch_rows.specs.Grammar.{begins_space, IsRowAt, row_limit};
ghost use Rattle.patch_reader.specs.Decided.{DecidesRow};
ghost use Rattle.patch_reader.specs.Limit.{front_row_at, limited_row_at};

use patch_rows::parts::{ends, row_of};
use patch_rows::{ROW_LIMIT, Row, RowFault, RowKind, TextEnd};
use std::alloc::Global;

/// Whether more bytes stand from a place on than a row may have.
pub fn is_long(text: &[u8], at: usize) -> bool
    requires { at ≤ length text.now }
    ensures long { result ≡ true → row_limit < length (drop at text.now) }
    ensures short { result ≡ false → length (drop at text.now) ≤ row_limit }
{
    text.len() - at > ROW_LIMIT
}

/// The text up to one byte more from a place on than a row may have.
fn front_of(text: &[u8], at: usize) -> &[u8]
    requires low { at ≤ length text.now }
    requires long { row_limit < length (drop at text.now) }
    ensures { result.now ≡ take (at + (row_limit + 1)) text.now }
{
    &text[..at + ROW_LIMIT + 1]
}

/// The row at a place behind which more bytes stand than a row may have: as many and one
/// more decide it.
#[tactic(auto, using(crate::proofs::FrontSteps::front_steps))]
fn front_row(alloc: Global, text: &[u8], at: usize) -> Result<(Row, usize), RowFault>
    requires low { at ≤ length text.now }
    requires long { row_limit < length (drop at text.now) }
    ensures { RowGives text.now result (front_row_at (drop at text.now)) }
{
    let front = front_of(text, at);
    match row_of(alloc, front, at, TextEnd::Open) {
        Ok((row, end)) => {
            if end == front.len() {
                drop(row);
                return Err(RowFault::at(at, RowKind::TooLong));
            }
            Ok((row, end))
        }
        Err(RowFault::At { at: place, kind }) => {
            if ends(front, place as usize, kind) {
                return Err(RowFault::at(at, RowKind::TooLong));
            }
            Err(RowFault::At { at: place, kind })
        }
        Err(RowFault::OutOfMemory) => Err(RowFault::OutOfMemory),
    }
}

/// The row at a place behind which more bytes stand than a row may have, which is decided.
#[inline(never)]
fn long_row(alloc: Global, text: &[u8], at: usize) -> Result<Option<(Row, usize)>, RowFault>
    requires low { at ≤ length text.now }
    requires long { row_limit < length (drop at text.now) }
    ensures { DecidesRow text.now at result }
{
    match front_row(alloc, text, at) {
        Ok(found) => Ok(Some(found)),
        Err(fault) => Err(fault),
    }
}

/// The row at a place and the place behind it where the text decides them, whatever follows it, and
/// none where more text decides; else the row's first fault, decided likewise.
#[tactic(auto, using(crate::proofs::Answered::answered))]
pub fn decided_row(alloc: Global, text: &[u8], at: usize) -> Result<Option<(Row, usize)>, RowFault>
    requires { at ≤ length text.now }
    ensures { DecidesRow text.now at result }
{
    if is_long(text, at) {
        return long_row(alloc, text, at);
    }
    match row_of(alloc, text, at, TextEnd::Open) {
        Ok(found) => Ok(Some(found)),
        Err(RowFault::At { at: place, kind }) => {
            if ends(text, place as usize, kind) {
                return Ok(None);
            }
            Err(RowFault::At { at: place, kind })
        }
        Err(RowFault::OutOfMemory) => Err(RowFault::OutOfMemory),
    }
}

/// A row within its limit, read from left to right.
#[tactic(auto, unfolding(crate::specs::Limit::limited_row_at), using(crate::proofs::FrontSteps::limit_steps))]
fn limited_row(alloc: Global, text: &[u8], at: usize) -> Result<(Row, usize), RowFault>
    requires { at ≤ length text.now }
    ensures { RowGives text.now result (limited_row_at (drop at text.now)) }
{
    if is_long(text, at) {
        return front_row(alloc, text, at);
    }
    row_of(alloc, text, at, TextEnd::Known)
}

/// The row that begins at a place of a whole text, and the place behind its dot; else
/// its first fault.
pub fn read_row(alloc: Global, text: &[u8], at: usize) -> Result<(Row, usize), RowFault>
    requires some { at < length text.now }
    requires begins { StartsWith begins_space (drop at text.now) → ⊥ }
    ensures ok { IfOk result (λ r. IsRowAt text.now at r.0 r.1) }
    ensures only { (r : Row) (end : ℕ) → IsRowAt text.now at r end → IsRowAnswer result r end }
    ensures fault { IfErr result (RowFailsBy (FirstFault (drop at text.now)) text.now) }
    ensures only_fault { (f : Fault) → FirstFault (drop at text.now) f
        → IsRowFaultAnswer text.now result f }
    ensures gives { RowGives text.now result (limited_row_at (drop at text.now)) }
{
    limited_row(alloc, text, at)
}
