//! Rows that add or delete a quad.

ghost use Rattle.std.specs.Prelude.{◌≤◌, length, IfOk, IfSome};
ghost use Rattle.row_lines.specs.Rows.{HasQuadCode, HasWrittenRow};

use crate::fault::Unwritten;
use crate::quad::write_quad;
use delta_base::OutOfMemory;
use patch_rows::ROW_LIMIT;
use patch_rows::parts::{Code, find_code, word};
use std::alloc::Global;

/// A row that adds or deletes a quad.
#[derive(Clone, Copy)]
pub struct WrittenRow {
    /// Whether the quad is added; else it is deleted.
    pub adds: bool,
    /// The place behind the row's dot.
    pub end: usize,
}

// Whether a quad is added, where the code of such a row stands there, and the place behind it.
fn quad_code(text: &[u8], at: usize) -> Option<(bool, usize)>
    requires { at ≤ length text.now }
    ensures { IfSome result (λ code. HasQuadCode text.now at code.0 code.1) }
{
    match word(text, at) {
        Ok((word, behind)) => match find_code(word) {
            Some(Code::Add) => Some((true, behind)),
            Some(Code::Delete) => Some((false, behind)),
            _ => None,
        },
        Err(_) => None,
    }
}

/// Writes into `line`, which it empties first, the canonical line of the quad that the row at a
/// place adds or deletes. None where no such row is found that is right and decided, and where more
/// bytes follow than a row may have; then what is left in `line` says nothing.
pub fn write_row(
    alloc: Global,
    text: &[u8],
    at: usize,
    line: &mut Vec<u8>,
) -> Result<Option<WrittenRow>, OutOfMemory>
    requires { at ≤ length text.now }
    ensures { IfOk result (λ found. IfSome found (HasWrittenRow text.now at line.new.items)) }
{
    if text.len() - at > ROW_LIMIT {
        return Ok(None);
    }
    match quad_code(text, at) {
        Some((adds, behind)) => {
            line.clear();
            match write_quad(alloc, text, behind, line) {
                Ok(end) => Ok(Some(WrittenRow { adds, end })),
                Err(Unwritten::NotFound) => Ok(None),
                Err(Unwritten::OutOfMemory) => Err(OutOfMemory),
            }
        }
        None => Ok(None),
    }
}
