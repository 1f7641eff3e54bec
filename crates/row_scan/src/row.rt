//! Canonical rows that add or delete a quad, begin or end a block, or name a patch's id or the id
//! before it.

ghost use Rattle.std.specs.Prelude.{◌≤◌, length, IfSome};
ghost use Rattle.row_scan.specs.Rows.{HasRow, HasIdDigits};

use crate::quad_row;
use delta_base::{Id, read_id};

/// What a row says.
#[derive(Clone, Copy)]
pub enum Says {
    Quad {
        /// Whether the quad is added; else it is deleted.
        adds: bool,
        /// Where the quad's line begins.
        line: usize,
    },
    Begin,
    Commit,
    Abort,
    /// The patch's id.
    Id(Id),
    /// The id of the patch before.
    Prev(Id),
}

/// A row in canonical form.
#[derive(Clone, Copy)]
pub struct ScannedRow {
    pub says: Says,
    /// The place behind the row's dot, where its line feed stands.
    pub end: usize,
}

/// The canonical row that stands at a place, found by one scan; none where the scan finds none. An
/// id is found in the form `<uuid:`, 36 bytes, `>`.
#[inline]
pub fn scan_row(text: &[u8], at: usize) -> Option<ScannedRow>
    requires { at ≤ length text.now }
    ensures { IfSome result (HasRow text.now at) }
{
    if at == text.len() {
        return None;
    }
    match text[at] {
        b'T' => block_row(text, at),
        b'H' => id_row(text, at),
        _ => changed_quad(text, at),
    }
}

#[inline(always)]
fn changed_quad(text: &[u8], at: usize) -> Option<ScannedRow>
    requires { at ≤ length text.now }
    ensures { IfSome result (HasRow text.now at) }
{
    let row = quad_row(text, at)?;
    Some(ScannedRow {
        says: Says::Quad {
            adds: row.adds,
            line: row.line,
        },
        end: row.end,
    })
}

fn block_row(text: &[u8], at: usize) -> Option<ScannedRow>
    requires { at ≤ length text.now }
    ensures { IfSome result (HasRow text.now at) }
{
    let row = &text[at..];
    if row.starts_with(b"TX .\n") {
        return Some(ScannedRow {
            says: Says::Begin,
            end: at + 4,
        });
    }
    if row.starts_with(b"TC .\n") {
        return Some(ScannedRow {
            says: Says::Commit,
            end: at + 4,
        });
    }
    if row.starts_with(b"TA .\n") {
        return Some(ScannedRow {
            says: Says::Abort,
            end: at + 4,
        });
    }
    None
}

fn id_row(text: &[u8], at: usize) -> Option<ScannedRow>
    requires { at ≤ length text.now }
    ensures { IfSome result (HasRow text.now at) }
{
    let row = &text[at..];
    if let Some(value) = row.strip_prefix(b"H id <uuid:".as_slice()) {
        let id = named_id(value)?;
        return Some(ScannedRow {
            says: Says::Id(id),
            end: at + 50,
        });
    }
    if let Some(value) = row.strip_prefix(b"H prev <uuid:".as_slice()) {
        let id = named_id(value)?;
        return Some(ScannedRow {
            says: Says::Prev(id),
            end: at + 52,
        });
    }
    None
}

// The id whose 36 bytes stand in front, where its row ends behind them.
fn named_id(text: &[u8]) -> Option<Id>
    ensures { IfSome result (HasIdDigits text.now) }
{
    if text.len() < 40 {
        return None;
    }
    let (digits, behind) = text.split_at(36);
    if !behind.starts_with(b"> .\n") {
        return None;
    }
    read_id(digits)
}
