//! Rows and where they stand in what was fed.

use patch_rows::Row;

/// A row of a text, its first byte, and the place behind its dot, both counted from
/// the text's front.
#[derive(Drop)]
pub struct PlacedRow {
    pub row: Row,
    pub at: u64,
    pub end: u64,
}
