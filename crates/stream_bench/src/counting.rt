//! Counts the rows of a text that is fed in pieces.

ghost use Rattle.std.specs.Prelude.{◌≡◌, [], IfOk};
ghost use Rattle.patch_reader.specs.Pieces.{HasAllRows};
ghost use Rattle.stream_bench.specs.Counting.{HasRows, SameText, TakesOne, CountsRows};

use patch_reader::PatchReader;
use patch_rows::RowFault;
use std::alloc::Global;

/// Whether a row was ready, which is taken.
fn take_one(reader: &mut PatchReader) -> bool
    ensures one { TakesOne reader.old result reader.new }
    ensures same { SameText reader.old reader.new }
    ensures rows { HasAllRows reader.new }
{
    match reader.take_row() {
        Some(row) => {
            drop(row);
            true
        }
        None => false,
    }
}

/// Takes the rows that are ready, and counts them.
fn take_rows(reader: &mut PatchReader, before: usize) -> usize
    ensures counts { CountsRows reader.old before → CountsRows reader.new result }
    ensures all { reader.new.ready ≡ [] }
    ensures same { SameText reader.old reader.new }
    ensures rows { HasAllRows reader.new }
{
    let mut count = before;
    'rows: while take_one(reader) {
        count = count.saturating_add(1);
    }
    count
}

/// The number of rows of a text that is fed in pieces of `size` bytes, or of one byte where
/// that is 0.
pub fn count_rows(alloc: Global, text: &[u8], size: u32) -> Result<usize, RowFault>
    ensures { IfOk result (λ count. HasRows text.now count) }
{
    let mut reader = PatchReader::new(alloc);
    let mut count = 0;
    let mut rest = text;
    'pieces: while !rest.is_empty() {
        let (piece, behind) = rest.split_at(rest.len().min(size.max(1) as usize));
        reader.feed(piece)?;
        count = take_rows(&mut reader, count);
        rest = behind;
    }
    reader.finish()?;
    Ok(take_rows(&mut reader, count))
}
