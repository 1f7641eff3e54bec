//! Writes a checkpoint.
ghost use Rattle.std.specs.Prelude.{◌≡◌, ◌++◌, length, OnOk};
ghost use Rattle.std.specs.List.{concat, flat_map};
ghost use Rattle.checkpoint_text.specs.Text.{line_of_id, text_of_parts};

use checkpoint_line::{FirstLine, push_first_line};
use delta_base::{Id, OutOfMemory, id_text};
use line_log::MadeLines;

// Appends the ids, a line each.
fn push_ids(out: &mut Vec<u8>, ids: &[Id]) -> Result<(), OutOfMemory>
    ensures { OnOk result (out.new.items ≡ out.old.items ++ flat_map line_of_id ids.now) }
{
    for id in ids {
        out.extend_from_slice(&id_text(*id))?;
        out.push(b'\n')?;
    }
    Ok(())
}

// Appends lines, one after another.
fn push_lines(out: &mut Vec<u8>, lines: &MadeLines) -> Result<(), OutOfMemory>
    ensures { OnOk result (out.new.items ≡ out.old.items ++ concat lines.now) }
{
    for at in 0..lines.len() {
        out.extend_from_slice(lines.line(at))?;
    }
    Ok(())
}

// How many bytes lines have together; the last number where that is greater.
fn lines_size(lines: &MadeLines) -> usize {
    let mut size: usize = 0;
    for at in 0..lines.len() {
        size = size.saturating_add(lines.line(at).len());
    }
    size
}

// Room for a checkpoint with these ids, rows and lines, so that it is written without a copy.
fn reserve_room(
    out: &mut Vec<u8>,
    ids: &[Id],
    rows: &MadeLines,
    lines: &MadeLines,
) -> Result<(), OutOfMemory>
    ensures { out.new.items ≡ out.old.items }
{
    let size = MOST_OF_FIRST
        .saturating_add(ids.len().saturating_mul(ID_LINE))
        .saturating_add(lines_size(rows))
        .saturating_add(lines_size(lines));
    out.reserve(size)?;
    Ok(())
}

/// How long the first line may be, so that it stands in what is read of a file's front.
pub const MOST_OF_FIRST: usize = 64;

/// The bytes of the line of an id.
const ID_LINE: usize = 37;

/// Appends the checkpoint of a generation: the ids and how many bytes the texts of their patches
/// have, the rows that set the prefixes, and the lines of the quads.
pub fn push_checkpoint(
    out: &mut Vec<u8>,
    generation: u64,
    ids: &[Id],
    bytes: u64,
    rows: &MadeLines,
    lines: &MadeLines,
) -> Result<(), OutOfMemory>
    ensures { OnOk result (out.new.items ≡ out.old.items ++ text_of_parts (record {
      generation = generation;
      patches = length ids.now;
      bytes = bytes;
      prefixes = length rows.now;
      quads = length lines.now;
    }) ids.now rows.now lines.now) }
{
    let first = FirstLine {
        generation,
        patches: ids.len() as u64,
        bytes,
        prefixes: rows.len() as u64,
        quads: lines.len() as u64,
    };
    reserve_room(out, ids, rows, lines)?;
    push_first_line(out, &first)?;
    push_ids(out, ids)?;
    push_lines(out, rows)?;
    push_lines(out, lines)
}
