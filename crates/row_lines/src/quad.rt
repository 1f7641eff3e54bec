//! The quads of rows.

ghost use Rattle.std.specs.Prelude.{◌≤◌, length, drop};
ghost use Rattle.rdf_terms.specs.Line.{graph_text, line};
ghost use Rattle.patch_rows.specs.declared.cut.TextEnd.TheVariants as ends;
ghost use Rattle.patch_rows.specs.Rows.{graph_or_dot_of, quad_of};
ghost use Rattle.row_lines.specs.Written.{WritesRead};

use crate::fault::Unwritten;
use crate::terms::{write_node, write_predicate, write_term};
use nquads_text::TextKind;
use patch_rows::parts::{dot, is_term_at};
use patch_rows::{RowKind, skip_space};
use std::alloc::Global;

// Appends the canonical text of the graph at a place, with a space before it, or of none. The place
// that it gives is that behind the row's dot.
fn write_graph(alloc: Global, text: &[u8], at: usize, out: &mut Vec<u8>) -> Result<usize, Unwritten>
    requires { at ≤ length text.now }
    ensures { WritesRead graph_text text.now out.old.items out.new.items result
        (graph_or_dot_of ends.Open (drop at text.now)) }
{
    let missing = RowKind::Common(TextKind::MissingDot);
    if !is_term_at(text, at) {
        let behind = dot(text, at, missing)?;
        return Ok(behind);
    }
    out.push(b' ')?;
    let end = write_node(alloc, text, at, out)?;
    let behind = dot(text, skip_space(text, end), missing)?;
    Ok(behind)
}

/// Appends the canonical line of the quad that stands behind a row's code, and gives the place
/// behind the row's dot.
pub fn write_quad(
    alloc: Global,
    text: &[u8],
    at: usize,
    out: &mut Vec<u8>,
) -> Result<usize, Unwritten>
    requires { at ≤ length text.now }
    ensures { WritesRead line text.now out.old.items out.new.items result
        (quad_of ends.Open (drop at text.now)) }
{
    let end = write_node(alloc, text, skip_space(text, at), out)?;
    out.push(b' ')?;
    let end = write_predicate(alloc, text, skip_space(text, end), out)?;
    out.push(b' ')?;
    let end = write_term(alloc, text, skip_space(text, end), out)?;
    let end = write_graph(alloc, text, skip_space(text, end), out)?;
    out.extend_from_slice(b" .\n")?;
    Ok(end)
}
