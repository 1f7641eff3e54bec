//! The canonical lines of a document, of which no quad is kept.
ghost use Rattle.nquads_documents.specs.Shown.{AreCuts, HasShown, HoldsLines};
ghost use Rattle.nquads_documents.specs.Shown.{IsCanonicalOf, cut_lines, shown};
ghost use Rattle.std.specs.Prelude.{◌≡◌, ◌++◌, [], OnOk, map};

use crate::fault::DocFault;
use crate::parts::line_at;
use crate::pushing::push_part;
use canonical_scan::line_end;
use delta_base::OutOfMemory;
use line_order::sort_lines;
use nquads_text::ReadFault;
use std::alloc::Global;

// The lines that stand in a document in canonical form, and where each of the others ends, which
// are printed.
fn shown_lines<'t>(
    alloc: Global,
    text: &'t [u8],
    printed: &mut Vec<u8>,
) -> Result<(Vec<&'t [u8]>, Vec<usize>), ReadFault>
    requires { printed.now.items ≡ [] }
    ensures { HasShown text.now printed.new.items result }
{
    let mut lines = Vec::new(alloc);
    let mut ends = Vec::new(alloc);
    let mut at = 0;
    while at < text.len() {
        match line_end(text, at) {
            Some(end) => {
                lines.push(&text[at..end])?;
                at = end;
            }
            None => {
                let (is_line, next) = push_part(alloc, text, at, printed)?;
                if is_line {
                    ends.push(printed.len())?;
                }
                at = next;
            }
        }
    }
    Ok((lines, ends))
}

// Puts the printed lines behind the others.
fn add_printed<'t>(
    lines: &mut Vec<&'t [u8]>,
    printed: &'t [u8],
    ends: &[usize],
) -> Result<(), OutOfMemory>
    requires { AreCuts printed.now 0 ends.now }
    ensures { OnOk result (map shown lines.new.items
        ≡ map shown lines.old.items ++ cut_lines printed.now 0 ends.now) }
{
    let mut from = 0;
    for end in ends {
        lines.push(&printed[from..*end])?;
        from = *end;
    }
    Ok(())
}

// The canonical line of each statement, in any order.
fn all_lines<'t>(
    alloc: Global,
    text: &'t [u8],
    printed: &'t mut Vec<u8>,
) -> Result<Vec<&'t [u8]>, ReadFault>
    ensures { HoldsLines text.now result }
{
    printed.clear();
    let (mut lines, ends) = shown_lines(alloc, text, printed)?;
    add_printed(&mut lines, printed.as_slice(), ends.as_slice())?;
    Ok(lines)
}

/// The canonical lines of a document, each once, in the order of their bytes; or its first fault.
///
/// A line that stands in the text in canonical form is lent from there. The others are written into
/// `printed`, which is emptied first, and lent from there.
pub fn canonical_lines<'t>(
    alloc: Global,
    text: &'t [u8],
    printed: &'t mut Vec<u8>,
) -> Result<Vec<&'t [u8]>, DocFault>
    ensures { IsCanonicalOf text.now result }
{
    match all_lines(alloc, text, printed) {
        Ok(mut lines) => {
            sort_lines(alloc, &mut lines);
            lines.dedup();
            Ok(lines)
        }
        Err(ReadFault::OutOfMemory) => Err(DocFault::OutOfMemory),
        Err(ReadFault::At { at, kind }) => Err(DocFault::At {
            line: line_at(text, at),
            at,
            kind,
        }),
    }
}
