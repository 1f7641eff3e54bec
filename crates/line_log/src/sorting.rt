//! Lines that are sorted with the numbers of their edits.
ghost use Rattle.std.specs.Prelude.{◌≡◌};
ghost use Rattle.line_log.specs.Sorting.{edits_at, ends, lines_numbered};

use line_order::Keyed;

/// A line, and the number of its edit.
pub type Row<'a> = Keyed<(&'a [u8], usize)>;

/// Whether a line isn't that of the next row.
#[inline]
pub fn ends(line: &[u8], behind: &[Row]) -> bool
    ensures { (es : _) → result ≡ ends line.now (edits_at es (lines_numbered behind.now)) }
{
    match behind {
        [] => true,
        [next, ..] => line != next.line.0,
    }
}
