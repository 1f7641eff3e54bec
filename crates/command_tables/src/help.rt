//! What `--help` prints.
ghost use Rattle.std.specs.Prelude.{◌≡◌, ◌-◌, ◌≤◌, ◌++◌, codes, length, map, OnOk, IsErr};
ghost use Rattle.std.specs.List.{flat_map};
ghost use Rattle.std.specs.Io.KnownBytes.{Appends};
ghost use Rattle.delta_base.specs.Outside.{Rose};
ghost use Rattle.sink_writing.specs.Writing.{AppendsFront, joined};
ghost use Rattle.command_tables.specs.Help.{entry_text, gap_before, gap_text, help_lines};
ghost use Rattle.command_tables.specs.Help.{help_text};
ghost use Rattle.command_tables.specs.Names.{words_text};

use crate::rows::{ROWS, StaticRow};
use delta_base::{Failed, Sink};
use sink_writing::write_all;

/// What stands above the commands.
const HEAD: &[u8] = b"rdfdelta: RDF datasets kept in step by chained patches\n\n";

/// The room for a command's words in front of its first line of help.
const BLANKS: &[u8] = b"                  ";

/// What stands in front of a further line of help.
const INDENT: &[u8] = b"\n                    ";

/// Writes what the commands are.
pub fn print_help<K: Sink>(out: &mut K) -> Result<(), Failed>
    ensures whole { OnOk result (Appends (K.written out.old) (K.written out.new) help_text) }
    ensures front { AppendsFront (K.written out.old) (K.written out.new) help_text }
    ensures failed { IsErr result → Rose (K.faults out.old) (K.faults out.new) }
    ensures never_falls { K.faults out.old ≤ K.faults out.new }
{
    print_rows(HEAD, ROWS, out)
}

// Writes the lines of commands behind a text.
fn print_rows<K: Sink>(head: &[u8], rows: &[StaticRow], out: &mut K) -> Result<(), Failed>
    ensures whole { OnOk result (Appends (K.written out.old) (K.written out.new) (head.now
        ++ flat_map (λ row. entry_text row.word.now (map (λ text. text.now) row.positions.now)
        (map (λ text. text.now) row.help.now)) rows.now)) }
    ensures front { AppendsFront (K.written out.old) (K.written out.new) (head.now
        ++ flat_map (λ row. entry_text row.word.now (map (λ text. text.now) row.positions.now)
        (map (λ text. text.now) row.help.now)) rows.now) }
    ensures failed { IsErr result → Rose (K.faults out.old) (K.faults out.new) }
    ensures never_falls { K.faults out.old ≤ K.faults out.new }
{
    write_all(out, head)?;
    for row in rows {
        print_row(row, out)?;
    }
    Ok(())
}

// Writes the lines of a command.
fn print_row<K: Sink>(row: &StaticRow, out: &mut K) -> Result<(), Failed>
    ensures whole { OnOk result (Appends (K.written out.old) (K.written out.new)
        (entry_text row.now.word.now (map (λ text. text.now) row.now.positions.now)
        (map (λ text. text.now) row.now.help.now))) }
    ensures front { AppendsFront (K.written out.old) (K.written out.new)
        (entry_text row.now.word.now (map (λ text. text.now) row.now.positions.now)
        (map (λ text. text.now) row.now.help.now)) }
    ensures failed { IsErr result → Rose (K.faults out.old) (K.faults out.new) }
    ensures never_falls { K.faults out.old ≤ K.faults out.new }
{
    let gap = gap_behind(row);
    print_words(row, out)?;
    print_lines(gap, row.help, out)
}

// Writes a command's words behind two blanks.
fn print_words<K: Sink>(row: &StaticRow, out: &mut K) -> Result<(), Failed>
    ensures whole { OnOk result (Appends (K.written out.old) (K.written out.new) (codes "  "
        ++ words_text row.now.word.now (map (λ text. text.now) row.now.positions.now))) }
    ensures front { AppendsFront (K.written out.old) (K.written out.new) (codes "  "
        ++ words_text row.now.word.now (map (λ text. text.now) row.now.positions.now)) }
    ensures failed { IsErr result → Rose (K.faults out.old) (K.faults out.new) }
    ensures never_falls { K.faults out.old ≤ K.faults out.new }
{
    print_all(&[b"  ", row.word.as_bytes()], out)?;
    for position in row.positions {
        print_all(&[b" ", position.as_bytes()], out)?;
    }
    Ok(())
}

// What stands between a command's words and its first line of help.
fn gap_behind(row: &StaticRow) -> &'static [u8]
    ensures { result.now ≡ gap_text (18 - length
        (words_text row.now.word.now (map (λ text. text.now) row.now.positions.now))) }
{
    let mut left = BLANKS.len().saturating_sub(row.word.len());
    for position in row.positions {
        left = left.saturating_sub(position.len()).saturating_sub(1);
    }
    if left == 0 { INDENT } else { &BLANKS[..left] }
}

// What stands in front of a line: an empty one has no gap.
fn gap_before<'a>(line: &str, gap: &'a [u8]) -> &'a [u8]
    ensures { result.now ≡ gap_before line.now gap.entry.now }
{
    if line.is_empty() { b"" } else { gap }
}

// Writes lines of help, the first one behind the gap.
fn print_lines<K: Sink>(gap: &[u8], lines: &[&str], out: &mut K) -> Result<(), Failed>
    ensures whole { OnOk result (Appends (K.written out.old) (K.written out.new)
        (help_lines gap.entry.now (map (λ text. text.now) lines.entry.now))) }
    ensures front { AppendsFront (K.written out.old) (K.written out.new)
        (help_lines gap.entry.now (map (λ text. text.now) lines.entry.now)) }
    ensures failed { IsErr result → Rose (K.faults out.old) (K.faults out.new) }
    ensures never_falls { K.faults out.old ≤ K.faults out.new }
{
    let mut gap = gap;
    for line in lines {
        print_all(&[gap_before(line, gap), line.as_bytes()], out)?;
        gap = INDENT;
    }
    write_all(out, b"\n")
}

// Writes texts one after another.
fn print_all<K: Sink>(texts: &[&[u8]], out: &mut K) -> Result<(), Failed>
    ensures whole { OnOk result
        (Appends (K.written out.old) (K.written out.new) (joined texts.now)) }
    ensures front { AppendsFront (K.written out.old) (K.written out.new) (joined texts.now) }
    ensures failed { IsErr result → Rose (K.faults out.old) (K.faults out.new) }
    ensures never_falls { K.faults out.old ≤ K.faults out.new }
{
    for text in texts {
        write_all(out, text)?;
    }
    Ok(())
}
