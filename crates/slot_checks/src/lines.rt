//! The lines of a report, a line for each file.
ghost use Rattle.std.specs.Prelude.{◌≡◌, ◌++◌, ◌∷◌, [], IfOk, OnOk};
ghost use Rattle.slot_checks.specs.Lines.{id_or_none, line_text, lines_text};

use delta_base::{Id, Listing, OutOfMemory, id_text};
use std::alloc::Global;

/// What a file that is in its form holds.
#[derive(Clone, Copy, Debug, PartialEq, Eq)]
pub enum FileLine {
    Registry {
        records: u64,
    },
    Log {
        number: u32,
        patches: u32,
        head: Option<Id>,
    },
}

/// A line for each file, the registry's first.
pub type Report = Listing<FileLine>;

/// Adds an id, or `none`.
pub fn push_id(text: &mut Vec<u8>, id: Option<Id>) -> Result<(), OutOfMemory>
    ensures { OnOk result (text.new.items ≡ text.old.items ++ id_or_none id) }
{
    match id {
        Some(id) => text.extend_from_slice(&id_text(id))?,
        None => text.extend_from_slice(b"none")?,
    }
    Ok(())
}

fn registry_line(alloc: Global, records: u64) -> Result<Vec<u8>, OutOfMemory>
    ensures { IfOk result (λ text. text.items ≡ line_text (FileLine.Registry records)) }
{
    let text = format!(in alloc; "file 0 records {records}\n")?;
    Ok(text.into_bytes())
}

fn log_line(
    alloc: Global,
    number: u32,
    patches: u32,
    head: Option<Id>,
) -> Result<Vec<u8>, OutOfMemory>
    ensures { IfOk result (λ text. text.items ≡ line_text (FileLine.Log number patches head)) }
{
    let front = format!(in alloc; "file {number} patches {patches} head ")?;
    let mut text = front.into_bytes();
    push_id(&mut text, head)?;
    text.push(b'\n')?;
    Ok(text)
}

fn text_of_line(alloc: Global, line: &FileLine) -> Result<Vec<u8>, OutOfMemory>
    ensures { IfOk result (λ text. text.items ≡ line_text line.now) }
{
    match *line {
        FileLine::Registry { records } => registry_line(alloc, records),
        FileLine::Log {
            number,
            patches,
            head,
        } => log_line(alloc, number, patches, head),
    }
}

/// The lines of a report, each with its line feed.
pub fn report_text(alloc: Global, report: &Report) -> Result<Vec<u8>, OutOfMemory>
    ensures { IfOk result (λ text. text.items ≡ lines_text report.now.items) }
{
    let mut text = Vec::new(alloc);
    for line in report.as_slice() {
        let more = text_of_line(alloc, line)?;
        text.extend_from_slice(&more)?;
    }
    Ok(text)
}
