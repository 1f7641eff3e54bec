//! The command `check`: the files of a registry and its logs, with a line for each.
ghost use Rattle.std.specs.Prelude.{List, IfErr, OnOk};
ghost use Rattle.slot_checks.specs.Lines.{lines_text};
ghost use Rattle.slot_checks.specs.declared.lines.FileLine.{FileLine};
ghost use Rattle.command_tables.specs.Channels.{WritesText};
ghost use Rattle.delta_cli.specs.Results.{StopsPrinting};
ghost use Rattle.delta_cli.specs.Tool.{Reported, StopsCheck};
ghost use Rattle.command_tables.specs.Views.{output_view, shelf_view};

use command_tables::Refusal;
use delta_base::{Sink, Text};
use disk_model::Shelf;
use sink_writing::write_all;
use slot_checks::{Report, check_files, report_text};
use std::alloc::Global;

/// Opens the files of a directory, and writes a line for each. Each is left as it was, and no other
/// is asked for.
pub fn check<H: Shelf, K: Sink>(
    alloc: Global,
    dir: &Text,
    shelf: &mut H,
    out: &mut K,
) -> Result<(), Refusal>
    ensures done { OnOk result ((report : List FileLine)
        × Reported dir.now H.tells (H.files shelf.old) (H.files shelf.new) report
        × WritesText
        (output_view K.Sink out.old) (output_view K.Sink out.new) (lines_text report)) }
    ensures stopped { IfErr result (StopsCheck dir.now H.tells
        (shelf_view H.Shelf shelf.old) (shelf_view H.Shelf shelf.new)
        (output_view K.Sink out.old) (output_view K.Sink out.new)) }
{
    match check_files(alloc, shelf, dir) {
        Ok(report) => print_report(alloc, &report, out),
        Err(fault) => Err(Refusal::of_check(fault)),
    }
}

// Writes the lines of a report.
fn print_report<K: Sink>(alloc: Global, report: &Report, out: &mut K) -> Result<(), Refusal>
    ensures done { OnOk result (WritesText
        (output_view K.Sink out.old) (output_view K.Sink out.new) (lines_text report.now.items)) }
    ensures stopped { IfErr result (StopsPrinting (lines_text report.now.items)
        (output_view K.Sink out.old) (output_view K.Sink out.new)) }
{
    let Ok(text) = report_text(alloc, report) else {
        return Err(Refusal::OutOfMemory);
    };
    write_all(out, text.as_slice()).map_err(|_| Refusal::OutputFailed)
}
