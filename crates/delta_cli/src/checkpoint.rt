//! The command `checkpoint`: a zone opens from what it has then.
ghost use Rattle.std.specs.Prelude.{◌≡◌, ◌≢◌, ℕ, IfErr, IfOk, OnOk};
ghost use Rattle.paired_zone.specs.declared.answer.CheckEnd.TheVariants as ends;
ghost use Rattle.command_tables.specs.Views.{output_view, shelf_view};
ghost use Rattle.delta_cli.specs.Checkpoints.{StopsCheckpoint, TellsCheckEnd, WritesCheckpoint};
ghost use Rattle.delta_cli.specs.Checkpoints.{checkpoint_line};

use crate::printing::print_line;
use command_tables::Refusal;
use delta_base::{OutOfMemory, Sink, Text};
use disk_model::Shelf;
use paired_zone::CheckEnd;
use std::alloc::Global;
use zone_commands::checkpoint_zone;

/// Makes a checkpoint of the zone of a directory, and writes the version of which it is. No other
/// file is asked for.
pub fn checkpoint<H: Shelf, K: Sink>(
    alloc: Global,
    dir: &Text,
    shelf: &mut H,
    out: &mut K,
) -> Result<(), Refusal>
    ensures done { OnOk result (WritesCheckpoint dir.now H.tells
        (shelf_view H.Shelf shelf.old) (shelf_view H.Shelf shelf.new)
        (output_view K.Sink out.old) (output_view K.Sink out.new)) }
    ensures stopped { IfErr result (StopsCheckpoint dir.now H.tells
        (shelf_view H.Shelf shelf.old) (shelf_view H.Shelf shelf.new)
        (output_view K.Sink out.old) (output_view K.Sink out.new)) }
{
    match checkpoint_zone(alloc, shelf, dir) {
        Ok(CheckEnd::Done { version }) => print_line(line_of(alloc, version), out),
        Ok(end) => Err(refusal_of(end)),
        Err(fault) => Err(Refusal::of_pair(fault)),
    }
}

fn line_of(alloc: Global, version: u32) -> Result<String, OutOfMemory>
    ensures { IfOk result (λ line. line.bytes.items ≡ checkpoint_line version) }
{
    Ok(format!(in alloc; "checkpoint at version {version}\n")?)
}

// The refusal that tells this end, at which no checkpoint was made.
fn refusal_of(end: CheckEnd) -> Refusal
    requires { (version : ℕ) → end ≢ ends.Done version }
    ensures { TellsCheckEnd end result }
{
    match end {
        CheckEnd::Done { .. } => unreachable!(),
        CheckEnd::TooLarge { length, limit } => Refusal::CheckpointTooLarge { length, limit },
        CheckEnd::DiskFault => Refusal::DiskFailed,
        CheckEnd::OutOfMemory => Refusal::OutOfMemory,
    }
}
