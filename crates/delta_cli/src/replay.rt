//! The command `replay`: the canonical lines of the dataset that a stream of patches makes.
ghost use Rattle.std.specs.Prelude.{◌≡◌, IfErr, OnOk};
ghost use Rattle.command_tables.specs.Channels.{WritesText};
ghost use Rattle.delta_cli.specs.Results.{HasReplayLines, Prints, ReadsInput, StopsPrinting};
ghost use Rattle.delta_cli.specs.Results.{StopsReplay, refusal_of};
ghost use Rattle.command_tables.specs.Views.{input_view, output_view};
ghost use Rattle.delta_cli.specs.Zones.{bytes_of};

use command_tables::Refusal;
use delta_base::{Sink, Source};
use line_log::MadeLines;
use sink_writing::Room;
use std::alloc::Global;
use stream_replay::{ReplayFault, STREAM_LIMIT, replay_source, write_lines};

/// Reads a stream to its end, and writes the lines of its replay.
pub fn replay<S: Source, K: Sink>(alloc: Global, input: &mut S, out: &mut K) -> Result<(), Refusal>
    ensures done { OnOk result (ReadsInput
        (input_view S.Source input.old) (input_view S.Source input.new)
        (Prints HasReplayLines (output_view K.Sink out.old) (output_view K.Sink out.new))) }
    ensures stopped { IfErr result (λ refusal. StopsReplay refusal
        (input_view S.Source input.old) (input_view S.Source input.new)
        (output_view K.Sink out.old) (output_view K.Sink out.new)) }
{
    match replay_source(alloc, input) {
        Ok(replayed) => print_made(alloc, &replayed.lines, out),
        Err(fault) => Err(refusal_of(fault)),
    }
}

/// Writes the lines, where there is memory for a room of them.
pub(crate) fn print_made<K: Sink>(
    alloc: Global,
    lines: &MadeLines,
    out: &mut K,
) -> Result<(), Refusal>
    ensures done { OnOk result (WritesText
        (output_view K.Sink out.old) (output_view K.Sink out.new) (bytes_of lines.now)) }
    ensures stopped { IfErr result (StopsPrinting (bytes_of lines.now)
        (output_view K.Sink out.old) (output_view K.Sink out.new)) }
{
    let room = Room::new(alloc)?;
    write_lines(out, lines, room).map_err(|_| Refusal::OutputFailed)
}

/// How a command ends whose input has no replay.
pub fn refusal_of(fault: ReplayFault) -> Refusal
    ensures { result ≡ refusal_of fault }
{
    match fault {
        ReplayFault::Stream { line, at, kind } => Refusal::Stream { line, at, kind },
        ReplayFault::LongPatch { length, limit } => Refusal::LongPatch { length, limit },
        ReplayFault::Chain(fault) => Refusal::Chain(fault),
        ReplayFault::TooLong => Refusal::TooLong {
            limit: STREAM_LIMIT as u64,
        },
        ReplayFault::Failed => Refusal::InputFailed,
        ReplayFault::OutOfMemory => Refusal::OutOfMemory,
    }
}
