//! The commands `gen` and `emit`: the stream of the generator, replayed to its counts, or written.
ghost use Rattle.std.specs.Prelude.{◌≡◌, ◌≤◌, ℕ, List, IfOk, IfErr, OnOk};
ghost use Rattle.stream_generator.specs.Generator.{stream_text};
ghost use Rattle.command_tables.specs.Channels.{WritesText};
ghost use Rattle.delta_cli.specs.Results.{IsGeneratedLine, StopsEmitting, StopsGenerating};
ghost use Rattle.delta_cli.specs.Results.{counts_line};
ghost use Rattle.command_tables.specs.Views.{output_view};

use command_tables::Refusal;
use delta_base::{Id, OutOfMemory, Sink};
use sink_writing::{Room, write_all};
use slot_checks::push_id;
use std::alloc::Global;
use stream_generator::{GeneratedSource, MOST_BYTES, push_patch};
use stream_replay::{ReplayFault, replay_source};

/// Replays so many patches, and writes how many patches and quads there are, and the
/// last patch's id.
pub fn generate<K: Sink>(alloc: Global, patches: u32, out: &mut K) -> Result<(), Refusal>
    requires { patches ≤ 65536 }
    ensures done { OnOk result ((text : List ℕ) × IsGeneratedLine patches text
        × WritesText (output_view K.Sink out.old) (output_view K.Sink out.new) text) }
    ensures stopped { IfErr result (StopsGenerating patches
        (output_view K.Sink out.old) (output_view K.Sink out.new)) }
{
    match count(alloc, patches) {
        Ok(line) => write_all(out, line.as_slice()).map_err(|_| Refusal::OutputFailed),
        Err(OutOfMemory) => Err(Refusal::OutOfMemory),
    }
}

// The line with the counts of so many patches. Their stream has no fault, and the generator fails
// only where there is no memory for its next patch; so only want of memory stops their replay.
fn count(alloc: Global, patches: u32) -> Result<Vec<u8>, OutOfMemory>
    requires { patches ≤ 65536 }
    ensures { IfOk result (λ line. IsGeneratedLine patches line.items) }
{
    let mut source = GeneratedSource::new(alloc, patches);
    match replay_source(alloc, &mut source) {
        Ok(replayed) => counts_line(alloc, replayed.patches, replayed.quads, replayed.head),
        Err(fault) => {
            prove!(matches!(fault, ReplayFault::Failed | ReplayFault::OutOfMemory));
            Err(OutOfMemory)
        }
    }
}

fn counts_line(
    alloc: Global,
    patches: u64,
    quads: usize,
    head: Option<Id>,
) -> Result<Vec<u8>, OutOfMemory>
    ensures { IfOk result (λ line. line.items ≡ counts_line patches quads head) }
{
    let front = format!(in alloc; "patches {patches} quads {quads} head ")?;
    let mut line = front.into_bytes();
    push_id(&mut line, head)?;
    line.push(b'\n')?;
    Ok(line)
}

/// Writes so many patches, of which one is in memory at a time. All memory is taken before the
/// first byte is written.
pub fn emit<K: Sink>(alloc: Global, patches: u32, out: &mut K) -> Result<(), Refusal>
    requires { patches ≤ 65536 }
    ensures done { OnOk result (WritesText
        (output_view K.Sink out.old) (output_view K.Sink out.new) (stream_text patches)) }
    ensures stopped { IfErr result (λ refusal.
        StopsEmitting (stream_text patches) refusal
        (output_view K.Sink out.old) (output_view K.Sink out.new)) }
{
    let mut room = Room::new(alloc)?;
    let Ok(mut text) = Vec::with_capacity(alloc, MOST_BYTES) else {
        return Err(Refusal::OutOfMemory);
    };
    for made in 0..patches {
        text.clear();
        let Ok(()) = push_patch(&mut text, made + 1) else {
            unreachable!()
        };
        let Ok(()) = room.put(out, text.as_slice()) else {
            return Err(Refusal::OutputFailed);
        };
    }
    let Ok(()) = room.write_out(out) else {
        return Err(Refusal::OutputFailed);
    };
    Ok(())
}
