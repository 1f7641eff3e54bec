//! The command `nquads`: a document in canonical form.
ghost use Rattle.std.specs.Prelude.{◌≡◌, ◌≤◌, IfOk, IfErr, OnOk, length};
ghost use Rattle.sink_writing.specs.Writing.{joined};
ghost use Rattle.command_tables.specs.Channels.{WritesText};
ghost use Rattle.delta_cli.specs.Document.{IsShown};
ghost use Rattle.delta_cli.specs.Results.{AreShown, Prints, ReadsInput, StopsDocument};
ghost use Rattle.delta_cli.specs.Results.{StopsNquads, StopsPrinting, StopsReading};
ghost use Rattle.command_tables.specs.Views.{input_view, output_view};
ghost use Rattle.stream_replay.specs.Source.{stream_limit};

use crate::input::{InputFault, read_all};
use command_tables::Refusal;
use delta_base::{Sink, Source};
use nquads_documents::{DocFault, canonical_lines};
use sink_writing::{Room, write_texts};
use std::alloc::Global;
use stream_replay::STREAM_LIMIT;

/// Reads a document to its end, and writes its canonical form.
pub fn nquads<S: Source, K: Sink>(alloc: Global, input: &mut S, out: &mut K) -> Result<(), Refusal>
    ensures done { OnOk result (ReadsInput
        (input_view S.Source input.old) (input_view S.Source input.new)
        (Prints IsShown (output_view K.Sink out.old) (output_view K.Sink out.new))) }
    ensures stopped { IfErr result (λ refusal. StopsNquads refusal
        (input_view S.Source input.old) (input_view S.Source input.new)
        (output_view K.Sink out.old) (output_view K.Sink out.new)) }
{
    let text = match read_text(alloc, input) {
        Ok(text) => text,
        Err(refusal) => return Err(refusal),
    };
    let mut printed = Vec::new(alloc);
    match lines_of(alloc, text.as_slice(), &mut printed) {
        Ok(lines) => print_texts(alloc, lines.as_slice(), out),
        Err(refusal) => Err(refusal),
    }
}

/// Writes the texts.
pub(crate) fn print_texts<K: Sink>(
    alloc: Global,
    texts: &[&[u8]],
    out: &mut K,
) -> Result<(), Refusal>
    ensures done { OnOk result (WritesText
        (output_view K.Sink out.old) (output_view K.Sink out.new) (joined texts.now)) }
    ensures stopped { IfErr result (StopsPrinting (joined texts.now)
        (output_view K.Sink out.old) (output_view K.Sink out.new)) }
{
    let room = Room::new(alloc)?;
    write_texts(out, texts, room).map_err(|_| Refusal::OutputFailed)
}

/// The input to its end.
pub(crate) fn read_text<S: Source>(alloc: Global, input: &mut S) -> Result<Vec<u8>, Refusal>
    ensures ok { IfOk result (λ text. ReadsInput
        (input_view S.Source input.old) (input_view S.Source input.new)
        (λ bytes. bytes ≡ text.items)) }
    ensures within { IfOk result (λ text. length text.items ≤ stream_limit) }
    ensures stopped { IfErr result (StopsReading
        (input_view S.Source input.old) (input_view S.Source input.new)) }
{
    match read_all(alloc, input, STREAM_LIMIT) {
        Ok(text) => Ok(text),
        Err(InputFault::Failed) => Err(Refusal::InputFailed),
        Err(InputFault::TooLong) => Err(Refusal::TooLong {
            limit: STREAM_LIMIT as u64,
        }),
        Err(InputFault::OutOfMemory) => Err(Refusal::OutOfMemory),
    }
}

// The canonical lines of a text.
fn lines_of<'t>(
    alloc: Global,
    text: &'t [u8],
    printed: &'t mut Vec<u8>,
) -> Result<Vec<&'t [u8]>, Refusal>
    ensures ok { IfOk result (λ lines. AreShown lines.items text.now) }
    ensures stopped { IfErr result (StopsDocument text.now) }
{
    match canonical_lines(alloc, text, printed) {
        Ok(lines) => Ok(lines),
        Err(DocFault::At { line, at, kind }) => Err(Refusal::Document { line, at, kind }),
        Err(DocFault::OutOfMemory) => Err(Refusal::OutOfMemory),
    }
}
