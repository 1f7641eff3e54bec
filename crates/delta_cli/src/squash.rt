//! The commands `squash` and `invert`: a stream with one patch in the place of some, and the patch
//! that undoes its last one.
ghost use Rattle.std.specs.Prelude.{◌≡◌, ◌++◌, IfErr, IfOk, OnOk};
ghost use Rattle.command_tables.specs.Channels.{WritesText};
ghost use Rattle.command_tables.specs.Views.{input_view, output_view};
ghost use Rattle.delta_cli.specs.Commands.{IsSpan};
ghost use Rattle.delta_cli.specs.Results.{Prints, ReadsInput, StopsPrinting};
ghost use Rattle.delta_cli.specs.Squashes.{HasInverted, StopsInverting, StopsSquashing};
ghost use Rattle.delta_cli.specs.Squashes.{squash_refusal};
ghost use Rattle.sink_writing.specs.Writing.{joined};
ghost use Rattle.stream_squash.specs.Squashes.{HasSquashed};

use crate::nquads::{print_texts, read_text};
use command_tables::Refusal;
use delta_base::{Id, OutOfMemory, Sink, Source};
use std::alloc::Global;
use stream_squash::{SquashFault, Squashed};

/// Reads a stream to its end, and writes it with the net patch of those from one version to another
/// in their place.
pub fn squash<S: Source, K: Sink>(
    alloc: Global,
    from: u32,
    to: u32,
    input: &mut S,
    out: &mut K,
) -> Result<(), Refusal>
    requires { IsSpan from to }
    ensures done { OnOk result (ReadsInput
        (input_view S.Source input.old) (input_view S.Source input.new)
        (Prints (HasSquashed from to) (output_view K.Sink out.old) (output_view K.Sink out.new))) }
    ensures stopped { IfErr result (λ refusal. StopsSquashing from to refusal
        (input_view S.Source input.old) (input_view S.Source input.new)
        (output_view K.Sink out.old) (output_view K.Sink out.new)) }
{
    let text = match read_text(alloc, input) {
        Ok(text) => text,
        Err(refusal) => return Err(refusal),
    };
    match stream_squash::squash(alloc, text.as_slice(), from, to) {
        Ok(squashed) => print_squashed(alloc, &squashed, out),
        Err(fault) => Err(refusal_of(fault)),
    }
}

// Writes the texts of the patches before the net patch, its own, and those of the patches behind.
fn print_squashed<K: Sink>(
    alloc: Global,
    squashed: &Squashed<'_>,
    out: &mut K,
) -> Result<(), Refusal>
    ensures done { OnOk result (WritesText
        (output_view K.Sink out.old) (output_view K.Sink out.new)
        (squashed.now.front.now ++ (squashed.now.net.text ++ squashed.now.behind.now))) }
    ensures stopped { IfErr result (StopsPrinting
        (squashed.now.front.now ++ (squashed.now.net.text ++ squashed.now.behind.now))
        (output_view K.Sink out.old) (output_view K.Sink out.new)) }
{
    let net = squashed.net.text().as_slice();
    match three_texts(alloc, squashed.front, net, squashed.behind) {
        Ok(texts) => print_texts(alloc, texts.as_slice(), out),
        Err(OutOfMemory) => Err(Refusal::OutOfMemory),
    }
}

// Three texts in a list.
fn three_texts<'t>(
    alloc: Global,
    front: &'t [u8],
    middle: &'t [u8],
    behind: &'t [u8],
) -> Result<Vec<&'t [u8]>, OutOfMemory>
    ensures { IfOk result (λ texts.
        joined texts.items ≡ front.now ++ (middle.now ++ behind.now)) }
{
    let mut texts = Vec::new(alloc);
    texts.push(front)?;
    texts.push(middle)?;
    texts.push(behind)?;
    Ok(texts)
}

/// Reads a stream to its end, and writes the patch of an id that undoes its last one.
pub fn invert<S: Source, K: Sink>(
    alloc: Global,
    id: Id,
    input: &mut S,
    out: &mut K,
) -> Result<(), Refusal>
    ensures done { OnOk result (ReadsInput
        (input_view S.Source input.old) (input_view S.Source input.new)
        (Prints (HasInverted id) (output_view K.Sink out.old) (output_view K.Sink out.new))) }
    ensures stopped { IfErr result (λ refusal. StopsInverting id refusal
        (input_view S.Source input.old) (input_view S.Source input.new)
        (output_view K.Sink out.old) (output_view K.Sink out.new)) }
{
    let text = match read_text(alloc, input) {
        Ok(text) => text,
        Err(refusal) => return Err(refusal),
    };
    match stream_squash::invert(alloc, text.as_slice(), id) {
        Ok(patch) => print_texts(alloc, &[patch.text().as_slice()], out),
        Err(fault) => Err(refusal_of(fault)),
    }
}

// How a command ends whose stream has no such patch.
fn refusal_of(fault: SquashFault) -> Refusal
    ensures { result ≡ squash_refusal fault }
{
    match fault {
        SquashFault::Stream { line, at, kind } => Refusal::Stream { line, at, kind },
        SquashFault::LongPatch { length, limit } => Refusal::LongPatch { length, limit },
        SquashFault::Chain(fault) => Refusal::Chain(fault),
        SquashFault::NoPatch { version } => Refusal::FewPatches { version },
        SquashFault::NetTooLong { length, limit } => Refusal::NetTooLong { length, limit },
        SquashFault::OutOfMemory => Refusal::OutOfMemory,
    }
}
