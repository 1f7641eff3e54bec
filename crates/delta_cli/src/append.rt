//! The commands `append` and `append_run`: the patch, or the run of patches, that the input is,
//! appended to a log of a server.
ghost use Rattle.std.specs.Prelude.{◌≡◌, ◌≤◌, length, IfErr, IfOk, OnOk};
ghost use Rattle.log_base.specs.declared.limits.TheConstants.{PATCH_LIMIT};
ghost use Rattle.patch_reader.specs.Places.{line_number};
ghost use Rattle.command_tables.specs.Addresses.{IsAddress};
ghost use Rattle.delta_cli.specs.Asked.{AppendsInput, IsReadAs, MayBeAppended, append_call};
ghost use Rattle.delta_cli.specs.Asked.{HasTextFault, StopsAppend, StopsInput, StopsText};
ghost use Rattle.command_tables.specs.Views.{input_view, output_view};
ghost use Rattle.delta_client.specs.Exchanges.{dial_view};

use crate::ask::ask;
use crate::input::{InputFault, read_all};
use command_tables::Refusal;
use delta_base::{Bytes, Sink, Source, Text};
use delta_client::Dial;
use log_base::PATCH_LIMIT;
use patch_log::{RunFault, check_run};
use patch_meaning::{PatchFault, check_link};
use rpc_calls::Call;
use std::alloc::Global;

/// What an input is appended as.
#[derive(Clone, Copy)]
pub enum Appended {
    Patch,
    Run,
}

/// Reads the input to its end, which is to be a patch or a run of patches, has the server at an
/// address append it to a log, and writes what its answer prints.
pub fn append<S: Source, K: Sink, N: Dial>(
    alloc: Global,
    what: Appended,
    address: &Text,
    name: &Text,
    input: &mut S,
    net: &mut N,
    out: &mut K,
) -> Result<(), Refusal>
    requires { IsAddress address.now }
    ensures done { OnOk result (AppendsInput what N.Dial N.L.Link address.now name.now
        (input_view S.Source input.old) (input_view S.Source input.new)
        (output_view K.Sink out.old) (output_view K.Sink out.new)
        (dial_view N.Dial net.old) (dial_view N.Dial net.new)) }
    ensures stopped { IfErr result (StopsAppend what N.Dial N.L.Link address.now name.now
        (input_view S.Source input.old) (input_view S.Source input.new)
        (output_view K.Sink out.old) (output_view K.Sink out.new)
        (dial_view N.Dial net.old) (dial_view N.Dial net.new)) }
{
    let name = name.copy()?;
    match read_input(alloc, what, input) {
        Ok(text) => {
            let call = call_of(what, name, text);
            let ended = ask(alloc, address, &call, net, out);
            drop(call);
            ended
        }
        Err(refusal) => Err(refusal),
    }
}

// The call that appends a text to a log.
fn call_of(what: Appended, name: Text, text: Bytes) -> Call
    ensures { result ≡ append_call what name text }
{
    match what {
        Appended::Patch => Call::Append { name, patch: text },
        Appended::Run => Call::AppendRun {
            name,
            patches: text,
        },
    }
}

// The input's text, which may be appended.
fn read_input<S: Source>(alloc: Global, what: Appended, input: &mut S) -> Result<Bytes, Refusal>
    ensures read { IfOk result (IsReadAs
        (input_view S.Source input.old) (input_view S.Source input.new)) }
    ensures may_be { IfOk result (MayBeAppended what) }
    ensures stopped { IfErr result (StopsInput what
        (input_view S.Source input.old) (input_view S.Source input.new)) }
{
    match read_all(alloc, input, PATCH_LIMIT as usize) {
        Ok(text) => checked(alloc, what, text),
        Err(InputFault::Failed) => Err(Refusal::InputFailed),
        Err(InputFault::TooLong) => Err(Refusal::TooLong { limit: PATCH_LIMIT }),
        Err(InputFault::OutOfMemory) => Err(Refusal::OutOfMemory),
    }
}

// The text, which may be appended.
fn checked(alloc: Global, what: Appended, text: Vec<u8>) -> Result<Bytes, Refusal>
    requires { length text.items ≤ PATCH_LIMIT }
    ensures same { IfOk result (λ bytes. bytes ≡ text.items) }
    ensures may_be { OnOk result (MayBeAppended what text.items) }
    ensures stopped { IfErr result (StopsText what text.items) }
{
    let tested = match what {
        Appended::Patch => test_patch(alloc, text.as_slice()),
        Appended::Run => test_run(alloc, text.as_slice()),
    };
    match tested {
        Ok(()) => Ok(Bytes::from_vec(text)),
        Err(refusal) => Err(refusal),
    }
}

// Tests whether a text is a patch.
fn test_patch(alloc: Global, text: &[u8]) -> Result<(), Refusal>
    requires { length text.now ≤ PATCH_LIMIT }
    ensures may_be { OnOk result (MayBeAppended Appended.Patch text.now) }
    ensures stopped { IfErr result (StopsText Appended.Patch text.now) }
{
    match check_link(alloc, text) {
        Ok(_) => Ok(()),
        Err(fault) => Err(refusal_of(Appended::Patch, text, fault)),
    }
}

// Tests whether a text is a run of patches.
fn test_run(alloc: Global, text: &[u8]) -> Result<(), Refusal>
    requires { length text.now ≤ PATCH_LIMIT }
    ensures may_be { OnOk result (MayBeAppended Appended.Run text.now) }
    ensures stopped { IfErr result (StopsText Appended.Run text.now) }
{
    match check_run(alloc, text) {
        Ok(_run) => Ok(()),
        Err(RunFault::TooLong { .. }) => unreachable!(),
        Err(RunFault::Patch(fault)) => Err(refusal_of(Appended::Run, text, fault)),
        Err(RunFault::BadRun { .. }) => Err(Refusal::BadRun),
        Err(RunFault::OutOfMemory) => Err(Refusal::OutOfMemory),
    }
}

// How a command ends whose text has this fault.
fn refusal_of(what: Appended, text: &[u8], fault: PatchFault) -> Refusal
    requires has { HasTextFault what text.now fault }
    requires short { length text.now ≤ PATCH_LIMIT }
    ensures { StopsText what text.now result }
{
    match fault {
        PatchFault::At { at, kind } => Refusal::Stream {
            line: line_at(text, at),
            at,
            kind,
        },
        PatchFault::TooLong { .. } => unreachable!(),
        PatchFault::OutOfMemory => Refusal::OutOfMemory,
    }
}

// The line of a place, counted from 1.
fn line_at(text: &[u8], place: u64) -> u64
    ensures { result ≡ line_number text.now place }
{
    let end = place.min(text.len() as u64) as usize;
    let feeds = text[..end].iter().filter(|byte| **byte == b'\n').count();
    feeds as u64 + 1
}
