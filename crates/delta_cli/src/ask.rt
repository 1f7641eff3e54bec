//! The commands that ask a server, and what comes of its answers.
ghost use Rattle.std.specs.Prelude.{◌≡◌, IfErr, OnOk};
ghost use Rattle.command_tables.specs.Addresses.{IsAddress};
ghost use Rattle.delta_cli.specs.Asked.{Asked, Described, PrintsEnd, StopsAsking};
ghost use Rattle.command_tables.specs.Views.{output_view};
ghost use Rattle.delta_client.specs.Exchanges.{dial_view};

use client_commands::{ClientFault, ask_once};
use command_tables::Refusal;
use delta_base::{Bytes, Sink, Text};
use delta_client::Dial;
use rpc_calls::Call;
use sink_writing::write_all;
use std::alloc::Global;

/// Asks the server at an address one call, and writes what its answer prints.
pub fn ask<N: Dial, K: Sink>(
    alloc: Global,
    address: &Text,
    call: &Call,
    net: &mut N,
    out: &mut K,
) -> Result<(), Refusal>
    requires { IsAddress address.now }
    ensures done { OnOk result (PrintsEnd (Asked N.Dial N.L.Link address.now call.now
        (dial_view N.Dial net.old) (dial_view N.Dial net.new))
        (output_view K.Sink out.old) (output_view K.Sink out.new)) }
    ensures stopped { IfErr result (StopsAsking
        (Asked N.Dial N.L.Link address.now call.now
        (dial_view N.Dial net.old) (dial_view N.Dial net.new))
        (output_view K.Sink out.old) (output_view K.Sink out.new)) }
{
    let ended = ask_once(alloc, net, address, call);
    show(ended, out)
}

/// Asks the server at an address for a source and its log, and writes what the answers print.
pub fn describe<N: Dial, K: Sink>(
    alloc: Global,
    address: &Text,
    name: &Text,
    net: &mut N,
    out: &mut K,
) -> Result<(), Refusal>
    requires { IsAddress address.now }
    ensures done { OnOk result (PrintsEnd (Described N.Dial N.L.Link address.now name.now
        (dial_view N.Dial net.old) (dial_view N.Dial net.new))
        (output_view K.Sink out.old) (output_view K.Sink out.new)) }
    ensures stopped { IfErr result (StopsAsking
        (Described N.Dial N.L.Link address.now name.now
        (dial_view N.Dial net.old) (dial_view N.Dial net.new))
        (output_view K.Sink out.old) (output_view K.Sink out.new)) }
{
    let ended = client_commands::describe(alloc, net, address, name);
    show(ended, out)
}

// Writes the text with which asking ended.
fn show<K: Sink>(ended: Result<Bytes, ClientFault>, out: &mut K) -> Result<(), Refusal>
    ensures done { OnOk result (PrintsEnd (λ e. e ≡ ended)
        (output_view K.Sink out.old) (output_view K.Sink out.new)) }
    ensures stopped { IfErr result (StopsAsking (λ e. e ≡ ended)
        (output_view K.Sink out.old) (output_view K.Sink out.new)) }
{
    match ended {
        Ok(text) => write_all(out, text.as_slice()).map_err(|_| Refusal::OutputFailed),
        Err(ClientFault::Refused { status, body }) => Err(Refusal::Refused { status, body }),
        Err(ClientFault::LinkFailed) => Err(Refusal::LinkFailed),
        Err(ClientFault::CutShort) => Err(Refusal::CutShort),
        Err(ClientFault::NotUnderstood { at }) => Err(Refusal::NotUnderstood { at }),
        Err(ClientFault::OutOfMemory) => Err(Refusal::OutOfMemory),
    }
}
