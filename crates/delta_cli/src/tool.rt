//! The top call.
ghost use Rattle.std.specs.Prelude.{IfErr, OnOk};
ghost use Rattle.command_tables.specs.Channels.{words_of};
ghost use Rattle.delta_cli.specs.Commands.{Fits};
ghost use Rattle.delta_cli.specs.Frames.{LeavesBut, frame};
ghost use Rattle.delta_cli.specs.Tool.{Answers, Does, Stops};
ghost use Rattle.command_tables.specs.Views.{output_view};
ghost use Rattle.delta_cli.specs.Views.{outside_of};

use crate::append::append;
use crate::ask::{ask, describe};
use crate::command::{Command, read_command};
use crate::generate::{emit, generate};
use crate::help::{VERSION, print, write_help};
use crate::marker::{
    check_unmarked, checkpoint_zone_unmarked, init_unmarked, make_zone_unmarked,
    print_zone_unmarked, sync_zone_unmarked,
};
use crate::nquads::nquads;
use crate::replay::replay;
use crate::squash::{invert, squash};
use crate::upgrade::{upgrade, upgrade_zone_files};
use command_tables::{Refusal, report};
use delta_base::{Sink, Source};
use delta_client::Dial;
use disk_model::Shelf;
use std::alloc::Global;

/// Runs the command that the words ask for; a source that it has made gets an id of the dice. It
/// answers the status, writes the result on `out`, and where the status isn't 0 a line on `err`.
pub fn run_tool<S: Source, K: Sink, E: Sink, H: Shelf, N: Dial>(
    alloc: Global,
    words: &[String],
    input: &mut S,
    out: &mut K,
    err: &mut E,
    shelf: &mut H,
    net: &mut N,
    dice: u128,
) -> u8
    ensures { let at = outside_of S.Source K.Sink H.Shelf N.Dial in
        Answers H.Shelf N.Dial N.L.Link (words_of words.now) dice
        (at input.old out.old shelf.old net.old) (at input.new out.new shelf.new net.new)
        (output_view E.Sink err.old) (output_view E.Sink err.new) result }
{
    match read_command(alloc, words, dice) {
        Ok(command) => {
            let ended = run_command(alloc, &command, input, out, shelf, net);
            drop(command);
            match ended {
                Ok(()) => 0,
                Err(refusal) => report(alloc, refusal, err),
            }
        }
        Err(refusal) => report(alloc, refusal, err),
    }
}

// Runs a command.
fn run_command<S: Source, K: Sink, H: Shelf, N: Dial>(
    alloc: Global,
    command: &Command,
    input: &mut S,
    out: &mut K,
    shelf: &mut H,
    net: &mut N,
) -> Result<(), Refusal>
    requires { Fits command.now }
    ensures leaves { let at = outside_of S.Source K.Sink H.Shelf N.Dial in
        LeavesBut (frame command.now)
        (at input.old out.old shelf.old net.old) (at input.new out.new shelf.new net.new) }
    ensures does { let at = outside_of S.Source K.Sink H.Shelf N.Dial in
        OnOk result (Does H.Shelf N.Dial N.L.Link command.now
        (at input.old out.old shelf.old net.old) (at input.new out.new shelf.new net.new)) }
    ensures stops { let at = outside_of S.Source K.Sink H.Shelf N.Dial in
        IfErr result (Stops H.Shelf N.Dial N.L.Link command.now
        (at input.old out.old shelf.old net.old) (at input.new out.new shelf.new net.new)) }
{
    match command {
        Command::Replay => replay(alloc, input, out),
        Command::Squash { from, to } => squash(alloc, *from, *to, input, out),
        Command::Invert { id } => invert(alloc, *id, input, out),
        Command::Nquads => nquads(alloc, input, out),
        Command::Gen { patches } => generate(alloc, *patches, out),
        Command::Emit { patches } => emit(alloc, *patches, out),
        Command::Init { dir, slots } => init_unmarked(alloc, dir, *slots, shelf),
        Command::Check { dir } => check_unmarked(alloc, dir, shelf, out),
        Command::Upgrade { dir } => upgrade(alloc, dir, shelf, out),
        Command::Zone { dir } => make_zone_unmarked(alloc, dir, shelf),
        Command::Read { dir, reading } => print_zone_unmarked(alloc, dir, reading, shelf, out),
        Command::Sync { dir, address, name } => {
            sync_zone_unmarked(alloc, dir, address, name, shelf, net, out)
        }
        Command::Checkpoint { dir } => checkpoint_zone_unmarked(alloc, dir, shelf, out),
        Command::UpgradeZone { dir } => upgrade_zone_files(alloc, dir, shelf, out),
        Command::Ask { address, call } => ask(alloc, address, call, net, out),
        Command::Describe { address, name } => describe(alloc, address, name, net, out),
        Command::Append {
            what,
            address,
            name,
        } => append(alloc, *what, address, name, input, net, out),
        Command::Help => write_help(out),
        Command::Version => print(VERSION, out),
    }
}
