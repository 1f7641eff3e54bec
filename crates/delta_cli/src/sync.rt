//! The command `sync`: a zone catches up with a log of a server.
ghost use Rattle.std.specs.Prelude.{◌≡◌, ◌≢◌, ℕ, IfErr, IfOk, OnOk};
ghost use Rattle.follower.specs.declared.ends.SyncEnd.TheVariants as ends;
ghost use Rattle.command_tables.specs.Addresses.{IsAddress};
ghost use Rattle.delta_cli.specs.Syncs.{CatchesUp, StopsSync, TellsEnd, caught_up_line};
ghost use Rattle.command_tables.specs.Views.{output_view, shelf_view};
ghost use Rattle.delta_client.specs.Exchanges.{dial_view};

use crate::printing::print_line;
use chain_core::ChainFault;
use command_tables::Refusal;
use delta_base::{OutOfMemory, Sink, Text};
use delta_client::Dial;
use disk_model::Shelf;
use follower::SyncEnd;
use rpc_answers::{Answer, into_reply};
use std::alloc::Global;
use zone_commands::follow_zone;

/// Catches the zone of a directory up with a log of the server at an address, and writes the
/// version that they have. No other file is asked for.
pub fn sync_zone<H: Shelf, N: Dial, K: Sink>(
    alloc: Global,
    dir: &Text,
    address: &Text,
    name: &Text,
    shelf: &mut H,
    net: &mut N,
    out: &mut K,
) -> Result<(), Refusal>
    requires { IsAddress address.now }
    ensures done { OnOk result (CatchesUp H.Shelf N.Dial N.L.Link dir.now address.now name.now
        (shelf_view H.Shelf shelf.old) (shelf_view H.Shelf shelf.new)
        (dial_view N.Dial net.old) (dial_view N.Dial net.new)
        (output_view K.Sink out.old) (output_view K.Sink out.new)) }
    ensures stopped { IfErr result (StopsSync H.Shelf N.Dial N.L.Link dir.now address.now name.now
        (shelf_view H.Shelf shelf.old) (shelf_view H.Shelf shelf.new)
        (dial_view N.Dial net.old) (dial_view N.Dial net.new)
        (output_view K.Sink out.old) (output_view K.Sink out.new)) }
{
    match follow_zone(alloc, shelf, net, dir, address, name) {
        Ok(SyncEnd::CaughtUp { version }) => print_line(version_line(alloc, version), out),
        Ok(end) => Err(refusal_of(alloc, end)),
        Err(fault) => Err(Refusal::of_pair(fault)),
    }
}

fn version_line(alloc: Global, version: u32) -> Result<String, OutOfMemory>
    ensures { IfOk result (λ line. line.bytes.items ≡ caught_up_line version) }
{
    Ok(format!(in alloc; "caught up at version {version}\n")?)
}

// The refusal that tells this end, at which the zone hasn't caught up.
fn refusal_of(alloc: Global, end: SyncEnd) -> Refusal
    requires { (version : ℕ) → end ≢ ends.CaughtUp version }
    ensures { TellsEnd end result }
{
    match end {
        SyncEnd::CaughtUp { .. } => unreachable!(),
        SyncEnd::NoSuchName => no_source(alloc),
        SyncEnd::PeerBehind { mine, theirs } => Refusal::PeerBehind { mine, theirs },
        SyncEnd::NoPatch { version } => Refusal::NoPatch { version },
        SyncEnd::PeerRefused { status, body } => Refusal::Refused { status, body },
        SyncEnd::Diverged {
            version,
            have,
            theirs,
        } => Refusal::Chain(ChainFault::Diverged {
            version,
            have,
            found: theirs,
        }),
        SyncEnd::Repeated { version, id } => Refusal::Chain(ChainFault::Repeated { id, version }),
        SyncEnd::BadPatch { version, fault } => Refusal::BadPatch { version, fault },
        SyncEnd::LinkFault => Refusal::LinkFailed,
        SyncEnd::CutShort => Refusal::CutShort,
        SyncEnd::NotUnderstood { at } => Refusal::NotUnderstood { at },
        SyncEnd::Full { have, limit, .. } => Refusal::ZoneFull { have, limit },
        SyncEnd::TermsFull => Refusal::ZoneTermsFull,
        SyncEnd::DiskFault => Refusal::DiskFailed,
        SyncEnd::OutOfMemory => Refusal::OutOfMemory,
    }
}

// The refusal that a log isn't there, with the body of the server's answer.
fn no_source(alloc: Global) -> Refusal
    ensures { TellsEnd SyncEnd.NoSuchName result }
{
    match into_reply(alloc, Answer::NoSource, false) {
        Ok(reply) => Refusal::Refused {
            status: reply.status,
            body: reply.body,
        },
        Err(_) => Refusal::OutOfMemory,
    }
}
