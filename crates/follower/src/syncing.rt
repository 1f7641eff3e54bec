//! Catching up with a log of a server.
ghost use Rattle.std.specs.Prelude.{◌≡◌, ◌≢◌, ◌≤◌, ◌++◌, List, None, true, length, map};
ghost use Rattle.std.specs.List.{list_all};
ghost use Rattle.delta_base.specs.Outside.{Rose};
ghost use Rattle.http_text.specs.Print.{is_visible};
ghost use Rattle.chain_core.specs.Links.{IsChain};
ghost use Rattle.chain_core.specs.Patches.{links_of};
ghost use Rattle.patch_log.specs.Log.{bare};
ghost use Rattle.patch_meaning.specs.Checked.{AreChecked, CheckedPatch};
ghost use Rattle.zone_state.specs.Brief.{brief_of};
ghost use Rattle.delta_client.specs.Exchanges.{Exchanged, WasSaid, dial_view};
ghost use Rattle.follower.specs.Calls.{calls_of};
ghost use Rattle.follower.specs.Chains.{MayEndWell, ServesRest};
ghost use Rattle.follower.specs.Footing.{ZoneWent};
ghost use Rattle.follower.specs.Grown.{GrewBy};
ghost use Rattle.follower.specs.Syncing.{EndIs, end_of_refusal as of_refusal, sync_end as of_run};

use crate::ends::{SyncEnd, TextRefusal};
use crate::own_zone::OwnZone;
use crate::zones::Follower;
use catch_up::{RunEnd, catch_up};
use delta_base::Text;
use delta_client::Dial;
use std::alloc::Global;

// A text that isn't taken, as the end.
fn end_of_refusal(refusal: TextRefusal) -> SyncEnd
    ensures { result ≡ of_refusal refusal }
{
    match refusal {
        TextRefusal::BadPatch { version, fault } => SyncEnd::BadPatch { version, fault },
        TextRefusal::Diverged {
            version,
            have,
            theirs,
        } => SyncEnd::Diverged {
            version,
            have,
            theirs,
        },
        TextRefusal::Repeated { version, id } => SyncEnd::Repeated { version, id },
        TextRefusal::Full { what, have, limit } => SyncEnd::Full { what, have, limit },
        TextRefusal::TermsFull => SyncEnd::TermsFull,
        TextRefusal::DiskFault => SyncEnd::DiskFault,
        TextRefusal::OutOfMemory => SyncEnd::OutOfMemory,
    }
}

/// The end of a run, as that of catching up.
pub fn sync_end(end: RunEnd<TextRefusal>) -> SyncEnd
    ensures { result ≡ of_run end }
{
    match end {
        RunEnd::CaughtUp { version } => SyncEnd::CaughtUp { version },
        RunEnd::NoSuchName => SyncEnd::NoSuchName,
        RunEnd::PeerBehind { mine, theirs } => SyncEnd::PeerBehind { mine, theirs },
        RunEnd::HeadsDiffer {
            version,
            have,
            theirs,
        } => SyncEnd::Diverged {
            version,
            have,
            theirs,
        },
        RunEnd::NoPatch { version } => SyncEnd::NoPatch { version },
        RunEnd::PeerRefused { status, body } => SyncEnd::PeerRefused { status, body },
        RunEnd::LinkFault => SyncEnd::LinkFault,
        RunEnd::CutShort => SyncEnd::CutShort,
        RunEnd::NotUnderstood { at } => SyncEnd::NotUnderstood { at },
        RunEnd::OutOfMemory => SyncEnd::OutOfMemory,
        RunEnd::Refused(refusal) => end_of_refusal(refusal),
    }
}

/// Asks for the log, and then fetches and takes each patch behind the zone's version up to the
/// version answered. Connections are made to the address, and all are hung up.
pub fn sync<N: Dial, Z: Follower>(
    alloc: Global,
    net: &mut N,
    address: &Text,
    name: &Text,
    zone: &mut Z,
) -> SyncEnd
    requires { list_all is_visible address.now ≡ true }

    // The zone took the patches whose texts the peer answered, in their order. It ended by what was
    // said, and these calls were made and no other.
    ensures follows { (said : List WasSaid) × (more : List CheckedPatch)
        × GrewBy Z.footing (Z.zone zone.old) (Z.zone zone.new) more said
        × EndIs (Z.zone zone.old) (Z.zone zone.new) said more result
        × (N.tells → Exchanged N.L.left N.L.sent address.now
        (calls_of name.now (length (Z.zone zone.old).brief.ids) said) said None
        (dial_view N.Dial net.old) (dial_view N.Dial net.new)) }

    // Over connections that answer as a server does whose log goes on from the zone's patches, it
    // catches up, or a limit of its own, its disks, the link or want of memory ends it.
    ensures completes { N.tells → (taken rest : List CheckedPatch)
        → (Z.zone zone.old).brief ≡ brief_of taken → AreChecked (taken ++ rest)
        → IsChain (links_of (map bare (taken ++ rest)))
        → ServesRest N.L.left name.now taken rest (N.to_come net.old) → MayEndWell result }
    ensures held { N.held net.new ≡ N.held net.old }
    ensures link { result ≡ SyncEnd.LinkFault → Rose (N.faults net.old) (N.faults net.new) }
    ensures never_falls { N.faults net.old ≤ N.faults net.new }
    ensures went { ZoneWent Z.footing (result ≡ SyncEnd.DiskFault)
        (Z.zone zone.old).disk (Z.zone zone.new).disk }
    ensures settled { (Z.zone zone.old).doubt ≡ None → result ≢ SyncEnd.DiskFault
        → (Z.zone zone.new).doubt ≡ None }
    ensures limits { (Z.zone zone.new).limits ≡ (Z.zone zone.old).limits }
{
    let own = OwnZone::<Z>::new();
    let end = catch_up(alloc, net, address, name, &own, zone);
    sync_end(end)
}
