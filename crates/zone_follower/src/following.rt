//! Following a log with a zone that threads share.
ghost use Rattle.std.specs.Prelude.{◌≡◌, ◌≤◌, ℕ, None, true};
ghost use Rattle.std.specs.List.{list_all};
ghost use Rattle.delta_base.specs.Outside.{Rose};
ghost use Rattle.http_text.specs.Print.{is_visible};
ghost use Rattle.delta_client.specs.Exchanges.{Exchanged, dial_view};
ghost use Rattle.catch_up.specs.Runs.{Run, calls_in, said_in};
ghost use Rattle.turn_cell.specs.Knowing.{SeesOn, own_faults_of};
ghost use Rattle.turn_cell.specs.Sharing.{IsPassOf};
ghost use Rattle.shared_zone.specs.History.{shared_zone, version_seen};
ghost use Rattle.zone_follower.specs.Following.{Followed};

use crate::taking::Following;
use catch_up::catch_up;
use delta_base::Text;
use delta_client::Dial;
use disk_model::Disk;
use follower::{SyncEnd, sync_end};
use shared_zone::{ZoneHall, ZonePass};
use std::alloc::Global;
use std::sync::Wait;

/// Asks the zone what it has and the peer for its log, and then fetches each patch behind the
/// zone's version up to the version answered, and has the zone take it, each in a stay of its own.
/// Where a stay finds that version or a later one, the zone is left as it is, and what is fetched
/// next is behind the version found. Connections are made to the address, and all are hung up.
pub fn follow<R: Wait, N: Dial, D: Disk>(
    rt: &R,
    alloc: Global,
    hall: &ZoneHall<D>,
    pass: &mut ZonePass<D>,
    net: &mut N,
    address: &Text,
    name: &Text,
) -> SyncEnd
    requires visible { list_all is_visible address.now ≡ true }
    requires of { IsPassOf (shared_zone D.Disk) hall.now pass.old }
    ensures of { IsPassOf (shared_zone D.Disk) hall.now pass.new }

    // The zone took what the peer answered, in calls of this pass, and it ended by that. These
    // calls were made to the peer, and no other.
    ensures followed { (run : Run) × Followed D.Disk hall.now.origin pass.old run result pass.new
        × (N.tells → Exchanged N.L.left N.L.sent address.now (calls_in name.now run) (said_in run)
        None (dial_view N.Dial net.old) (dial_view N.Dial net.new)) }

    // What was answered as the log's version is then seen in the zone.
    ensures caught_up { (version : ℕ) → result ≡ SyncEnd.CaughtUp version
        → version ≤ version_seen hall.now.origin.base pass.new }
    ensures sees_on { SeesOn pass.old pass.new }

    // A disk failed in a stay of this pass.
    ensures disk { result ≡ SyncEnd.DiskFault
        → Rose (own_faults_of pass.old) (own_faults_of pass.new) }
    ensures link { result ≡ SyncEnd.LinkFault → Rose (N.faults net.old) (N.faults net.new) }
    ensures never_falls { N.faults net.old ≤ N.faults net.new }
    ensures held { N.held net.new ≡ N.held net.old }
{
    let following = Following { rt, hall };
    sync_end(catch_up(alloc, net, address, name, &following, pass))
}
