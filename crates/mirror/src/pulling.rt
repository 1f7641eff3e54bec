//! Pulling the log of an origin.
ghost use Rattle.std.specs.Prelude.{◌≡◌, ◌≤◌, ℕ, None, true, length};
ghost use Rattle.std.specs.List.{list_all};
ghost use mathlib.Core.List.{IsPrefix};
ghost use Rattle.delta_base.specs.Outside.{Rose};
ghost use Rattle.http_text.specs.Print.{is_visible};
ghost use Rattle.delta_client.specs.Exchanges.{Exchanged, dial_view};
ghost use Rattle.catch_up.specs.Runs.{Run, calls_in, said_in};
ghost use Rattle.turn_cell.specs.Knowing.{own_faults_of, seen_of, KnowsItsOwn};
ghost use Rattle.turn_cell.specs.Sharing.{IsPassOf};
ghost use Rattle.shared_log.specs.History.{shared_log, SeesWhole};
ghost use Rattle.mirror.specs.Pulling.{Pulled};

use crate::ends::{PullEnd, end_of};
use crate::mirroring::Mirroring;
use catch_up::catch_up;
use delta_base::Text;
use delta_client::Dial;
use disk_model::Disk;
use shared_log::{LogPass, SharedLog};
use std::alloc::Global;
use std::sync::Wait;

/// Asks the log what it has and the origin for its log, and then fetches the text of each version
/// behind the log's up to the version answered, and appends each patch by itself. Connections are
/// made to the address, and all are hung up.
pub fn pull<R: Wait, N: Dial, D: Disk>(
    rt: &R,
    alloc: Global,
    log: &SharedLog<D>,
    pass: &mut LogPass<D>,
    net: &mut N,
    address: &Text,
    name: &Text,
) -> PullEnd
    requires visible { list_all is_visible address.now ≡ true }
    requires of { IsPassOf (shared_log D.Disk) log.now pass.old }
    ensures of { IsPassOf (shared_log D.Disk) log.now pass.new }

    // The log took what the origin answered, in calls of this pass, and it ended by that. These
    // calls were made to the origin, and no other.
    ensures pulled { (run : Run) × Pulled D.Disk log.now.origin pass.old run result pass.new
        × (N.tells → Exchanged N.L.left N.L.sent address.now (calls_in name.now run) (said_in run)
        None (dial_view N.Dial net.old) (dial_view N.Dial net.new)) }

    // What was answered as the origin's version is then seen in the log.
    ensures caught_up { (version : ℕ) → result ≡ PullEnd.CaughtUp version
        → version ≤ length (seen_of pass.new) }
    ensures sees_on { IsPrefix (seen_of pass.old) (seen_of pass.new) }
    ensures whole { SeesWhole pass.new × KnowsItsOwn pass.new }
    ensures disk { result ≡ PullEnd.DiskFault
        → Rose (own_faults_of pass.old) (own_faults_of pass.new) }
    ensures link { result ≡ PullEnd.LinkFault → Rose (N.faults net.old) (N.faults net.new) }
    ensures never_falls { N.faults net.old ≤ N.faults net.new }
    ensures held { N.held net.new ≡ N.held net.old }
{
    let mirroring = Mirroring { rt, log };
    end_of(catch_up(alloc, net, address, name, &mirroring, pass))
}
