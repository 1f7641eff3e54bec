//! The zone of a directory catches up with a log of a server.
ghost use Rattle.std.specs.Prelude.{◌≡◌, ◌≢◌, ◌≤◌, ℕ, Ok, true, false, IfOk, IfErr, OnErr, IsErrOf};
ghost use Rattle.std.specs.List.{list_all};
ghost use Rattle.delta_base.specs.Outside.{Rose};
ghost use Rattle.log_base.specs.declared.limits.TheConstants.{LOG_LIMITS};
ghost use Rattle.disk_model.specs.Past.{reads};
ghost use Rattle.http_text.specs.Print.{is_visible};
ghost use Rattle.zone_files.specs.Generation.{number_of};
ghost use Rattle.delta_client.specs.Exchanges.{dial_view};
ghost use Rattle.paired_journal.specs.Pair.{DisksWent};
ghost use Rattle.paired_zone.specs.Fault.{HasPairFault};
ghost use Rattle.paired_zone.specs.Opening.{FailsAtOne, RefusedDisk};
ghost use Rattle.zone_commands.specs.Disks.{KeepsZoneFiles, SameButZone};
ghost use Rattle.zone_commands.specs.Disks.{first_bytes, second_bytes};
ghost use Rattle.zone_commands.specs.Files.{HasFilesFault};
ghost use Rattle.zone_commands.specs.Following.{Followed};

use crate::disks::{put_back_disks, take_disks};
use delta_base::Text;
use delta_client::Dial;
use disk_model::{Disk, Shelf};
use follower::{SyncEnd, sync};
use log_base::LOG_LIMITS;
use paired_zone::{PairFault, PairRefusal, PairedZone};
use std::alloc::Global;

/// Catches the zone of two files up with a log, and gives their disks back.
pub fn follow_files<D: Disk, N: Dial>(
    alloc: Global,
    first: D,
    second: D,
    net: &mut N,
    address: &Text,
    name: &Text,
) -> (D, D, Result<SyncEnd, PairFault>)
    requires { list_all is_visible address.now ≡ true }
    ensures ok { IfOk result.2 (Followed N.L.left N.L.sent D.tells N.tells address.now name.now
        (reads (D.past first)) (reads (D.past second))
        (reads (D.past result.0)) (reads (D.past result.1))
        (dial_view N.Dial net.old) (dial_view N.Dial net.new)) }
    ensures link { result.2 ≡ Ok SyncEnd.LinkFault → Rose (N.faults net.old) (N.faults net.new) }
    ensures never_falls { N.faults net.old ≤ N.faults net.new }
    ensures went { IfOk result.2 (λ end. DisksWent D.Disk (end ≡ SyncEnd.DiskFault)
        first result.0 second result.1) }
    ensures unopened { OnErr result.2 (net.new ≡ net.old) }
    ensures fault { D.tells → IfErr result.2
        (HasPairFault (reads (D.past first)) (reads (D.past second)) LOG_LIMITS) }
    ensures failed { IfErr result.2 FailsAtOne }
    ensures first { IfErr result.2 (λ fault. RefusedDisk D.Disk
        (fault ≡ PairFault.Failed (number_of false)) first result.0) }
    ensures second { IfErr result.2 (λ fault. RefusedDisk D.Disk
        (fault ≡ PairFault.Failed (number_of true)) second result.1) }
{
    match PairedZone::open_pair(alloc, first, second, LOG_LIMITS) {
        Ok(zone) => {
            let mut zone = zone;
            let end = sync(alloc, net, address, name, &mut zone);
            let (first, second) = zone.close();
            (first, second, Ok(end))
        }
        Err(
            PairRefusal {
                first,
                second,
                fault,
            },
        ) => (first, second, Err(fault)),
    }
}

/// Catches the zone of a directory up with a log of the server at an address. No other file
/// is asked for.
pub fn follow_zone<H: Shelf, N: Dial>(
    alloc: Global,
    shelf: &mut H,
    net: &mut N,
    dir: &Text,
    address: &Text,
    name: &Text,
) -> Result<SyncEnd, PairFault>
    requires { list_all is_visible address.now ≡ true }
    ensures ok { IfOk result (Followed N.L.left N.L.sent H.tells N.tells address.now name.now
        (first_bytes (H.files shelf.old) dir.now) (second_bytes (H.files shelf.old) dir.now)
        (first_bytes (H.files shelf.new) dir.now) (second_bytes (H.files shelf.new) dir.now)
        (dial_view N.Dial net.old) (dial_view N.Dial net.new)) }
    ensures link { result ≡ Ok SyncEnd.LinkFault → Rose (N.faults net.old) (N.faults net.new) }
    ensures never_falls { N.faults net.old ≤ N.faults net.new }
    ensures disk { result ≡ Ok SyncEnd.DiskFault → Rose (H.faults shelf.old) (H.faults shelf.new) }
    ensures well { IfOk result (λ end. end ≢ SyncEnd.DiskFault
        → H.faults shelf.new ≡ H.faults shelf.old) }
    ensures faults { H.faults shelf.old ≤ H.faults shelf.new }
    ensures unopened { OnErr result (net.new ≡ net.old) }
    ensures fault { H.tells → IfErr result (HasFilesFault
        (first_bytes (H.files shelf.old) dir.now) (second_bytes (H.files shelf.old) dir.now)) }
    ensures kept { H.tells → OnErr result
        (KeepsZoneFiles dir.now (H.files shelf.old) (H.files shelf.new)) }
    ensures others { H.tells → SameButZone dir.now (H.files shelf.old) (H.files shelf.new) }
    ensures cause { (file : ℕ) → IsErrOf result (PairFault.Failed file)
        → Rose (H.faults shelf.old) (H.faults shelf.new) }
{
    match take_disks(shelf, dir) {
        Ok((first, second)) => {
            let (first, second, answer) = follow_files(alloc, first, second, net, address, name);
            put_back_disks(shelf, first, second);
            answer
        }
        Err(fault) => Err(fault),
    }
}
