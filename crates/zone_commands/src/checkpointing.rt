//! A checkpoint is made of the zone of a directory.
ghost use Rattle.std.specs.Prelude.{◌≡◌, ◌≢◌, ◌≤◌, ℕ, Ok, true, false, IfOk, IfErr, OnErr, IsErrOf};
ghost use Rattle.delta_base.specs.Outside.{Rose};
ghost use Rattle.log_base.specs.declared.limits.TheConstants.{LOG_LIMITS};
ghost use Rattle.disk_model.specs.Past.{reads};
ghost use Rattle.zone_files.specs.Generation.{number_of};
ghost use Rattle.paired_journal.specs.Pair.{DisksWent};
ghost use Rattle.paired_zone.specs.Fault.{HasPairFault};
ghost use Rattle.paired_zone.specs.Opening.{FailsAtOne, RefusedDisk};
ghost use Rattle.zone_commands.specs.Checkpoints.{Checkpointed};
ghost use Rattle.zone_commands.specs.Disks.{KeepsZoneFiles, SameButZone};
ghost use Rattle.zone_commands.specs.Disks.{first_bytes, second_bytes};
ghost use Rattle.zone_commands.specs.Files.{HasFilesFault};

use crate::disks::{put_back_disks, take_disks};
use delta_base::Text;
use disk_model::{Disk, Shelf};
use log_base::LOG_LIMITS;
use paired_zone::{CheckEnd, PairFault, PairRefusal, PairedZone};
use std::alloc::Global;

/// Makes a checkpoint of the zone of two files, and gives their disks back.
pub fn checkpoint_files<D: Disk>(
    alloc: Global,
    first: D,
    second: D,
) -> (D, D, Result<CheckEnd, PairFault>)
    ensures ok { IfOk result.2 (Checkpointed D.tells
        (reads (D.past first)) (reads (D.past second))
        (reads (D.past result.0)) (reads (D.past result.1))) }
    ensures went { IfOk result.2 (λ end. DisksWent D.Disk (end ≡ CheckEnd.DiskFault)
        first result.0 second result.1) }
    ensures fault { D.tells → IfErr result.2
        (HasPairFault (reads (D.past first)) (reads (D.past second)) LOG_LIMITS) }
    ensures failed { IfErr result.2 FailsAtOne }
    ensures first { IfErr result.2 (λ fault. RefusedDisk D.Disk
        (fault ≡ PairFault.Failed (number_of false)) first result.0) }
    ensures second { IfErr result.2 (λ fault. RefusedDisk D.Disk
        (fault ≡ PairFault.Failed (number_of true)) second result.1) }
{
    match PairedZone::open_pair(alloc, first, second, LOG_LIMITS) {
        Ok(zone) => {
            let mut zone = zone;
            let end = zone.checkpoint();
            let (first, second) = zone.close();
            (first, second, Ok(end))
        }
        Err(
            PairRefusal {
                first,
                second,
                fault,
            },
        ) => (first, second, Err(fault)),
    }
}

/// Makes a checkpoint of the zone of a directory: the file that isn't current holds then what the
/// zone has, alone, and is current. No other file is asked for.
pub fn checkpoint_zone<H: Shelf>(
    alloc: Global,
    shelf: &mut H,
    dir: &Text,
) -> Result<CheckEnd, PairFault>
    ensures ok { IfOk result (Checkpointed H.tells
        (first_bytes (H.files shelf.old) dir.now) (second_bytes (H.files shelf.old) dir.now)
        (first_bytes (H.files shelf.new) dir.now) (second_bytes (H.files shelf.new) dir.now)) }
    ensures disk { result ≡ Ok CheckEnd.DiskFault → Rose (H.faults shelf.old) (H.faults shelf.new) }
    ensures well { IfOk result (λ end. end ≢ CheckEnd.DiskFault
        → H.faults shelf.new ≡ H.faults shelf.old) }
    ensures faults { H.faults shelf.old ≤ H.faults shelf.new }
    ensures fault { H.tells → IfErr result (HasFilesFault
        (first_bytes (H.files shelf.old) dir.now) (second_bytes (H.files shelf.old) dir.now)) }
    ensures kept { H.tells → OnErr result
        (KeepsZoneFiles dir.now (H.files shelf.old) (H.files shelf.new)) }
    ensures others { H.tells → SameButZone dir.now (H.files shelf.old) (H.files shelf.new) }
    ensures cause { (file : ℕ) → IsErrOf result (PairFault.Failed file)
        → Rose (H.faults shelf.old) (H.faults shelf.new) }
{
    match take_disks(shelf, dir) {
        Ok((first, second)) => {
            let (first, second, answer) = checkpoint_files(alloc, first, second);
            put_back_disks(shelf, first, second);
            answer
        }
        Err(fault) => Err(fault),
    }
}
