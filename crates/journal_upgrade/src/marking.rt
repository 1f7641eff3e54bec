//! Says whether the spares are whole.
ghost use Rattle.std.specs.Prelude.{◌≡◌, ◌⊎◌, IfErr, OnOk, IsErrOf};
ghost use Rattle.delta_base.specs.Outside.{Rose};
ghost use Rattle.disk_model.specs.Past.{EveryImage, LeavesOnly};
ghost use Rattle.log_journal.specs.Front.{HoldsNothing, LeftOrNothing};
ghost use Rattle.log_journal.specs.Written.{DiskWent};
ghost use Rattle.journal_upgrade.specs.Numbers.{IsSet};
ghost use Rattle.journal_upgrade.specs.Copies.{AreCopied, AreRestored};
ghost use Rattle.journal_upgrade.specs.Marker.{IsMarked, HasMark, IsMarking};

use crate::fault::UpgradeFault;
use crate::set::UpgradeSet;
use disk_model::Disk;
use log_journal::{Journal, make_block};
use std::alloc::Global;

/// The most bytes of a marker's journal.
const MARKER_LIMIT: u64 = 100;

// Writes `U` into a marker in which nothing stands.
fn mark_disk<D: Disk>(alloc: Global, marker: D, number: u32) -> (D, Result<(), UpgradeFault>)
    requires { D.tells → EveryImage (D.past marker) (λ image. HoldsNothing image number) }
    ensures any_moment { D.tells
        → LeavesOnly (IsMarking number) (D.past marker) (D.past result.0) }
    ensures ok { D.tells
        → OnOk result.1 (EveryImage (D.past result.0) (λ image. HasMark image number)) }
    ensures only { IfErr result.1 (λ fault. (fault ≡ UpgradeFault.Failed)
        ⊎ (fault ≡ UpgradeFault.OutOfMemory)) }
    ensures went { DiskWent D.Disk (IsErrOf result.1 UpgradeFault.Failed) marker result.0 }
{
    let Ok(block) = make_block(alloc, b"U") else {
        return (marker, Err(UpgradeFault::OutOfMemory));
    };
    match Journal::restart(marker, number, MARKER_LIMIT) {
        Ok(mut journal) => {
            let answer = match journal.append(&block) {
                Ok(()) => Ok(()),
                Err(_) => Err(UpgradeFault::Failed),
            };
            (journal.close(), answer)
        }
        Err(refusal) => (refusal.disk, Err(UpgradeFault::Failed)),
    }
}

/// Says that the spares are whole.
pub fn mark<D: Disk>(alloc: Global, set: UpgradeSet<D>) -> (UpgradeSet<D>, Result<(), UpgradeFault>)
    requires set { IsSet set.files.items set.spares.items set.numbers.items }
    requires nothing { D.tells
        → EveryImage (D.past set.marker) (λ image. HoldsNothing image set.marker_number) }
    requires copied { D.tells
        → AreCopied D.past set.numbers.items set.files.items set.spares.items }
    ensures same { (result.0.files ≡ set.files) × (result.0.spares ≡ set.spares)
        × (result.0.numbers ≡ set.numbers) × (result.0.marker_number ≡ set.marker_number) }
    ensures any_moment { D.tells → LeavesOnly (IsMarking set.marker_number)
        (D.past set.marker) (D.past result.0.marker) }
    ensures ok { D.tells → OnOk result.1 (EveryImage (D.past result.0.marker)
        (λ image. HasMark image set.marker_number)) }
    ensures only { IfErr result.1 (λ fault. (fault ≡ UpgradeFault.Failed)
        ⊎ (fault ≡ UpgradeFault.OutOfMemory)) }
    ensures went { DiskWent D.Disk (IsErrOf result.1 UpgradeFault.Failed)
        set.marker result.0.marker }
{
    let UpgradeSet {
        files,
        spares,
        marker,
        marker_number,
        numbers,
    } = set;
    let (marker, answer) = mark_disk(alloc, marker, marker_number);
    let set = UpgradeSet {
        files,
        spares,
        marker,
        marker_number,
        numbers,
    };
    (set, answer)
}

/// Says that the spares are needed no more.
pub fn unmark<D: Disk>(set: UpgradeSet<D>) -> (UpgradeSet<D>, Result<(), UpgradeFault>)
    requires set { IsSet set.files.items set.spares.items set.numbers.items }
    requires marked { D.tells
        → EveryImage (D.past set.marker) (λ image. IsMarked image set.marker_number) }
    requires restored { D.tells
        → AreRestored D.past set.numbers.items set.files.items set.spares.items }
    ensures same { (result.0.files ≡ set.files) × (result.0.spares ≡ set.spares)
        × (result.0.numbers ≡ set.numbers) × (result.0.marker_number ≡ set.marker_number) }
    ensures any_moment { D.tells → LeavesOnly (LeftOrNothing (D.past set.marker) set.marker_number)
        (D.past set.marker) (D.past result.0.marker) }
    ensures ok { D.tells → OnOk result.1 (EveryImage (D.past result.0.marker)
        (λ image. HoldsNothing image set.marker_number)) }
    ensures only { IfErr result.1 (λ fault. fault ≡ UpgradeFault.Failed) }
    ensures went { DiskWent D.Disk (IsErrOf result.1 UpgradeFault.Failed)
        set.marker result.0.marker }
{
    let UpgradeSet {
        files,
        spares,
        marker,
        marker_number,
        numbers,
    } = set;
    let (marker, answer) = match Journal::restart(marker, marker_number, MARKER_LIMIT) {
        Ok(journal) => (journal.close(), Ok(())),
        Err(refusal) => (refusal.disk, Err(UpgradeFault::Failed)),
    };
    let set = UpgradeSet {
        files,
        spares,
        marker,
        marker_number,
        numbers,
    };
    (set, answer)
}
