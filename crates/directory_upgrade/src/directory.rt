//! The files of a registry and its logs.
ghost use Rattle.std.specs.Prelude.{◌≡◌, ◌⊎◌, ℕ, ◌≤◌, List, [], ◌∷◌, Ok, Err};
ghost use Rattle.std.specs.Prelude.{false, IfOk, IfErr, OnErr, OnOk, IsErrOf};
ghost use Rattle.delta_base.specs.Outside.{Rose};
ghost use Rattle.disk_model.specs.Past.{EveryImage};
ghost use Rattle.registry_core.specs.Events.{IsSlot};
ghost use Rattle.slot_checks.specs.declared.marker.TheConstants.{FILES_MARKER};
ghost use Rattle.slot_files.specs.Files.{Files, bytes_at};
ghost use Rattle.journal_upgrade.specs.Marker.{IsUnmarked};
ghost use Rattle.journal_upgrade.specs.Numbers.{IsSet};
ghost use Rattle.journal_upgrade.specs.declared.fault.UpgradeFault.{UpgradeFault as UpgradeFaultOf};
ghost use Rattle.directory_upgrade.specs.Faults.{check_fault_of_upgrade};
ghost use Rattle.directory_upgrade.specs.Sets.{IsTaken, AreKeptButSpare, SameBeside, SetFailed};
ghost use Rattle.directory_upgrade.specs.Sets.{IsMarkerNumber, IsOneOf, IsOpened, MarkerSays};
ghost use Rattle.directory_upgrade.specs.Ends.{IsSetEnd};
ghost use Rattle.directory_upgrade.specs.Directories.{up_to, HasSlots, StopsTaking, StopsUpgrade};
ghost use Rattle.directory_upgrade.specs.Directories.{IsUpgradedDirectory};

use crate::fault::check_fault;
use crate::putting::put_back_set;
use crate::slots::{slots_marked, slots_unmarked};
use crate::taking::{begin, is_marked, take_file};
use delta_base::Text;
use disk_model::Shelf;
use journal_upgrade::{UpgradeSet, Upgraded, upgrade_files};
use slot_checks::{CheckFault, FILES_MARKER};
use std::alloc::Global;

// Takes the disks of the registry's file and of its spare. Whether the marker has a payload.
fn take_registry<H: Shelf>(
    alloc: Global,
    shelf: &mut H,
    dir: &Text,
    set: &mut UpgradeSet<H::D>,
) -> Result<bool, CheckFault>
    requires empty { (set.old.files.items ≡ []) × (set.old.spares.items ≡ [])
        × (set.old.numbers.items ≡ []) }
    ensures says { H.tells → IsOpened H.D.Disk dir.now set.old.marker_number
        (H.files shelf.old) set.old.marker
        → IfOk result (λ marked. MarkerSays marked
        (bytes_at (H.files shelf.old) dir.now set.old.marker_number) set.old.marker_number) }
    ensures unmarked { H.D.tells → IfOk result (λ marked. marked ≡ false
        → EveryImage (H.D.past set.new.marker)
        (λ image. IsUnmarked image set.new.marker_number)) }
    ensures set { IsSet set.new.files.items set.new.spares.items set.new.numbers.items }
    ensures registry { OnOk result (set.new.numbers.items ≡ 0 ∷ []) }
    ensures none { OnErr result (set.new.numbers.items ≡ []) }
    ensures taken { H.tells → IsOpened H.D.Disk dir.now set.old.marker_number
        (H.files shelf.old) set.old.marker
        → IsTaken H.D.Disk dir.now (H.files shelf.old) set.new.numbers.items
        set.new.files.items set.new.spares.items set.new.marker set.new.marker_number }
    ensures number { set.new.marker_number ≡ set.old.marker_number }
    ensures kept { H.tells → AreKeptButSpare dir.now set.old.marker_number (0 ∷ [])
        (H.files shelf.old) (H.files shelf.new) }
    ensures fault { H.tells → set.old.marker_number ≡ FILES_MARKER
        → IsOpened H.D.Disk dir.now set.old.marker_number (H.files shelf.old) set.old.marker
        → IfErr result (StopsTaking (H.files shelf.old) dir.now) }
    ensures cause { IsErrOf result CheckFault.Failed
        → Rose (H.faults shelf.old) (H.faults shelf.new)
        ⊎ SetFailed H.D.Disk set.new.files.items set.new.spares.items set.new.marker }
    ensures faults { H.faults shelf.old ≤ H.faults shelf.new }
{
    let marked = is_marked(alloc, set)?;
    take_file(shelf, dir, 0, set)?;
    Ok(marked)
}

// Takes the disks of the logs' files and of their spares behind those of the registry.
fn take_logs<H: Shelf>(
    shelf: &mut H,
    dir: &Text,
    slots: u32,
    set: &mut UpgradeSet<H::D>,
) -> Result<(), CheckFault>
    requires few { slots ≤ 16 }
    requires registry { set.old.numbers.items ≡ up_to 0 }
    requires set { IsSet set.old.files.items set.old.spares.items set.old.numbers.items }
    ensures set { IsSet set.new.files.items set.new.spares.items set.new.numbers.items }
    ensures numbers { OnOk result (set.new.numbers.items ≡ up_to slots) }
    ensures some { (last : ℕ) × (last ≤ slots) × (set.new.numbers.items ≡ up_to last) }
    ensures same { (set.new.marker ≡ set.old.marker)
        × (set.new.marker_number ≡ set.old.marker_number) }
    ensures taken { H.tells → (old : Files) → IsTaken H.D.Disk dir.now old set.old.numbers.items
        set.old.files.items set.old.spares.items set.old.marker set.old.marker_number
        → AreKeptButSpare dir.now set.old.marker_number (up_to 0) old (H.files shelf.old)
        → IsTaken H.D.Disk dir.now old set.new.numbers.items
        set.new.files.items set.new.spares.items set.new.marker set.new.marker_number }
    ensures kept { H.tells → (old : Files)
        → AreKeptButSpare dir.now set.old.marker_number (up_to 0) old (H.files shelf.old)
        → AreKeptButSpare dir.now set.old.marker_number (up_to slots) old (H.files shelf.new) }
    ensures fault { IfErr result (λ fault. (fault ≡ CheckFault.Failed)
        ⊎ (fault ≡ CheckFault.OutOfMemory)) }
    ensures cause { IsErrOf result CheckFault.Failed
        → Rose (H.faults shelf.old) (H.faults shelf.new) }
    ensures faults { H.faults shelf.old ≤ H.faults shelf.new }
{
    for number in 1..slots + 1 {
        take_file(shelf, dir, number, set)?;
    }
    Ok(())
}

// Takes the disks of the registry's file and of its spare. How many slots it tells.
fn take_counted<H: Shelf>(
    alloc: Global,
    shelf: &mut H,
    dir: &Text,
    set: UpgradeSet<H::D>,
) -> (UpgradeSet<H::D>, Result<u32, CheckFault>)
    requires empty { (set.files.items ≡ []) × (set.spares.items ≡ [])
        × (set.numbers.items ≡ []) }
    requires number { set.marker_number ≡ FILES_MARKER }
    ensures set { IsSet result.0.files.items result.0.spares.items result.0.numbers.items }
    ensures registry { OnOk result.1 (result.0.numbers.items ≡ up_to 0) }
    ensures within { (more number : ℕ) → IsOneOf more result.0.numbers.items number
        → IsOneOf more (up_to 0) number }
    ensures number { result.0.marker_number ≡ FILES_MARKER }
    ensures few { IfOk result.1 IsSlot }
    ensures has { H.tells
        → IsOpened H.D.Disk dir.now FILES_MARKER (H.files shelf.old) set.marker
        → IfOk result.1 (HasSlots (H.files shelf.old) dir.now) }
    ensures taken { H.tells
        → IsOpened H.D.Disk dir.now FILES_MARKER (H.files shelf.old) set.marker
        → IsTaken H.D.Disk dir.now (H.files shelf.old) result.0.numbers.items
        result.0.files.items result.0.spares.items result.0.marker FILES_MARKER }
    ensures kept { H.tells → AreKeptButSpare dir.now FILES_MARKER (up_to 0)
        (H.files shelf.old) (H.files shelf.new) }
    ensures fault { H.tells
        → IsOpened H.D.Disk dir.now FILES_MARKER (H.files shelf.old) set.marker
        → IfErr result.1 (StopsTaking (H.files shelf.old) dir.now) }
    ensures cause { IsErrOf result.1 CheckFault.Failed
        → Rose (H.faults shelf.old) (H.faults shelf.new)
        ⊎ SetFailed H.D.Disk result.0.files.items result.0.spares.items result.0.marker }
    ensures faults { H.faults shelf.old ≤ H.faults shelf.new }
{
    let mut set = set;
    match take_registry(alloc, shelf, dir, &mut set) {
        Ok(true) => slots_marked(alloc, set),
        Ok(false) => slots_unmarked(alloc, set),
        Err(fault) => (set, Err(fault)),
    }
}

// Takes the disks of all files, as many as the registry tells.
fn take_directory<H: Shelf>(
    alloc: Global,
    shelf: &mut H,
    dir: &Text,
    set: UpgradeSet<H::D>,
) -> (UpgradeSet<H::D>, Result<(), CheckFault>)
    requires empty { (set.files.items ≡ []) × (set.spares.items ≡ [])
        × (set.numbers.items ≡ []) }
    requires number { set.marker_number ≡ FILES_MARKER }
    ensures set { IsSet result.0.files.items result.0.spares.items result.0.numbers.items }
    ensures number { result.0.marker_number ≡ FILES_MARKER }
    ensures has { H.tells
        → IsOpened H.D.Disk dir.now FILES_MARKER (H.files shelf.old) set.marker
        → OnOk result.1 ((slots : ℕ) × HasSlots (H.files shelf.old) dir.now slots
        × (result.0.numbers.items ≡ up_to slots)) }
    ensures taken { H.tells
        → IsOpened H.D.Disk dir.now FILES_MARKER (H.files shelf.old) set.marker
        → IsTaken H.D.Disk dir.now (H.files shelf.old) result.0.numbers.items
        result.0.files.items result.0.spares.items result.0.marker FILES_MARKER }
    ensures kept { H.tells → OnOk result.1 (AreKeptButSpare dir.now FILES_MARKER
        result.0.numbers.items (H.files shelf.old) (H.files shelf.new)) }
    ensures left { H.tells → AreKeptButSpare dir.now FILES_MARKER (up_to 16)
        (H.files shelf.old) (H.files shelf.new) }
    ensures within { (more number : ℕ) → IsOneOf more result.0.numbers.items number
        → IsOneOf more (up_to 16) number }
    ensures fault { H.tells
        → IsOpened H.D.Disk dir.now FILES_MARKER (H.files shelf.old) set.marker
        → IfErr result.1 (StopsTaking (H.files shelf.old) dir.now) }
    ensures cause { IsErrOf result.1 CheckFault.Failed
        → Rose (H.faults shelf.old) (H.faults shelf.new)
        ⊎ SetFailed H.D.Disk result.0.files.items result.0.spares.items result.0.marker }
    ensures faults { H.faults shelf.old ≤ H.faults shelf.new }
{
    let (set, slots) = take_counted(alloc, shelf, dir, set);
    match slots {
        Ok(slots) => {
            let mut set = set;
            let taken = take_logs(shelf, dir, slots, &mut set);
            (set, taken)
        }
        Err(fault) => (set, Err(fault)),
    }
}

/// Upgrades a set that was taken, and puts its disks back.
pub fn upgrade_set<H: Shelf>(
    alloc: Global,
    shelf: &mut H,
    set: UpgradeSet<H::D>,
) -> Result<Upgraded, CheckFault>
    requires set { IsSet set.files.items set.spares.items set.numbers.items }
    requires number { IsMarkerNumber set.marker_number }
    ensures done { H.tells → (dir : List ℕ) (old : Files) → IsTaken H.D.Disk dir old
        set.numbers.items set.files.items set.spares.items set.marker set.marker_number
        → SameBeside dir set.marker_number set.numbers.items old (H.files shelf.old)
        → IfOk result (λ done. IsSetEnd dir set.marker_number set.numbers.items old
        (H.files shelf.new) (Ok done)) }
    ensures stopped { H.tells → (dir : List ℕ) (old : Files) → IsTaken H.D.Disk dir old
        set.numbers.items set.files.items set.spares.items set.marker set.marker_number
        → SameBeside dir set.marker_number set.numbers.items old (H.files shelf.old)
        → IfErr result (λ fault. (why : UpgradeFaultOf) × (fault ≡ check_fault_of_upgrade why)
        × IsSetEnd dir set.marker_number set.numbers.items old (H.files shelf.new) (Err why)) }
    ensures cause { IsErrOf result CheckFault.Failed
        → Rose (H.faults shelf.old) (H.faults shelf.new) }
    ensures faults { H.faults shelf.old ≤ H.faults shelf.new }
{
    let (set, ended) = upgrade_files(alloc, set);
    put_back_set(shelf, set);
    match ended {
        Ok(done) => Ok(done),
        Err(fault) => Err(check_fault(fault)),
    }
}

/// Brings the files of a registry and of its logs to the new form. Where that was broken off it is
/// finished.
pub fn upgrade_directory<H: Shelf>(
    alloc: Global,
    shelf: &mut H,
    dir: &Text,
) -> Result<Upgraded, CheckFault>
    ensures done { H.tells → IfOk result
        (IsUpgradedDirectory dir.now (H.files shelf.old) (H.files shelf.new)) }
    ensures stopped { H.tells → IfErr result
        (StopsUpgrade dir.now (H.files shelf.old) (H.files shelf.new)) }
    ensures cause { IsErrOf result CheckFault.Failed
        → Rose (H.faults shelf.old) (H.faults shelf.new) }
    ensures faults { H.faults shelf.old ≤ H.faults shelf.new }
{
    let marker = shelf.disk(dir, FILES_MARKER)?;
    let set = begin(alloc, marker, FILES_MARKER);
    let (set, taken) = take_directory(alloc, shelf, dir, set);
    match taken {
        Ok(()) => upgrade_set(alloc, shelf, set),
        Err(fault) => {
            put_back_set(shelf, set);
            Err(fault)
        }
    }
}
