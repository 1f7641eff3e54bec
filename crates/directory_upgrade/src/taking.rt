//! Takes the disks of a set from a shelf.
ghost use Rattle.std.specs.Prelude.{◌≡◌, ◌⊎◌, ◌+◌, ◌<◌, ◌≤◌, [], ◌∷◌, ◌++◌, Some, Err};
ghost use Rattle.std.specs.Prelude.{IfOk, IfErr, OnOk, OnErr, IsErrOf};
ghost use Rattle.delta_base.specs.Outside.{Rose};
ghost use Rattle.disk_model.specs.Past.{reads, synced, Keeps};
ghost use Rattle.log_journal.specs.Front.{IsFront};
ghost use Rattle.log_journal.specs.Written.{DiskWent};
ghost use Rattle.log_journal.specs.declared.at_front.FrontFault.{FrontFault as FrontFaultOf};
ghost use Rattle.slot_checks.specs.Faults.{check_fault_of_front};
ghost use Rattle.slot_files.specs.Files.{bytes_at};
ghost use Rattle.directory_upgrade.specs.Sets.{MarkerSays};
ghost use Rattle.directory_upgrade.specs.Taking.{IsAdded, AreVisited, Longer};

use delta_base::{Back, Listing, OutOfMemory, Text};
use disk_model::{Disk, Shelf};
use journal_upgrade::{Disks, UpgradeSet};
use log_journal::{Front, front};
use slot_checks::CheckFault;
use std::alloc::Global;

/// What is added to the number of a file for that of its spare.
pub const SPARE: u32 = 2000;

/// A set over a marker, with no file yet.
pub fn begin<D: Disk>(alloc: Global, marker: D, marker_number: u32) -> UpgradeSet<D>
    ensures files { (result.files.items ≡ []) × (result.spares.items ≡ [])
        × (result.numbers.items ≡ []) }
    ensures marker { (result.marker ≡ marker) × (result.marker_number ≡ marker_number) }
{
    UpgradeSet {
        files: Listing::new(alloc),
        spares: Listing::new(alloc),
        marker,
        marker_number,
        numbers: Listing::new(alloc),
    }
}

/// Whether a payload stands in the marker.
pub fn is_marked<D: Disk>(alloc: Global, set: &mut UpgradeSet<D>) -> Result<bool, CheckFault>
    ensures says { D.tells → IfOk result (λ marked.
        MarkerSays marked (reads (D.past set.old.marker)) set.old.marker_number) }
    ensures fault { D.tells → IfErr result (λ fault. (why : FrontFaultOf)
        × (fault ≡ check_fault_of_front set.old.marker_number why)
        × IsFront (reads (D.past set.old.marker)) set.old.marker_number (Err why)) }
    ensures same { set.new ≡ record set.old { marker = set.new.marker } }
    ensures kept { D.tells → Keeps (D.past set.old.marker) (D.past set.new.marker) }
    ensures synced { D.tells
        → OnOk result (D.past set.new.marker ≡ synced (D.past set.old.marker)) }
    ensures went { DiskWent D.Disk (IsErrOf result CheckFault.Failed)
        set.old.marker set.new.marker }
{
    match front(alloc, &mut set.marker, set.marker_number) {
        Ok(Front::Nothing) => Ok(false),
        Ok(Front::First { .. }) => Ok(true),
        Err(fault) => Err(CheckFault::of_front(set.marker_number, fault)),
    }
}

/// Makes room for a file more.
fn reserve<D: Disk>(set: &mut UpgradeSet<D>) -> Result<(), OutOfMemory>
    ensures items { (set.new.files.items ≡ set.old.files.items)
        × (set.new.spares.items ≡ set.old.spares.items)
        × (set.new.numbers.items ≡ set.old.numbers.items) }
    ensures same { (set.new.marker ≡ set.old.marker)
        × (set.new.marker_number ≡ set.old.marker_number) }
    ensures room { OnOk result ((0 < set.new.files.spare) × (0 < set.new.spares.spare)
        × (0 < set.new.numbers.spare)) }
{
    set.files.reserve(1)?;
    set.spares.reserve(1)?;
    set.numbers.reserve(1)
}

// Adds a disk to a list that has room for it.
fn add<H: Shelf>(shelf: &mut H, disk: H::D, disks: &mut Disks<H::D>)
    requires { 0 < disks.old.spare }
    ensures added { disks.new.items ≡ disks.old.items ++ disk ∷ [] }
    ensures shelf { shelf.new ≡ shelf.old }
{
    match disks.push(disk) {
        Ok(()) => {}
        Err(Back { item }) => shelf.put_back(item),
    }
}

// Takes the disk of a file's spare, and adds both to the set, which has room for them. Where it
// isn't given, that of the file is put back.
fn take_spare<H: Shelf>(
    shelf: &mut H,
    dir: &Text,
    number: u32,
    file: H::D,
    set: &mut UpgradeSet<H::D>,
) -> Result<(), CheckFault>
    requires number { number ≤ 1001 }
    requires room { (0 < set.old.files.spare) × (0 < set.old.spares.spare)
        × (0 < set.old.numbers.spare) }
    ensures ok { OnOk result ((set.new.files.items ≡ set.old.files.items ++ file ∷ [])
        × Longer set.old.spares.items set.new.spares.items
        × (set.new.numbers.items ≡ set.old.numbers.items ++ number ∷ [])) }
    ensures err { OnErr result ((set.new.files.items ≡ set.old.files.items)
        × (set.new.spares.items ≡ set.old.spares.items)
        × (set.new.numbers.items ≡ set.old.numbers.items)) }
    ensures same { (set.new.marker ≡ set.old.marker)
        × (set.new.marker_number ≡ set.old.marker_number) }
    ensures spare { H.tells → OnOk result (IsAdded H.D.Disk dir.now (number + 2000)
        (H.files shelf.old) set.old.spares.items set.new.spares.items) }
    ensures kept { H.tells → H.D.mark file ≡ Some (dir.now, number)
        → reads (H.D.past file) ≡ bytes_at (H.files shelf.old) dir.now number
        → AreVisited dir.now number (H.files shelf.old) (H.files shelf.new) }
    ensures fault { IfErr result (λ fault. (fault ≡ CheckFault.Failed)
        ⊎ (fault ≡ CheckFault.OutOfMemory)) }
    ensures cause { IsErrOf result CheckFault.Failed
        → Rose (H.faults shelf.old) (H.faults shelf.new) }
    ensures faults { H.faults shelf.old ≤ H.faults shelf.new }
{
    match shelf.disk(dir, number + SPARE) {
        Ok(spare) => {
            add(shelf, file, &mut set.files);
            add(shelf, spare, &mut set.spares);
            set.numbers.push(u64::from(number))?;
            Ok(())
        }
        Err(fault) => {
            shelf.put_back(file);
            Err(CheckFault::from(fault))
        }
    }
}

/// Takes the disks of a file and of its spare.
pub fn take_file<H: Shelf>(
    shelf: &mut H,
    dir: &Text,
    number: u32,
    set: &mut UpgradeSet<H::D>,
) -> Result<(), CheckFault>
    requires number { number ≤ 1001 }
    ensures ok { OnOk result (Longer set.old.files.items set.new.files.items
        × Longer set.old.spares.items set.new.spares.items
        × (set.new.numbers.items ≡ set.old.numbers.items ++ number ∷ [])) }
    ensures err { OnErr result ((set.new.files.items ≡ set.old.files.items)
        × (set.new.spares.items ≡ set.old.spares.items)
        × (set.new.numbers.items ≡ set.old.numbers.items)) }
    ensures same { (set.new.marker ≡ set.old.marker)
        × (set.new.marker_number ≡ set.old.marker_number) }
    ensures file { H.tells → OnOk result (IsAdded H.D.Disk dir.now number
        (H.files shelf.old) set.old.files.items set.new.files.items) }
    ensures spare { H.tells → OnOk result (IsAdded H.D.Disk dir.now (number + 2000)
        (H.files shelf.old) set.old.spares.items set.new.spares.items) }
    ensures kept { H.tells → AreVisited dir.now number (H.files shelf.old) (H.files shelf.new) }
    ensures fault { IfErr result (λ fault. (fault ≡ CheckFault.Failed)
        ⊎ (fault ≡ CheckFault.OutOfMemory)) }
    ensures cause { IsErrOf result CheckFault.Failed
        → Rose (H.faults shelf.old) (H.faults shelf.new) }
    ensures faults { H.faults shelf.old ≤ H.faults shelf.new }
{
    if reserve(set).is_err() {
        return Err(CheckFault::OutOfMemory);
    }
    let file = shelf.disk(dir, number)?;
    take_spare(shelf, dir, number, file, set)
}
