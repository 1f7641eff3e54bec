//! How many logs a registry has, in whichever form its file is.
ghost use Rattle.std.specs.Prelude.{◌≡◌, ◌⊎◌, ◌+◌, ◌<◌, ◌≤◌, ℕ, List, [], ◌∷◌, length, take};
ghost use Rattle.std.specs.Prelude.{get_or, IfOk, IfErr, OnOk, IsErrOf, slice_index_or, map};
ghost use Rattle.delta_base.specs.Outside.{Rose};
ghost use Rattle.disk_model.specs.Past.{reads, began, EveryImage, Keeps};
ghost use Rattle.log_journal.specs.Front.{HasFirst, IsFront};
ghost use Rattle.log_journal.specs.Written.{DiskWent};
ghost use Rattle.journal_upgrade.specs.Numbers.{IsSet};
ghost use Rattle.journal_upgrade.specs.Marker.{IsUnmarked};
ghost use Rattle.journal_upgrade.specs.Copies.{past_at, AreKept, OneRose, SameMarks};
ghost use Rattle.registry_core.specs.Events.{IsSlot};
ghost use Rattle.directory_upgrade.specs.Slots.{TellsSlots, FrontStops, FrontTells, LacksSlots};
ghost use Rattle.directory_upgrade.specs.Slots.{FileTells, FileStops, SpareTells, SpareStops};

use crate::fault::check_fault;
use crate::taking::SPARE;
use delta_base::{Bytes, Listing};
use disk_model::Disk;
use journal_upgrade::{Disks, UpgradeSet, fill_spares};
use log_journal::{Front, front};
use registry_core::{PayloadFault, read_registry};
use slot_checks::CheckFault;
use std::alloc::Global;

/// The fault of a registry without a first payload that tells its slots.
const NO_SLOTS: CheckFault = CheckFault::BrokenEvent { place: 0 };

/// The most bytes of a first payload that are shown.
const SHOWN: u32 = 64;

// The number of slots that a payload tells.
fn slots_told(alloc: Global, payload: Bytes) -> Result<u32, CheckFault>
    ensures tells { IfOk result (TellsSlots payload) }
    ensures few { IfOk result IsSlot }
    ensures never { IsErrOf result CheckFault.Failed → ⊥ }
    ensures fault { IfErr result (λ fault. (fault ≡ CheckFault.OutOfMemory)
        ⊎ ((fault ≡ CheckFault.BrokenEvent 0) × LacksSlots (payload ∷ []))) }
{
    let payloads = [payload];
    match read_registry(alloc, &payloads) {
        Ok(registry) => Ok(registry.slots()),
        Err(PayloadFault::Broken { .. }) => Err(NO_SLOTS),
        Err(PayloadFault::OutOfMemory) => Err(CheckFault::OutOfMemory),
    }
}

// The number of slots that a payload of this length tells, of which this much is shown.
#[tactic(auto, using(crate::proofs::Told::long_lacks, crate::proofs::Told::told_of_shown, crate::proofs::Told::lacking_of_shown))]
fn slots_shown(alloc: Global, size: u32, shown: Bytes) -> Result<u32, CheckFault>
    ensures tells { (payload : List ℕ) → size ≡ length payload → shown ≡ take 64 payload
        → IfOk result (TellsSlots payload) }
    ensures fault { (payload : List ℕ) → size ≡ length payload → shown ≡ take 64 payload
        → IfErr result (λ fault. (fault ≡ CheckFault.OutOfMemory)
        ⊎ ((fault ≡ CheckFault.BrokenEvent 0) × LacksSlots (payload ∷ []))) }
    ensures few { IfOk result IsSlot }
    ensures never { IsErrOf result CheckFault.Failed → ⊥ }
{
    if size > SHOWN {
        return Err(NO_SLOTS);
    }
    slots_told(alloc, shown)
}

// The number of slots that the first payload of a file tells.
fn slots_at_front<D: Disk>(alloc: Global, disk: &mut D, number: u32) -> Result<u32, CheckFault>
    ensures tells { D.tells → IfOk result (FrontTells (reads (D.past disk.old)) number) }
    ensures fault { D.tells → IfErr result (FrontStops (reads (D.past disk.old)) number) }
    ensures few { IfOk result IsSlot }
    ensures kept { D.tells → Keeps (D.past disk.old) (D.past disk.new) }
    ensures went { DiskWent D.Disk (IsErrOf result CheckFault.Failed) disk.old disk.new }
{
    match front(alloc, disk, number) {
        Ok(Front::Nothing) => Err(NO_SLOTS),
        Ok(Front::First { length, bytes }) => slots_shown(alloc, length, bytes),
        Err(fault) => Err(CheckFault::of_front(number, fault)),
    }
}

// The same of a registry's spare under a marker. Without bytes it is no journal.
fn slots_in_spare<D: Disk>(alloc: Global, disk: &mut D) -> Result<u32, CheckFault>
    ensures tells { D.tells → IfOk result (SpareTells (reads (D.past disk.old))) }
    ensures fault { D.tells → IfErr result (SpareStops (reads (D.past disk.old))) }
    ensures few { IfOk result IsSlot }
    ensures kept { D.tells → Keeps (D.past disk.old) (D.past disk.new) }
    ensures went { DiskWent D.Disk (IsErrOf result CheckFault.Failed) disk.old disk.new }
{
    match disk.len() {
        Ok(0) => Err(CheckFault::Damaged { file: SPARE, at: 0 }),
        Ok(_) => slots_at_front(alloc, disk, SPARE),
        Err(_) => Err(CheckFault::Failed),
    }
}

// The slots that the first of these disks tells.
fn slots_in_first<D: Disk>(
    alloc: Global,
    disks: Disks<D>,
    number: u32,
) -> (Disks<D>, Result<u32, CheckFault>)
    requires { length disks.items ≡ 1 }
    ensures tells { D.tells
        → IfOk result.1 (FrontTells (reads (past_at D.past disks.items 0)) number) }
    ensures fault { D.tells
        → IfErr result.1 (FrontStops (reads (past_at D.past disks.items 0)) number) }
    ensures few { IfOk result.1 IsSlot }
    ensures kept { D.tells → AreKept D.past disks.items result.0.items }
    ensures as_many { length result.0.items ≡ length disks.items }
    ensures cause { IsErrOf result.1 CheckFault.Failed
        → OneRose D.faults disks.items result.0.items }
    ensures marks { SameMarks D.mark disks.items result.0.items }
{
    let mut disks = disks.into_vec();
    let slots = slots_at_front(alloc, &mut disks[0], number);
    (Listing::from_vec(disks), slots)
}

/// How many slots there are, where nothing stands in the marker: by the registry's file, or by its
/// spare, which is filled from that where it is of the old form.
pub fn slots_unmarked<D: Disk>(
    alloc: Global,
    set: UpgradeSet<D>,
) -> (UpgradeSet<D>, Result<u32, CheckFault>)
    requires set { IsSet set.files.items set.spares.items set.numbers.items }
    requires registry { set.numbers.items ≡ 0 ∷ [] }
    requires unmarked { D.tells
        → EveryImage (D.past set.marker) (λ image. IsUnmarked image set.marker_number) }
    ensures same { (result.0.marker ≡ set.marker) × (result.0.numbers ≡ set.numbers)
        × (result.0.marker_number ≡ set.marker_number) }
    ensures set { IsSet result.0.files.items result.0.spares.items result.0.numbers.items }
    ensures files { D.tells → AreKept D.past set.files.items result.0.files.items }
    ensures tells { D.tells
        → IfOk result.1 (FileTells (reads (past_at D.past set.files.items 0))) }
    ensures fault { D.tells
        → IfErr result.1 (FileStops (reads (past_at D.past set.files.items 0))) }
    ensures few { IfOk result.1 IsSlot }
    ensures cause { IsErrOf result.1 CheckFault.Failed
        → OneRose D.faults set.files.items result.0.files.items
        ⊎ OneRose D.faults set.spares.items result.0.spares.items }
    ensures marks { SameMarks D.mark set.files.items result.0.files.items
        × SameMarks D.mark set.spares.items result.0.spares.items }
{
    let (set, filled) = fill_spares(alloc, set);
    let mut set = set;
    match filled {
        Ok(0) => {
            let (files, slots) = slots_in_first(alloc, set.files, 0);
            set.files = files;
            (set, slots)
        }
        Ok(_) => {
            let (spares, slots) = slots_in_first(alloc, set.spares, SPARE);
            set.spares = spares;
            (set, slots)
        }
        Err(fault) => (set, Err(check_fault(fault))),
    }
}

/// How many slots there are under a marker: by the spare of the registry's file.
pub fn slots_marked<D: Disk>(
    alloc: Global,
    set: UpgradeSet<D>,
) -> (UpgradeSet<D>, Result<u32, CheckFault>)
    requires set { IsSet set.files.items set.spares.items set.numbers.items }
    requires registry { set.numbers.items ≡ 0 ∷ [] }
    ensures same { (result.0.marker ≡ set.marker) × (result.0.numbers ≡ set.numbers)
        × (result.0.marker_number ≡ set.marker_number) × (result.0.files ≡ set.files) }
    ensures set { IsSet result.0.files.items result.0.spares.items result.0.numbers.items }
    ensures spares { D.tells → AreKept D.past set.spares.items result.0.spares.items }
    ensures tells { D.tells
        → IfOk result.1 (SpareTells (reads (past_at D.past set.spares.items 0))) }
    ensures fault { D.tells
        → IfErr result.1 (SpareStops (reads (past_at D.past set.spares.items 0))) }
    ensures few { IfOk result.1 IsSlot }
    ensures cause { IsErrOf result.1 CheckFault.Failed
        → OneRose D.faults set.spares.items result.0.spares.items }
    ensures marks { SameMarks D.mark set.spares.items result.0.spares.items }
{
    let mut set = set;
    let mut spares = set.spares.into_vec();
    let slots = slots_in_spare(alloc, &mut spares[0]);
    set.spares = Listing::from_vec(spares);
    (set, slots)
}
