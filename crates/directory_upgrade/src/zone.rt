//! The files of a zone.
ghost use Rattle.std.specs.Prelude.{◌≡◌, ◌⊎◌, ◌↔◌, ℕ, ◌<◌, ◌≤◌, [], ◌∷◌, length};
ghost use Rattle.std.specs.Prelude.{IfOk, IfErr, IsTrue, OnOk, IsErrOf};
ghost use Rattle.delta_base.specs.Outside.{Rose};
ghost use Rattle.slot_checks.specs.declared.marker.TheConstants.{ZONE_MARKER};
ghost use Rattle.log_base.specs.declared.limits.TheConstants.{EMPTY_JOURNAL};
ghost use Rattle.slot_files.specs.Files.{bytes_at};
ghost use Rattle.journal_upgrade.specs.Numbers.{IsSet};
ghost use Rattle.directory_upgrade.specs.Sets.{AreKeptButSpare, IsOneOf, IsOpened, IsTaken, SetFailed};
ghost use Rattle.directory_upgrade.specs.Zones.{IsSeen, StopsTakingZone, zone_numbers};
ghost use Rattle.directory_upgrade.specs.Zones.{IsUpgradedZone, StopsZoneUpgrade};

use crate::directory::upgrade_set;
use crate::putting::put_back_set;
use crate::taking::{begin, is_marked, take_file};
use delta_base::Text;
use disk_model::{Disk, Shelf};
use journal_upgrade::{UpgradeSet, Upgraded};
use log_base::EMPTY_JOURNAL;
use slot_checks::{CheckFault, ZONE_MARKER};
use std::alloc::Global;

/// The number of a zone's file.
const FIRST: u32 = 1000;

/// The number of its other file.
const SECOND: u32 = 1001;

// Whether the second file is longer than an empty journal. Its disk is put back.
fn has_second<H: Shelf>(shelf: &mut H, dir: &Text) -> Result<bool, CheckFault>
    ensures long { H.tells → IfOk result (λ long. IsTrue long
        ↔ (EMPTY_JOURNAL < length (bytes_at (H.files shelf.old) dir.now 1001))) }
    ensures seen { H.tells → IsSeen dir.now (H.files shelf.old) (H.files shelf.new) }
    ensures fault { IfErr result (λ fault. (fault ≡ CheckFault.Failed)
        ⊎ (fault ≡ CheckFault.OutOfMemory)) }
    ensures cause { IsErrOf result CheckFault.Failed
        → Rose (H.faults shelf.old) (H.faults shelf.new) }
    ensures faults { H.faults shelf.old ≤ H.faults shelf.new }
{
    let mut file = shelf.disk(dir, SECOND)?;
    let length = file.len();
    shelf.put_back(file);
    match length {
        Ok(length) => Ok(length > EMPTY_JOURNAL),
        Err(_) => Err(CheckFault::Failed),
    }
}

// Takes the disks of a zone's first file, or of both, and of their spares.
fn take_zone<H: Shelf>(
    alloc: Global,
    shelf: &mut H,
    dir: &Text,
    both: bool,
    set: &mut UpgradeSet<H::D>,
) -> Result<(), CheckFault>
    requires empty { (set.old.files.items ≡ []) × (set.old.spares.items ≡ [])
        × (set.old.numbers.items ≡ []) }
    requires number { set.old.marker_number ≡ ZONE_MARKER }
    ensures set { IsSet set.new.files.items set.new.spares.items set.new.numbers.items }
    ensures number { set.new.marker_number ≡ ZONE_MARKER }
    ensures numbers { OnOk result (set.new.numbers.items ≡ zone_numbers both) }
    ensures taken { H.tells
        → IsOpened H.D.Disk dir.now ZONE_MARKER (H.files shelf.old) set.old.marker
        → IsTaken H.D.Disk dir.now (H.files shelf.old) set.new.numbers.items
        set.new.files.items set.new.spares.items set.new.marker ZONE_MARKER }
    ensures kept { H.tells → OnOk result (AreKeptButSpare dir.now ZONE_MARKER
        set.new.numbers.items (H.files shelf.old) (H.files shelf.new)) }
    ensures left { H.tells → AreKeptButSpare dir.now ZONE_MARKER (1000 ∷ 1001 ∷ [])
        (H.files shelf.old) (H.files shelf.new) }
    ensures within { (more number : ℕ) → IsOneOf more set.new.numbers.items number
        → IsOneOf more (1000 ∷ 1001 ∷ []) number }
    ensures fault { H.tells
        → IsOpened H.D.Disk dir.now ZONE_MARKER (H.files shelf.old) set.old.marker
        → IfErr result (StopsTakingZone (H.files shelf.old) dir.now) }
    ensures cause { IsErrOf result CheckFault.Failed
        → Rose (H.faults shelf.old) (H.faults shelf.new)
        ⊎ SetFailed H.D.Disk set.new.files.items set.new.spares.items set.new.marker }
    ensures faults { H.faults shelf.old ≤ H.faults shelf.new }
{
    is_marked(alloc, set)?;
    take_file(shelf, dir, FIRST, set)?;
    if both {
        take_file(shelf, dir, SECOND, set)?;
    }
    Ok(())
}

/// Brings the files of a zone to the new form. Where that was broken off it is finished.
pub fn upgrade_zone<H: Shelf>(
    alloc: Global,
    shelf: &mut H,
    dir: &Text,
) -> Result<Upgraded, CheckFault>
    ensures done { H.tells → IfOk result
        (IsUpgradedZone dir.now (H.files shelf.old) (H.files shelf.new)) }
    ensures stopped { H.tells → IfErr result
        (StopsZoneUpgrade dir.now (H.files shelf.old) (H.files shelf.new)) }
    ensures cause { IsErrOf result CheckFault.Failed
        → Rose (H.faults shelf.old) (H.faults shelf.new) }
    ensures faults { H.faults shelf.old ≤ H.faults shelf.new }
{
    let both = has_second(shelf, dir)?;
    let marker = shelf.disk(dir, ZONE_MARKER)?;
    let mut set = begin(alloc, marker, ZONE_MARKER);
    match take_zone(alloc, shelf, dir, both, &mut set) {
        Ok(()) => upgrade_set(alloc, shelf, set),
        Err(fault) => {
            put_back_set(shelf, set);
            Err(fault)
        }
    }
}
