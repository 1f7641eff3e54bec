//! Visits to the files of a shelf, whose disks are put back.
ghost use Rattle.log_base.specs.declared.limits.TheConstants.{MOST_SLOTS};
ghost use Rattle.std.specs.Prelude.{◌≡◌, ℕ, ◌≤◌, IfOk, IfErr, IsErrOf, Some};
ghost use Rattle.delta_base.specs.Outside.{Rose};
ghost use Rattle.disk_model.specs.Shelf.{SameOthers};
ghost use Rattle.slot_files.specs.Files.{IsKept, bytes_at};
ghost use Rattle.slot_checks.specs.Sound.{IsLogLine, HoldsRegistry};
ghost use Rattle.slot_checks.specs.Faults.{HasFileFault, HasRegistryFileFault};

use crate::fault::CheckFault;
use crate::lines::FileLine;
use crate::log_file::read_log_file;
use crate::registry_file::{RegistryFile, read_registry_file};
use delta_base::Text;
use disk_model::Shelf;
use std::alloc::Global;

/// The line of a log's file.
pub fn check_log<H: Shelf>(
    alloc: Global,
    shelf: &mut H,
    dir: &Text,
    number: u32,
) -> Result<FileLine, CheckFault>
    ensures ok { H.tells → IfOk result
        (IsLogLine (bytes_at (H.files shelf.old) dir.now number) number) }
    ensures fault { H.tells → IfErr result
        (HasFileFault (bytes_at (H.files shelf.old) dir.now number) number) }
    ensures kept { H.tells → IsKept (H.files shelf.old dir.now number)
        (H.files shelf.new dir.now number) }
    ensures others { H.tells → SameOthers (Some (dir.now, number))
        (H.files shelf.old) (H.files shelf.new) }
    ensures cause { IsErrOf result CheckFault.Failed
        → Rose (H.faults shelf.old) (H.faults shelf.new) }
    ensures faults { H.faults shelf.old ≤ H.faults shelf.new }
{
    let disk = shelf.disk(dir, number)?;
    let (disk, answer) = read_log_file(alloc, disk, number);
    shelf.put_back(disk);
    answer
}

/// What the registry's file holds.
pub fn check_registry<H: Shelf>(
    alloc: Global,
    shelf: &mut H,
    dir: &Text,
) -> Result<RegistryFile, CheckFault>
    ensures ok { H.tells → IfOk result (λ found.
        HoldsRegistry (bytes_at (H.files shelf.old) dir.now 0) found.slots found.records) }
    ensures few { IfOk result (λ found. (1 ≤ found.slots) × (found.slots ≤ MOST_SLOTS)) }
    ensures fault { H.tells → IfErr result
        (HasRegistryFileFault (bytes_at (H.files shelf.old) dir.now 0)) }
    ensures kept { H.tells → IsKept (H.files shelf.old dir.now 0) (H.files shelf.new dir.now 0) }
    ensures others { H.tells → SameOthers (Some (dir.now, 0))
        (H.files shelf.old) (H.files shelf.new) }
    ensures cause { IsErrOf result CheckFault.Failed
        → Rose (H.faults shelf.old) (H.faults shelf.new) }
    ensures faults { H.faults shelf.old ≤ H.faults shelf.new }
{
    let disk = shelf.disk(dir, 0)?;
    let (disk, answer) = read_registry_file(alloc, disk);
    shelf.put_back(disk);
    answer
}
