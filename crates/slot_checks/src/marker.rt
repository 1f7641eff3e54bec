//! The marker of an upgrade, which has a payload from when the old files may be written over until
//! each is written anew.
ghost use Rattle.std.specs.Prelude.{◌≡◌, ◌≤◌, Some, IfErr, OnOk, IsErrOf};
ghost use Rattle.delta_base.specs.Outside.{Rose};
ghost use Rattle.disk_model.specs.Past.{reads};
ghost use Rattle.disk_model.specs.Shelf.{SameOthers};
ghost use Rattle.log_journal.specs.Front.{HoldsNothing};
ghost use Rattle.slot_files.specs.Files.{IsKept, bytes_at};
ghost use Rattle.slot_checks.specs.Faults.{HasMarkerFault};

use crate::fault::CheckFault;
use delta_base::Text;
use disk_model::{Disk, Shelf};
use log_journal::{Front, front};
use std::alloc::Global;

/// The number of the marker for the files of a registry and its logs.
pub const FILES_MARKER: u32 = 2099;

/// The number of the marker for the files of a zone.
pub const ZONE_MARKER: u32 = 3099;

// Whether nothing stands in a marker, which is read no further than its first payload, and its
// disk.
fn read_marker<D: Disk>(alloc: Global, disk: D, number: u32) -> (D, Result<(), CheckFault>)
    ensures nothing { D.tells → OnOk result.1 (HoldsNothing (reads (D.past disk)) number) }
    ensures fault { D.tells → IfErr result.1 (HasMarkerFault (reads (D.past disk)) number) }
    ensures kept { D.tells → reads (D.past result.0) ≡ reads (D.past disk) }
    ensures cause { IsErrOf result.1 CheckFault.Failed → Rose (D.faults disk) (D.faults result.0) }
    ensures well { OnOk result.1 (D.faults result.0 ≡ D.faults disk) }
    ensures mark { D.mark result.0 ≡ D.mark disk }
{
    let mut disk = disk;
    match front(alloc, &mut disk, number) {
        Ok(Front::Nothing) => (disk, Ok(())),
        Ok(Front::First { .. }) => (disk, Err(CheckFault::UpgradePending { file: number })),
        Err(fault) => (disk, Err(CheckFault::of_front(number, fault))),
    }
}

/// Whether nothing stands in the marker of a directory. Its disk is put back.
pub fn check_marker<H: Shelf>(
    alloc: Global,
    shelf: &mut H,
    dir: &Text,
    number: u32,
) -> Result<(), CheckFault>
    ensures nothing { H.tells → OnOk result
        (HoldsNothing (bytes_at (H.files shelf.old) dir.now number) number) }
    ensures fault { H.tells → IfErr result
        (HasMarkerFault (bytes_at (H.files shelf.old) dir.now number) number) }
    ensures kept { H.tells → IsKept (H.files shelf.old dir.now number)
        (H.files shelf.new dir.now number) }
    ensures others { H.tells → SameOthers (Some (dir.now, number))
        (H.files shelf.old) (H.files shelf.new) }
    ensures cause { IsErrOf result CheckFault.Failed
        → Rose (H.faults shelf.old) (H.faults shelf.new) }
    ensures well { OnOk result (H.faults shelf.new ≡ H.faults shelf.old) }
    ensures faults { H.faults shelf.old ≤ H.faults shelf.new }
{
    let disk = shelf.disk(dir, number)?;
    let (disk, answer) = read_marker(alloc, disk, number);
    shelf.put_back(disk);
    answer
}
