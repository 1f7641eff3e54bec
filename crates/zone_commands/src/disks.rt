//! The disks of the two files of a zone, taken from a shelf and put back.
ghost use Rattle.std.specs.Prelude.{◌≡◌, ◌⊎◌, ℕ, ◌<◌, ◌≤◌, List, IfOk, IfErr, OnOk, IsErrOf};
ghost use Rattle.delta_base.specs.Outside.{Rose};
ghost use Rattle.disk_model.specs.Past.{reads};
ghost use Rattle.zone_commands.specs.Disks.{AreFreshDisks, AreZoneDisks, ZoneFilesHave};
ghost use Rattle.zone_commands.specs.Disks.{KeepsZoneFiles, fault_of_shelf};

use delta_base::Text;
use disk_model::{Shelf, ShelfFault};
use paired_zone::PairFault;
use zone_files::{SECOND_NUMBER, ZONE_NUMBER};

// Why the disk of a file isn't given.
fn untaken(file: u32, fault: ShelfFault) -> PairFault
    ensures { result ≡ fault_of_shelf file fault }
{
    match fault {
        ShelfFault::Failed => PairFault::Failed { file },
        ShelfFault::OutOfMemory => PairFault::OutOfMemory,
    }
}

/// The disks of the first file of a directory's zone and of the second. None is made that was there.
pub(crate) fn take_disks<H: Shelf>(shelf: &mut H, dir: &Text) -> Result<(H::D, H::D), PairFault>
    ensures taken { H.tells → IfOk result (λ disks.
        AreFreshDisks H.D.Disk dir.now (H.files shelf.old) disks.0 disks.1) }
    ensures fresh { IfOk result (λ disks. (H.D.faults disks.0 ≡ 0) × (H.D.faults disks.1 ≡ 0)) }
    ensures kept { H.tells → KeepsZoneFiles dir.now (H.files shelf.old) (H.files shelf.new) }
    ensures fault { IfErr result (λ fault. (fault ≡ PairFault.OutOfMemory)
        ⊎ ((file : ℕ) × (fault ≡ PairFault.Failed file))) }
    ensures cause { (file : ℕ) → IsErrOf result (PairFault.Failed file)
        → Rose (H.faults shelf.old) (H.faults shelf.new) }
    ensures well { OnOk result (H.faults shelf.new ≡ H.faults shelf.old) }
    ensures never_falls { H.faults shelf.old ≤ H.faults shelf.new }
{
    let first = match shelf.disk(dir, ZONE_NUMBER) {
        Ok(disk) => disk,
        Err(fault) => return Err(untaken(ZONE_NUMBER, fault)),
    };
    match shelf.disk(dir, SECOND_NUMBER) {
        Ok(second) => Ok((first, second)),
        Err(fault) => {
            shelf.put_back(first);
            Err(untaken(SECOND_NUMBER, fault))
        }
    }
}

/// Puts both disks back: their files have then what they read.
pub(crate) fn put_back_disks<H: Shelf>(shelf: &mut H, first: H::D, second: H::D)
    ensures kept { H.tells → (dir : List ℕ) → AreZoneDisks H.D.Disk dir first second
        → ZoneFilesHave dir (reads (H.D.past first)) (reads (H.D.past second))
        (H.files shelf.old) (H.files shelf.new) }
    ensures rises { (0 < H.D.faults first) ⊎ (0 < H.D.faults second)
        → Rose (H.faults shelf.old) (H.faults shelf.new) }
    ensures stays { H.D.faults first ≡ 0 → H.D.faults second ≡ 0
        → H.faults shelf.new ≡ H.faults shelf.old }
    ensures never_falls { H.faults shelf.old ≤ H.faults shelf.new }
{
    shelf.put_back(first);
    shelf.put_back(second);
}
