//! The file of one journal.
ghost use Rattle.std.specs.Prelude.{◌≡◌, ℕ, ◌<◌, ◌≤◌, [], Some, length, OnOk, IsErrOf};
ghost use Rattle.delta_base.specs.Outside.{Rose};
ghost use Rattle.disk_model.specs.Past.{reads, EveryImage};
ghost use Rattle.disk_model.specs.Shelf.{SameOthers};
ghost use Rattle.log_journal.specs.File.{file_of};
ghost use Rattle.slot_files.specs.Files.{bytes_at};

use crate::fault::InitFault;
use crate::opening::opened;
use delta_base::Text;
use disk_model::{Disk, Shelf};
use log_journal::{FormatFault, format};

// Makes an empty file an empty journal, and gives its disk back.
fn formatted<D: Disk>(disk: D, number: u32) -> (D, Result<(), InitFault>)
    ensures ok { D.tells → OnOk result.1 ((reads (D.past disk) ≡ [])
        × (reads (D.past result.0) ≡ file_of number [])) }
    ensures synced { D.tells → OnOk result.1
        (EveryImage (D.past result.0) (λ image. image ≡ file_of number [])) }
    ensures not_empty { D.tells → (found size : ℕ)
        → IsErrOf result.1 (InitFault.NotEmpty found size) → (found ≡ number) × (0 < size)
        × (size ≡ length (reads (D.past disk))) }
    ensures kept { D.tells → 0 < length (reads (D.past disk)) → D.past result.0 ≡ D.past disk }
    ensures cause { IsErrOf result.1 InitFault.Failed → Rose (D.faults disk) (D.faults result.0) }
    ensures mark { D.mark result.0 ≡ D.mark disk }
{
    let mut disk = disk;
    match format(&mut disk, number) {
        Ok(()) => (disk, Ok(())),
        Err(FormatFault::NotEmpty { length }) => {
            (disk, Err(InitFault::NotEmpty { number, length }))
        }
        Err(FormatFault::Failed) => (disk, Err(InitFault::Failed)),
    }
}

/// Makes a file that has no bytes an empty journal. Its disk is put back.
pub fn format_file<H: Shelf>(shelf: &mut H, dir: &Text, number: u32) -> Result<(), InitFault>
    ensures ok { H.tells → OnOk result ((bytes_at (H.files shelf.old) dir.now number ≡ [])
        × (H.files shelf.new dir.now number ≡ Some (file_of number []))) }
    ensures not_empty { H.tells → (found size : ℕ) → IsErrOf result (InitFault.NotEmpty found size)
        → (found ≡ number) × (0 < size)
        × (size ≡ length (bytes_at (H.files shelf.old) dir.now number)) }
    ensures kept { H.tells → 0 < length (bytes_at (H.files shelf.old) dir.now number)
        → H.files shelf.new dir.now number ≡ H.files shelf.old dir.now number }
    ensures others { H.tells
        → SameOthers (Some (dir.now, number)) (H.files shelf.old) (H.files shelf.new) }
    ensures cause { IsErrOf result InitFault.Failed
        → Rose (H.faults shelf.old) (H.faults shelf.new) }
    ensures faults { H.faults shelf.old ≤ H.faults shelf.new }
{
    let disk = opened(shelf, dir, number)?;
    let (disk, answer) = formatted(disk, number);
    shelf.put_back(disk);
    answer
}
