//! The file of the registry: a journal whose first payload tells the number of slots.
ghost use Rattle.std.specs.Prelude.{◌≡◌, ℕ, ◌<◌, ◌≤◌, [], ◌∷◌, Some, length, OnOk, IsErrOf};
ghost use Rattle.delta_base.specs.Outside.{Rose};
ghost use Rattle.disk_model.specs.Past.{reads, EveryImage};
ghost use Rattle.disk_model.specs.Shelf.{SameOthers};
ghost use Rattle.log_journal.specs.File.{file_of, Holds};
ghost use Rattle.log_journal.specs.Payload.{payload_of};
ghost use Rattle.slot_files.specs.Files.{bytes_at};

use crate::fault::InitFault;
use crate::opening::opened;
use delta_base::Text;
use disk_model::{Disk, Shelf};
use log_base::REGISTRY_LIMIT;
use log_journal::{AppendFault, Block, FormatFault, Journal};

// Makes an empty file the registry's, and gives its disk back.
fn written<D: Disk>(disk: D, block: &Block) -> (D, Result<(), InitFault>)
    requires { length (payload_of block.now) ≤ 100 }
    ensures ok { D.tells → OnOk result.1 ((reads (D.past disk) ≡ [])
        × (reads (D.past result.0) ≡ file_of 0 (payload_of block.now ∷ []))) }
    ensures synced { D.tells → OnOk result.1
        (EveryImage (D.past result.0) (λ image. Holds image 0 (payload_of block.now ∷ []))) }
    ensures not_empty { D.tells → (found size : ℕ)
        → IsErrOf result.1 (InitFault.NotEmpty found size) → (found ≡ 0) × (0 < size)
        × (size ≡ length (reads (D.past disk))) }
    ensures kept { D.tells → 0 < length (reads (D.past disk)) → D.past result.0 ≡ D.past disk }
    ensures cause { IsErrOf result.1 InitFault.Failed → Rose (D.faults disk) (D.faults result.0) }
    ensures mark { D.mark result.0 ≡ D.mark disk }
{
    match Journal::start_on(disk, 0, REGISTRY_LIMIT) {
        Ok(mut journal) => {
            let answer = match journal.append(block) {
                Ok(()) => Ok(()),
                Err(AppendFault::Failed) => Err(InitFault::Failed),
                Err(AppendFault::Full { .. }) => unreachable!(),
            };
            (journal.close(), answer)
        }
        Err(refusal) => {
            let fault = match refusal.fault {
                FormatFault::NotEmpty { length } => InitFault::NotEmpty { number: 0, length },
                FormatFault::Failed => InitFault::Failed,
            };
            (refusal.disk, Err(fault))
        }
    }
}

/// Makes file 0 a journal with this payload.
pub fn write_registry<H: Shelf>(shelf: &mut H, dir: &Text, block: &Block) -> Result<(), InitFault>
    requires { length (payload_of block.now) ≤ 100 }
    ensures ok { H.tells → OnOk result ((bytes_at (H.files shelf.old) dir.now 0 ≡ [])
        × (H.files shelf.new dir.now 0 ≡ Some (file_of 0 (payload_of block.now ∷ [])))) }
    ensures not_empty { H.tells → (found size : ℕ) → IsErrOf result (InitFault.NotEmpty found size)
        → (found ≡ 0) × (0 < size) × (size ≡ length (bytes_at (H.files shelf.old) dir.now 0)) }
    ensures kept { H.tells → 0 < length (bytes_at (H.files shelf.old) dir.now 0)
        → H.files shelf.new dir.now 0 ≡ H.files shelf.old dir.now 0 }
    ensures others { H.tells
        → SameOthers (Some (dir.now, 0)) (H.files shelf.old) (H.files shelf.new) }
    ensures cause { IsErrOf result InitFault.Failed
        → Rose (H.faults shelf.old) (H.faults shelf.new) }
    ensures faults { H.faults shelf.old ≤ H.faults shelf.new }
{
    let disk = opened(shelf, dir, 0)?;
    let (disk, answer) = written(disk, block);
    shelf.put_back(disk);
    answer
}
