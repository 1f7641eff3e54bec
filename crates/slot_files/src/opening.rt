//! Opens the disk of a file.
ghost use Rattle.std.specs.Prelude.{◌≡◌, ℕ, ◌<◌, ◌≤◌, Some, length, IfOk, IsErrOf};
ghost use Rattle.delta_base.specs.Outside.{Rose};
ghost use Rattle.disk_model.specs.Past.{began};
ghost use Rattle.disk_model.specs.Shelf.{SameOthers};
ghost use Rattle.slot_files.specs.Files.{bytes_at};

use crate::fault::InitFault;
use delta_base::Text;
use disk_model::{Shelf, ShelfFault};

/// The disk of a file, which is made where there is none.
#[tactic(auto, using(crate::proofs::Steps::there))]
pub fn opened<H: Shelf>(shelf: &mut H, dir: &Text, number: u32) -> Result<H::D, InitFault>
    ensures opened { H.tells
        → IfOk result (λ disk. H.D.past disk ≡ began
        (bytes_at (H.files shelf.old) dir.now number)) }
    ensures mark { H.tells → IfOk result (λ disk. H.D.mark disk ≡ Some (dir.now, number)) }
    ensures fresh { IfOk result (λ disk. H.D.faults disk ≡ 0) }
    ensures other_fault { (found size : ℕ) → IsErrOf result (InitFault.NotEmpty found size) → ⊥ }
    ensures kept { H.tells → 0 < length (bytes_at (H.files shelf.old) dir.now number)
        → H.files shelf.new dir.now number ≡ H.files shelf.old dir.now number }
    ensures others { H.tells
        → SameOthers (Some (dir.now, number)) (H.files shelf.old) (H.files shelf.new) }
    ensures cause { IsErrOf result InitFault.Failed
        → Rose (H.faults shelf.old) (H.faults shelf.new) }
    ensures faults { H.faults shelf.old ≤ H.faults shelf.new }
{
    match shelf.disk(dir, number) {
        Ok(disk) => Ok(disk),
        Err(ShelfFault::Failed) => Err(InitFault::Failed),
        Err(ShelfFault::OutOfMemory) => Err(InitFault::OutOfMemory),
    }
}
