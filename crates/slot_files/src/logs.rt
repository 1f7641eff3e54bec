//! The files of the logs: empty journals.
ghost use Rattle.std.specs.Prelude.{ℕ, ◌+◌, ◌≤◌, OnOk, IsErrOf};
ghost use Rattle.delta_base.specs.Outside.{Rose};
ghost use Rattle.slot_files.specs.Files.{AreMade, SameBut, StopsAt, KeepsFull};

use crate::fault::InitFault;
use crate::journal::format_file;
use delta_base::Text;
use disk_model::Shelf;

/// Makes the files from 1 to the number of slots, in that order.
pub fn format_logs<H: Shelf>(shelf: &mut H, dir: &Text, slots: u8) -> Result<(), InitFault>
    ensures ok { H.tells → OnOk result
        (AreMade dir.now (slots + 1) (H.files shelf.old) (H.files shelf.new)) }
    ensures not_empty { H.tells → (number size : ℕ)
        → IsErrOf result (InitFault.NotEmpty number size)
        → StopsAt dir.now slots number size (H.files shelf.old) (H.files shelf.new) }
    ensures kept { H.tells → KeepsFull dir.now (H.files shelf.old) (H.files shelf.new) }
    ensures others { H.tells
        → SameBut dir.now 1 (slots + 1) (H.files shelf.old) (H.files shelf.new) }
    ensures cause { IsErrOf result InitFault.Failed
        → Rose (H.faults shelf.old) (H.faults shelf.new) }
    ensures faults { H.faults shelf.old ≤ H.faults shelf.new }
{
    for number in 1..=u32::from(slots) {
        format_file(shelf, dir, number)?;
    }
    Ok(())
}
