//! All files of a registry with its logs.
ghost use Rattle.std.specs.Prelude.{◌≡◌, ℕ, ◌+◌, ◌<◌, ◌≤◌, length, OnOk, IsErrOf};
ghost use Rattle.delta_base.specs.Outside.{Rose};
ghost use Rattle.log_base.specs.declared.limits.TheConstants.{MOST_SLOTS};
ghost use Rattle.slot_files.specs.Files.{IsInitial, StopsAt, SameBut, KeepsFull};

use crate::fault::InitFault;
use crate::logs::format_logs;
use crate::registry::write_registry;
use delta_base::Text;
use disk_model::Shelf;
use log_journal::make_block;
use registry_core::first_payload;
use std::alloc::Global;

/// Makes the files of the logs, from 1 to the number of slots, and then file 0 of the registry.
/// Each of their disks is put back.
pub fn init_slots<H: Shelf>(
    alloc: Global,
    shelf: &mut H,
    dir: &Text,
    slots: u8,
) -> Result<(), InitFault>
    requires some { 1 ≤ slots }
    requires few { slots ≤ MOST_SLOTS }
    ensures ok { H.tells → OnOk result
        (IsInitial dir.now slots (H.files shelf.old) (H.files shelf.new)) }

    // It stops at the first file that has bytes, with the files before it made.
    ensures not_empty { H.tells → (number size : ℕ)
        → IsErrOf result (InitFault.NotEmpty number size)
        → StopsAt dir.now slots number size (H.files shelf.old) (H.files shelf.new) }

    // Whatever it answers, files that had bytes and files of other names are as they were.
    ensures kept { H.tells → KeepsFull dir.now (H.files shelf.old) (H.files shelf.new) }
    ensures others { H.tells
        → SameBut dir.now 0 (slots + 1) (H.files shelf.old) (H.files shelf.new) }
    ensures cause { IsErrOf result InitFault.Failed
        → Rose (H.faults shelf.old) (H.faults shelf.new) }
    ensures faults { H.faults shelf.old ≤ H.faults shelf.new }
{
    let mut room = [0; 4];
    let block = make_block(alloc, first_payload(slots, &mut room))?;
    format_logs(shelf, dir, slots)?;
    write_registry(shelf, dir, &block)
}
