//! The command `init`: the files of a directory's logs and registry, as they are first made.
ghost use Rattle.std.specs.Prelude.{◌≤◌, IfErr, OnOk};
ghost use Rattle.slot_files.specs.Files.{IsInitial};
ghost use Rattle.delta_cli.specs.Tool.{Spares, StopsInit};
ghost use Rattle.command_tables.specs.Views.{shelf_view};

use command_tables::Refusal;
use delta_base::Text;
use disk_model::Shelf;
use slot_files::init_slots;
use std::alloc::Global;

/// Makes the files of so many slots.
pub fn init<H: Shelf>(alloc: Global, dir: &Text, slots: u8, shelf: &mut H) -> Result<(), Refusal>
    requires some { 1 ≤ slots }
    requires few { slots ≤ 16 }
    ensures done { OnOk result (H.tells
        → IsInitial dir.now slots (H.files shelf.old) (H.files shelf.new)) }
    ensures stopped { IfErr result (StopsInit dir.now slots H.tells
        (shelf_view H.Shelf shelf.old) (shelf_view H.Shelf shelf.new)) }
    ensures spares { Spares dir.now slots H.tells (H.files shelf.old) (H.files shelf.new) }
{
    match init_slots(alloc, shelf, dir, slots) {
        Ok(()) => Ok(()),
        Err(fault) => Err(Refusal::of_init(fault)),
    }
}
