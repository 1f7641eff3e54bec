//! The disks of a directory's files.
ghost use Rattle.std.specs.Prelude.{ℕ, ◌<◌, ◌≤◌, List};
ghost use Rattle.delta_base.specs.Outside.{Rose};
ghost use Rattle.turn_cell.specs.Turns.{IsIn};
ghost use Rattle.delta_server.specs.Files.{AreMarked, ArePutBack};

use disk_model::Shelf;

/// Puts disks back, the last one first.
pub fn put_back<H: Shelf>(shelf: &mut H, disks: Vec<H::D>)
    ensures put_back { H.tells → (dir : List ℕ) → AreMarked H.D.Disk dir 0 disks.items
        → ArePutBack H.D.Disk dir disks.items (H.files shelf.old) (H.files shelf.new) }
    ensures never_falls { H.faults shelf.old ≤ H.faults shelf.new }
    ensures rises { (disk : H.D) → IsIn disk disks.items → 0 < H.D.faults disk
        → Rose (H.faults shelf.old) (H.faults shelf.new) }
{
    let mut disks = disks;
    while let Some(disk) = disks.pop() {
        shelf.put_back(disk);
    }
    disks.destroy_empty();
}
