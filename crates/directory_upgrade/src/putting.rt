//! Puts the disks of a set back.
ghost use Rattle.std.specs.Prelude.{◌≡◌, ℕ, ◌≤◌, List, map, length, Some};
ghost use Rattle.delta_base.specs.Outside.{Rose};
ghost use Rattle.journal_upgrade.specs.Numbers.{Differ, IsSet};
ghost use Rattle.directory_upgrade.specs.Sets.{HaveMarks, HaveRead, SameButThese, IsSetBack};
ghost use Rattle.directory_upgrade.specs.Sets.{OneFailed, SetFailed, IsMarkerNumber};

use disk_model::Shelf;
use journal_upgrade::UpgradeSet;

// Puts disks back, the last one first.
fn put_back_disks<H: Shelf>(shelf: &mut H, disks: Vec<H::D>)
    ensures have { H.tells → (dir : List ℕ) (more : ℕ) (numbers : List ℕ) → Differ numbers
        → length disks.items ≡ length numbers → HaveMarks H.D.Disk dir more numbers disks.items
        → HaveRead (H.files shelf.new) dir more numbers (map H.D.past disks.items) }
    ensures others { H.tells → (dir : List ℕ) (more : ℕ) (numbers : List ℕ)
        → length disks.items ≡ length numbers → HaveMarks H.D.Disk dir more numbers disks.items
        → SameButThese dir more numbers (H.files shelf.old) (H.files shelf.new) }
    ensures rises { OneFailed H.D.Disk disks.items → Rose (H.faults shelf.old) (H.faults shelf.new) }
    ensures never_falls { H.faults shelf.old ≤ H.faults shelf.new }
{
    let mut disks = disks;
    while let Some(disk) = disks.pop() {
        shelf.put_back(disk);
    }
    disks.destroy_empty();
}

/// Puts the disks of a set back, the marker's last.
pub fn put_back_set<H: Shelf>(shelf: &mut H, set: UpgradeSet<H::D>)
    requires { IsSet set.files.items set.spares.items set.numbers.items }
    ensures back { H.tells → (dir : List ℕ)
        → HaveMarks H.D.Disk dir 0 set.numbers.items set.files.items
        → HaveMarks H.D.Disk dir 2000 set.numbers.items set.spares.items
        → H.D.mark set.marker ≡ Some (dir, set.marker_number)
        → IsMarkerNumber set.marker_number
        → IsSetBack dir set.marker_number set.numbers.items (map H.D.past set.files.items)
        (map H.D.past set.spares.items) (H.D.past set.marker)
        (H.files shelf.old) (H.files shelf.new) }
    ensures rises { SetFailed H.D.Disk set.files.items set.spares.items set.marker
        → Rose (H.faults shelf.old) (H.faults shelf.new) }
    ensures never_falls { H.faults shelf.old ≤ H.faults shelf.new }
{
    let UpgradeSet {
        files,
        spares,
        marker,
        marker_number: _,
        numbers,
    } = set;
    drop(numbers);
    put_back_disks(shelf, files.into_vec());
    put_back_disks(shelf, spares.into_vec());
    shelf.put_back(marker);
}
