//! Makes a journal of what is on a disk an empty one.
ghost use Rattle.std.specs.Prelude.{◌≡◌, ◌⊎◌, ◌+◌, ◌≤◌, ◌++◌, ◌∷◌, [], IsTrue, None};
ghost use Rattle.std.specs.Prelude.{IsErr, OnOk, OnErr, is_ok, if◌then◌else◌};
ghost use Rattle.log_base.specs.declared.limits.TheConstants.{EMPTY_JOURNAL};
ghost use Rattle.disk_model.specs.Past.{EveryImage, LeavesOnly, ok_syncs, wrote, synced};
ghost use Rattle.disk_model.specs.Calls.{WroteSome};
ghost use Rattle.log_journal.specs.File.{header};
ghost use Rattle.log_journal.specs.Front.{HasFront, LeftOrNothing};
ghost use Rattle.log_journal.specs.Journal.{HoldsAll};
ghost use Rattle.log_journal.specs.Written.{DiskWent};
ghost use Rattle.log_journal.specs.declared.form.Form.TheVariants.{New};

use crate::synced_writes::write_synced;
use delta_base::Failed;
use disk_model::Disk;
use log_base::EMPTY_JOURNAL;

/// Writes an empty journal over the front of a file, and syncs.
pub fn write_empty<D: Disk>(disk: &mut D, number: u32) -> Result<(), Failed>
    ensures ok { D.tells → OnOk result
        (D.past disk.new ≡ synced (wrote (D.past disk.old) 0 (header New number ++ 0 ∷ []))) }
    ensures err { D.tells
        → OnErr result (WroteSome 0 EMPTY_JOURNAL (D.past disk.old) (D.past disk.new)) }
    ensures went { DiskWent D.Disk (IsErr result) disk.old disk.new }
    ensures long { D.plans → OnOk result (D.short disk.new ≡ D.short disk.old) }
    ensures unplanned { D.plans → D.next_failure disk.old ≡ None
        → OnErr result (IsTrue (D.short disk.new)) }
    ensures read_bytes { D.read_bytes disk.new ≡ D.read_bytes disk.old }
{
    let [high, middle, low, lowest] = number.to_be_bytes();
    write_synced(
        disk,
        0,
        &[b'R', b'D', b'J', b'2', high, middle, low, lowest, 0],
    )
}

/// Leaves no payload in a file, by one write at most, and syncs.
pub fn empty<D: Disk>(disk: &mut D, number: u32) -> Result<(), Failed>
    requires { D.tells → EveryImage (D.past disk.old) (λ image. HasFront image number) }
    ensures ok { D.tells → OnOk result (HoldsAll (D.past disk.new) EMPTY_JOURNAL number []) }
    ensures any_moment { D.tells
        → LeavesOnly (LeftOrNothing (D.past disk.old) number) (D.past disk.old) (D.past disk.new) }
    ensures syncs { D.tells → ok_syncs (D.past disk.new)
        ≡ ok_syncs (D.past disk.old) + (if is_ok result then 1 else 0) }
    ensures few { D.tells → D.read_bytes disk.new ≤ D.read_bytes disk.old + 1 }
    ensures went { DiskWent D.Disk (IsErr result) disk.old disk.new }
    ensures long { D.plans → OnOk result (D.short disk.new ≡ D.short disk.old) }
    ensures unplanned { D.plans → D.next_failure disk.old ≡ None
        → OnErr result (IsTrue (D.short disk.new)) }
{
    let file_length = disk.len()?;
    if file_length <= EMPTY_JOURNAL {
        return write_empty(disk, number);
    }
    let mut gate = [0u8; 1];
    disk.read_at(8, &mut gate)?;
    if gate[0] == 1 {
        return write_synced(disk, 8, &[0]);
    }
    disk.sync()
}
