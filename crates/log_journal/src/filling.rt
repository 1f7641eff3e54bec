//! Writes many payloads at once.
ghost use Rattle.std.specs.Prelude.{◌≡◌, ◌≢◌, ℕ, ◌^◌, ◌<◌, ◌≤◌, ◌-◌, ◌+◌, ◌==◌, ◌++◌, [], min};
ghost use Rattle.std.specs.Prelude.{length, if◌then◌else◌, IsErr, OnOk};
ghost use Rattle.std.specs.Int.{w32, to_be_bytes};
ghost use Rattle.log_base.specs.declared.limits.TheConstants.{EMPTY_JOURNAL};
ghost use Rattle.log_base.specs.Journals.{payloads_length};
ghost use Rattle.disk_model.specs.Past.{reads, overwritten, ok_syncs, EveryImage, LeavesOnly};
ghost use Rattle.log_journal.specs.File.{Holds, AreSized};
ghost use Rattle.log_journal.specs.Filling.{HoldsNoneOrAll, behind_gate};
ghost use Rattle.log_journal.specs.Journal.{HoldsAll};
ghost use Rattle.log_journal.specs.Writing.{WroteBehind};
ghost use Rattle.log_journal.specs.Written.{DiskWent};

use crate::synced_writes::write_synced;
use delta_base::{Bytes, Failed};
use disk_model::Disk;
use log_base::{EMPTY_JOURNAL, PAYLOAD_FRAME};

/// Why an empty journal isn't filled.
#[derive(Clone, Copy, Debug, PartialEq, Eq)]
pub enum FillFault {
    Failed,
    Full { length: u64, limit: u64 },
    OutOfMemory,
}

impl From<Failed> for FillFault {
    ghost use Rattle.log_journal.specs.declared.filling.FillFault.TheVariants.{
      Failed as NotWritten,
    };

    ghost from_gives = { λ _ e. e ≡ NotWritten };

    fn from(_: Failed) -> FillFault {
        FillFault::Failed
    }
}

/// How long a journal of these payloads is, or the last value of u64 where it is longer.
pub fn filled_length(payloads: &[Bytes]) -> u64
    ensures { result ≡ min (payloads_length payloads.now) (2 ^ 64 - 1) }
{
    let mut length = EMPTY_JOURNAL;
    for payload in payloads {
        length = length
            .saturating_add(PAYLOAD_FRAME)
            .saturating_add(payload.len() as u64);
    }
    length
}

// The numbers before a payload: its running number, and its length.
fn head_of(number: u32, payload: &Bytes) -> [u8; 8]
    requires { length payload.now < 2 ^ 32 }
    ensures { result ≡ to_be_bytes w32 number ++ to_be_bytes w32 (length payload.now) }
{
    let [a, b, c, d] = number.to_be_bytes();
    let [e, f, g, h] = (payload.len() as u32).to_be_bytes();
    [a, b, c, d, e, f, g, h]
}

// The gate behind the payload at a place of so many: it is shut behind the last one.
fn gate_behind(place: usize, count: usize) -> u8
    requires { place < count }
    ensures { result ≡ (if place + 1 == count then 0 else 1) }
{
    if place + 1 == count { 0 } else { 1 }
}

// Writes payloads one behind the other, behind the first gate of a file, without a sync. The gate
// behind the last one is shut, and those between them are open.
fn write_bodies<D: Disk>(disk: &mut D, payloads: &[Bytes]) -> Result<(), Failed>
    requires begun { D.tells → EMPTY_JOURNAL ≤ length (reads (D.past disk.old)) }
    requires some { payloads.now ≢ [] }
    requires few { length payloads.now < 2 ^ 32 }
    requires sized { AreSized payloads.now }
    requires fits { payloads_length payloads.now < 2 ^ 64 }
    ensures behind { D.tells → WroteBehind EMPTY_JOURNAL (D.past disk.old) (D.past disk.new) }
    ensures ok { D.tells → OnOk result (reads (D.past disk.new)
        ≡ overwritten (reads (D.past disk.old)) EMPTY_JOURNAL (behind_gate payloads.now 0)) }
    ensures went { DiskWent D.Disk (IsErr result) disk.old disk.new }
    ensures long { D.plans → OnOk result (D.short disk.new ≡ D.short disk.old) }
    ensures read_bytes { D.read_bytes disk.new ≡ D.read_bytes disk.old }
{
    let mut end = EMPTY_JOURNAL;
    for (i, payload) in payloads.iter().enumerate() {
        disk.write_at(end, &head_of(i as u32 + 1, payload))?;
        disk.write_at(end + 8, payload.as_slice())?;
        end += PAYLOAD_FRAME + payload.len() as u64;
        disk.write_at(end - 1, &[gate_behind(i, payloads.len())])?;
    }
    Ok(())
}

/// Fills the journal of a file that holds no payloads: all of them behind the closed gate and a
/// sync, then the gate and a sync.
pub fn fill_behind<D: Disk>(disk: &mut D, payloads: &[Bytes]) -> Result<(), Failed>
    requires begun { D.tells → EMPTY_JOURNAL ≤ length (reads (D.past disk.old)) }
    requires some { payloads.now ≢ [] }
    requires fits { payloads_length payloads.now < 2 ^ 64 }
    requires few { length payloads.now < 2 ^ 32 }
    requires sized { AreSized payloads.now }
    ensures any_moment { D.tells → (number : ℕ)
        → HoldsAll (D.past disk.old) EMPTY_JOURNAL number []
        → LeavesOnly (HoldsNoneOrAll number payloads.now) (D.past disk.old) (D.past disk.new) }
    ensures ok { D.tells → (number : ℕ) → HoldsAll (D.past disk.old) EMPTY_JOURNAL number []
        → OnOk result (HoldsAll (D.past disk.new) (payloads_length payloads.now) number
        payloads.now) }
    ensures no_shorter { D.tells
        → length (reads (D.past disk.old)) ≤ length (reads (D.past disk.new)) }
    ensures reaches { D.tells
        → OnOk result (payloads_length payloads.now ≤ length (reads (D.past disk.new))) }
    ensures syncs { D.tells
        → OnOk result (ok_syncs (D.past disk.new) ≡ ok_syncs (D.past disk.old) + 2) }
    ensures went { DiskWent D.Disk (IsErr result) disk.old disk.new }
    ensures long { D.plans → OnOk result (D.short disk.new ≡ D.short disk.old) }
    ensures read_bytes { D.read_bytes disk.new ≡ D.read_bytes disk.old }
{
    write_bodies(disk, payloads)?;
    disk.sync()?;
    write_synced(disk, EMPTY_JOURNAL - 1, &[1])
}
