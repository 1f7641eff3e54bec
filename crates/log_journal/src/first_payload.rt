//! Looks at the front of a journal's file.
ghost use Rattle.std.specs.Prelude.{◌≡◌, ◌≢◌, ℕ, ◌+◌, ◌≤◌, None, length, IsTrue};
ghost use Rattle.std.specs.Prelude.{OnOk, IsErrOf};
ghost use Rattle.log_base.specs.declared.limits.TheConstants.{EMPTY_JOURNAL};
ghost use Rattle.disk_model.specs.Past.{reads, synced, Keeps};
ghost use Rattle.log_journal.specs.Front.{IsFirst, IsFront, IsStartFault};
ghost use Rattle.log_journal.specs.Reading.{HasByte, ShortWhere};
ghost use Rattle.log_journal.specs.Written.{DiskWent};

use crate::at_front::{Front, FrontFault};
use crate::fault::JournalFault;
use crate::form::Form;
use crate::reading::{fetch, read_gate, read_head, read_header};
use delta_base::Bytes;
use disk_model::Disk;
use log_base::EMPTY_JOURNAL;
use std::alloc::Global;

/// The most bytes of the first payload that are shown.
const SHOWN: u32 = 64;

// The fault of a file's start, told of its front.
fn start_fault(fault: JournalFault) -> FrontFault
    requires { (length limit : ℕ) → fault ≢ JournalFault.OverLimit length limit }
    ensures { IsStartFault fault result }
{
    match fault {
        JournalFault::Failed => FrontFault::Failed,
        JournalFault::Damaged { at } => FrontFault::Damaged { at },
        JournalFault::OldFormat => FrontFault::OldFormat,
        JournalFault::WrongNumber { found } => FrontFault::WrongNumber { found },
        JournalFault::OverLimit { .. } => unreachable!(),
        JournalFault::OutOfMemory => FrontFault::OutOfMemory,
    }
}

// The first payload of a file, behind its open gate.
fn first_behind<D: Disk>(alloc: Global, disk: &mut D, file_length: u64) -> Result<Front, FrontFault>
    requires length { D.tells → file_length ≡ length (reads (D.past disk.old)) }
    requires open { D.tells → HasByte (reads (D.past disk.old)) 8 1 }
    requires gate_within { EMPTY_JOURNAL ≤ file_length }
    ensures found { D.tells → IsFirst (reads (D.past disk.old)) result }
    ensures past { D.past disk.new ≡ D.past disk.old }
    ensures few { D.tells → D.read_bytes disk.new ≤ D.read_bytes disk.old + 72 }
    ensures went { DiskWent D.Disk (IsErrOf result FrontFault.Failed) disk.old disk.new }
    ensures planned { D.plans → ShortWhere (IsErrOf result FrontFault.Failed)
        (D.short disk.old) (D.short disk.new) }
{
    let size = match read_head(disk, file_length, Form::New, 8, 0) {
        Ok(size) => size,
        Err(fault) => return Err(start_fault(fault)),
    };
    if file_length - 17 < u64::from(size) {
        return Err(FrontFault::Damaged { at: 17 });
    }
    let mut bytes = Vec::from_elem(alloc, 0, size.min(SHOWN) as usize)?;
    if !fetch(disk, file_length, 17, &mut bytes)? {
        return Err(FrontFault::Damaged { at: 17 });
    }
    Ok(Front::First {
        length: size,
        bytes: Bytes::from_vec(bytes),
    })
}

// What a read finds at the front of a file.
fn look<D: Disk>(alloc: Global, disk: &mut D, number: u32) -> Result<Front, FrontFault>
    ensures found { D.tells → IsFront (reads (D.past disk.old)) number result }
    ensures past { D.past disk.new ≡ D.past disk.old }
    ensures few { D.tells → D.read_bytes disk.new ≤ D.read_bytes disk.old + 81 }
    ensures went { DiskWent D.Disk (IsErrOf result FrontFault.Failed) disk.old disk.new }
    ensures planned { D.plans → ShortWhere (IsErrOf result FrontFault.Failed)
        (D.short disk.old) (D.short disk.new) }
{
    let file_length = disk.len()?;
    if file_length <= EMPTY_JOURNAL {
        return Ok(Front::Nothing);
    }
    let found = match read_header(disk, file_length) {
        Ok((Form::New, found)) => found,
        Ok((Form::Old, _)) => return Err(FrontFault::OldFormat),
        Err(fault) => return Err(start_fault(fault)),
    };
    if found != number {
        return Err(FrontFault::WrongNumber { found });
    }
    match read_gate(disk, file_length, 8) {
        Ok(1) => first_behind(alloc, disk, file_length),
        Ok(_) => Ok(Front::Nothing),
        Err(fault) => Err(start_fault(fault)),
    }
}

/// What stands at the front of a file: nothing, or its first payload. The fields up to the end
/// of the first payload must be whole.
pub fn front<D: Disk>(alloc: Global, disk: &mut D, number: u32) -> Result<Front, FrontFault>
    ensures found { D.tells → IsFront (reads (D.past disk.old)) number result }

    // A crash leaves what it might have left before, and a read gives what it gave.
    ensures kept { D.tells → Keeps (D.past disk.old) (D.past disk.new) }
    ensures synced { D.tells → OnOk result (D.past disk.new ≡ synced (D.past disk.old)) }
    ensures few { D.tells → D.read_bytes disk.new ≤ D.read_bytes disk.old + 81 }
    ensures went { DiskWent D.Disk (IsErrOf result FrontFault.Failed) disk.old disk.new }
    ensures long { D.plans → OnOk result (D.short disk.new ≡ D.short disk.old) }
    ensures planned { D.plans → D.next_failure disk.old ≡ None → IsErrOf result FrontFault.Failed
        → IsTrue (D.short disk.new) }
{
    disk.sync()?;
    look(alloc, disk, number)
}
