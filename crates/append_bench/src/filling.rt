//! Fills a new journal.
ghost use Rattle.std.specs.Prelude.{◌≡◌, ℕ, ◌+◌, ◌*◌, ◌++◌, ◌<◌, ◌≤◌, ◌^◌, [], List, Some};
ghost use Rattle.std.specs.Prelude.{false, length, replicate, IsTrue, IfOk, OnOk, IsErrOf};
ghost use Rattle.log_base.specs.declared.limits.TheConstants.{PAYLOAD_FRAME};
ghost use Rattle.delta_base.specs.Outside.{Rose};
ghost use Rattle.disk_model.specs.Past.{reads};
ghost use Rattle.disk_model.specs.Shelf.{SameOthers};
ghost use Rattle.log_journal.specs.File.{file_of};
ghost use Rattle.log_journal.specs.StandsFor.{StandsFor, is_settled, length_of, limit_of};
ghost use Rattle.log_journal.specs.StandsFor.{count_of, disk_of};
ghost use Rattle.log_journal.specs.Payload.{payload_of};
ghost use Rattle.slot_files.specs.Files.{bytes_at, KeepsFull};
ghost use Rattle.append_bench.specs.Filled.{FillsFirst, AreFull};
ghost use Rattle.append_bench.specs.declared.filling.FillFault.TheVariants as fault;

use delta_base::{OutOfMemory, Text};
use disk_model::{Disk, Shelf, ShelfFault};
use log_journal::{AppendFault, Block, FormatFault, Journal, make_block};
use std::alloc::Global;

// How many numbers a directory has.
const NUMBERS: u32 = 10_000;

#[derive(Clone, Copy, Debug, PartialEq, Eq)]
pub enum FillFault {
    Failed,
    /// Each number has a file with bytes.
    NoNumber,
    OutOfMemory,
}

impl From<OutOfMemory> for FillFault {
    ghost from_gives = { λ _ e. e ≡ fault.OutOfMemory };

    fn from(_error: OutOfMemory) -> FillFault {
        FillFault::OutOfMemory
    }
}

// Appends a payload some times.
fn append_all<D: Disk>(journal: &mut Journal<D>, block: &Block, count: u32) -> Result<(), FillFault>
    requires settled { IsTrue (is_settled journal.old) }
    requires room { length_of journal.old
        + count * (PAYLOAD_FRAME + length (payload_of block.now))
        ≤ limit_of journal.old }
    requires few { count_of journal.old + count < 2 ^ 32 }
    ensures ok { OnOk result ((number : ℕ) (payloads : List (List ℕ))
        → StandsFor journal.old number payloads
        → StandsFor journal.new number (payloads ++ replicate count (payload_of block.now))) }
    ensures ends { D.tells → (number : ℕ) (payloads : List (List ℕ))
        → StandsFor journal.old number payloads
        → reads (D.past (disk_of journal.old)) ≡ file_of number payloads
        → OnOk result (reads (D.past (disk_of journal.new)) ≡ file_of number
        (payloads ++ replicate count (payload_of block.now))) }
    ensures other_fault { IsErrOf result FillFault.NoNumber → ⊥ }
    ensures cause { IsErrOf result FillFault.Failed
        → Rose (D.faults (disk_of journal.old)) (D.faults (disk_of journal.new)) }
    ensures faults { D.faults (disk_of journal.old) ≤ D.faults (disk_of journal.new) }
    ensures mark { D.mark (disk_of journal.new) ≡ D.mark (disk_of journal.old) }
{
    for _ in 0..count {
        match journal.append(block) {
            Ok(()) => {}
            Err(AppendFault::Failed) => return Err(FillFault::Failed),
            Err(AppendFault::Full { .. }) => unreachable!(),
        }
    }
    Ok(())
}

// Whether the file was empty, and is now a journal with some payloads. A file that has bytes is
// left as it is.
fn fill<H: Shelf>(
    shelf: &mut H,
    dir: &Text,
    number: u32,
    block: &Block,
    count: u32,
) -> Result<bool, FillFault>
    requires { length (payload_of block.now) ≡ 200 }
    ensures filled { H.tells
        → IfOk result (λ was_empty. IsTrue was_empty
        → (bytes_at (H.files shelf.old) dir.now number ≡ [])
        × (H.files shelf.new dir.now number ≡ Some
        (file_of number (replicate count (payload_of block.now))))) }
    ensures full { H.tells
        → IfOk result (λ was_empty. was_empty ≡ false
        → 0 < length (bytes_at (H.files shelf.old) dir.now number)) }
    ensures other_fault { IsErrOf result FillFault.NoNumber → ⊥ }
    ensures kept { H.tells → 0 < length (bytes_at (H.files shelf.old) dir.now number)
        → H.files shelf.new dir.now number ≡ H.files shelf.old dir.now number }
    ensures others { H.tells
        → SameOthers (Some (dir.now, number)) (H.files shelf.old) (H.files shelf.new) }
    ensures cause { IsErrOf result FillFault.Failed
        → Rose (H.faults shelf.old) (H.faults shelf.new) }
    ensures faults { H.faults shelf.old ≤ H.faults shelf.new }
{
    let disk = match shelf.disk(dir, number) {
        Ok(disk) => disk,
        Err(ShelfFault::Failed) => return Err(FillFault::Failed),
        Err(ShelfFault::OutOfMemory) => return Err(FillFault::OutOfMemory),
    };
    match Journal::start_on(disk, number, u64::MAX) {
        Ok(mut journal) => {
            let answer = append_all(&mut journal, block, count);
            shelf.put_back(journal.close());
            answer?;
            Ok(true)
        }
        Err(refusal) => {
            shelf.put_back(refusal.disk);
            match refusal.fault {
                FormatFault::NotEmpty { .. } => Ok(false),
                FormatFault::Failed => Err(FillFault::Failed),
            }
        }
    }
}

/// Appends payloads of 200 bytes to a journal in the first file without bytes.
pub fn fill_new_file<H: Shelf>(
    alloc: Global,
    shelf: &mut H,
    dir: &Text,
    count: u32,
) -> Result<(), FillFault>
    ensures ok { H.tells → OnOk result
        (FillsFirst dir.now (replicate count (replicate 200 120)) (H.files shelf.old)
        (H.files shelf.new)) }
    ensures no_number { H.tells → IsErrOf result FillFault.NoNumber
        → AreFull dir.now 10_000 (H.files shelf.old) }
    ensures kept { H.tells → KeepsFull dir.now (H.files shelf.old) (H.files shelf.new) }
    ensures cause { IsErrOf result FillFault.Failed
        → Rose (H.faults shelf.old) (H.faults shelf.new) }
    ensures faults { H.faults shelf.old ≤ H.faults shelf.new }
{
    let block = make_block(alloc, &[b'x'; 200])?;
    for number in 0..NUMBERS {
        if fill(shelf, dir, number, &block, count)? {
            return Ok(());
        }
    }
    Err(FillFault::NoNumber)
}
