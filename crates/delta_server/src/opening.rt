//! A hall over the files of a directory.
ghost use Rattle.std.specs.Prelude.{◌≡◌, ◌⊎◌, ℕ, ◌+◌, ◌<◌, ◌≤◌, [], IfOk};
ghost use Rattle.std.specs.Prelude.{IfErr, OnOk, OnErr, length, vec_capacity};
ghost use Rattle.delta_base.specs.Outside.{Rose};
ghost use Rattle.log_base.specs.declared.limits.TheConstants.{MOST_SLOTS};
ghost use Rattle.slot_files.specs.Files.{bytes_at};
ghost use Rattle.slot_checks.specs.Checks.{AreKept};
ghost use Rattle.slot_checks.specs.Sound.{HoldsRegistry};
ghost use Rattle.delta_session.specs.Ends.{HasHallRoom};
ghost use Rattle.delta_server.specs.Ends.{HasNoDisks, StopsServe, hall_refusal};
ghost use Rattle.delta_server.specs.Files.{AreMarked, HaveBegun};
ghost use Rattle.delta_server.specs.Serving.{AreDisksAsked, IsHallOver};
ghost use Rattle.command_tables.specs.Views.{shelf_view};

use crate::files::put_back;
use command_tables::Refusal;
use delta_base::Text;
use delta_session::{Hall, HallFault, HallPasses, open_hall};
use disk_model::{Shelf, ShelfFault};
use log_base::MOST_SLOTS;
use slot_checks::{CheckFault, read_registry_file};
use std::alloc::Global;

// The end of a server whose hall has this fault.
fn refusal_of(fault: HallFault) -> Refusal
    ensures { result ≡ hall_refusal fault }
{
    match fault {
        HallFault::DiskFault => Refusal::DiskFailed,
        HallFault::Damaged { file, at } => Refusal::File(CheckFault::Damaged { file, at }),
        HallFault::OldFormat { file } => Refusal::File(CheckFault::OldFormat { file }),
        HallFault::WrongNumber { file, found } => {
            Refusal::File(CheckFault::WrongNumber { file, found })
        }
        HallFault::OverLimit {
            file,
            length,
            limit,
        } => Refusal::File(CheckFault::OverLimit {
            file,
            length,
            limit,
        }),
        HallFault::BrokenChain { file, version } => {
            Refusal::File(CheckFault::BrokenChain { file, version })
        }
        HallFault::BrokenEvent { place } => Refusal::File(CheckFault::BrokenEvent { place }),
        HallFault::WrongCount { disks, slots } => Refusal::WrongCount { disks, slots },
        HallFault::OutOfMemory => Refusal::OutOfMemory,
    }
}

// Takes the disk of the registry's file, and tells how many slots it says. Where it isn't in its
// form, it is put back.
fn take_registry<H: Shelf>(
    alloc: Global,
    shelf: &mut H,
    dir: &Text,
    disks: &mut Vec<H::D>,
) -> Result<u32, Refusal>
    requires none { disks.old.items ≡ [] }
    requires room { 0 < vec_capacity disks.old }
    ensures few { IfOk result (λ slots. slots ≤ MOST_SLOTS) }
    ensures count { OnOk result (length disks.new.items ≡ 1) }
    ensures marked { H.tells → OnOk result (AreMarked H.D.Disk dir.now 0 disks.new.items) }
    ensures begun { H.tells
        → OnOk result (HaveBegun H.D.Disk (H.files shelf.old) dir.now 0 disks.new.items) }
    ensures said { H.tells → IfOk result (λ slots. (records : ℕ)
        × HoldsRegistry (bytes_at (H.files shelf.old) dir.now 0) slots records) }
    ensures kept { H.tells → OnOk result
        (AreKept dir.now 1 (H.files shelf.old) (H.files shelf.new)) }
    ensures stopped { IfErr result (HasNoDisks H.Shelf dir.now
        (shelf_view H.Shelf shelf.old) (shelf_view H.Shelf shelf.new)) }
    ensures empty { OnErr result (disks.new.items ≡ []) }
    ensures never_falls { H.faults shelf.old ≤ H.faults shelf.new }
    ensures room { vec_capacity disks.new ≡ vec_capacity disks.old }
{
    let first = match shelf.disk(dir, 0) {
        Ok(first) => first,
        Err(ShelfFault::Failed) => return Err(Refusal::DiskFailed),
        Err(ShelfFault::OutOfMemory) => return Err(Refusal::OutOfMemory),
    };
    let (first, answer) = read_registry_file(alloc, first);
    match answer {
        Ok(registry) => {
            disks.push_reserved(first);
            Ok(registry.slots)
        }
        Err(fault) => {
            shelf.put_back(first);
            Err(Refusal::of_check(fault))
        }
    }
}

// Takes the disks of the logs' files behind that of the registry's.
fn take_logs<H: Shelf>(
    shelf: &mut H,
    dir: &Text,
    slots: u32,
    disks: &mut Vec<H::D>,
) -> Result<(), Refusal>
    requires few { slots ≤ MOST_SLOTS }
    requires first { length disks.old.items ≡ 1 }
    requires room { slots + 1 ≤ vec_capacity disks.old }
    ensures count { OnOk result (length disks.new.items ≡ slots + 1) }
    ensures marked { H.tells → AreMarked H.D.Disk dir.now 0 disks.old.items
        → AreMarked H.D.Disk dir.now 0 disks.new.items }
    ensures begun { H.tells
        → HaveBegun H.D.Disk (H.files shelf.old) dir.now 0 disks.old.items
        → HaveBegun H.D.Disk (H.files shelf.old) dir.now 0 disks.new.items }
    ensures kept { H.tells → AreKept dir.now (length disks.new.items)
        (H.files shelf.old) (H.files shelf.new) }
    ensures grown { 1 ≤ length disks.new.items }
    ensures within { length disks.new.items ≤ slots + 1 }
    ensures cause { IfErr result (λ refusal.
        ((refusal ≡ Refusal.DiskFailed) × Rose (H.faults shelf.old) (H.faults shelf.new))
        ⊎ (refusal ≡ Refusal.OutOfMemory)) }
    ensures never_falls { H.faults shelf.old ≤ H.faults shelf.new }
{
    for number in 1..=slots {
        match shelf.disk(dir, number) {
            Ok(disk) => disks.push_reserved(disk),
            Err(ShelfFault::Failed) => return Err(Refusal::DiskFailed),
            Err(ShelfFault::OutOfMemory) => return Err(Refusal::OutOfMemory),
        }
    }
    Ok(())
}

// The disks of a directory's files, as many as the registry's file says.
fn take_disks<H: Shelf>(alloc: Global, shelf: &mut H, dir: &Text) -> Result<Vec<H::D>, Refusal>
    ensures asked { IfOk result (λ disks.
        AreDisksAsked H.D.Disk H.Shelf dir.now (H.files shelf.old) disks.items) }
    ensures kept { H.tells → IfOk result (λ disks.
        AreKept dir.now (length disks.items) (H.files shelf.old) (H.files shelf.new)) }
    ensures stopped { IfErr result (HasNoDisks H.Shelf dir.now
        (shelf_view H.Shelf shelf.old) (shelf_view H.Shelf shelf.new)) }
    ensures never_falls { H.faults shelf.old ≤ H.faults shelf.new }
{
    let Ok(mut disks) = Vec::with_capacity(alloc, MOST_SLOTS as usize + 1) else {
        return Err(Refusal::OutOfMemory);
    };
    let slots = match take_registry(alloc, shelf, dir, &mut disks) {
        Ok(slots) => slots,
        Err(refusal) => {
            disks.destroy_empty();
            return Err(refusal);
        }
    };
    match take_logs(shelf, dir, slots, &mut disks) {
        Ok(()) => Ok(disks),
        Err(refusal) => {
            put_back(shelf, disks);
            Err(refusal)
        }
    }
}

/// Opens the hall of a directory's files for so many workers. Where it can't be opened, all disks
/// are put back.
pub fn open<H: Shelf>(
    alloc: Global,
    shelf: &mut H,
    dir: &Text,
    workers: u32,
) -> Result<(Hall<H::D>, HallPasses<H::D>), Refusal>
    requires workers { (1 ≤ workers) × (workers ≤ 16) }
    ensures over { IfOk result (λ r. (over : IsHallOver H.D.Disk H.Shelf dir.now
        (H.files shelf.old) workers r.0 r.1.passes.items)
        × (H.tells → AreKept dir.now (length over.disks_are)
        (H.files shelf.old) (H.files shelf.new))) }
    ensures room { IfOk result (λ r. HasHallRoom r.0 r.1.room) }
    ensures stopped { IfErr result (StopsServe H.D.Disk H.Shelf dir.now workers
        (shelf_view H.Shelf shelf.old) (shelf_view H.Shelf shelf.new)) }
    ensures never_falls { H.faults shelf.old ≤ H.faults shelf.new }
{
    let disks = match take_disks(alloc, shelf, dir) {
        Ok(disks) => disks,
        Err(refusal) => return Err(refusal),
    };
    match open_hall(alloc, disks, workers) {
        Ok(opened) => Ok(opened),
        Err(refusal) => {
            put_back(shelf, refusal.disks);
            Err(refusal_of(refusal.fault))
        }
    }
}
