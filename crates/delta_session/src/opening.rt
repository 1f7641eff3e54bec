//! A hall over its files.
ghost use Rattle.std.specs.Prelude.{◌≡◌, ◌<◌, ◌≤◌, ◌∷◌, IfOk, IfErr, vec_len, vec_capacity};
ghost use Rattle.std.specs.List.{AllByRecursion};
ghost use Rattle.hall_logs.specs.Slots.{EachHasItsSeats};
ghost use Rattle.delta_session.specs.Ends.{HasHallRoom};
ghost use Rattle.delta_session.specs.Halls.{AreHallPasses, AreNewPasses};
ghost use Rattle.delta_session.specs.Opening.{IsOpenedRegistry, IsOpenedHall, IsRefusedHall};

use crate::fault::{HallFault, HallRefusal};
use crate::hall::Hall;
use crate::pass::HallPasses;
use crate::sharing::share;
use disk_model::Disk;
use hall_logs::{HallLogs, LogsRefusal};
use log_base::LOG_LIMITS;
use log_registry::{RegistryRefusal, RegistryState};
use std::alloc::Global;

/// Puts a disk in front of the others, for which there is a place.
pub(crate) fn put_first<D: Disk>(disks: &mut Vec<D>, first: D)
    requires { vec_len disks.old < vec_capacity disks.old }
    ensures disks { disks.new.items ≡ first ∷ disks.old.items }
    ensures room { vec_capacity disks.new ≡ vec_capacity disks.old }
{
    disks.reverse();
    disks.push_reserved(first);
    disks.reverse();
}

// Takes the first disk.
fn take_first<D: Disk>(disks: &mut Vec<D>) -> D
    requires { 0 < vec_len disks.old }
    ensures disks { disks.old.items ≡ result ∷ disks.new.items }
    ensures room { vec_capacity disks.new ≡ vec_capacity disks.old }
{
    disks.reverse();
    let Some(first) = disks.pop() else {
        unreachable!()
    };
    disks.reverse();
    first
}

/// A refusal, for which the disk of file 0 goes back in front of the others.
pub(crate) fn refused<D: Disk>(disks: Vec<D>, first: D, fault: HallFault) -> HallRefusal<D>
    requires { vec_len disks < vec_capacity disks }
    ensures disks { result.disks.items ≡ first ∷ disks.items }
    ensures fault { result.fault ≡ fault }
{
    let mut disks = disks;
    put_first(&mut disks, first);
    HallRefusal { disks, fault }
}

// Opens the logs behind a registry that was opened, which has as many slots.
fn open_logs<D: Disk>(
    alloc: Global,
    registry: RegistryState<D>,
    disks: Vec<D>,
    workers: u32,
) -> Result<(Hall<D>, HallPasses<D>), HallRefusal<D>>
    requires by_nobody { AllByRecursion (λ entry. entry.by ≡ 0) registry.entries }
    requires count { vec_len disks ≡ registry.slots }
    requires room { vec_len disks < vec_capacity disks }
    requires workers { (0 < workers) × (workers ≤ 16) }
    ensures hall { (disk : D) → IsOpenedRegistry D.Disk disk registry
        → IfOk result (λ r. IsOpenedHall D.Disk (disk ∷ disks.items) r.0) }
    ensures seats { IfOk result (λ r. r.0.logs.seats ≡ workers) }
    ensures registry_seats { IfOk result (λ r. r.0.registry.seats ≡ r.0.logs.seats) }
    ensures each { IfOk result (λ r. EachHasItsSeats r.0.logs) }
    ensures passes { IfOk result (λ r. AreHallPasses D.Disk r.0 r.1.passes.items) }
    ensures new { IfOk result (λ r. AreNewPasses D.Disk r.0 1 r.1.passes.items) }
    ensures room { IfOk result (λ r. HasHallRoom r.0 r.1.room) }
    ensures refused { (disk : D) → IsOpenedRegistry D.Disk disk registry
        → IfErr result (λ refusal.
        IsRefusedHall D.Disk (disk ∷ disks.items) refusal.fault refusal.disks.items) }
{
    let _slots = registry.slots();
    let Ok(passes) = Vec::with_capacity(alloc, workers as usize) else {
        return Err(refused(disks, registry.close(), HallFault::OutOfMemory));
    };
    match HallLogs::open_on(alloc, disks, LOG_LIMITS, workers) {
        Ok((logs, parts, rooms)) => share(alloc, registry, logs, parts, rooms, passes, workers),
        Err(LogsRefusal { disks, file, fault }) => {
            passes.destroy_empty();
            let fault = HallFault::of_log(file, fault);
            Err(refused(disks, registry.close(), fault))
        }
    }
}

/// Opens the files of a hall, of which the first is that of the registry, and shares it among
/// workers, whose passes have the numbers from 1 on. A refusal hands all disks back in their order.
pub fn open_hall<D: Disk>(
    alloc: Global,
    disks: Vec<D>,
    workers: u32,
) -> Result<(Hall<D>, HallPasses<D>), HallRefusal<D>>
    requires disks { 0 < vec_len disks }
    requires workers { (0 < workers) × (workers ≤ 16) }
    ensures hall { IfOk result (λ r. IsOpenedHall D.Disk disks.items r.0) }
    ensures seats { IfOk result (λ r. r.0.logs.seats ≡ workers) }
    ensures registry_seats { IfOk result (λ r. r.0.registry.seats ≡ r.0.logs.seats) }
    ensures each { IfOk result (λ r. EachHasItsSeats r.0.logs) }
    ensures passes { IfOk result (λ r. AreHallPasses D.Disk r.0 r.1.passes.items) }
    ensures new { IfOk result (λ r. AreNewPasses D.Disk r.0 1 r.1.passes.items) }
    ensures room { IfOk result (λ r. HasHallRoom r.0 r.1.room) }
    ensures refused { IfErr result (λ refusal.
        IsRefusedHall D.Disk disks.items refusal.fault refusal.disks.items) }
{
    let mut disks = disks;
    let first = take_first(&mut disks);
    let registry = match RegistryState::open_on(alloc, first) {
        Ok(registry) => registry,
        Err(RegistryRefusal { disk, fault }) => {
            return Err(refused(disks, disk, HallFault::of_registry(fault)));
        }
    };
    let slots = registry.slots();
    if disks.len() != slots as usize {
        let fault = HallFault::WrongCount {
            disks: disks.len() as u64 + 1,
            slots,
        };
        return Err(refused(disks, registry.close(), fault));
    }
    open_logs(alloc, registry, disks, workers)
}
