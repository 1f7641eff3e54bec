//! A hall is shared among passes.
ghost use Rattle.std.specs.Prelude.{◌≡◌, ◌<◌, ◌≤◌, [], ◌∷◌, List, None, map, length};
ghost use Rattle.std.specs.Prelude.{IfOk, IfErr, vec_len, vec_capacity};
ghost use Rattle.std.specs.List.{AllByRecursion, AllZip};
ghost use Rattle.turn_cell.specs.Turns.{AllOf};
ghost use Rattle.hall_logs.specs.Files.{IsDiskOf};
ghost use Rattle.hall_logs.specs.Rooms.{HasRoom};
ghost use Rattle.hall_logs.specs.Slots.{AreAllHallPasses, AreNew};
ghost use Rattle.delta_session.specs.Ends.{HasHallRoom};
ghost use Rattle.delta_session.specs.Halls.{AreHallPasses, AreNewPasses, paired_sights};

use crate::fault::{HallFault, HallRefusal};
use crate::hall::Hall;
use crate::opening::refused;
use crate::pass::{HallPass, HallPasses, HallRoom};
use delta_base::Back;
use disk_model::Disk;
use hall_logs::{HallLogs, LogsPass, Rooms};
use log_registry::RegistryState;
use shared_registry::{RegistryPass, RegistryValue, SharedRegistry};
use std::alloc::Global;
use turn_cell::Pass;

// Joins what passes know of the registry with what they know of the logs.
fn join<D: Disk>(
    sights: &mut Vec<Pass<RegistryValue<D>>>,
    parts: &mut Vec<LogsPass<D>>,
    passes: &mut Vec<HallPass<D>>,
)
    requires count { vec_len sights.old ≡ vec_len parts.old }
    requires room { (passes.old.items ≡ []) × (vec_len sights.old ≤ vec_capacity passes.old) }
    ensures joined { passes.new.items ≡ paired_sights sights.old.items parts.old.items }
    ensures none { (sights.new.items ≡ []) × (parts.new.items ≡ []) }
    ensures room { (vec_capacity sights.new ≡ vec_capacity sights.old)
        × (vec_capacity parts.new ≡ vec_capacity parts.old) }
{
    while let Some(sight) = sights.pop() {
        let Some(part) = parts.pop() else {
            unreachable!()
        };
        passes.push_reserved(HallPass {
            registry: RegistryPass::of(sight),
            logs: part,
            dice: 0,
        });
    }
    passes.reverse();
}

/// Shares a registry and the logs of its slots among passes.
pub(crate) fn share<D: Disk>(
    alloc: Global,
    registry: RegistryState<D>,
    logs: HallLogs<D>,
    parts: Vec<LogsPass<D>>,
    rooms: Rooms<D>,
    passes: Vec<HallPass<D>>,
    seats: u32,
) -> Result<(Hall<D>, HallPasses<D>), HallRefusal<D>>
    requires seats { (logs.seats ≡ seats) × (0 < seats) × (seats ≤ 16) }
    requires by_nobody { AllByRecursion (λ entry. entry.by ≡ 0) registry.entries }
    requires count { length logs.logs ≡ registry.slots }
    requires parts { AreAllHallPasses D.Disk logs.logs logs.seats parts.items
        × AreNew D.Disk logs.logs 1 parts.items }
    requires rooms { HasRoom logs rooms × (length logs.logs < rooms.disks) }
    requires passes { (passes.items ≡ []) × (logs.seats ≤ vec_capacity passes) }
    ensures lists { IfOk result (λ r. (r.0.registry.origin ≡ registry) × (r.0.logs ≡ logs)) }
    ensures registry_seats { IfOk result (λ r. r.0.registry.seats ≡ r.0.logs.seats) }
    ensures passes { IfOk result (λ r. AreHallPasses D.Disk r.0 r.1.passes.items) }
    ensures new { IfOk result (λ r. AreNewPasses D.Disk r.0 1 r.1.passes.items) }
    ensures room { IfOk result (λ r. HasHallRoom r.0 r.1.room) }
    ensures want { IfErr result (λ refusal. (refusal.fault ≡ HallFault.OutOfMemory)
        × ((left : List D) × (refusal.disks.items ≡ registry.disk ∷ left)
        × AllZip (IsDiskOf D.Disk) (map (λ log. log.origin) logs.logs) left)) }
{
    let mut passes = passes;
    let mut parts = parts;
    match SharedRegistry::new(alloc, registry, seats) {
        Ok((registry, mut sights)) => {
            join(&mut sights, &mut parts, &mut passes);
            let room = HallRoom {
                registry: sights,
                logs: parts,
                rooms,
            };
            Ok((Hall { registry, logs }, HallPasses { passes, room }))
        }
        Err(Back { item }) => {
            passes.destroy_empty();
            let disks = logs.close(parts, rooms);
            Err(refused(disks, item.close(), HallFault::OutOfMemory))
        }
    }
}
