//! A hall gives its disks back.
ghost use Rattle.std.specs.Prelude.{◌≡◌, ◌≤◌, [], map, vec_len, vec_capacity};
ghost use Rattle.delta_session.specs.Ends.{HasHallRoom, IsEnded};
ghost use Rattle.delta_session.specs.Halls.{AreHallPasses};

use crate::hall::Hall;
use crate::opening::put_first;
use crate::pass::{HallPass, HallPasses, HallRoom};
use disk_model::Disk;
use hall_logs::LogsPass;
use shared_registry::RegistryValue;
use turn_cell::Pass;

// Parts what passes know of the registry from what they know of the logs.
fn part<D: Disk>(
    passes: Vec<HallPass<D>>,
    sights: &mut Vec<Pass<RegistryValue<D>>>,
    parts: &mut Vec<LogsPass<D>>,
)
    requires sights { (sights.old.items ≡ []) × (vec_len passes ≤ vec_capacity sights.old) }
    requires parts { (parts.old.items ≡ []) × (vec_len passes ≤ vec_capacity parts.old) }
    ensures sights { sights.new.items ≡ map (λ pass. pass.lists.registry) passes.items }
    ensures parts { parts.new.items ≡ map (λ pass. pass.lists.logs) passes.items }
{
    let mut passes = passes;
    while let Some(pass) = passes.pop() {
        let (sight, part) = pass.into_parts();
        sights.push_reserved(sight);
        parts.push_reserved(part);
    }
    passes.destroy_empty();
    sights.reverse();
    parts.reverse();
}

impl<D: Disk> Hall<D> {
    /// The disks in the order of their files, once all passes are back. It takes no memory.
    pub fn close(self, passes: HallPasses<D>) -> Vec<D>
        requires passes { AreHallPasses D.Disk self passes.passes.items }
        requires room { HasHallRoom self passes.room }
        ensures ended { IsEnded D.Disk self passes.passes.items result.items }
    {
        let Hall { registry, logs } = self;
        let HallPasses { passes, room } = passes;
        let HallRoom {
            registry: mut sights,
            logs: mut parts,
            rooms,
        } = room;
        part(passes, &mut sights, &mut parts);
        let first = registry.close(sights).close();
        let mut disks = logs.close(parts, rooms);
        put_first(&mut disks, first);
        disks
    }
}
