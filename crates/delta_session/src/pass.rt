//! What a worker knows of a hall.
ghost use Rattle.std.specs.Prelude.{◌≡◌};
ghost use Rattle.turn_cell.specs.Knowing.{pass_number};
ghost use Rattle.delta_session.specs.Halls.{all_hall_faults};

use disk_model::Disk;
use hall_logs::{LogsPass, Rooms};
use shared_registry::{RegistryPass, RegistryValue};
use std::marker::Model;
use turn_cell::Pass;

/// What a worker knows of a hall: of its registry, and of each log; and the number of which the
/// next id of a source is made.
pub struct HallPass<D: Disk> {
    pub(crate) registry: RegistryPass<D>,
    pub(crate) logs: LogsPass<D>,
    pub(crate) dice: u128,
}

impl<D: Disk> Model for HallPass<D> {
    ghost use Rattle.delta_session.specs.Steps.{HallSight};

    ghost Value = { HallSight };

    ghost view = { λ p. record {
      lists = record { registry = p.registry; logs = p.logs };
      dice = p.dice;
    } };
}

/// A pass that is let go leaves its views in the hall, which then can't be closed.
impl<D: Disk> Drop for HallPass<D> {
    fn drop(self) {
        let Self {
            registry: _,
            logs: _,
            dice: _,
        } = self;
    }
}

impl<D: Disk> HallPass<D> {
    /// Its number among the passes of its hall, counted from 1.
    pub fn number(&self) -> u32
        ensures { result ≡ pass_number self.now.lists.registry }
    {
        self.registry.number()
    }

    /// How often a disk has failed in its own calls, or the last value of u64 where that passes it.
    pub fn own_faults(&self) -> u64
        ensures { result ≡ all_hall_faults self.now.lists }
    {
        self.registry
            .own_faults()
            .saturating_add(self.logs.own_faults())
    }

    // What it knows of the registry, and of the logs.
    pub(crate) fn into_parts(self) -> (Pass<RegistryValue<D>>, LogsPass<D>)
        ensures { (result.0 ≡ self.lists.registry) × (result.1 ≡ self.lists.logs) }
    {
        let HallPass {
            registry,
            logs,
            dice: _,
        } = self;
        (registry.into_pass(), logs)
    }
}

/// The passes of a hall, and the room by which the hall is closed without memory. The room stays
/// with whoever closes the hall, since a place for a pass can't be shared among threads.
#[derive(Drop)]
pub struct HallPasses<D: Disk> {
    pub passes: Vec<HallPass<D>>,
    pub room: HallRoom<D>,
}

/// Empty lists with a place for each pass and for each disk.
#[derive(Drop)]
pub struct HallRoom<D: Disk> {
    pub(crate) registry: Vec<Pass<RegistryValue<D>>>,
    pub(crate) logs: Vec<LogsPass<D>>,
    pub(crate) rooms: Rooms<D>,
}

impl<D: Disk> Model for HallRoom<D> {
    ghost use Rattle.std.specs.Prelude.{◌≡◌, [], vec_capacity};
    ghost use Rattle.delta_session.specs.Ends.{RoomView};

    ghost Value = { RoomView };

    ghost view = { λ r. record {
      registry = vec_capacity r.registry;
      logs = vec_capacity r.logs;
      rooms = r.rooms;
    } };

    ghost invariant = { λ r. (r.registry.items ≡ []) × (r.logs.items ≡ []) };
}
