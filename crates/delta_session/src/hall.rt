//! The registry of a hall and the log of each of its slots.
use disk_model::Disk;
use hall_logs::HallLogs;
use shared_registry::SharedRegistry;
use std::marker::Model;

/// The registry and the logs that a server serves, over one disk each.
#[derive(Drop)]
pub struct Hall<D: Disk> {
    pub(crate) registry: SharedRegistry<D>,
    pub(crate) logs: HallLogs<D>,
}

impl<D: Disk> Model for Hall<D> {
    ghost use Rattle.std.specs.Prelude.{◌≡◌, length};
    ghost use Rattle.delta_session.specs.Steps.{HallView};

    ghost Value = { HallView D };

    ghost view = { λ h. record { registry = h.registry; logs = h.logs } };

    ghost invariant = { λ h.
        (length h.logs.logs ≡ h.registry.origin.slots) × (h.registry.seats ≡ h.logs.seats) };
}
