//! The file of the registry.
ghost use Rattle.std.specs.Prelude.{◌≡◌, ℕ, ◌≤◌, IfOk, IfErr, IsErrOf};
ghost use Rattle.delta_base.specs.Outside.{Rose};
ghost use Rattle.log_base.specs.declared.limits.TheConstants.{MOST_SLOTS};
ghost use Rattle.disk_model.specs.Past.{Keeps, reads};
ghost use Rattle.slot_checks.specs.Sound.{HoldsRegistry};
ghost use Rattle.slot_checks.specs.Faults.{HasRegistryFileFault};

use crate::fault::CheckFault;
use disk_model::Disk;
use log_registry::{RegistryRefusal, RegistryState};
use std::alloc::Global;

/// What the registry's file holds: how many slots there are, and how many records, that of the
/// slots among them.
#[derive(Clone, Copy)]
pub struct RegistryFile {
    pub slots: u32,
    pub records: u64,
}

/// What the registry's file holds, which is read as it is opened, and its disk.
pub fn read_registry_file<D: Disk>(alloc: Global, disk: D) -> (D, Result<RegistryFile, CheckFault>)
    ensures ok { D.tells → IfOk result.1 (λ found.
        HoldsRegistry (reads (D.past disk)) found.slots found.records) }
    ensures few { IfOk result.1 (λ found. (1 ≤ found.slots) × (found.slots ≤ MOST_SLOTS)) }
    ensures fault { D.tells → IfErr result.1 (HasRegistryFileFault (reads (D.past disk))) }
    ensures kept { D.tells → Keeps (D.past disk) (D.past result.0) }
    ensures cause { IsErrOf result.1 CheckFault.Failed → Rose (D.faults disk) (D.faults result.0) }
    ensures mark { D.mark result.0 ≡ D.mark disk }
{
    match RegistryState::open_on(alloc, disk) {
        Ok(registry) => {
            let slots = registry.slots();
            let records = registry.count() + 1;
            (registry.close(), Ok(RegistryFile { slots, records }))
        }
        Err(RegistryRefusal { disk, fault }) => (disk, Err(CheckFault::of_registry(fault))),
    }
}
