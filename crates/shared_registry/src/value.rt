//! A registry as the value of a turn.
ghost use Rattle.std.specs.Prelude.{◌≡◌, length, IfOk};
ghost use Rattle.std.specs.List.{AllByRecursion};
ghost use Rattle.registry_core.specs.Replies as asked;
ghost use Rattle.registry_core.specs.Sources.{sources, HasSlot};
ghost use Rattle.log_registry.specs.Changes.{Called};
ghost use Rattle.log_registry.specs.State.{events_in};
ghost use Rattle.shared_registry.specs.History.{RegistryStandsInTurn};

use crate::names::Names;
use delta_base::{Id, OutOfMemory, Text};
use disk_model::Disk;
use log_base::Sources;
use log_registry::RegistryState;
use registry_core::{ChangeAnswer, CreateAnswer, Event, copies};
use std::alloc::Global;
use std::collections::LinkedList;
use std::marker::Model;
use turn_cell::Chained;

/// What never changes of a registry. No value of it is made.
pub struct RegistryFixed {
    pub slots: u32,
    /// The directory and the number of its disk's file.
    pub mark: Option<(LinkedList<u8>, u64)>,
}

/// A registry that lies in a turn. Its disk stands for its events, with the one in
/// doubt or without.
#[derive(Drop)]
pub struct RegistryValue<D: Disk> {
    registry: RegistryState<D>,
}

impl<D: Disk> Model for RegistryValue<D> {
    ghost use Rattle.log_registry.specs.State.{StateView};
    ghost use Rattle.shared_registry.specs.History.{RegistryStandsInTurn};

    ghost Value = { StateView D };

    ghost view = { λ v. v.registry };

    ghost invariant = { λ v. RegistryStandsInTurn D.Disk v.registry };
}

impl<D: Disk> RegistryValue<D> {
    pub fn of(registry: RegistryState<D>) -> RegistryValue<D>
        ensures { result ≡ registry }
    {
        let _slots = registry.slots();
        RegistryValue { registry }
    }

    pub fn into_registry(self) -> RegistryState<D>
        ensures same { result ≡ self }
        ensures stands { RegistryStandsInTurn D.Disk self }
    {
        let RegistryValue { registry } = self;
        registry
    }

    /// The sources that live now.
    pub(crate) fn names(&self, alloc: Global) -> Result<Names, OutOfMemory>
        ensures count { IfOk result (λ names. names.count ≡ length self.now.entries) }
        ensures living { IfOk result (λ names.
            names.living.items ≡ sources (events_in self.now)) }
        ensures slots { IfOk result (λ names.
            AllByRecursion (HasSlot self.now.slots) names.living.items) }
    {
        let living = copies(alloc, self.registry.living())?;
        Ok(Names {
            count: self.registry.count(),
            living: Sources::from_vec(living),
        })
    }

    pub(crate) fn create(&mut self, name: &Text, uri: &Text, id: Id, by: u32) -> CreateAnswer
        ensures { Called D.Disk self.old self.new (asked.create name.now uri.now id) by
            (asked.answered result) }
    {
        let answer = self.registry.create(name, uri, id, by);
        let _slots = self.registry.slots();
        answer
    }

    pub(crate) fn rename(&mut self, name: &Text, new_name: &Text, by: u32) -> ChangeAnswer
        ensures { Called D.Disk self.old self.new (asked.rename name.now new_name.now) by
            (asked.changed result) }
    {
        let answer = self.registry.rename(name, new_name, by);
        let _slots = self.registry.slots();
        answer
    }

    pub(crate) fn remove(&mut self, name: &Text, by: u32) -> ChangeAnswer
        ensures { Called D.Disk self.old self.new (asked.remove name.now) by
            (asked.changed result) }
    {
        let answer = self.registry.remove(name, by);
        let _slots = self.registry.slots();
        answer
    }
}

impl<D: Disk> Chained for RegistryValue<D> {
    ghost use Rattle.shared_registry.specs.Apart.{events_apart};
    ghost use Rattle.shared_registry.specs.History.{event_history, registry_fixed_of};
    ghost use Rattle.shared_registry.specs.History.{RegistryStandsInTurn};

    type Content = Event;

    type Doubt = Event;

    type Fixed = RegistryFixed;

    ghost entries = { λ v. event_history v.entries };

    ghost fault_count = { λ v. D.faults v.disk };

    ghost doubt = { λ v. v.doubt };

    ghost fixed = { λ v. registry_fixed_of D.mark v };

    ghost fits = { λ f es. Unit {0} };

    ghost stands = { λ v. RegistryStandsInTurn D.Disk v };

    ghost tells_apart = { events_apart };

    fn count(&self) -> u64 {
        self.registry.count()
    }

    fn faults(&self) -> u64 {
        self.registry.faults()
    }

    fn standing(&self) {
        let _registry = &self.registry;
    }
}
