//! One registry in one thread.
ghost use Rattle.std.specs.Prelude.{◌≡◌, ◌<◌, length};
ghost use Rattle.std.specs.Prelude.{IfSome, None, Some, IfOk, IfErr, OnOk};
ghost use Rattle.std.specs.List.{AllByRecursion};
ghost use Rattle.disk_model.specs.Past.{reads};
ghost use Rattle.log_journal.specs.File.{Holds};
ghost use Rattle.log_journal.specs.Payload.{payload_of};
ghost use Rattle.log_journal.specs.Written.{Reopened, RefusedOpening};
ghost use Rattle.registry_core.specs.Events.{events_of, IsNextEvent, IsRegistry};
ghost use Rattle.registry_core.specs.Replies as asked;
ghost use Rattle.registry_core.specs.Sources.{sources, HasSlot};
ghost use Rattle.registry_core.specs.Tables.{IsReadyFor};
ghost use Rattle.registry_core.specs.Texts.{event_text, registry_payloads, registry_length};
ghost use Rattle.log_registry.specs.Changes.{Changed, Called};
ghost use Rattle.log_registry.specs.Fault.{HasRegistryFault};
ghost use Rattle.log_registry.specs.Making.{end_of_making};
ghost use Rattle.log_registry.specs.Stands.{StandsForRegistry};
ghost use Rattle.log_registry.specs.State.{events_in};

use crate::fault::{RegistryFault, RegistryRefusal};
use delta_base::{Id, OutOfMemory, Text};
use disk_model::{Disk, Planned};
use log_base::{Phase, REGISTRY_LIMIT, SourceInfo, Sources};
use log_journal::{Block, Journal, OpenRefusal, make_block, write};
use registry_core::{
    ChangeAnswer, CreateAnswer, Event, PayloadFault, Ready, Registry, event_text, find_named,
    find_with_id, find_with_uri, read_registry,
};
use std::alloc::Global;
use std::marker::Model;

/// A registry: its events, and its journal on a disk. An event whose gate was left in doubt is
/// kept beside them.
#[derive(Drop)]
pub struct RegistryState<D: Disk> {
    alloc: Global,
    registry: Registry,
    journal: Journal<D>,
    doubt: Option<Event>,
}

impl<D: Disk> Model for RegistryState<D> {
    ghost use Rattle.log_journal.specs.StandsFor.{disk_of};
    ghost use Rattle.registry_core.specs.Events.{events_of};
    ghost use Rattle.log_registry.specs.State.{StateView, JournalKeepsEvents};

    ghost Value = { StateView D };

    ghost view = { λ s. record {
      slots = s.registry.slots;
      entries = s.registry.entries;
      doubt = s.doubt;
      disk = disk_of s.journal;
    } };

    ghost invariant = { λ s. JournalKeepsEvents s.journal s.registry.slots
        (events_of s.registry.entries) s.doubt };
}

/// Why an event isn't on the disk.
#[derive(Clone, Copy, Debug, PartialEq, Eq)]
enum NotMade {
    OutOfMemory,
    DiskFault,
}

// Takes all the memory that writing an event needs.
fn reserve(
    alloc: Global,
    registry: &mut Registry,
    event: Event,
) -> Result<(Block, Ready), OutOfMemory>
    requires next { IsNextEvent registry.old.slots (events_of registry.old.entries) event }
    ensures block { IfOk result (λ ready. payload_of ready.0 ≡ event_text event) }
    ensures ready { IfOk result (λ ready.
        IsReadyFor registry.old.slots (events_of registry.old.entries) event ready.1) }
    ensures spare { OnOk result (0 < registry.new.spare) }
    ensures same { registry.new ≡ record registry.old { spare = registry.new.spare } }
{
    let text = event_text(alloc, &event)?;
    let block = make_block(alloc, &text)?;
    let ready = registry.prepare(event, &text)?;
    Ok((block, ready))
}

impl<D: Disk> RegistryState<D> {
    /// Opens a file that a crash may have left. A refusal hands the disk back.
    pub fn open_on(alloc: Global, disk: D) -> Result<RegistryState<D>, RegistryRefusal<D>>
        // The slots and the events are those of the journal's payloads, brought by no pass, and no
        // event is in doubt.
        ensures payloads { D.tells → IfOk result (λ registry.
            Holds (reads (D.past disk)) 0 (registry_payloads registry.slots (events_in registry))) }
        ensures registry { IfOk result (λ registry.
            IsRegistry registry.slots (events_in registry)) }
        ensures by_nobody { IfOk result (λ registry.
            AllByRecursion (λ entry. entry.by ≡ 0) registry.entries) }
        ensures settled { IfOk result (λ registry. registry.doubt ≡ None) }
        ensures fault { D.tells → IfErr result (λ refusal.
            HasRegistryFault (reads (D.past disk)) refusal.fault) }

        // What becomes of its disk.
        ensures reopened { IfOk result (λ registry. Reopened D.Disk disk registry.disk
            (registry_length registry.slots (events_in registry))) }
        ensures refused { IfErr result (λ refusal. RefusedOpening D.Disk
            (refusal.fault ≡ RegistryFault.Failed) disk refusal.disk) }
    {
        let (journal, payloads) = match Journal::open_on(alloc, disk, 0, REGISTRY_LIMIT) {
            Ok(opened) => opened,
            Err(OpenRefusal { disk, fault }) => return Err(RegistryRefusal {
                disk,
                fault: RegistryFault::from(fault),
            }),
        };
        let fault = match read_registry(alloc, payloads.as_slice()) {
            Ok(registry) => return Ok(RegistryState {
                alloc,
                registry,
                journal,
                doubt: None,
            }),
            Err(PayloadFault::Broken { place }) => RegistryFault::BrokenEvent { place },
            Err(PayloadFault::OutOfMemory) => RegistryFault::OutOfMemory,
        };
        Err(RegistryRefusal {
            disk: journal.close(),
            fault,
        })
    }

    /// How many slots there are. Every image that a crash may leave holds the events, with the one
    /// in doubt or without.
    pub fn slots(&self) -> u32
        ensures slots { result ≡ self.now.slots }
        ensures registry { IsRegistry self.now.slots (events_in self.now) }
        ensures stands { D.tells → StandsForRegistry (D.past self.now.disk) self.now.slots
            (events_in self.now) self.now.doubt }
    {
        self.registry.slots()
    }

    /// How many events there are.
    pub fn count(&self) -> u64
        ensures { result ≡ length self.now.entries }
    {
        self.registry.count()
    }

    /// How often its disk has failed.
    pub fn faults(&self) -> u64
        ensures { result ≡ D.faults self.now.disk }
    {
        self.journal.faults()
    }

    /// The sources that live, in the order of their slots.
    pub fn living(&self) -> &[SourceInfo]
        ensures value { result.now ≡ sources (events_in self.now) }
        ensures slots { AllByRecursion (HasSlot self.now.slots) result.now }
    {
        self.registry.living()
    }

    // Writes an event and adds it. All its memory is taken before the first call of the disk.
    fn make(&mut self, event: Event, by: u32) -> Result<(), NotMade>
        requires next { IsNextEvent self.old.slots (events_in self.old) event }
        ensures { Changed D.Disk self.old self.new (Some event) by (end_of_making event result) }
    {
        let Ok((block, ready)) = reserve(self.alloc, &mut self.registry, event) else {
            return Err(NotMade::OutOfMemory);
        };
        match write(&mut self.journal, &block) {
            Ok(()) => {
                self.doubt = None;
                self.registry.push(ready, by);
                Ok(())
            }
            Err(Phase::Settling) => Err(NotMade::DiskFault),
            Err(Phase::Body) => {
                self.doubt = None;
                Err(NotMade::DiskFault)
            }
            Err(Phase::Gate) => {
                self.doubt = Some(ready.into_event());
                Err(NotMade::DiskFault)
            }
        }
    }

    /// Makes a source, or says why not: its name, its URI, a source that has its name or its id,
    /// no slot, no room, want of memory and a disk fault, in this order.
    pub fn create(&mut self, name: &Text, uri: &Text, id: Id, by: u32) -> CreateAnswer
        ensures { Called D.Disk self.old self.new (asked.create name.now uri.now id) by
            (asked.answered result) }
    {
        let source = match self.registry.new_source(name, uri, id) {
            Ok(source) => source,
            Err(answer) => return answer,
        };
        let Ok(copy) = source.copy() else {
            return CreateAnswer::OutOfMemory;
        };
        match self.make(Event::Created(copy), by) {
            Ok(()) => CreateAnswer::Made(source),
            Err(NotMade::OutOfMemory) => CreateAnswer::OutOfMemory,
            Err(NotMade::DiskFault) => CreateAnswer::DiskFault,
        }
    }

    /// Gives a source another name, or says why not: no such name, the new name, a source that has
    /// it, no room, want of memory and a disk fault, in this order.
    pub fn rename(&mut self, name: &Text, new_name: &Text, by: u32) -> ChangeAnswer
        ensures { Called D.Disk self.old self.new (asked.rename name.now new_name.now) by
            (asked.changed result) }
    {
        let source = match self.registry.renamed_source(name, new_name) {
            Ok(source) => source,
            Err(answer) => return answer,
        };
        let Ok(name) = source.name.copy() else {
            return ChangeAnswer::OutOfMemory;
        };
        let slot = source.slot;
        match self.make(Event::Renamed { slot, name }, by) {
            Ok(()) => ChangeAnswer::Done(source),
            Err(NotMade::OutOfMemory) => ChangeAnswer::OutOfMemory,
            Err(NotMade::DiskFault) => ChangeAnswer::DiskFault,
        }
    }

    /// Removes a source, or says why not: no such name, no room, want of memory and a disk fault,
    /// in this order.
    pub fn remove(&mut self, name: &Text, by: u32) -> ChangeAnswer
        ensures { Called D.Disk self.old self.new (asked.remove name.now) by
            (asked.changed result) }
    {
        let source = match self.registry.removed_source(name) {
            Ok(source) => source,
            Err(answer) => return answer,
        };
        let slot = source.slot;
        match self.make(Event::Removed { slot }, by) {
            Ok(()) => ChangeAnswer::Done(source),
            Err(NotMade::OutOfMemory) => ChangeAnswer::OutOfMemory,
            Err(NotMade::DiskFault) => ChangeAnswer::DiskFault,
        }
    }

    /// The source with a name.
    pub fn resolve(&self, name: &Text) -> Result<Option<SourceInfo>, OutOfMemory>
        ensures reply { IfOk result (λ found. asked.found found
            ≡ asked.registry_reply self.now.slots (asked.resolve name.now) (events_in self.now)) }
        ensures slot { IfOk result (λ found. IfSome found (HasSlot self.now.slots)) }
    {
        find_named(self.living(), name.as_bytes())
    }

    /// The source with an id.
    pub fn resolve_id(&self, id: Id) -> Result<Option<SourceInfo>, OutOfMemory>
        ensures reply { IfOk result (λ found. asked.found found
            ≡ asked.registry_reply self.now.slots (asked.resolve_id id) (events_in self.now)) }
        ensures slot { IfOk result (λ found. IfSome found (HasSlot self.now.slots)) }
    {
        find_with_id(self.living(), id)
    }

    /// The source with a URI; of several the one in the least slot.
    pub fn resolve_uri(&self, uri: &Text) -> Result<Option<SourceInfo>, OutOfMemory>
        ensures reply { IfOk result (λ found. asked.found found
            ≡ asked.registry_reply self.now.slots (asked.resolve_uri uri.now)
            (events_in self.now)) }
        ensures slot { IfOk result (λ found. IfSome found (HasSlot self.now.slots)) }
    {
        find_with_uri(self.living(), uri.as_bytes())
    }

    /// The sources that live, in the order of their names.
    pub fn list(&self) -> Result<Sources, OutOfMemory>
        ensures reply { IfOk result (λ listed. asked.listed listed.items
            ≡ asked.registry_reply self.now.slots asked.list (events_in self.now)) }
        ensures slots { IfOk result (λ listed.
            AllByRecursion (HasSlot self.now.slots) listed.items) }
    {
        self.registry.list()
    }

    /// Gives the disk back.
    pub fn close(self) -> D
        ensures disk { result ≡ self.disk }
        ensures stands { D.tells → StandsForRegistry (D.past result) self.slots (events_in self)
            self.doubt }
    {
        let RegistryState { journal, .. } = self;
        journal.close()
    }
}

impl<D: Planned> RegistryState<D> {
    /// Plans which sync of its disk fails.
    pub fn plan(&mut self, next: Option<u64>)
        ensures same { self.new ≡ record self.old { disk = self.new.disk } }
        ensures next { D.next_failure self.new.disk ≡ next }
        ensures past { D.past self.new.disk ≡ D.past self.old.disk }
        ensures short { D.short self.new.disk ≡ D.short self.old.disk }
        ensures faults { D.faults self.new.disk ≡ D.faults self.old.disk }
        ensures mark { D.mark self.new.disk ≡ D.mark self.old.disk }
    {
        self.journal.plan(next);
    }

    /// Whether a call of its disk has failed for want of memory.
    pub fn is_short(&self) -> bool
        ensures { result ≡ D.short self.now.disk }
    {
        self.journal.is_short()
    }
}
