//! A registry: its events, and the sources that live after them.
ghost use Rattle.std.specs.Prelude.{◌≡◌, ◌+◌, ◌<◌, ◌≤◌, ◌↔◌, ◌++◌, ◌∷◌, [], length, Some};
ghost use Rattle.std.specs.Prelude.{IsTrue, IfOk, IfErr, OnOk, IfSome, IfNone, slice_get};
ghost use Rattle.std.specs.List.{AllByRecursion};
ghost use Rattle.log_base.specs.declared.source_info.SourceInfo.{SourceInfo as AnySource};
ghost use Rattle.registry_core.specs.Checks.{IsRefusedCreate, IsRefusedChange, StopsCreate};
ghost use Rattle.registry_core.specs.Checks.{StopsChange};
ghost use Rattle.registry_core.specs.Events.{events_of, IsSlot, IsMade, IsNextEvent, IsRegistry};
ghost use Rattle.registry_core.specs.Replies.{create_reply, rename_reply, remove_reply};
ghost use Rattle.registry_core.specs.Replies.{renaming, removal, next_source};
ghost use Rattle.log_base.specs.declared.limits.TheConstants.{REGISTRY_LIMIT};
ghost use Rattle.registry_core.specs.Sources.{sources, named, by_name, HasSlot};
ghost use Rattle.registry_core.specs.Tables.{IsReadyFor};
ghost use Rattle.registry_core.specs.Texts.{event_text, registry_length};

use crate::answer::{ChangeAnswer, CreateAnswer};
use crate::checks::{check_create, check_remove, check_rename};
use crate::event::{Entry, Event};
use crate::living::{living_after, with_name};
use crate::lookups::{listed, place_in};
use crate::texts::first_payload;
use delta_base::{Id, Listing, OutOfMemory, Text};
use log_base::{EMPTY_JOURNAL, PAYLOAD_FRAME, SourceInfo, Sources};
use std::alloc::Global;
use std::marker::Model;

/// The events of a registry, and what follows from them.
#[derive(Drop)]
pub struct Registry {
    alloc: Global,
    slots: u32,
    entries: Listing<Entry>,
    living: Vec<SourceInfo>,
    made: u32,
    bytes: u64,
}

impl Model for Registry {
    ghost use Rattle.registry_core.specs.Events.{events_of};
    ghost use Rattle.registry_core.specs.Tables.{RegistryView, IsTable};

    ghost Value = { RegistryView };

    ghost view = { λ r. record {
      slots = r.slots;
      entries = r.entries.items;
      spare = r.entries.spare;
    } };

    ghost invariant = { λ r. IsTable r.slots
        (events_of r.entries.items) r.living.items r.made r.bytes };
}

/// An event for which all memory was taken.
#[derive(Drop)]
pub struct Ready {
    event: Event,
    living: Vec<SourceInfo>,
    longer: u64,
}

impl Model for Ready {
    ghost use Rattle.registry_core.specs.Tables.{ReadyEvent};

    ghost Value = { ReadyEvent };

    ghost view = { λ r. record { event = r.event; living = r.living.items; longer = r.longer } };
}

impl Ready {
    /// The event itself.
    pub fn into_event(self) -> Event
        ensures { result ≡ self.event }
    {
        let Ready { event, .. } = self;
        event
    }
}

impl Registry {
    /// A registry without sources.
    pub fn new(alloc: Global, slots: u32) -> Registry
        requires { IsSlot slots }
        ensures slots { result.slots ≡ slots }
        ensures entries { result.entries ≡ [] }
    {
        Registry {
            alloc,
            slots,
            entries: Listing::new(alloc),
            living: Vec::new(alloc),
            made: 0,
            bytes: EMPTY_JOURNAL
                + PAYLOAD_FRAME
                + first_payload(slots as u8, &mut [0; 4]).len() as u64,
        }
    }

    pub fn slots(&self) -> u32
        ensures slots { result ≡ self.now.slots }
        ensures registry { IsRegistry self.now.slots (events_of self.now.entries) }
    {
        self.slots
    }

    /// How many events there are.
    pub fn count(&self) -> u64
        ensures { result ≡ length self.now.entries }
    {
        self.entries.len() as u64
    }

    /// The length of its journal.
    pub fn bytes(&self) -> u64
        ensures value { result ≡ registry_length self.now.slots (events_of self.now.entries) }
        ensures short { result ≤ REGISTRY_LIMIT }
    {
        self.bytes
    }

    // What stands against a source with this name, URI and id. Nothing does where it answers none.
    fn refusal(&self, name: &[u8], uri: &[u8], id: Id) -> Option<CreateAnswer>
        ensures free { IfNone result (create_reply self.now.slots
            (events_of self.now.entries) name.now uri.now id
            ≡ CreateAnswer.Made (next_source (events_of self.now.entries) name.now uri.now id)) }
        ensures refused { IfSome result (IsRefusedCreate (create_reply self.now.slots
            (events_of self.now.entries) name.now uri.now id)) }
    {
        check_create(
            &self.living,
            self.slots,
            self.made,
            self.bytes,
            name,
            uri,
            id,
        )
    }

    // The place of the source that gets a name, or what stands against it.
    fn place_to_rename(&self, name: &[u8], new_name: &[u8]) -> Result<usize, ChangeAnswer>
        ensures ok { IfOk result (λ place. (source : AnySource)
            × (slice_get (sources (events_of self.now.entries)) place ≡ Some source)
            × (rename_reply self.now.slots (events_of self.now.entries) name.now new_name.now
            ≡ ChangeAnswer.Done (named new_name.now source))) }
        ensures refused { IfErr result (IsRefusedChange (rename_reply self.now.slots
            (events_of self.now.entries) name.now new_name.now)) }
    {
        check_rename(&self.living, self.bytes, name, new_name)
    }

    // The place of the source that goes, or what stands against it.
    fn place_to_remove(&self, name: &[u8]) -> Result<usize, ChangeAnswer>
        ensures ok { IfOk result (λ place. (source : AnySource)
            × (slice_get (sources (events_of self.now.entries)) place ≡ Some source)
            × (remove_reply self.now.slots (events_of self.now.entries) name.now
            ≡ ChangeAnswer.Done source)) }
        ensures refused { IfErr result (IsRefusedChange (remove_reply self.now.slots
            (events_of self.now.entries) name.now)) }
    {
        check_remove(&self.living, self.bytes, name)
    }

    /// The source that a creation makes, or what is answered before the disk is asked.
    pub fn new_source(&self, name: &Text, uri: &Text, id: Id) -> Result<SourceInfo, CreateAnswer>
        ensures made { IfOk result (λ source. create_reply self.now.slots
            (events_of self.now.entries) name.now uri.now id ≡ CreateAnswer.Made source) }
        ensures next { IfOk result
            (λ source. IsNextEvent self.now.slots (events_of self.now.entries)
            (Event.Created source)) }
        ensures stopped { IfErr result (StopsCreate (create_reply self.now.slots
            (events_of self.now.entries) name.now uri.now id)) }
    {
        let _number = id.0;
        if let Some(answer) = self.refusal(name.as_bytes(), uri.as_bytes(), id) {
            return Err(answer);
        }
        let Ok(name) = name.copy() else {
            return Err(CreateAnswer::OutOfMemory);
        };
        let Ok(uri) = uri.copy() else {
            return Err(CreateAnswer::OutOfMemory);
        };
        Ok(SourceInfo {
            slot: self.made + 1,
            id,
            name,
            uri,
        })
    }

    /// The source that a renaming shows, or what is answered before the disk is asked.
    pub fn renamed_source(&self, name: &Text, new_name: &Text) -> Result<SourceInfo, ChangeAnswer>
        ensures done { IfOk result (λ source. rename_reply self.now.slots
            (events_of self.now.entries) name.now new_name.now ≡ ChangeAnswer.Done source) }
        ensures next { IfOk result
            (λ source. IsNextEvent self.now.slots (events_of self.now.entries)
            (renaming source)) }
        ensures stopped { IfErr result (StopsChange (rename_reply self.now.slots
            (events_of self.now.entries) name.now new_name.now)) }
    {
        let place = self.place_to_rename(name.as_bytes(), new_name.as_bytes())?;
        match with_name(&self.living[place], new_name) {
            Ok(source) => Ok(source),
            Err(_) => Err(ChangeAnswer::OutOfMemory),
        }
    }

    /// The source that a removal shows, or what is answered before the disk is asked.
    pub fn removed_source(&self, name: &Text) -> Result<SourceInfo, ChangeAnswer>
        ensures done { IfOk result (λ source. remove_reply self.now.slots
            (events_of self.now.entries) name.now ≡ ChangeAnswer.Done source) }
        ensures next { IfOk result
            (λ source. IsNextEvent self.now.slots (events_of self.now.entries)
            (removal source)) }
        ensures stopped { IfErr result (StopsChange (remove_reply self.now.slots
            (events_of self.now.entries) name.now)) }
    {
        let place = self.place_to_remove(name.as_bytes())?;
        match self.living[place].copy() {
            Ok(source) => Ok(source),
            Err(_) => Err(ChangeAnswer::OutOfMemory),
        }
    }

    // Whether some call makes this source.
    fn makes_source(&self, source: &SourceInfo) -> bool
        ensures { IsTrue result ↔ IsMade self.now.slots (events_of self.now.entries)
            (Event.Created source.now) }
    {
        if source.slot != self.made + 1 {
            return false;
        }
        self.refusal(source.name.as_bytes(), source.uri.as_bytes(), source.id)
            .is_none()
    }

    // Whether some call gives the source in a slot this name.
    fn makes_renaming(&self, slot: u32, name: &Text) -> bool
        ensures { IsTrue result ↔ IsMade self.now.slots (events_of self.now.entries)
            (Event.Renamed slot name.now) }
    {
        let Some(place) = place_in(&self.living, slot) else {
            return false;
        };
        let old_name = self.living[place].name.as_bytes();
        let Ok(found) = self.place_to_rename(old_name, name.as_bytes()) else {
            return false;
        };
        self.living[found].slot == slot
    }

    // Whether some call removes the source in a slot.
    fn makes_removal(&self, slot: u32) -> bool
        ensures { IsTrue result ↔ IsMade self.now.slots (events_of self.now.entries)
            (Event.Removed slot) }
    {
        let Some(place) = place_in(&self.living, slot) else {
            return false;
        };
        let name = self.living[place].name.as_bytes();
        let Ok(found) = self.place_to_remove(name) else {
            return false;
        };
        self.living[found].slot == slot
    }

    /// Whether some call makes the event.
    pub fn makes(&self, event: &Event) -> bool
        ensures { IsTrue result ↔ IsMade self.now.slots (events_of self.now.entries) event.now }
    {
        match event {
            Event::Created(source) => self.makes_source(source),
            Event::Renamed { slot, name } => self.makes_renaming(*slot, name),
            Event::Removed { slot } => self.makes_removal(*slot),
        }
    }

    /// Takes all the memory that adding an event needs.
    pub fn prepare(&mut self, event: Event, payload: &[u8]) -> Result<Ready, OutOfMemory>
        requires next { IsNextEvent self.old.slots (events_of self.old.entries) event }
        requires payload { payload.now ≡ event_text event }
        ensures ready { IfOk result (IsReadyFor self.old.slots (events_of self.old.entries) event) }
        ensures same { self.new ≡ record self.old { spare = self.new.spare } }
        ensures spare { OnOk result (0 < self.new.spare) }
    {
        self.entries.reserve(1)?;
        let living = living_after(self.alloc, &self.living, &event)?;
        Ok(Ready {
            event,
            living,
            longer: self.bytes + PAYLOAD_FRAME + payload.len() as u64,
        })
    }

    /// Adds an event. It takes no memory.
    pub fn push(&mut self, ready: Ready, by: u32)
        requires spare { 0 < self.old.spare }
        requires next { IsNextEvent self.old.slots (events_of self.old.entries) ready.event }
        requires ready { IsReadyFor self.old.slots (events_of self.old.entries) ready.event ready }
        ensures entries { self.new.entries ≡ self.old.entries
            ++ record { event = ready.event; by = by } ∷ [] }
        ensures slots { self.new.slots ≡ self.old.slots }
        ensures spare { self.new.spare + 1 ≡ self.old.spare }
    {
        let Ready {
            event,
            living,
            longer,
        } = ready;
        self.made += event.made();
        self.bytes = longer;
        self.living = living;
        match self.entries.push(Entry { event, by }) {
            Ok(()) => {}
            Err(_) => unreachable!(),
        }
    }

    /// The sources that live, in the order of their slots.
    pub fn living(&self) -> &[SourceInfo]
        ensures value { result.now ≡ sources (events_of self.now.entries) }
        ensures slots { AllByRecursion (HasSlot self.now.slots) result.now }
    {
        &self.living
    }

    /// The sources that live, in the order of their names.
    pub fn list(&self) -> Result<Sources, OutOfMemory>
        ensures value { IfOk result (λ listed.
            listed.items ≡ by_name (sources (events_of self.now.entries))) }
        ensures slots { IfOk result (λ listed.
            AllByRecursion (HasSlot self.now.slots) listed.items) }
    {
        listed(self.alloc, self.living())
    }
}
