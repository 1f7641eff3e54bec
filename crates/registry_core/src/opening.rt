//! Reads the events of a journal's payloads.
ghost use Rattle.std.specs.Prelude.{◌≡◌, ◌⊎◌, ℕ, ◌++◌, ◌∷◌, [], IfOk, IfErr, OnOk, IsErrOf};
ghost use Rattle.std.specs.List.{AllByRecursion};
ghost use Rattle.registry_core.specs.declared.event.Event.{Event as AnyEvent};
ghost use Rattle.registry_core.specs.Events.{events_of, IsNextEvent, IsRegistryFile, BreaksAtEvent};
ghost use Rattle.registry_core.specs.Texts.{event_text};

use crate::reading::{TextFault, read_event, read_slots};
use crate::registry::Registry;
use delta_base::Bytes;
use std::alloc::Global;

/// Why payloads are no registry's.
#[derive(Clone, Copy, Debug, PartialEq, Eq)]
pub enum PayloadFault {
    /// The first one, counted from 0, that may not stand there.
    Broken { place: u64 },
    OutOfMemory,
}

// Adds the event of a payload.
fn add_next(alloc: Global, registry: &mut Registry, payload: &[u8]) -> Result<(), TextFault>
    ensures ok { OnOk result ((event : AnyEvent) × (event_text event ≡ payload.now)
        × IsNextEvent registry.old.slots (events_of registry.old.entries) event
        × (registry.new.entries ≡ registry.old.entries ++ record { event = event; by = 0 } ∷ [])) }
    ensures none { IsErrOf result TextFault.NoEvent → (event : AnyEvent)
        → IsNextEvent registry.old.slots (events_of registry.old.entries) event
        → event_text event ≡ payload.now → ⊥ }
    ensures slots { registry.new.slots ≡ registry.old.slots }
{
    let event = read_event(alloc, payload)?;
    if !registry.makes(&event) {
        return Err(TextFault::NoEvent);
    }
    let ready = registry.prepare(event, payload)?;
    registry.push(ready, 0);
    Ok(())
}

/// The registry of which these are the payloads.
pub fn read_registry(alloc: Global, payloads: &[Bytes]) -> Result<Registry, PayloadFault>
    ensures file { IfOk result (λ registry. IsRegistryFile payloads.now registry.slots
        (events_of registry.entries)) }
    ensures by_nobody { IfOk result (λ registry. AllByRecursion (λ entry. entry.by
        ≡ 0) registry.entries) }
    ensures broken { (place : ℕ) → IsErrOf result (PayloadFault.Broken place)
        → BreaksAtEvent payloads.now place }
{
    let [first, rest @ ..] = payloads else {
        return Err(PayloadFault::Broken { place: 0 });
    };
    let Some(slots) = read_slots(first.as_slice()) else {
        return Err(PayloadFault::Broken { place: 0 });
    };
    let mut registry = Registry::new(alloc, slots);
    for (place, payload) in rest.iter().enumerate() {
        match add_next(alloc, &mut registry, payload.as_slice()) {
            Ok(()) => {}
            Err(TextFault::NoEvent) => return Err(PayloadFault::Broken {
                place: place as u64 + 1,
            }),
            Err(TextFault::OutOfMemory) => return Err(PayloadFault::OutOfMemory),
        }
    }
    Ok(registry)
}
