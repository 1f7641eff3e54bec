//! The sources that live after an event, as a list of their own: all memory for an event is taken
//! before it is written.
ghost use Rattle.std.specs.Prelude.{◌≡◌, ◌==◌, IfOk, map, filter, not};
ghost use Rattle.registry_core.specs.Sources.{named, renamed, after_event};

use crate::event::Event;
use delta_base::{OutOfMemory, Text};
use log_base::SourceInfo;
use std::alloc::Global;

/// The same source by another name.
pub fn with_name(source: &SourceInfo, name: &Text) -> Result<SourceInfo, OutOfMemory>
    ensures { IfOk result (λ other. other ≡ named name.now source.now) }
{
    Ok(SourceInfo {
        slot: source.slot,
        id: source.id,
        name: name.copy()?,
        uri: source.uri.copy()?,
    })
}

/// Copies of sources.
pub fn copies(alloc: Global, living: &[SourceInfo]) -> Result<Vec<SourceInfo>, OutOfMemory>
    ensures { IfOk result (λ next. next.items ≡ living.now) }
{
    let mut next = Vec::new(alloc);
    for source in living {
        next.push(source.copy()?)?;
    }
    Ok(next)
}

// The source by another name, if it has the slot.
fn renamed(source: &SourceInfo, slot: u32, name: &Text) -> Result<SourceInfo, OutOfMemory>
    ensures { IfOk result (λ next. next ≡ renamed slot name.now source.now) }
{
    if source.slot == slot {
        with_name(source, name)
    } else {
        source.copy()
    }
}

fn with_renamed(
    alloc: Global,
    living: &[SourceInfo],
    slot: u32,
    name: &Text,
) -> Result<Vec<SourceInfo>, OutOfMemory>
    ensures { IfOk result (λ next. next.items ≡ map (renamed slot name.now) living.now) }
{
    let mut next = Vec::new(alloc);
    for source in living {
        next.push(renamed(source, slot, name)?)?;
    }
    Ok(next)
}

fn without(alloc: Global, living: &[SourceInfo], slot: u32) -> Result<Vec<SourceInfo>, OutOfMemory>
    ensures { IfOk result (λ next. next.items
        ≡ filter (λ source. not (source.slot == slot)) living.now) }
{
    let mut next = Vec::new(alloc);
    for source in living {
        if source.slot != slot {
            next.push(source.copy()?)?;
        }
    }
    Ok(next)
}

/// The sources that live after one more event.
pub fn living_after(
    alloc: Global,
    living: &[SourceInfo],
    event: &Event,
) -> Result<Vec<SourceInfo>, OutOfMemory>
    ensures { IfOk result (λ next. next.items ≡ after_event living.now event.now) }
{
    match event {
        Event::Created(source) => {
            let mut next = copies(alloc, living)?;
            next.push(source.copy()?)?;
            Ok(next)
        }
        Event::Renamed { slot, name } => with_renamed(alloc, living, *slot, name),
        Event::Removed { slot } => without(alloc, living, *slot),
    }
}
