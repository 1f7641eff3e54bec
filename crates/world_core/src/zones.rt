//! The zones of a world, and the messages that reach them.
ghost use Rattle.std.specs.Prelude.{◌≡◌, List, Option, Some, IfOk};
ghost use Rattle.std.specs.List.{AllByRecursion};
ghost use Rattle.log_base.specs.declared.limits.TheConstants.{LOG_LIMITS};
ghost use Rattle.chain_core.specs.declared.chain.Patch.{Patch as OnePatch};
ghost use Rattle.chain_core.specs.Log.{up};
ghost use Rattle.patch_log.specs.Log.{bare, IsSound};
ghost use Rattle.world_core.specs.Parts.{RunsZone, IsZoneOf, AreZonesOf, IsSoundMessage};
ghost use Rattle.world_core.specs.World.{ZonePoint, handed, delivered, changed_at};
ghost use Rattle.world_core.specs.World.{zone_after, zones_after};

use crate::event::WorldEvent;
use crate::message::{Message, Messages};
use crate::zone::{ZonePart, open, start, stop, take_as};
use chain_core::{Fate, Patch};
use delta_base::{Bytes, Listing, OutOfMemory};
use disk_model::PlanDisk;
use patch_meaning::{Checked, PatchFault, check_patch};
use std::alloc::Global;
use std::mem;
use zone_state::Zone;

/// Zones in the order in which they came, numbered from 0.
pub type ZoneParts = Listing<ZonePart>;

/// A patch that was sent, checked again.
pub(crate) fn check(alloc: Global, patch: &Patch) -> Result<Checked, OutOfMemory>
    requires { IsSound patch.now }
    ensures { IfOk result (λ checked. bare checked ≡ patch.now) }
{
    match check_patch(alloc, patch.text.as_slice()) {
        Ok(checked) => Ok(checked),
        Err(fault) => match fault {
            PatchFault::OutOfMemory => Err(OutOfMemory),
            _ => unreachable!(),
        },
    }
}

// Hands a patch of this version to a zone that runs, which takes it where it is the next one.
fn hand(
    alloc: Global,
    zone: Zone<PlanDisk>,
    version: u32,
    patch: &Patch,
    fate: Fate,
) -> Result<ZonePart, OutOfMemory>
    requires { IsSound patch.now }
    ensures { IfOk result (λ part. (taken : List OnePatch) (doubt : Option OnePatch)
        → RunsZone zone taken doubt
        → IsZoneOf part (handed LOG_LIMITS (up taken doubt) version patch.now fate)) }
{
    if u64::from(version) != u64::from(zone.version()) + 1 {
        return Ok(ZonePart::Up(zone));
    }
    let checked = check(alloc, patch)?;
    let part = take_as(alloc, zone, &checked, fate)?;
    drop(checked);
    Ok(part)
}

// Hands a message to a zone.
fn deliver(
    alloc: Global,
    part: ZonePart,
    message: &Message,
    fate: Fate,
) -> Result<ZonePart, OutOfMemory>
    requires sound { IsSoundMessage message.now }
    requires zone { (point : ZonePoint) × IsZoneOf part point }
    ensures { IfOk result (λ after. (point : ZonePoint) → IsZoneOf part point
        → IsZoneOf after (delivered LOG_LIMITS (Some message.now) fate point)) }
{
    match message {
        Message::Item { version, patch } => match part {
            ZonePart::Up(zone) => hand(alloc, zone, *version, patch, fate),
            ZonePart::Down(disk) => Ok(ZonePart::Down(disk)),
        },
        Message::Accepted { .. } | Message::Info { .. } => Ok(part),
    }
}

// Runs an event of the zone that it is about.
fn run_zone(
    alloc: Global,
    part: ZonePart,
    pool: &Messages,
    event: &WorldEvent,
) -> Result<ZonePart, OutOfMemory>
    requires sound { AllByRecursion IsSoundMessage pool.now.items }
    requires zone { (point : ZonePoint) × IsZoneOf part point }
    ensures { IfOk result (λ after. (point : ZonePoint) → IsZoneOf part point
        → IsZoneOf after (zone_after LOG_LIMITS pool.now.items event.now point)) }
{
    match event {
        WorldEvent::Deliver { message, fate, .. } => match pool.get(*message as usize) {
            Some(message) => deliver(alloc, part, message, *fate),
            None => Ok(part),
        },
        WorldEvent::ZoneStop { opened, .. } => match part {
            ZonePart::Up(zone) => Ok(ZonePart::Down(stop(alloc, zone, *opened)?)),
            ZonePart::Down(disk) => Ok(ZonePart::Down(disk)),
        },
        WorldEvent::ZoneOpen { .. } => match part {
            ZonePart::Up(zone) => Ok(ZonePart::Up(zone)),
            ZonePart::Down(disk) => Ok(ZonePart::Up(open(alloc, disk)?)),
        },
        _ => Ok(part),
    }
}

// Runs an event of the zone at this place, if there is one.
fn change(
    alloc: Global,
    zones: ZoneParts,
    pool: &Messages,
    zone: u32,
    event: &WorldEvent,
) -> Result<ZoneParts, OutOfMemory>
    requires sound { AllByRecursion IsSoundMessage pool.now.items }
    requires zones { (points : List ZonePoint) × AreZonesOf zones.items points }
    ensures { IfOk result (λ after. (points : List ZonePoint) → AreZonesOf zones.items points
        → AreZonesOf after.items
        (changed_at zone (zone_after LOG_LIMITS pool.now.items event.now) points)) }
{
    let place = zone as usize;
    let mut parts = zones.into_vec();
    if place >= parts.len() {
        return Ok(Listing::from_vec(parts));
    }
    let none = PlanDisk::new(alloc, Bytes::from_vec(Vec::new(alloc)))?;
    let found = mem::replace(&mut parts[place], ZonePart::Down(none));
    let part = run_zone(alloc, found, pool, event)?;
    let blank = mem::replace(&mut parts[place], part);
    drop(blank);
    Ok(Listing::from_vec(parts))
}

/// Runs an event of the zones.
pub(crate) fn run_zones(
    alloc: Global,
    zones: ZoneParts,
    pool: &Messages,
    event: &WorldEvent,
) -> Result<ZoneParts, OutOfMemory>
    requires sound { AllByRecursion IsSoundMessage pool.now.items }
    requires zones { (points : List ZonePoint) × AreZonesOf zones.items points }
    ensures { IfOk result (λ after. (points : List ZonePoint) → AreZonesOf zones.items points
        → AreZonesOf after.items (zones_after LOG_LIMITS pool.now.items points event.now)) }
{
    match event {
        WorldEvent::NewZone => {
            let mut zones = zones;
            zones.push(ZonePart::Up(start(alloc)?))?;
            Ok(zones)
        }
        WorldEvent::Deliver { zone, .. } => change(alloc, zones, pool, *zone, event),
        WorldEvent::ZoneStop { zone, .. } => change(alloc, zones, pool, *zone, event),
        WorldEvent::ZoneOpen { zone } => change(alloc, zones, pool, *zone, event),
        _ => Ok(zones),
    }
}
