//! Runs a world.
ghost use Rattle.std.specs.Prelude.{IfOk};
ghost use Rattle.std.specs.List.{AllByRecursion};
ghost use Rattle.log_base.specs.declared.limits.TheConstants.{LOG_LIMITS};
ghost use Rattle.world_core.specs.World.{WorldPoint, start, step, world, KeepsPromises, BeginsLog};
ghost use Rattle.world_core.specs.Parts.{IsWorldOf, EveryImageOf};
ghost use Rattle.world_core.specs.Parts.{EveryImageOfZone, HoldsRuns, HoldsTaken, IsZoneReplayed};

use crate::event::{WorldEvent, WorldEvents};
use crate::log::{LogPart, run_log, start};
use crate::message::Messages;
use crate::zones::{ZoneParts, run_zones};
use delta_base::{Listing, OutOfMemory};
use std::alloc::Global;

/// One log with its disk, its zones with theirs, and all messages that were ever sent.
#[derive(Drop)]
pub struct World {
    pub log: LogPart,
    pub zones: ZoneParts,
    pub pool: Messages,
}

/// An empty log that runs, no zone and no message.
pub(crate) fn first(alloc: Global) -> Result<World, OutOfMemory>
    ensures { IfOk result (λ world. IsWorldOf world start) }
{
    Ok(World {
        log: LogPart::Up(start(alloc)?),
        zones: Listing::new(alloc),
        pool: Listing::new(alloc),
    })
}

/// Runs one event.
pub(crate) fn run(alloc: Global, world: World, event: &WorldEvent) -> Result<World, OutOfMemory>
    requires { (point : WorldPoint) × IsWorldOf world point }
    ensures { IfOk result (λ after. (point : WorldPoint) → IsWorldOf world point
        → IsWorldOf after (step LOG_LIMITS point event.now)) }
{
    let World {
        log,
        zones,
        mut pool,
    } = world;
    let zones = run_zones(alloc, zones, &pool, event)?;
    let (log, sent) = run_log(alloc, log, event)?;
    if let Some(message) = sent {
        pool.push(message)?;
    }
    Ok(World { log, zones, pool })
}

/// The world that the events make, by the calls of logs and zones over disks whose syncs
/// fail as planned.
pub fn world_run(alloc: Global, events: &WorldEvents) -> Result<World, OutOfMemory>
    ensures world { IfOk result (λ w. IsWorldOf w (world LOG_LIMITS events.now.items)) }

    // Whatever a crash leaves of the log now is a chain of whole runs that has each patch that was
    // accepted or served at its version. What it leaves of a zone begins that chain; and the
    // dataset of a zone that runs, and of whatever opens what a crash leaves of one, is the replay
    // of as many first patches of the chain as its version says.
    ensures promises { IfOk result (λ w. EveryImageOf w.log
        (HoldsRuns (KeepsPromises LOG_LIMITS events.now.items))) }
    ensures zone_promises { IfOk result (λ w. AllByRecursion
        (λ zone. EveryImageOfZone zone
        (HoldsTaken (BeginsLog (world LOG_LIMITS events.now.items).log)))
        w.zones.items) }
    ensures replays { IfOk result (λ w. AllByRecursion
        (IsZoneReplayed (world LOG_LIMITS events.now.items).log) w.zones.items) }
{
    let mut world = first(alloc)?;
    for event in events.as_slice() {
        world = run(alloc, world, event)?;
    }
    Ok(world)
}
