//! The world of a log and of its mirror.
ghost use Rattle.std.specs.Prelude.{List, Option, Some, IfOk};
ghost use Rattle.std.specs.List.{AllByRecursion};
ghost use Rattle.log_base.specs.declared.limits.TheConstants.{LOG_LIMITS};
ghost use Rattle.chain_core.specs.declared.chain.Patch.{Patch as OnePatch};
ghost use Rattle.chain_core.specs.Log.{LogPoint, up};
ghost use Rattle.chain_core.specs.Runs.{patches_in};
ghost use Rattle.patch_log.specs.Log.{IsSound};
ghost use Rattle.world_core.specs.Mirrors.{IsMirrorWorldOf, MirrorPoint, message_taken};
ghost use Rattle.world_core.specs.Mirrors.{mirror_after, mirror_step, mirrored, next_appended};
ghost use Rattle.world_core.specs.Mirrors.{origin_after};
ghost use Rattle.world_core.specs.Parts.{EveryImageOf, HoldsRuns, IsPartOf, IsSoundMessage};
ghost use Rattle.world_core.specs.Parts.{IsWorldOf, Runs};
ghost use Rattle.world_core.specs.World.{BeginsLog, WorldPoint};

use crate::event::WorldEvent;
use crate::log::{LogPart, append_as, open, start, stop};
use crate::message::{Message, Messages};
use crate::world::{World, first, run};
use crate::zones::check;
use chain_core::{Fate, Patch};
use delta_base::{Listing, OutOfMemory};
use disk_model::PlanDisk;
use patch_log::{LogState, Run};
use std::alloc::Global;

/// An event of the world of a log, or of its mirror. One that doesn't fit changes nothing.
#[derive(Drop)]
pub enum MirrorEvent {
    Origin(WorldEvent),
    /// A message that was sent reaches the mirror, whose device calls come to this fate. Messages
    /// are numbered from 0.
    Take { message: u32, fate: Fate },
    /// The mirror stops between two calls; a gate in doubt stands open or shut.
    MirrorStop { opened: bool },
    /// The mirror is opened again.
    MirrorOpen,
}

pub type MirrorEvents = Listing<MirrorEvent>;

/// The world of a log, and its mirror with its disk.
#[derive(Drop)]
pub struct MirrorWorld {
    pub origin: World,
    pub log: LogPart,
}

// Appends a patch of this version to a mirror that runs, where it is the next one.
fn append_next(
    alloc: Global,
    log: LogState<PlanDisk>,
    version: u32,
    patch: &Patch,
    fate: Fate,
) -> Result<LogPart, OutOfMemory>
    requires { IsSound patch.now }
    ensures { IfOk result (λ part. (runs : List (List OnePatch)) (doubt : Option (List OnePatch))
        → Runs log runs doubt
        → IsPartOf part (next_appended LOG_LIMITS (up runs doubt) version patch.now fate)) }
{
    if u64::from(version) != u64::from(log.chain().version()) + 1 {
        return Ok(LogPart::Up(log));
    }
    let checked = check(alloc, patch)?;
    let one = Run::of(alloc, &checked)?;
    drop(checked);
    let sent = append_as(alloc, log, &one, fate)?;
    drop(one);
    let (part, message) = sent;
    drop(message);
    Ok(part)
}

// Hands a message to a mirror.
fn take(alloc: Global, part: LogPart, message: &Message, fate: Fate) -> Result<LogPart, OutOfMemory>
    requires sound { IsSoundMessage message.now }
    requires log { (point : LogPoint (List OnePatch)) × IsPartOf part point }
    ensures { IfOk result (λ after. (point : LogPoint (List OnePatch)) → IsPartOf part point
        → IsPartOf after (message_taken LOG_LIMITS (Some message.now) fate point)) }
{
    match message {
        Message::Item { version, patch } => match part {
            LogPart::Up(log) => append_next(alloc, log, *version, patch, fate),
            LogPart::Down(disk) => Ok(LogPart::Down(disk)),
        },
        Message::Accepted { .. } | Message::Info { .. } => Ok(part),
    }
}

// Runs an event of the mirror.
fn run_own(
    alloc: Global,
    part: LogPart,
    pool: &Messages,
    event: &MirrorEvent,
) -> Result<LogPart, OutOfMemory>
    requires sound { AllByRecursion IsSoundMessage pool.now.items }
    requires log { (point : LogPoint (List OnePatch)) × IsPartOf part point }
    ensures { IfOk result (λ after. (point : LogPoint (List OnePatch)) → IsPartOf part point
        → IsPartOf after (mirror_after LOG_LIMITS pool.now.items event.now point)) }
{
    match event {
        MirrorEvent::Take { message, fate } => match pool.get(*message as usize) {
            Some(message) => take(alloc, part, message, *fate),
            None => Ok(part),
        },
        MirrorEvent::MirrorStop { opened } => match part {
            LogPart::Up(log) => Ok(LogPart::Down(stop(alloc, log, *opened)?)),
            LogPart::Down(disk) => Ok(LogPart::Down(disk)),
        },
        MirrorEvent::MirrorOpen => match part {
            LogPart::Up(log) => Ok(LogPart::Up(log)),
            LogPart::Down(disk) => Ok(LogPart::Up(open(alloc, disk)?)),
        },
        MirrorEvent::Origin(_) => Ok(part),
    }
}

// Runs an event of the world that is mirrored.
fn run_origin(alloc: Global, world: World, event: &MirrorEvent) -> Result<World, OutOfMemory>
    requires { (point : WorldPoint) × IsWorldOf world point }
    ensures { IfOk result (λ after. (point : WorldPoint) → IsWorldOf world point
        → IsWorldOf after (origin_after LOG_LIMITS event.now point)) }
{
    match event {
        MirrorEvent::Origin(event) => run(alloc, world, event),
        _ => Ok(world),
    }
}

// Runs one event.
fn run_both(
    alloc: Global,
    world: MirrorWorld,
    event: &MirrorEvent,
) -> Result<MirrorWorld, OutOfMemory>
    requires { (point : MirrorPoint) × IsMirrorWorldOf world point }
    ensures { IfOk result (λ after. (point : MirrorPoint) → IsMirrorWorldOf world point
        → IsMirrorWorldOf after (mirror_step LOG_LIMITS point event.now)) }
{
    let MirrorWorld { origin, log } = world;
    let log = run_own(alloc, log, &origin.pool, event)?;
    let origin = run_origin(alloc, origin, event)?;
    Ok(MirrorWorld { origin, log })
}

/// The world and the mirror that the events make, by the calls of logs and zones over disks whose
/// syncs fail as planned.
pub fn mirror_run(alloc: Global, events: &MirrorEvents) -> Result<MirrorWorld, OutOfMemory>
    ensures world { IfOk result (λ w.
        IsMirrorWorldOf w (mirrored LOG_LIMITS events.now.items)) }

    // Whatever a crash leaves of the mirror now begins whatever the log that it mirrors has, and
    // whatever a crash leaves of that.
    ensures promises { IfOk result (λ w. EveryImageOf w.log (HoldsRuns
        (λ runs. BeginsLog (mirrored LOG_LIMITS events.now.items).origin.log (patches_in runs)))) }
{
    let mut world = MirrorWorld {
        origin: first(alloc)?,
        log: LogPart::Up(start(alloc)?),
    };
    for event in events.as_slice() {
        world = run_both(alloc, world, event)?;
    }
    Ok(world)
}
