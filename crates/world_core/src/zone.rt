//! A zone over a disk whose syncs fail as planned.
ghost use Rattle.std.specs.Prelude.{◌≡◌, [], List, Option, Some, None, IfOk, if◌then◌else◌};
ghost use Rattle.log_base.specs.declared.limits.TheConstants.{LOG_LIMITS};
ghost use Rattle.chain_core.specs.declared.chain.Patch.{Patch as OnePatch};
ghost use Rattle.chain_core.specs.Log.{up};
ghost use Rattle.log_base.specs.OneMore.{with_one_more};
ghost use Rattle.chain_core.specs.Stay.{stay};
ghost use Rattle.patch_log.specs.Log.{bare};
ghost use Rattle.world_core.specs.Parts.{stop_taken, stopped_if, KeepsTaken, RunsZone, IsZoneOf};

use crate::disks::{new_disk, stopped_disk};
use crate::plan::{failing_sync, stop_of};
use chain_core::Fate;
use delta_base::OutOfMemory;
use disk_model::PlanDisk;
use log_base::LOG_LIMITS;
use patch_meaning::Checked;
use std::alloc::Global;
use zone_state::{TakeAnswer, ZONE_NUMBER, Zone, ZoneFault, ZoneRefusal};

/// A zone that runs, or the disk of one that was stopped.
#[derive(Drop)]
pub enum ZonePart {
    Up(Zone<PlanDisk>),
    Down(PlanDisk),
}

/// Opens the zone that a disk keeps. That there are too many terms is answered as want of memory:
/// within its limits a zone has fewer terms than there are numbers, but no clause says that a text
/// has no more terms than bytes.
pub(crate) fn open(alloc: Global, disk: PlanDisk) -> Result<Zone<PlanDisk>, OutOfMemory>
    requires { (taken : List OnePatch) × KeepsTaken disk taken }
    ensures { IfOk result (λ zone. (taken : List OnePatch) → KeepsTaken disk taken
        → RunsZone zone taken None) }
{
    match Zone::open_on(alloc, disk, LOG_LIMITS) {
        Ok(zone) => Ok(zone),
        Err(ZoneRefusal { fault, .. }) => match fault {
            ZoneFault::Failed | ZoneFault::TermsFull | ZoneFault::OutOfMemory => Err(OutOfMemory),
            _ => unreachable!(),
        },
    }
}

/// An empty zone over a new disk.
pub(crate) fn start(alloc: Global) -> Result<Zone<PlanDisk>, OutOfMemory>
    ensures { IfOk result (λ zone. RunsZone zone [] None) }
{
    let disk = new_disk(alloc, ZONE_NUMBER)?;
    open(alloc, disk)
}

/// The disk as a stop leaves it: a gate in doubt stands open, or it is shut.
pub(crate) fn stop(
    alloc: Global,
    zone: Zone<PlanDisk>,
    opened: bool,
) -> Result<PlanDisk, OutOfMemory>
    ensures { IfOk result (λ disk. (taken : List OnePatch) (doubt : Option OnePatch)
        → RunsZone zone taken doubt
        → KeepsTaken disk (if opened then with_one_more taken doubt else taken)) }
{
    stopped_disk(alloc, zone.close(), opened)
}

// How the gate is to stand where the zone is stopped behind this answer.
fn stop_by(fate: Fate, answer: TakeAnswer) -> Option<bool>
    ensures { result ≡ stop_taken fate answer }
{
    match answer {
        TakeAnswer::DiskFault => stop_of(fate),
        _ => None,
    }
}

// Takes a patch, so that the calls of the disk come to this fate, and tells how the gate is
// to stand where the zone is stopped behind that. Too many terms are answered as where a
// zone is opened.
fn take_by_plan(
    zone: &mut Zone<PlanDisk>,
    patch: &Checked,
    fate: Fate,
) -> Result<Option<bool>, OutOfMemory>
    ensures { IfOk result (λ stop. (taken : List OnePatch) (doubt : Option OnePatch)
        → RunsZone zone.old taken doubt
        → (after : List OnePatch) × (left : Option OnePatch) × RunsZone zone.new after left
        × ((stay LOG_LIMITS (up taken doubt) (bare patch.now) fate).0
        ≡ stopped_if (up after left) stop)) }
{
    let plan = failing_sync(zone.is_settled(), fate);
    zone.plan(plan);
    let answer = zone.take_next(patch);
    if zone.is_short() {
        return Err(OutOfMemory);
    }
    match answer {
        TakeAnswer::TermsFull | TakeAnswer::OutOfMemory => Err(OutOfMemory),
        _ => Ok(stop_by(fate, answer)),
    }
}

/// Takes a patch with this fate. A stop is run as a failure of its phase, behind which the
/// zone is closed.
pub(crate) fn take_as(
    alloc: Global,
    zone: Zone<PlanDisk>,
    patch: &Checked,
    fate: Fate,
) -> Result<ZonePart, OutOfMemory>
    ensures { IfOk result (λ part. (taken : List OnePatch) (doubt : Option OnePatch)
        → RunsZone zone taken doubt
        → IsZoneOf part (stay LOG_LIMITS (up taken doubt) (bare patch.now) fate).0) }
{
    let mut zone = zone;
    match take_by_plan(&mut zone, patch, fate)? {
        Some(opened) => Ok(ZonePart::Down(stop(alloc, zone, opened)?)),
        None => Ok(ZonePart::Up(zone)),
    }
}
