//! What failing disks and connections leave of a zone that catches up in a turn.
ghost use Rattle.std.specs.Prelude.{◌≡◌};
ghost use Rattle.turn_cell.specs.Knowing.{pass_number};
ghost use Rattle.turn_cell.specs.Sharing.{IsPassOf};
ghost use Rattle.zone_hall_tests.specs.Halls.{IsNumbered, zone_in_memory};

use crate::calls::followed_over;
use crate::halls::{Passes, new_zone, share};
use crate::peers::Reply;
use disk_model::MemDisk;
use log_base::LOG_PATCHES;
use paired_zone::PairedZone;
use shared_zone::ZoneHall;
use std::alloc::Global;
use std::process::Abort;
use std::sync::Wait;
use std::test::Fail;

/// What a log of three patches answers.
const ALL: &[Reply] = &[
    Reply::Log(3),
    Reply::Patch(1),
    Reply::Patch(2),
    Reply::Patch(3),
];

/// How catching up ends for a pass, the zone's version as the other one is told then, and the
/// faults of each.
type Told = (&'static str, u32, u64, u64);

// Pass 1 catches up, and pass 2 looks.
fn tells<R: Wait>(
    rt: &R,
    alloc: Global,
    hall: &ZoneHall<MemDisk>,
    passes: &mut Passes,
    failing: &[u64],
) -> Result<Told, Fail>
    requires one { IsPassOf zone_in_memory hall.now passes.old.one }
    requires two { IsPassOf zone_in_memory hall.now passes.old.two }
{
    let end = followed_over(rt, alloc, hall, &mut passes.one, (ALL, failing))?;
    let version = hall.version(&mut passes.two);
    Ok((
        end.0,
        version,
        passes.one.own_faults(),
        passes.two.own_faults(),
    ))
}

// The same of a zone that nobody shares yet, whose connection fails in these calls.
fn told_by<R: Wait>(
    rt: &R,
    alloc: Global,
    zone: PairedZone<MemDisk>,
    failing: &[u64],
) -> Result<Told, Fail> {
    let (hall, mut passes) = share(alloc, zone)?;
    let told = tells(rt, alloc, &hall, &mut passes, failing);
    drop(passes);
    drop(hall);
    told
}

// A zone whose first disk fails in this call; none where it can't be opened.
fn told_behind<R: Wait>(rt: &R, alloc: Global, number: u64) -> Result<Option<Told>, Fail> {
    match new_zone(alloc, &[number], LOG_PATCHES)? {
        Some(zone) => Ok(Some(told_by(rt, alloc, zone, &[])?)),
        None => Ok(None),
    }
}

// A disk that fails in a stay is told by that pass alone, and the zone then has fewer patches.
fn is_its_own(rt: &impl Abort, (name, version, own, others): Told) {
    assert!(rt; others == 0);
    if name == "DiskFault" {
        assert!(rt; version < 3 && own == 1);
    } else {
        assert!(rt; name == "CaughtUp" && version == 3 && own == 0);
    }
}

#[test]
fn a_disk_that_fails_is_told_by_the_pass_whose_stay_it_was(rt: HostRuntime) -> Result<(), Fail> {
    for number in 0..40 {
        if let Some(told) = told_behind(&rt, rt.alloc(), number)? {
            is_its_own(&rt, told);
        }
    }
    Ok(())
}

#[test]
fn a_connection_that_fails_is_told(rt: HostRuntime) -> Result<(), Fail> {
    let alloc = rt.alloc();
    for number in 0..12 {
        let Some(zone) = new_zone(alloc, &[], LOG_PATCHES)? else {
            return Err(Fail::from("not opened"));
        };
        let (name, version, own, others) = told_by(&rt, alloc, zone, &[number])?;
        assert!(rt; own == 0 && others == 0);
        assert!(rt;
            (name == "CaughtUp") == (version == 3),
            "call {number}: {name}"
        );
        assert!(rt;
            name == "CaughtUp" || name == "LinkFault",
            "call {number}: {name}"
        );
    }
    Ok(())
}

// Whatever memory is refused, the pass tells it or has the version that it tells.
#[test]
fn want_of_memory_is_told(rt: HostRuntime) -> Result<(), Fail> {
    let alloc = rt.alloc();
    let Some(zone) = new_zone(alloc, &[], LOG_PATCHES)? else {
        return Err(Fail::from("not opened"));
    };
    let (name, version, own, others) = told_by(&rt, alloc, zone, &[])?;
    assert!(rt; others == 0);
    match name {
        "CaughtUp" => assert!(rt; version == 3),
        "DiskFault" => assert!(rt; own > 0),
        "OutOfMemory" | "LinkFault" => assert!(rt; version <= 3),
        _ => return Err(Fail::from("another end")),
    }
    Ok(())
}
