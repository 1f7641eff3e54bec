//! Zones on two disks in memory, and two passes of each.
ghost use Rattle.std.specs.Prelude.{◌≡◌, ◌≤◌, [], IfOk, vec_capacity};
ghost use Rattle.zone_hall_tests.specs.Halls.{IsNumbered};

use disk_model::MemDisk;
use log_base::{LOG_BYTES, LogLimits};
use paired_zone::PairedZone;
use shared_zone::{ZoneHall, ZonePass};
use std::alloc::Global;
use std::test::Fail;
use worked_rows::disk_of;

/// The first file of a zone that took nothing. The second is empty.
const EMPTY: &[u8] = b"RDJ2\0\0\x03\xe8\0";

/// A zone that took nothing and may take so many patches, the calls of these numbers of whose first
/// disk fail; none where one of them is a call of the opening.
pub(crate) fn new_zone(
    alloc: Global,
    failing: &[u64],
    patches: u32,
) -> Result<Option<PairedZone<MemDisk>>, Fail> {
    let first = disk_of(alloc, EMPTY, failing)?;
    let second = match disk_of(alloc, b"", &[]) {
        Ok(second) => second,
        Err(fault) => {
            drop(first);
            return Err(Fail::from(fault));
        }
    };
    let limits = LogLimits {
        patches,
        bytes: LOG_BYTES,
    };
    match PairedZone::open_pair(alloc, first, second, limits) {
        Ok(zone) => Ok(Some(zone)),
        Err(_) => Ok(None),
    }
}

/// The passes 1 and 2, and the room that they came in.
#[derive(Drop)]
pub(crate) struct Passes {
    pub one: ZonePass<MemDisk>,
    pub two: ZonePass<MemDisk>,
    pub room: Vec<ZonePass<MemDisk>>,
}

/// A zone that two passes share.
pub(crate) fn share(
    alloc: Global,
    zone: PairedZone<MemDisk>,
) -> Result<(ZoneHall<MemDisk>, Passes), Fail>
    ensures one { IfOk result (λ r. IsNumbered r.0 1 r.1.one) }
    ensures two { IfOk result (λ r. IsNumbered r.0 2 r.1.two) }
    ensures room { IfOk result (λ r.
        (r.0.seats ≡ 2) × (r.1.room.items ≡ []) × (2 ≤ vec_capacity r.1.room)) }
{
    let Ok((hall, mut room)) = ZoneHall::new(alloc, zone, 2) else {
        return Err(Fail::from("no memory"));
    };
    let Some(two) = room.pop() else {
        return Err(Fail::from("no pass 2"));
    };
    let Some(one) = room.pop() else {
        return Err(Fail::from("no pass 1"));
    };
    Ok((hall, Passes { one, two, room }))
}

/// The zone, once both passes are back.
pub(crate) fn close(hall: ZoneHall<MemDisk>, passes: Passes) -> PairedZone<MemDisk>
    requires one { IsNumbered hall 1 passes.one }
    requires two { IsNumbered hall 2 passes.two }
    requires room { (hall.seats ≡ 2) × (passes.room.items ≡ [])
        × (2 ≤ vec_capacity passes.room) }
{
    let Passes { one, two, mut room } = passes;
    room.push_reserved(one);
    room.push_reserved(two);
    hall.close(room)
}
