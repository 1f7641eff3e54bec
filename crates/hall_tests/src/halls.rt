//! Halls over disks in memory.
ghost use Rattle.std.specs.Prelude.{◌≡◌, length, IfOk, vec_len};
ghost use Rattle.hall_logs.specs.Rooms.{HasRoom};
ghost use Rattle.hall_logs.specs.Slots.{AreAllHallPasses};

use disk_model::{Disk, MemDisk};
use hall_logs::{HallLogs, LogsPass, LogsRefusal, Rooms};
use log_base::LOG_LIMITS;
use std::alloc::Global;
use std::test::Fail;
use worked_rows::disk_of;

/// A hall that two passes share, with the passes and the room for what comes back.
pub(crate) type Shared<D> = (HallLogs<D>, Vec<LogsPass<D>>, Rooms<D>);

/// The disks of two empty logs, of which the calls of these numbers fail on the second.
pub(crate) fn two_disks(alloc: Global, failing: &[u64]) -> Result<Vec<MemDisk>, Fail>
    ensures { IfOk result (λ disks. vec_len disks ≡ 2) }
{
    let mut disks = Vec::new(alloc);
    disks.push(disk_of(alloc, b"RDJ2\0\0\0\x01\0", &[])?)?;
    disks.push(disk_of(alloc, b"RDJ2\0\0\0\x02\0", failing)?)?;
    Ok(disks)
}

/// Opens two logs for two passes.
pub(crate) fn open<D: Disk>(alloc: Global, disks: Vec<D>) -> Result<Shared<D>, LogsRefusal<D>>
    requires { vec_len disks ≡ 2 }
    ensures logs { IfOk result (λ r. (length r.0.logs ≡ 2) × (r.0.seats ≡ 2)) }
    ensures passes { IfOk result (λ r. AreAllHallPasses D.Disk r.0.logs 2 r.1.items) }
    ensures rooms { IfOk result (λ r. HasRoom r.0 r.2) }
{
    HallLogs::open_on(alloc, disks, LOG_LIMITS, 2)
}

/// The two disks, once all passes are back.
pub(crate) fn close<D: Disk>(shared: Shared<D>) -> Vec<D>
    requires logs { (length shared.0.logs ≡ 2) × (shared.0.seats ≡ 2) }
    requires passes { AreAllHallPasses D.Disk shared.0.logs 2 shared.1.items }
    requires rooms { HasRoom shared.0 shared.2 }
    ensures { vec_len result ≡ 2 }
{
    let (hall, passes, rooms) = shared;
    hall.close(passes, rooms)
}
