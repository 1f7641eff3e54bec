//! Calls of one of many passes, behind which all passes are there.
ghost use Rattle.std.specs.Prelude.{◌≡◌, ◌<◌, ◌≤◌, length};
ghost use Rattle.hall_logs.specs.Slots.{AreAllHallPasses};

use chain_core::LogAnswer;
use disk_model::Disk;
use hall_logs::{HallLogs, LogsPass};
use patch_log::Run;
use std::sync::Wait;

pub(crate) fn append_by<R: Wait, D: Disk>(
    rt: &R,
    hall: &HallLogs<D>,
    passes: &mut Vec<LogsPass<D>>,
    place: usize,
    slot: u32,
    run: Run,
) -> LogAnswer
    requires all { AreAllHallPasses D.Disk hall.now.logs 2 passes.old.items }
    requires place { place < 2 }
    requires slot { (0 < slot) × (slot ≤ length hall.now.logs) }
    ensures { AreAllHallPasses D.Disk hall.now.logs 2 passes.new.items }
{
    hall.append(rt, &mut passes[place], slot, run)
}

pub(crate) fn version_by<D: Disk>(
    hall: &HallLogs<D>,
    passes: &mut Vec<LogsPass<D>>,
    place: usize,
    slot: u32,
) -> u32
    requires all { AreAllHallPasses D.Disk hall.now.logs 2 passes.old.items }
    requires place { place < 2 }
    requires slot { (0 < slot) × (slot ≤ length hall.now.logs) }
    ensures { AreAllHallPasses D.Disk hall.now.logs 2 passes.new.items }
{
    hall.version(&mut passes[place], slot)
}
