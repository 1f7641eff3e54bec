//! Threads that append to the logs of one hall, each with a pass of its own.
ghost use Rattle.std.specs.Prelude.{◌≡◌, ◌<◌, ℕ, All, length, slice_index_or};
ghost use Rattle.hall_logs.specs.Slots.{ArePartsOf, AreAllHallPasses};
ghost use Rattle.hall_logs.specs.Visits.{HasVisited};

use crate::calls::version_by;
use crate::halls::{close, open, two_disks};
use delta_base::Bytes;
use disk_model::Disk;
use hall_logs::{HallLogs, LogsPass};
use patch_log::{Run, read_run};
use std::sync::Wait;
use std::test::Fail;
use std::thread;
use std::thread::Threads;
use worked_rows::FIRST;

// One append to the first log, of a copy of the run.
fn append_one<R: Wait, D: Disk>(rt: &R, hall: &HallLogs<D>, pass: &mut LogsPass<D>, run: &Run)
    requires of { ArePartsOf D.Disk hall.now.logs pass.old }
    requires some { 0 < length hall.now.logs }
    ensures { HasVisited D.Disk hall.now.logs pass.old pass.new }
{
    if let Ok(run) = run.copy() {
        hall.append(rt, pass, 1, run);
    }
}

// Each pass appends the run, on a thread where one can be made.
fn append_each<R: Threads + Wait + Sync, D: Disk + Send>(
    rt: &R,
    hall: &HallLogs<D>,
    passes: &mut [LogsPass<D>],
    run: &Run,
)
    requires of { All (ArePartsOf D.Disk hall.now.logs) passes.old }
    requires some { 0 < length hall.now.logs }
    ensures count { length passes.new ≡ length passes.old }
    ensures each { (k : ℕ) (d : _) → k < length passes.old → HasVisited D.Disk hall.now.logs
        (slice_index_or passes.old k d) (slice_index_or passes.new k d) }
{
    thread::for_each_mut(
        rt,
        passes,
        16,
        &|_place: usize, pass: &mut LogsPass<D>|
            requires { ArePartsOf D.Disk hall.now.logs pass.old × (0 < length hall.now.logs) }
            ensures { HasVisited D.Disk hall.entry.now.logs pass.old pass.new }
        { append_one(rt, hall, pass, run) },
    );
}

// All passes append the run at once, and are there behind it.
fn append_all<R: Threads + Wait + Sync, D: Disk + Send>(
    rt: &R,
    hall: &HallLogs<D>,
    passes: &mut Vec<LogsPass<D>>,
    run: &Run,
)
    requires all { AreAllHallPasses D.Disk hall.now.logs 2 passes.old.items }
    requires some { 0 < length hall.now.logs }
    ensures { AreAllHallPasses D.Disk hall.now.logs 2 passes.new.items }
{
    append_each(rt, hall, passes, run);
}

#[test]
fn threads_share_a_hall(rt: HostRuntime) -> Result<(), Fail> {
    let alloc = rt.alloc();
    let run = read_run(alloc, Bytes::from_slice(alloc, FIRST)?)?;
    let Ok((hall, mut passes, rooms)) = open(alloc, two_disks(alloc, &[])?) else {
        return Err(Fail::from("not opened"));
    };
    append_all(&rt, &hall, &mut passes, &run);
    drop(run);
    let Ok((hall, mut passes, rooms)) = open(alloc, close((hall, passes, rooms))) else {
        return Err(Fail::from("not opened again"));
    };
    assert!(rt; version_by(&hall, &mut passes, 0, 1) == 1);
    assert!(rt; version_by(&hall, &mut passes, 0, 2) == 0);
    drop(rooms);
    drop(passes);
    drop(hall);
    Ok(())
}
