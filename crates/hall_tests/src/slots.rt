//! Two logs over disks in memory, and two passes.
ghost use Rattle.std.specs.Prelude.{◌≡◌, ◌<◌, length, IfOk, vec_len};
ghost use Rattle.hall_logs.specs.Slots.{AreAllHallPasses};

use crate::calls::{append_by, version_by};
use crate::halls::{close, open, two_disks};
use chain_core::LogAnswer;
use delta_base::Bytes;
use disk_model::{Disk, MemDisk};
use hall_logs::{HallLogs, LogsPass, LogsRefusal};
use log_base::LOG_LIMITS;
use patch_log::{LogFault, Run, read_run};
use std::alloc::Global;
use std::process::Abort;
use std::sync::Wait;
use std::test::Fail;
use worked_rows::{FIRST, SECOND, disk_of};

fn is(rt: &impl Abort, answer: LogAnswer, wanted: LogAnswer) {
    assert!(rt; answer == wanted);
}

// The run that a text is.
fn run_of(alloc: Global, text: &[u8]) -> Result<Run, Fail> {
    Ok(read_run(alloc, Bytes::from_slice(alloc, text)?)?)
}

// The first log takes the first patch, and the second log both.
fn both_take<D: Disk, R: Wait + Abort>(
    rt: &R,
    hall: &HallLogs<D>,
    passes: &mut Vec<LogsPass<D>>,
    first: Run,
    again: Run,
    second: Run,
)
    requires all { AreAllHallPasses D.Disk hall.now.logs 2 passes.old.items }
    requires logs { length hall.now.logs ≡ 2 }
    ensures { AreAllHallPasses D.Disk hall.now.logs 2 passes.new.items }
{
    let answer = append_by(rt, hall, passes, 0, 1, first);
    is(rt, answer, LogAnswer::Accepted { version: 1 });
    let answer = append_by(rt, hall, passes, 1, 2, again);
    is(rt, answer, LogAnswer::Accepted { version: 1 });
    let answer = append_by(rt, hall, passes, 1, 2, second);
    is(rt, answer, LogAnswer::Accepted { version: 2 });
}

// The logs have one patch and two, as the pass of this place is told.
fn have_one_and_two<D: Disk>(
    rt: &impl Abort,
    hall: &HallLogs<D>,
    passes: &mut Vec<LogsPass<D>>,
    place: usize,
)
    requires all { AreAllHallPasses D.Disk hall.now.logs 2 passes.old.items }
    requires logs { length hall.now.logs ≡ 2 }
    requires place { place < 2 }
    ensures { AreAllHallPasses D.Disk hall.now.logs 2 passes.new.items }
{
    assert!(rt; version_by(hall, passes, place, 1) == 1);
    assert!(rt; version_by(hall, passes, place, 2) == 2);
}

// The disks of the two logs, once these have taken their patches.
fn filled<R: Wait + Abort>(rt: &R, alloc: Global) -> Result<Vec<MemDisk>, Fail>
    ensures { IfOk result (λ disks. vec_len disks ≡ 2) }
{
    let first = run_of(alloc, FIRST)?;
    let again = first.copy()?;
    let second = run_of(alloc, SECOND)?;
    let Ok((hall, mut passes, rooms)) = open(alloc, two_disks(alloc, &[])?) else {
        return Err(Fail::from("not opened"));
    };
    both_take(rt, &hall, &mut passes, first, again, second);
    have_one_and_two(rt, &hall, &mut passes, 0);
    Ok(close((hall, passes, rooms)))
}

#[test]
fn each_slot_has_its_log(rt: HostRuntime) -> Result<(), Fail> {
    let alloc = rt.alloc();
    let disks = filled(&rt, alloc)?;
    let Ok((hall, mut passes, rooms)) = open(alloc, disks) else {
        return Err(Fail::from("not opened again"));
    };
    have_one_and_two(&rt, &hall, &mut passes, 1);
    drop(rooms);
    drop(passes);
    drop(hall);
    Ok(())
}

// The first two patches as one run.
fn first_two(alloc: Global) -> Result<Run, Fail> {
    let mut text = Vec::from_slice(alloc, FIRST)?;
    text.extend_from_slice(SECOND)?;
    run_of(alloc, &text)
}

// The disks of the two logs, of which the second has taken two patches as one run.
fn filled_at_once<R: Wait + Abort>(rt: &R, alloc: Global) -> Result<Vec<MemDisk>, Fail>
    ensures { IfOk result (λ disks. vec_len disks ≡ 2) }
{
    let run = first_two(alloc)?;
    let again = run.copy()?;
    let Ok((hall, mut passes, rooms)) = open(alloc, two_disks(alloc, &[])?) else {
        return Err(Fail::from("not opened"));
    };
    let answer = append_by(rt, &hall, &mut passes, 0, 2, run);
    is(rt, answer, LogAnswer::Accepted { version: 2 });
    let answer = append_by(rt, &hall, &mut passes, 1, 2, again);
    let same = true;
    is(rt, answer, LogAnswer::Known { version: 1, same });
    Ok(close((hall, passes, rooms)))
}

#[test]
fn a_slot_takes_a_run(rt: HostRuntime) -> Result<(), Fail> {
    let alloc = rt.alloc();
    let disks = filled_at_once(&rt, alloc)?;
    let Ok((hall, mut passes, rooms)) = open(alloc, disks) else {
        return Err(Fail::from("not opened again"));
    };
    assert!(rt; version_by(&hall, &mut passes, 0, 1) == 0);
    assert!(rt; version_by(&hall, &mut passes, 0, 2) == 2);
    drop(rooms);
    drop(passes);
    drop(hall);
    Ok(())
}

// An opening makes four calls, so the first call of an append fails.
#[test]
fn a_pass_has_its_own_faults(rt: HostRuntime) -> Result<(), Fail> {
    let alloc = rt.alloc();
    let first = run_of(alloc, FIRST)?;
    let again = first.copy()?;
    let Ok((hall, mut passes, rooms)) = open(alloc, two_disks(alloc, &[4])?) else {
        return Err(Fail::from("not opened"));
    };
    let answer = append_by(&rt, &hall, &mut passes, 0, 2, first);
    is(&rt, answer, LogAnswer::DiskFault);
    let answer = append_by(&rt, &hall, &mut passes, 0, 1, again);
    is(&rt, answer, LogAnswer::Accepted { version: 1 });
    let mut faults = passes.iter().map(|pass| pass.own_faults());
    assert!(rt; faults.next() == Some(1));
    assert!(rt; faults.next() == Some(0));
    drop(rooms);
    drop(passes);
    drop(hall);
    Ok(())
}

// The disks of three files, of which the second is damaged.
fn three_disks(alloc: Global) -> Result<Vec<MemDisk>, Fail>
    ensures { IfOk result (λ disks. vec_len disks ≡ 3) }
{
    let mut disks = Vec::new(alloc);
    disks.push(disk_of(alloc, b"RDJ2\0\0\0\x01\0", &[])?)?;
    disks.push(disk_of(alloc, b"RDJ2", &[])?)?;
    disks.push(disk_of(alloc, b"RDJ2\0\0\0\x03\0", &[])?)?;
    Ok(disks)
}

// The disks of the three files, which are as they were.
fn are_as_they_were(rt: &impl Abort, disks: &[MemDisk]) -> Result<(), Fail> {
    assert!(rt; disks.len() == 3);
    for (disk, bytes) in disks.iter().zip([
        b"RDJ2\0\0\0\x01\0".as_slice(),
        b"RDJ2".as_slice(),
        b"RDJ2\0\0\0\x03\0".as_slice(),
    ]) {
        assert!(rt; disk.image(1)?.as_slice() == bytes);
    }
    Ok(())
}

#[test]
fn a_refusal_hands_all_disks_back(rt: HostRuntime) -> Result<(), Fail> {
    let alloc = rt.alloc();
    let disks = three_disks(alloc)?;
    let Err(LogsRefusal { disks, file, fault }) = HallLogs::open_on(alloc, disks, LOG_LIMITS, 2)
    else {
        return Err(Fail::from("opened"));
    };
    assert!(rt; file == 2 && fault == LogFault::Damaged { at: 0 });
    let kept = are_as_they_were(&rt, &disks);
    drop(disks);
    kept
}
