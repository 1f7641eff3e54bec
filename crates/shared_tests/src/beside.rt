//! A fetch beside an append: the disk holds the append's last sync until the fetch was answered.
ghost use Rattle.std.specs.Prelude.{◌≡◌, IfOk};
ghost use Rattle.turn_cell.specs.Sharing.{IsPassOf};
ghost use Rattle.shared_log.specs.History.{shared_log};

use crate::passes::{EMPTY, is, run_of};
use chain_core::LogAnswer;
use delta_base::Failed;
use disk_model::{Disk, MemDisk};
use log_base::LOG_LIMITS;
use patch_log::{LogState, Run};
use shared_log::{Fetched, LogPass, SharedLog};
use std::alloc::Global;
use std::sync::Wait;
use std::sync::atomic::{AtomicU64, Ordering};
use std::test::Fail;
use std::thread::{Threads, join};
use worked_rows::{FIRST, SECOND, disk_of};

/// How often one thread looks for what the other is to do.
const LOOKS: u32 = 100_000_000;

/// The last sync of the second append, counted from 0: each append makes two.
const HELD: u64 = 3;

/// What the two threads tell each other.
#[derive(Drop)]
struct Meeting {
    holds: AtomicU64,
    answered: AtomicU64,
    in_vain: AtomicU64,
}

fn sees(word: &AtomicU64) -> bool {
    for _ in 0..LOOKS {
        if word.load(Ordering::SeqCst) > 0 {
            return true;
        }
    }
    false
}

/// A disk in memory that holds one sync until the fetch was answered.
#[derive(Drop)]
struct HoldingDisk<'a> {
    disk: MemDisk,
    meeting: &'a Meeting,
    syncs: u64,
}

impl<'a> Disk for HoldingDisk<'a> {
    ghost use Rattle.disk_model.specs.Memory.{memory_past, memory_mark, memory_reads_left};
    ghost use Rattle.disk_model.specs.Memory.{bytes_read, faults_of};

    ghost tells = { Unit };

    ghost past = { λ d. memory_past d.disk };

    ghost read_bytes = { λ d. bytes_read d.disk };

    ghost faults = { λ d. faults_of d.disk };

    ghost mark = { λ d. memory_mark d.disk };

    ghost reads_may_be_left = { λ d tells. memory_reads_left d.disk };

    fn faults(&self) -> u64 {
        self.disk.faults()
    }

    fn len(&mut self) -> Result<u64, Failed> {
        self.disk.len()
    }

    fn read_at(&mut self, at: u64, into: &mut [u8]) -> Result<usize, Failed> {
        self.disk.read_at(at, into)
    }

    fn write_at(&mut self, at: u64, bytes: &[u8]) -> Result<(), Failed> {
        self.disk.write_at(at, bytes)
    }

    fn sync(&mut self) -> Result<(), Failed> {
        let number = self.syncs;
        self.syncs = self.syncs.saturating_add(1);
        if number == HELD {
            self.meeting.holds.store(1, Ordering::SeqCst);
            if !sees(&self.meeting.answered) {
                self.meeting.in_vain.store(1, Ordering::SeqCst);
            }
        }
        self.disk.sync()
    }
}

/// A log and its two passes.
#[derive(Drop)]
struct Pair<D: Disk + Drop> {
    log: SharedLog<D>,
    one: LogPass<D>,
    two: LogPass<D>,
}

// A log on a disk that two passes share.
fn share_on<D: Disk + Drop>(alloc: Global, disk: D) -> Result<Pair<D>, Fail>
    ensures one { IfOk result (λ pair. IsPassOf (shared_log D.Disk) pair.log pair.one) }
    ensures two { IfOk result (λ pair. IsPassOf (shared_log D.Disk) pair.log pair.two) }
{
    let Ok(log) = LogState::open_on(alloc, disk, 1, LOG_LIMITS) else {
        return Err(Fail::from("not opened"));
    };
    let Ok((log, mut passes)) = SharedLog::new(alloc, log, 2) else {
        return Err(Fail::from("no memory"));
    };
    let Some(two) = passes.pop() else {
        return Err(Fail::from("no pass 2"));
    };
    let Some(one) = passes.pop() else {
        return Err(Fail::from("no pass 1"));
    };
    Ok(Pair { log, one, two })
}

// Fetches the first patch while the disk holds the sync, and says so.
fn fetch_beside<R: Wait, D: Disk>(
    rt: &R,
    log: &SharedLog<D>,
    pass: &mut LogPass<D>,
    meeting: &Meeting,
) -> bool
    requires { IsPassOf (shared_log D.Disk) log.now pass.old }
{
    let holds = sees(&meeting.holds);
    let fetched = log.fetch_version(rt, pass, 1);
    meeting.answered.store(1, Ordering::SeqCst);
    match fetched {
        Ok(Fetched::Found { patch }) => holds && patch.text.as_slice() == FIRST,
        _ => false,
    }
}

// Appends two patches, and fetches the first one while the second is written. Answers what the
// appends did, and whether the fetch found it then.
fn meet<R: Threads + Wait + Sync, D: Disk + Drop + Send + Sync>(
    rt: &R,
    pair: Pair<D>,
    first: Run,
    second: Run,
    meeting: &Meeting,
) -> (LogAnswer, LogAnswer, bool)
    requires one { IsPassOf (shared_log D.Disk) pair.log pair.one }
    requires two { IsPassOf (shared_log D.Disk) pair.log pair.two }
{
    let Pair {
        log,
        mut one,
        mut two,
    } = pair;
    let before = log.append(rt, &mut one, first);
    let shared = &log;
    let (beside, found) = join(
        rt,
        || -> LogAnswer
            requires { IsPassOf (shared_log D.Disk) shared.now one }
        { shared.append(rt, &mut one, second) },
        || -> bool
            requires { IsPassOf (shared_log D.Disk) shared.now two }
        { fetch_beside(rt, shared, &mut two, meeting) },
    );
    drop(log);
    (before, beside, found)
}

#[test]
fn a_fetch_waits_for_no_device(rt: HostRuntime) -> Result<(), Fail> {
    let alloc = rt.alloc();
    let first = run_of(alloc, FIRST)?;
    let second = run_of(alloc, SECOND)?;
    let meeting = Meeting {
        holds: AtomicU64::new(0),
        answered: AtomicU64::new(0),
        in_vain: AtomicU64::new(0),
    };
    let disk = HoldingDisk {
        disk: disk_of(alloc, EMPTY, &[])?,
        meeting: &meeting,
        syncs: 0,
    };
    let pair = share_on(alloc, disk)?;
    let (before, beside, found) = meet(&rt, pair, first, second, &meeting);
    is(&rt, before, LogAnswer::Accepted { version: 1 });
    is(&rt, beside, LogAnswer::Accepted { version: 2 });
    assert!(rt; found);
    assert!(rt; meeting.in_vain.load(Ordering::SeqCst) == 0);
    Ok(())
}
