//! A log that comes apart into its tail and its list, and together again.
ghost use Rattle.patch_log.specs.Tail.{StandsForChain};

use crate::logs::{BEHIND_SECOND, ID1, ID2};
use crate::steps::{disk_with, log_left, open};
use crate::tables::{Place, is};
use chain_core::{Decision, LogAnswer, Lookup};
use disk_model::MemDisk;
use log_base::LOG_LIMITS;
use patch_log::{IndexedChain, LogState, LogTail, Run, append};
use patch_meaning::check_patch;
use std::alloc::Global;
use std::process::Abort;
use std::test::Fail;
use worked_rows::{FIRST, SECOND};

/// Patches, and what a log of the first one makes of them.
static DECISIONS: [(&[u8], Decision); 3] = [
    (
        FIRST,
        Decision::Known {
            version: 1,
            same: true,
        },
    ),
    (SECOND, Decision::Accept { version: 2 }),
    (
        BEHIND_SECOND,
        Decision::Conflict {
            version: 1,
            head: Some(ID1),
            prev_version: None,
        },
    ),
];

// The run of a patch with its changes, without them.
fn run_of(alloc: Global, text: &[u8]) -> Result<Run, Fail> {
    let patch = check_patch(alloc, text)?;
    let run = Run::of(alloc, &patch);
    drop(patch);
    Ok(run?)
}

// The parts of a log of the first patch look up and decide as the log does.
fn are_parts(
    rt: &impl Abort,
    alloc: Global,
    tail: &LogTail<MemDisk>,
    list: &IndexedChain,
) -> Result<(), Fail> {
    let shows = "a log that came apart";
    for (step, (text, decision)) in DECISIONS.iter().enumerate() {
        let run = run_of(alloc, text)?;
        let found = tail.decide(list, &run);
        drop(run);
        is(rt, Place { shows, step }, &found, decision);
    }
    assert!(rt; tail.is_settled() && tail.faults() == 0);
    assert!(rt; list.version_of(ID1) == Some(1) && list.version_of(ID2) == None);
    assert!(rt; list.chain().head() == Some(ID1));
    Ok(())
}

// What a log of two parts answers to the second patch, and its disk.
fn append_together(
    alloc: Global,
    tail: LogTail<MemDisk>,
    list: IndexedChain,
    second: Run,
) -> (LogAnswer, MemDisk)
    requires { StandsForChain tail list.items }
{
    let mut log = LogState::join(tail, list);
    let answer = append(&mut log, second, 1);
    let (tail, list) = log.split();
    drop(list);
    (answer, tail.close())
}

#[test]
fn a_log_comes_apart_and_together(rt: HostRuntime) -> Result<(), Fail> {
    let alloc = rt.alloc();
    let second = run_of(alloc, SECOND)?;
    let log = open(alloc, disk_with(alloc, &[FIRST], &[])?, LOG_LIMITS)?;
    let (tail, list) = log.split();
    are_parts(&rt, alloc, &tail, &list)?;
    let (answer, disk) = append_together(alloc, tail, list, second);
    let left = log_left(alloc, &disk, 0);
    drop(disk);
    let left = left?;
    let version = left.version_of(ID2);
    drop(left);
    assert!(rt; answer == LogAnswer::Accepted { version: 2 });
    assert!(rt; version == Some(2));
    Ok(())
}
