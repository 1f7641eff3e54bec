//! Logs over disks in memory: what they answer, and what a crash leaves of them.
use crate::steps::{Case, Step, disk_with, holds, log_left, open};
use crate::tables::{EMPTY, Place, is};
use chain_core::{Decision, LogAnswer, Patch};
use delta_base::{Bytes, Id};
use disk_model::MemDisk;
use log_base::{FullKind, LOG_LIMITS, LogLimits};
use patch_log::{LogFault, LogState, Run, append, read_patch};
use std::alloc::Global;
use std::process::Abort;
use std::test::Fail;
use worked_rows::{FIRST, SECOND, disk_of};

pub const THIRD: &[u8] =
    b"H id <uuid:00000000-0000-4000-8000-000000000003> .\nH prev <uuid:00000000-0000-4000-8000-000000000001> .\nTX .\nA <http://e/s> <http://e/p> <http://e/o3> .\nTC .\n";

pub const OTHER_TEXT: &[u8] = b"H id <uuid:00000000-0000-4000-8000-000000000001> .\n";

pub const NO_PREVIOUS: &[u8] = b"H id <uuid:00000000-0000-4000-8000-000000000009> .\n";

const BEHIND_NINTH: &[u8] =
    b"H id <uuid:00000000-0000-4000-8000-000000000004> .\nH prev <uuid:00000000-0000-4000-8000-000000000009> .\n";

pub const BEHIND_SECOND: &[u8] =
    b"H id <uuid:00000000-0000-4000-8000-000000000003> .\nH prev <uuid:00000000-0000-4000-8000-000000000002> .\n";

pub const ID1: Id = Id(0x0000_0000_0000_4000_8000_0000_0000_0001);

pub const ID2: Id = Id(0x0000_0000_0000_4000_8000_0000_0000_0002);

const ID3: Id = Id(0x0000_0000_0000_4000_8000_0000_0000_0003);

pub const ID4: Id = Id(0x0000_0000_0000_4000_8000_0000_0000_0004);

const ID5: Id = Id(0x0000_0000_0000_4000_8000_0000_0000_0005);

const ID9: Id = Id(0x0000_0000_0000_4000_8000_0000_0000_0009);

/// The call of a new log's second append that is the gate's sync.
pub const SECOND_GATE: u64 = 13;

static CASES: [Case; 12] = [
    Case {
        shows: "a log takes the next patch alone",
        payloads: &[],
        failing: &[],
        limits: LOG_LIMITS,
        steps: &[
            Step::Add(
                &[SECOND],
                LogAnswer::Conflict {
                    version: 0,
                    head: None,
                    prev_version: None,
                },
            ),
            Step::Add(&[FIRST], LogAnswer::Accepted { version: 1 }),
            Step::Add(
                &[FIRST],
                LogAnswer::Known {
                    version: 1,
                    same: true,
                },
            ),
            Step::Add(
                &[OTHER_TEXT],
                LogAnswer::Known {
                    version: 1,
                    same: false,
                },
            ),
            Step::Add(
                &[NO_PREVIOUS],
                LogAnswer::Conflict {
                    version: 1,
                    head: Some(ID1),
                    prev_version: Some(0),
                },
            ),
            Step::Add(&[SECOND], LogAnswer::Accepted { version: 2 }),
            Step::Add(
                &[THIRD],
                LogAnswer::Conflict {
                    version: 2,
                    head: Some(ID2),
                    prev_version: Some(1),
                },
            ),
            Step::Add(
                &[BEHIND_NINTH],
                LogAnswer::Conflict {
                    version: 2,
                    head: Some(ID2),
                    prev_version: None,
                },
            ),
        ],
        left: &[],
    },
    Case {
        shows: "who brought a patch is kept until a crash",
        payloads: &[],
        failing: &[],
        limits: LOG_LIMITS,
        steps: &[
            Step::Add(&[FIRST], LogAnswer::Accepted { version: 1 }),
            Step::BroughtBy(7),
        ],
        left: &[(1, 1, Some(ID1))],
    },
    Case {
        shows: "a log full of patches shows its numbers",
        payloads: &[],
        failing: &[],
        limits: LogLimits {
            patches: 2,
            bytes: 10_000,
        },
        steps: &[
            Step::Add(&[FIRST], LogAnswer::Accepted { version: 1 }),
            Step::Add(&[SECOND], LogAnswer::Accepted { version: 2 }),
            Step::Decide(
                &[BEHIND_SECOND],
                Decision::Full {
                    what: FullKind::Patches,
                    have: 2,
                    limit: 2,
                },
            ),
        ],
        left: &[],
    },
    Case {
        shows: "a log full of bytes shows its numbers",
        payloads: &[],
        failing: &[],
        limits: LogLimits {
            patches: 100,
            bytes: 401,
        },
        steps: &[
            Step::Add(&[FIRST], LogAnswer::Accepted { version: 1 }),
            Step::Add(&[SECOND], LogAnswer::Accepted { version: 2 }),
            Step::Decide(
                &[BEHIND_SECOND],
                Decision::Full {
                    what: FullKind::Bytes,
                    have: 402,
                    limit: 401,
                },
            ),
        ],
        left: &[],
    },
    Case {
        shows: "a log has room up to its limit",
        payloads: &[],
        failing: &[],
        limits: LogLimits {
            patches: 100,
            bytes: 402,
        },
        steps: &[
            Step::Add(&[FIRST], LogAnswer::Accepted { version: 1 }),
            Step::Add(&[SECOND], LogAnswer::Accepted { version: 2 }),
            Step::Decide(&[BEHIND_SECOND], Decision::Accept { version: 3 }),
        ],
        left: &[],
    },
    Case {
        shows: "a gate left in doubt may stand open",
        payloads: &[],
        failing: &[SECOND_GATE],
        limits: LOG_LIMITS,
        steps: &[
            Step::Add(&[FIRST], LogAnswer::Accepted { version: 1 }),
            Step::Add(&[SECOND], LogAnswer::DiskFault),
            Step::Faults(1),
            Step::Stands(1, Some(ID1)),
        ],
        left: &[(1, 2, Some(ID2)), (0, 1, Some(ID1))],
    },
    // The third patch is accepted in the place of the second, which was in doubt.
    Case {
        shows: "what is settled makes way",
        payloads: &[],
        failing: &[SECOND_GATE],
        limits: LOG_LIMITS,
        steps: &[
            Step::Add(&[FIRST], LogAnswer::Accepted { version: 1 }),
            Step::Add(&[SECOND], LogAnswer::DiskFault),
            Step::Add(&[THIRD], LogAnswer::Accepted { version: 2 }),
        ],
        left: &[(0, 2, Some(ID3)), (1, 2, Some(ID3)), (7, 2, Some(ID3))],
    },
    Case {
        shows: "a patch is made ready without a log",
        payloads: &[],
        failing: &[],
        limits: LOG_LIMITS,
        steps: &[
            Step::Ready(&[FIRST], LogAnswer::Accepted { version: 1 }),
            Step::BroughtBy(5),
            Step::IsSettled(true),
        ],
        left: &[],
    },
    Case {
        shows: "want of memory is told of a patch that could be accepted",
        payloads: &[],
        failing: &[],
        limits: LOG_LIMITS,
        steps: &[
            Step::Want(&[FIRST], LogAnswer::OutOfMemory),
            Step::Want(
                &[SECOND],
                LogAnswer::Conflict {
                    version: 0,
                    head: None,
                    prev_version: None,
                },
            ),
            Step::Made(&[FIRST], LogAnswer::Accepted { version: 1 }),
            Step::Want(
                &[FIRST],
                LogAnswer::Known {
                    version: 1,
                    same: true,
                },
            ),
        ],
        left: &[],
    },
    Case {
        shows: "many appends are answered in order",
        payloads: &[],
        failing: &[],
        limits: LOG_LIMITS,
        steps: &[Step::All(
            &[FIRST, SECOND, FIRST],
            &[
                LogAnswer::Accepted { version: 1 },
                LogAnswer::Accepted { version: 2 },
                LogAnswer::Known {
                    version: 1,
                    same: true,
                },
            ],
        )],
        left: &[],
    },
    // The write of the second append's gate fails, and its patch is sent again.
    Case {
        shows: "a fault is told once",
        payloads: &[],
        failing: &[12],
        limits: LOG_LIMITS,
        steps: &[
            Step::All(
                &[FIRST, SECOND, SECOND],
                &[
                    LogAnswer::Accepted { version: 1 },
                    LogAnswer::DiskFault,
                    LogAnswer::Accepted { version: 2 },
                ],
            ),
            Step::Faults(1),
        ],
        left: &[],
    },
    Case {
        shows: "ids that fall are found after an opening",
        payloads: &[NO_PREVIOUS, BEHIND_NINTH],
        failing: &[],
        limits: LOG_LIMITS,
        steps: &[
            Step::Has(ID9, Some(1)),
            Step::Has(ID4, Some(2)),
            Step::Has(ID5, None),
        ],
        left: &[],
    },
];

#[test]
fn what_a_log_answers_and_a_crash_leaves(rt: HostRuntime) -> Result<(), Fail> {
    for case in &CASES {
        holds(&rt, rt.alloc(), case)?;
    }
    Ok(())
}

/// A file that is opened with at most two patches.
enum File {
    Image(&'static [u8]),
    Payloads(&'static [&'static [u8]]),
}

/// A file, the numbers of the calls that fail, and why it isn't opened.
static REFUSED: [(File, &[u64], LogFault); 12] = [
    (
        File::Payloads(&[FIRST, SECOND, THIRD]),
        &[],
        LogFault::BrokenChain { version: 3 },
    ),
    (
        File::Payloads(&[FIRST, FIRST]),
        &[],
        LogFault::BrokenChain { version: 2 },
    ),
    (
        File::Payloads(&[SECOND]),
        &[],
        LogFault::BrokenChain { version: 1 },
    ),
    (
        File::Payloads(&[FIRST, b"X"]),
        &[],
        LogFault::BrokenChain { version: 2 },
    ),
    (
        File::Payloads(&[&[b'#'; 983], b"X"]),
        &[],
        LogFault::OverLimit {
            length: 1011,
            limit: 1000,
        },
    ),
    (File::Image(b"RDJ1\0\0\0\x01\0"), &[], LogFault::OldFormat),
    (
        File::Image(b"RDJ2\0\0\0\x02\0"),
        &[],
        LogFault::WrongNumber { found: 2 },
    ),
    (File::Image(b"RDJ2"), &[], LogFault::Damaged { at: 0 }),
    (File::Image(EMPTY), &[0], LogFault::Failed),
    (File::Image(EMPTY), &[1], LogFault::Failed),
    (File::Image(EMPTY), &[2], LogFault::Failed),
    (File::Image(EMPTY), &[3], LogFault::Failed),
];

fn file_on(alloc: Global, file: &File, failing: &[u64]) -> Result<MemDisk, Fail> {
    match file {
        File::Image(image) => Ok(disk_of(alloc, image, failing)?),
        File::Payloads(payloads) => disk_with(alloc, payloads, failing),
    }
}

fn fault_of(alloc: Global, disk: MemDisk) -> Option<LogFault> {
    let limits = LogLimits {
        patches: 2,
        bytes: 1000,
    };
    match LogState::open_on(alloc, disk, 1, limits) {
        Ok(log) => {
            drop(log);
            None
        }
        Err(refusal) => {
            let fault = refusal.fault;
            drop(refusal);
            Some(fault)
        }
    }
}

#[test]
fn each_fault_of_a_file_is_told(rt: HostRuntime) -> Result<(), Fail> {
    let shows = "a file that is refused";
    for (step, (file, failing, fault)) in REFUSED.iter().enumerate() {
        let disk = file_on(rt.alloc(), file, failing)?;
        let found = fault_of(rt.alloc(), disk);
        is(&rt, Place { shows, step }, &found, &Some(*fault));
    }
    Ok(())
}

// The run of the patch of this number, behind the one before it.
fn numbered(alloc: Global, number: u32) -> Result<Run, Fail> {
    let mut text = format!(in alloc; "H id <uuid:00000000-0000-4000-8000-{number:012}> .\n")?;
    if number > 11 {
        let before = number - 1;
        text.push_str(format!(in alloc;
            "H prev <uuid:00000000-0000-4000-8000-{before:012}> .\n"
        )?.as_str())?;
    }
    Ok(read_patch(alloc, Bytes::from_vec(text.into_bytes()))?)
}

// The version of the last of these patches that is acknowledged.
fn append_each(log: &mut LogState<MemDisk>, runs: &[Run]) -> Result<u32, Fail> {
    let mut acknowledged = 0u32;
    for run in runs {
        if let LogAnswer::Accepted { version } = append(log, run.copy()?, 1) {
            acknowledged = version;
        }
    }
    Ok(acknowledged)
}

// How many of ten chained appends are acknowledged over a disk whose calls all fail after so many,
// and the disk.
fn run_ten(alloc: Global, runs: &[Run], fuse: u64) -> Result<Option<(u32, MemDisk)>, Fail> {
    let disk = MemDisk::with_fuse(alloc, Bytes::from_slice(alloc, EMPTY)?, fuse)?;
    match LogState::open_on(alloc, disk, 1, LOG_LIMITS) {
        Ok(mut log) => {
            let acknowledged = append_each(&mut log, runs);
            let disk = log.close();
            Ok(Some((acknowledged?, disk)))
        }
        Err(refusal) => {
            drop(refusal);
            Ok(None)
        }
    }
}

// Whether a patch has the text of a run of one.
fn is_text_of(patch: &Patch, run: &Run) -> bool {
    run.patches()
        .as_slice()
        .iter()
        .all(|sent| sent.text == patch.text)
}

// Whether the log's patches are the first of these.
fn is_front(log: &LogState<MemDisk>, runs: &[Run]) -> bool {
    (1..=log.chain().version()).all(|version| {
        match (
            log.chain().by_version(version),
            runs.get(version as usize - 1),
        ) {
            (Some(found), Some(sent)) => is_text_of(found, sent),
            _ => false,
        }
    })
}

// Whether a crash leaves those that were acknowledged, or one more.
fn holds_acknowledged(
    alloc: Global,
    disk: &MemDisk,
    choice: u64,
    runs: &[Run],
    acknowledged: u32,
) -> Result<bool, Fail> {
    let log = log_left(alloc, disk, choice)?;
    let more = log.chain().version().wrapping_sub(acknowledged);
    let holds = more <= 1 && is_front(&log, runs);
    drop(log);
    Ok(holds)
}

// The same of each crash, after so many calls.
fn keeps_acknowledged(
    rt: &impl Abort,
    alloc: Global,
    fuse: u64,
    runs: &[Run],
    (acknowledged, disk): (u32, &MemDisk),
) -> Result<(), Fail> {
    for choice in [0, 1, 7] {
        let holds = holds_acknowledged(alloc, disk, choice, runs, acknowledged)?;
        assert!(rt; holds, "after {fuse} calls");
    }
    Ok(())
}

// What was acknowledged before all calls failed is found again.
fn is_found_again(rt: &impl Abort, alloc: Global, fuse: u64, runs: &[Run]) -> Result<(), Fail> {
    match run_ten(alloc, runs, fuse)? {
        None => {
            assert!(rt; fuse < 4);
            Ok(())
        }
        Some((acknowledged, disk)) => {
            let kept = keeps_acknowledged(rt, alloc, fuse, runs, (acknowledged, &disk));
            drop(disk);
            kept
        }
    }
}

// The same of each number of calls.
fn are_found_again(rt: &impl Abort, alloc: Global, runs: &[Run]) -> Result<(), Fail> {
    for fuse in 0..57u64 {
        is_found_again(rt, alloc, fuse, runs)?;
    }
    Ok(())
}

// Patches of these numbers from 11 on, each behind the one before it.
fn chained(alloc: Global, end: u32) -> Result<Vec<Run>, Fail> {
    let mut runs = Vec::new(alloc);
    for number in 11..end {
        runs.push(numbered(alloc, number)?)?;
    }
    Ok(runs)
}

#[test]
fn what_was_acknowledged_is_found_again(rt: HostRuntime) -> Result<(), Fail> {
    let alloc = rt.alloc();
    let runs = chained(alloc, 21)?;
    let found = are_found_again(&rt, alloc, &runs);
    drop(runs);
    found
}

// What a run is answered, which is appended again where the disk failed.
fn append_again(log: &mut LogState<MemDisk>, run: &Run) -> Result<LogAnswer, Fail> {
    let answer = append(log, run.copy()?, 1);
    if answer == LogAnswer::DiskFault {
        return Ok(append(log, run.copy()?, 1));
    }
    Ok(answer)
}

// Each of these is accepted, at the second time at the latest.
fn takes_each(rt: &impl Abort, log: &mut LogState<MemDisk>, runs: &[Run]) -> Result<(), Fail> {
    let mut version = 0u32;
    for run in runs {
        version = version.saturating_add(1);
        let answer = append_again(log, run)?;
        assert!(rt;
            answer == LogAnswer::Accepted { version },
            "version {version}"
        );
    }
    Ok(())
}

// A log takes them so where a call of its disk fails, and each crash leaves them all. How often a call failed.
fn takes_all(rt: &impl Abort, alloc: Global, failing: u64, runs: &[Run]) -> Result<u64, Fail> {
    let count = u32::try_from(runs.len())?;
    let mut log = open(alloc, disk_of(alloc, EMPTY, &[failing])?, LOG_LIMITS)?;
    let taken = takes_each(rt, &mut log, runs);
    let faults = log.faults();
    let disk = log.close();
    let kept = taken.and_then(|()| keeps_acknowledged(rt, alloc, failing, runs, (count, &disk)));
    drop(disk);
    kept?;
    Ok(faults)
}

// The same of each call behind the opening's four, up to the one that isn't made.
fn takes_all_at_each(rt: &impl Abort, alloc: Global, runs: &[Run]) -> Result<u64, Fail> {
    for failing in 4..100u64 {
        if takes_all(rt, alloc, failing, runs)? == 0 {
            return Ok(failing);
        }
    }
    Err(Fail::from("it never ended"))
}

// An append makes five calls.
#[test]
fn what_a_disk_refused_once_is_accepted_again(rt: HostRuntime) -> Result<(), Fail> {
    let alloc = rt.alloc();
    let runs = chained(alloc, 21)?;
    let end = takes_all_at_each(&rt, alloc, &runs);
    drop(runs);
    assert!(rt; end? == 54);
    Ok(())
}

// A log that may have a hundred patches takes so many of these, and refuses the last one.
fn takes_a_hundred(rt: &impl Abort, log: &mut LogState<MemDisk>, runs: &[Run]) -> Result<(), Fail> {
    let Some(last) = runs.last() else {
        return Err(Fail::from("no patches"));
    };
    assert!(rt; append_each(log, runs)? == 100);
    let full = LogAnswer::Full {
        what: FullKind::Patches,
        have: 100,
        limit: 100,
    };
    assert!(rt; append(log, last.copy()?, 1) == full);
    assert!(rt; log.chain().version() == 100);
    Ok(())
}

// The same of patches and a new log.
fn is_full_with_a_hundred(rt: &impl Abort, alloc: Global, runs: &[Run]) -> Result<(), Fail> {
    let limits = LogLimits {
        patches: 100,
        bytes: 100_000,
    };
    let mut log = open(alloc, disk_of(alloc, EMPTY, &[])?, limits)?;
    let taken = takes_a_hundred(rt, &mut log, runs);
    drop(log);
    taken
}

#[test]
fn a_log_takes_as_many_patches_as_it_may(rt: HostRuntime) -> Result<(), Fail> {
    let alloc = rt.alloc();
    let runs = chained(alloc, 112)?;
    let taken = is_full_with_a_hundred(&rt, alloc, &runs);
    drop(runs);
    taken
}
