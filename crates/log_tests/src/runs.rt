//! Runs: which texts are one, what a log answers to them, how they stand in its file, and what a
//! crash leaves of them.
use crate::logs::{BEHIND_SECOND, ID1, ID2, ID4, NO_PREVIOUS, OTHER_TEXT, SECOND_GATE, THIRD};
use crate::steps::{Case, Step, Texts, add, found_in, has_entries, holds, joined, open};
use crate::tables::{EMPTY, Place, are_bytes, is};
use chain_core::{Decision, LogAnswer};
use delta_base::{Bytes, Id};
use disk_model::MemDisk;
use log_base::{FullKind, LOG_BYTES, LOG_LIMITS, LogLimits};
use patch_log::{LogFault, LogState, RunFault, read_run};
use patch_meaning::{PatchFault, PatchKind};
use patch_rows::RowKind;
use std::alloc::Global;
use std::process::Abort;
use std::test::Fail;
use worked_rows::{FIRST, SECOND, disk_of, journal_of};

const FIRST_BEHIND_ITSELF: &[u8] =
    b"H id <uuid:00000000-0000-4000-8000-000000000001> .\nH prev <uuid:00000000-0000-4000-8000-000000000001> .\n";

const FIRST_BEHIND_SECOND: &[u8] =
    b"H id <uuid:00000000-0000-4000-8000-000000000001> .\nH prev <uuid:00000000-0000-4000-8000-000000000002> .\n";

const FIRST_BEHIND_NINTH: &[u8] =
    b"H id <uuid:00000000-0000-4000-8000-000000000001> .\nH prev <uuid:00000000-0000-4000-8000-000000000009> .\n";

const SECOND_BEHIND_THIRD: &[u8] =
    b"H id <uuid:00000000-0000-4000-8000-000000000002> .\nH prev <uuid:00000000-0000-4000-8000-000000000003> .\n";

const BEHIND_THIRD: &[u8] =
    b"H id <uuid:00000000-0000-4000-8000-000000000004> .\nH prev <uuid:00000000-0000-4000-8000-000000000003> .\n";

/// The second patch with another text.
const OTHER_SECOND: &[u8] =
    b"H id <uuid:00000000-0000-4000-8000-000000000002> .\nH prev <uuid:00000000-0000-4000-8000-000000000001> .\n";

/// No row.
const NO_CODE: &[u8] = b"X .\n";

/// Texts one behind another, and why they are no run.
static TEXTS: [(Texts, Option<RunFault>); 13] = [
    (&[FIRST], None),
    (&[FIRST, SECOND], None),
    // The first one may name any.
    (&[SECOND, BEHIND_SECOND, BEHIND_THIRD], None),
    (&[], Some(RunFault::BadRun { at: 0 })),
    (&[b"# nothing\n"], Some(RunFault::BadRun { at: 0 })),
    // One names another than the one before it, or none.
    (&[SECOND, THIRD], Some(RunFault::BadRun { at: 2 })),
    (&[FIRST, NO_PREVIOUS], Some(RunFault::BadRun { at: 2 })),
    // An id comes twice.
    (
        &[FIRST, FIRST_BEHIND_ITSELF],
        Some(RunFault::BadRun { at: 2 }),
    ),
    (
        &[FIRST, SECOND, FIRST_BEHIND_SECOND],
        Some(RunFault::BadRun { at: 3 }),
    ),
    // A fault of a row comes first, with its place from the front of all.
    (
        &[FIRST, NO_CODE],
        Some(RunFault::Patch(PatchFault::At {
            at: 104,
            kind: PatchKind::Row(RowKind::UnknownCode),
        })),
    ),
    (
        &[SECOND, THIRD, NO_CODE],
        Some(RunFault::Patch(PatchFault::At {
            at: 316,
            kind: PatchKind::Row(RowKind::UnknownCode),
        })),
    ),
    (
        &[NO_CODE, FIRST],
        Some(RunFault::Patch(PatchFault::At {
            at: 0,
            kind: PatchKind::Row(RowKind::UnknownCode),
        })),
    ),
    (
        &[FIRST, b"TX .\n"],
        Some(RunFault::Patch(PatchFault::At {
            at: 109,
            kind: PatchKind::OpenBlock,
        })),
    ),
];

/// Lengths of texts that have no row, and why they are no run.
static LONG: [(usize, RunFault); 2] = [
    (4_194_304, RunFault::BadRun { at: 0 }),
    (
        4_194_305,
        RunFault::TooLong {
            length: 4_194_305,
            limit: 4_194_304,
        },
    ),
];

// Why a text is no run.
fn fault_of(alloc: Global, text: Vec<u8>) -> Option<RunFault> {
    match read_run(alloc, Bytes::from_vec(text)) {
        Ok(run) => {
            drop(run);
            None
        }
        Err(fault) => Some(fault),
    }
}

#[test]
fn which_texts_are_runs(rt: HostRuntime) -> Result<(), Fail> {
    let alloc = rt.alloc();
    let shows = "texts one behind another";
    for (step, (texts, fault)) in TEXTS.iter().enumerate() {
        let text = joined(alloc, texts)?;
        is(&rt, Place { shows, step }, &fault_of(alloc, text), fault);
    }
    let shows = "a text of a comment alone";
    for (step, (length, fault)) in LONG.iter().enumerate() {
        let text = vec![in alloc; b'#'; *length]?;
        is(
            &rt,
            Place { shows, step },
            &fault_of(alloc, text),
            &Some(*fault),
        );
    }
    Ok(())
}

/// The call of a new log's first append that is the body's sync, and the gate's.
const BODY: u64 = 6;

const GATE: u64 = 8;

static CASES: [Case; 15] = [
    Case {
        shows: "a run is accepted whole and known again",
        payloads: &[],
        failing: &[],
        limits: LOG_LIMITS,
        steps: &[
            Step::Decide(&[FIRST, SECOND], Decision::Accept { version: 2 }),
            Step::Add(&[FIRST, SECOND], LogAnswer::Accepted { version: 2 }),
            Step::Stands(2, Some(ID2)),
            Step::Entries(&[(7, 1), (7, 0)]),
            Step::Add(
                &[FIRST, SECOND],
                LogAnswer::Known {
                    version: 1,
                    same: true,
                },
            ),
            Step::Add(
                &[FIRST],
                LogAnswer::Known {
                    version: 1,
                    same: true,
                },
            ),
            // It begins within the log and goes on behind it.
            Step::Add(
                &[SECOND, BEHIND_SECOND],
                LogAnswer::Known {
                    version: 2,
                    same: false,
                },
            ),
            Step::Add(
                &[SECOND],
                LogAnswer::Known {
                    version: 2,
                    same: true,
                },
            ),
        ],
        left: &[(0, 2, Some(ID2)), (1, 2, Some(ID2)), (7, 2, Some(ID2))],
    },
    Case {
        shows: "patches by themselves are known as a run",
        payloads: &[FIRST, SECOND, BEHIND_SECOND],
        failing: &[],
        limits: LOG_LIMITS,
        steps: &[
            Step::Decide(
                &[SECOND, BEHIND_SECOND],
                Decision::Known {
                    version: 2,
                    same: true,
                },
            ),
            Step::Decide(
                &[FIRST, OTHER_SECOND],
                Decision::Known {
                    version: 1,
                    same: false,
                },
            ),
        ],
        left: &[],
    },
    Case {
        shows: "the first id of a run that stands in a log is known",
        payloads: &[FIRST, SECOND],
        failing: &[],
        limits: LOG_LIMITS,
        steps: &[
            Step::Add(
                &[NO_PREVIOUS, FIRST_BEHIND_NINTH],
                LogAnswer::Known {
                    version: 1,
                    same: false,
                },
            ),
            Step::Add(
                &[BEHIND_SECOND, SECOND_BEHIND_THIRD],
                LogAnswer::Known {
                    version: 2,
                    same: false,
                },
            ),
            Step::Add(
                &[SECOND, FIRST_BEHIND_SECOND],
                LogAnswer::Known {
                    version: 2,
                    same: false,
                },
            ),
        ],
        left: &[],
    },
    Case {
        shows: "a run goes behind the head",
        payloads: &[],
        failing: &[],
        limits: LOG_LIMITS,
        steps: &[
            Step::Add(
                &[SECOND, BEHIND_SECOND],
                LogAnswer::Conflict {
                    version: 0,
                    head: None,
                    prev_version: None,
                },
            ),
            Step::Add(&[FIRST], LogAnswer::Accepted { version: 1 }),
            Step::Add(&[SECOND], LogAnswer::Accepted { version: 2 }),
            Step::Add(
                &[THIRD, BEHIND_THIRD],
                LogAnswer::Conflict {
                    version: 2,
                    head: Some(ID2),
                    prev_version: Some(1),
                },
            ),
            Step::Add(
                &[BEHIND_SECOND, BEHIND_THIRD],
                LogAnswer::Accepted { version: 4 },
            ),
            Step::Entries(&[(7, 0), (7, 0), (7, 1), (7, 0)]),
        ],
        left: &[(0, 4, Some(ID4))],
    },
    Case {
        shows: "a run needs a place for each patch",
        payloads: &[],
        failing: &[],
        limits: LogLimits {
            patches: 2,
            bytes: LOG_BYTES,
        },
        steps: &[
            Step::Add(&[FIRST], LogAnswer::Accepted { version: 1 }),
            Step::Add(
                &[SECOND, BEHIND_SECOND],
                LogAnswer::Full {
                    what: FullKind::Patches,
                    have: 1,
                    limit: 2,
                },
            ),
            Step::Stands(1, Some(ID1)),
            Step::Add(&[SECOND], LogAnswer::Accepted { version: 2 }),
        ],
        left: &[],
    },
    Case {
        shows: "a run needs the bytes of a payload for each patch",
        payloads: &[],
        failing: &[],
        limits: LogLimits {
            patches: 2,
            bytes: 288,
        },
        steps: &[
            Step::Add(
                &[FIRST, SECOND],
                LogAnswer::Full {
                    what: FullKind::Bytes,
                    have: 289,
                    limit: 288,
                },
            ),
            Step::Stands(0, None),
        ],
        left: &[(0, 0, None)],
    },
    Case {
        shows: "a run may take all places and all bytes",
        payloads: &[],
        failing: &[],
        limits: LogLimits {
            patches: 2,
            bytes: 289,
        },
        steps: &[Step::Add(&[FIRST, SECOND], LogAnswer::Accepted { version: 2 })],
        left: &[(0, 2, Some(ID2))],
    },
    Case {
        shows: "want of memory is told of a run that could be accepted",
        payloads: &[],
        failing: &[],
        limits: LOG_LIMITS,
        steps: &[
            Step::Want(&[FIRST, SECOND], LogAnswer::OutOfMemory),
            Step::Want(
                &[SECOND, BEHIND_SECOND],
                LogAnswer::Conflict {
                    version: 0,
                    head: None,
                    prev_version: None,
                },
            ),
            Step::Made(&[FIRST, SECOND], LogAnswer::Accepted { version: 2 }),
            Step::Entries(&[(5, 1), (5, 0)]),
            Step::Want(
                &[FIRST, SECOND],
                LogAnswer::Known {
                    version: 1,
                    same: true,
                },
            ),
        ],
        left: &[],
    },
    Case {
        shows: "a run left in doubt stands whole or not at all",
        payloads: &[],
        failing: &[GATE],
        limits: LOG_LIMITS,
        steps: &[
            Step::Add(&[FIRST, SECOND], LogAnswer::DiskFault),
            Step::Stands(0, None),
            Step::IsSettled(false),
            Step::Faults(1),
        ],
        left: &[(0, 0, None), (1, 2, Some(ID2)), (7, 0, None)],
    },
    Case {
        shows: "a run whose body is not synced stands not at all",
        payloads: &[],
        failing: &[BODY],
        limits: LOG_LIMITS,
        steps: &[
            Step::Add(&[FIRST, SECOND], LogAnswer::DiskFault),
            Step::Stands(0, None),
            Step::IsSettled(true),
            Step::Faults(1),
        ],
        left: &[(0, 0, None), (1, 0, None), (7, 0, None)],
    },
    Case {
        shows: "a run in doubt makes way for a patch",
        payloads: &[],
        failing: &[GATE],
        limits: LOG_LIMITS,
        steps: &[
            Step::Add(&[FIRST, SECOND], LogAnswer::DiskFault),
            Step::Add(&[OTHER_TEXT], LogAnswer::Accepted { version: 1 }),
            Step::IsSettled(true),
        ],
        left: &[(0, 1, Some(ID1)), (1, 1, Some(ID1)), (7, 1, Some(ID1))],
    },
    Case {
        shows: "a patch in doubt makes way for a run",
        payloads: &[],
        failing: &[GATE],
        limits: LOG_LIMITS,
        steps: &[
            Step::Add(&[OTHER_TEXT], LogAnswer::DiskFault),
            Step::Add(&[FIRST, SECOND], LogAnswer::Accepted { version: 2 }),
        ],
        left: &[(0, 2, Some(ID2)), (1, 2, Some(ID2)), (7, 2, Some(ID2))],
    },
    Case {
        shows: "a run in doubt that is sent again is accepted",
        payloads: &[],
        failing: &[GATE],
        limits: LOG_LIMITS,
        steps: &[
            Step::Add(&[FIRST, SECOND], LogAnswer::DiskFault),
            Step::Add(&[FIRST, SECOND], LogAnswer::Accepted { version: 2 }),
        ],
        left: &[(0, 2, Some(ID2)), (1, 2, Some(ID2)), (7, 2, Some(ID2))],
    },
    // Call 10 is the settling's sync.
    Case {
        shows: "a run in doubt that is not settled stays in doubt",
        payloads: &[],
        failing: &[GATE, 10],
        limits: LOG_LIMITS,
        steps: &[
            Step::Add(&[FIRST, SECOND], LogAnswer::DiskFault),
            Step::Add(&[FIRST], LogAnswer::DiskFault),
            Step::IsSettled(false),
            Step::Add(&[FIRST], LogAnswer::Accepted { version: 1 }),
        ],
        left: &[(0, 1, Some(ID1)), (1, 1, Some(ID1)), (7, 1, Some(ID1))],
    },
    Case {
        shows: "a run in doubt behind another stands whole or not at all",
        payloads: &[],
        failing: &[SECOND_GATE],
        limits: LOG_LIMITS,
        steps: &[
            Step::Add(&[FIRST, SECOND], LogAnswer::Accepted { version: 2 }),
            Step::Add(&[BEHIND_SECOND, BEHIND_THIRD], LogAnswer::DiskFault),
            Step::Entries(&[(7, 1), (7, 0)]),
        ],
        left: &[(0, 2, Some(ID2)), (1, 4, Some(ID4)), (7, 2, Some(ID2))],
    },
];

#[test]
fn what_a_log_answers_to_runs_and_a_crash_leaves(rt: HostRuntime) -> Result<(), Fail> {
    for case in &CASES {
        holds(&rt, rt.alloc(), case)?;
    }
    let last = LogAnswer::Accepted { version: 2 };
    assert!(rt;
        last.as_run(2)
            == LogAnswer::AcceptedRun {
                first: 1,
                version: 2
            }
    );
    Ok(())
}

/// Runs, each by its texts.
type Runs = &'static [Texts];

/// The bytes of a file of number 1 whose payloads are these runs.
fn file_of(alloc: Global, runs: &[Texts]) -> Result<Vec<u8>, Fail> {
    let mut texts = Vec::new(alloc);
    for run in runs {
        texts.push(joined(alloc, run)?)?;
    }
    let mut payloads = Vec::new(alloc);
    for text in &texts {
        payloads.push(text.as_slice())?;
    }
    Ok(journal_of(alloc, 1, &payloads)?)
}

/// A file's payloads and the limits of its log; and the passes and rests of the log's entries, or
/// why it isn't opened.
type Opening = (Runs, LogLimits, Result<&'static [(u32, u32)], LogFault>);

static OPENINGS: [Opening; 14] = [
    (&[], LOG_LIMITS, Ok(&[])),
    (&[&[FIRST, SECOND]], LOG_LIMITS, Ok(&[(0, 1), (0, 0)])),
    (
        &[&[FIRST], &[SECOND, BEHIND_SECOND]],
        LOG_LIMITS,
        Ok(&[(0, 0), (0, 1), (0, 0)]),
    ),
    (
        &[&[FIRST, SECOND, BEHIND_SECOND], &[BEHIND_THIRD]],
        LOG_LIMITS,
        Ok(&[(0, 2), (0, 1), (0, 0), (0, 0)]),
    ),
    // A payload is no run, and the version is that of its first patch.
    (
        &[&[FIRST, BEHIND_SECOND]],
        LOG_LIMITS,
        Err(LogFault::BrokenChain { version: 1 }),
    ),
    (
        &[&[FIRST], &[SECOND, THIRD]],
        LOG_LIMITS,
        Err(LogFault::BrokenChain { version: 2 }),
    ),
    (
        &[&[FIRST, SECOND], &[BEHIND_SECOND, NO_CODE]],
        LOG_LIMITS,
        Err(LogFault::BrokenChain { version: 3 }),
    ),
    (
        &[&[FIRST, SECOND], &[]],
        LOG_LIMITS,
        Err(LogFault::BrokenChain { version: 3 }),
    ),
    // It doesn't go behind the others, or has an id of theirs.
    (
        &[&[FIRST, SECOND], &[THIRD, BEHIND_THIRD]],
        LOG_LIMITS,
        Err(LogFault::BrokenChain { version: 3 }),
    ),
    (
        &[&[FIRST, SECOND], &[BEHIND_SECOND, SECOND_BEHIND_THIRD]],
        LOG_LIMITS,
        Err(LogFault::BrokenChain { version: 3 }),
    ),
    // There are too many patches, or the bytes of a payload for each are too many, or those
    // of the file.
    (
        &[&[FIRST], &[SECOND, BEHIND_SECOND]],
        LogLimits {
            patches: 2,
            bytes: LOG_BYTES,
        },
        Err(LogFault::BrokenChain { version: 2 }),
    ),
    (
        &[&[FIRST, SECOND]],
        LogLimits {
            patches: 2,
            bytes: 289,
        },
        Ok(&[(0, 1), (0, 0)]),
    ),
    (
        &[&[FIRST, SECOND]],
        LogLimits {
            patches: 2,
            bytes: 288,
        },
        Err(LogFault::OverLimit {
            length: 289,
            limit: 288,
        }),
    ),
    (
        &[&[FIRST, SECOND]],
        LogLimits {
            patches: 2,
            bytes: 279,
        },
        Err(LogFault::OverLimit {
            length: 280,
            limit: 279,
        }),
    ),
];

// Whether a file opens within limits with these entries, or has this fault.
fn opens(
    alloc: Global,
    disk: MemDisk,
    limits: LogLimits,
    wanted: &Result<&[(u32, u32)], LogFault>,
) -> bool {
    match LogState::open_on(alloc, disk, 1, limits) {
        Ok(log) => {
            let same = wanted.is_ok_and(|entries| has_entries(&log, entries));
            drop(log);
            same
        }
        Err(refusal) => {
            let fault = refusal.fault;
            drop(refusal);
            *wanted == Err(fault)
        }
    }
}

#[test]
fn runs_are_found_in_a_file_or_its_fault_is_told(rt: HostRuntime) -> Result<(), Fail> {
    let alloc = rt.alloc();
    let shows = "a file of runs";
    for (step, (runs, limits, wanted)) in OPENINGS.iter().enumerate() {
        let file = file_of(alloc, runs)?;
        let disk = disk_of(alloc, &file, &[])?;
        is(
            &rt,
            Place { shows, step },
            &opens(alloc, disk, *limits, wanted),
            &true,
        );
    }
    Ok(())
}

/// Runs that are appended to an empty log, and the length of its file then.
static FILES: [(Runs, usize); 4] = [
    (&[&[FIRST]], 122),
    (&[&[FIRST, SECOND]], 280),
    (&[&[FIRST], &[SECOND]], 289),
    (&[&[FIRST, SECOND], &[BEHIND_SECOND, BEHIND_THIRD]], 497),
];

// The version up to which runs are acknowledged, one behind another.
fn append_each(alloc: Global, log: &mut LogState<MemDisk>, runs: &[Texts]) -> Result<u32, Fail> {
    let mut acknowledged = 0u32;
    for run in runs {
        if let LogAnswer::Accepted { version } = add(alloc, log, run)? {
            acknowledged = version;
        }
    }
    Ok(acknowledged)
}

// A crash leaves this file.
fn leaves_file(rt: &impl Abort, at: Place, disk: &MemDisk, file: &[u8]) -> Result<(), Fail> {
    for choice in [0, 1, 7] {
        let left = disk.image(choice)?;
        are_bytes(rt, at, left.as_slice(), file);
    }
    Ok(())
}

// The file of a log to which runs were appended is that of their payloads.
fn is_file_of(
    rt: &impl Abort,
    alloc: Global,
    at: Place,
    runs: &[Texts],
    length: usize,
) -> Result<(), Fail> {
    let file = file_of(alloc, runs)?;
    is(rt, at, &file.len(), &length);
    let mut log = open(alloc, disk_of(alloc, EMPTY, &[])?, LOG_LIMITS)?;
    let acknowledged = append_each(alloc, &mut log, runs);
    let disk = log.close();
    let left = acknowledged.and_then(|_| leaves_file(rt, at, &disk, &file));
    drop(disk);
    left
}

#[test]
fn each_run_is_one_payload_of_a_file(rt: HostRuntime) -> Result<(), Fail> {
    let shows = "the file of runs";
    for (step, (runs, length)) in FILES.iter().enumerate() {
        is_file_of(&rt, rt.alloc(), Place { shows, step }, runs, *length)?;
    }
    Ok(())
}

/// Runs of two patches, one behind the other.
const TWO_RUNS: Runs = &[&[FIRST, SECOND], &[BEHIND_SECOND, BEHIND_THIRD]];

// A crash leaves the runs that were acknowledged, or one more, and none in part.
fn leaves_whole(
    rt: &impl Abort,
    alloc: Global,
    at: Place,
    disk: &MemDisk,
    acknowledged: u32,
) -> Result<(), Fail> {
    for choice in [0, 1, 7] {
        let (version, _, _) = found_in(alloc, disk, choice)?;
        let more = version.wrapping_sub(acknowledged);
        is(rt, at, &(more == 0 || more == 2), &true);
    }
    Ok(())
}

// A stop after so many calls behind the opening's, of which an append makes five.
fn stops(rt: &impl Abort, alloc: Global, at: Place, calls: u32) -> Result<(), Fail> {
    let empty = Bytes::from_slice(alloc, EMPTY)?;
    let disk = MemDisk::with_fuse(alloc, empty, 4 + u64::from(calls))?;
    let mut log = open(alloc, disk, LOG_LIMITS)?;
    let acknowledged = append_each(alloc, &mut log, TWO_RUNS);
    let disk = log.close();
    let left = acknowledged.and_then(|version| {
        is(rt, at, &version, &(calls / 5 * 2));
        leaves_whole(rt, alloc, at, &disk, version)
    });
    drop(disk);
    left
}

#[test]
fn each_stop_leaves_runs_whole(rt: HostRuntime) -> Result<(), Fail> {
    let shows = "a stop after so many calls";
    for calls in 0..11u32 {
        let step = calls as usize;
        stops(&rt, rt.alloc(), Place { shows, step }, calls)?;
    }
    Ok(())
}
