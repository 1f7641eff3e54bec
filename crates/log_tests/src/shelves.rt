//! Files in memory: the files of two logs as they are made and with patches, what a check tells of
//! them, and what stops the work.
use crate::files::takes;
use crate::tables::{Place, are_bytes, is};
use delta_base::{Id, Text};
use disk_model::{Disk, MemDisk, MemShelf, Shelf};
use log_base::MOST_SLOTS;
use slot_checks::{CheckFault, FileLine, Report, check_files, fault_text, report_text};
use slot_files::{InitFault, init_slots};
use std::alloc::Global;
use std::process::Abort;
use std::test::Fail;
use worked_rows::calls;

/// A call on a shelf or a look at it, with what that gives.
#[derive(Clone, Copy)]
enum Step {
    /// The file of a number is taken, holds these bytes, is written from a place on, and is
    /// put back.
    Write(u32, &'static [u8], u64, &'static [u8]),
    /// The file of a number is taken and put back, where no call fails.
    Take(u32, bool),
    /// The file of a number holds these bytes, where it is there.
    Holds(u32, Option<&'static [u8]>),
    /// Another folder has no file of this number.
    NoOther(u32),
    /// The files of so many logs are made.
    Make(u8, Result<(), InitFault>),
    /// A check tells this text.
    Tells(&'static [u8]),
    /// A check has these lines.
    Lists(&'static [FileLine]),
    /// A check finds this fault.
    Breaks(CheckFault),
    Faults(u64),
}

struct Case {
    shows: &'static str,
    /// The numbers of the calls that fail.
    failing: &'static [u64],
    steps: &'static [Step],
}

/// The registry of two logs.
const REGISTRY: &[u8] = b"RDJ2\0\0\0\0\x01\0\0\0\x01\0\0\0\x03S 2\0";

/// A new file of the first log, and of the second.
const NEW1: &[u8] = b"RDJ2\0\0\0\x01\0";

const NEW2: &[u8] = b"RDJ2\0\0\0\x02\0";

static SHELVES: [Case; 2] = [
    // A new file is empty, and what is put back stands in the place of what was there.
    Case {
        shows: "a shelf in memory keeps its files",
        failing: &[],
        steps: &[
            Step::Holds(1, None),
            Step::Write(1, b"", 0, b"abc"),
            Step::Holds(1, Some(b"abc")),
            Step::Holds(2, None),
            Step::NoOther(1),
            Step::Write(1, b"abc", 0, b"X"),
            Step::Holds(1, Some(b"Xbc")),
        ],
    },
    Case {
        shows: "a listed call of a shelf fails",
        failing: &[1],
        steps: &[Step::Take(1, true), Step::Take(2, false), Step::Faults(1)],
    },
];

static MAKINGS: [Case; 6] = [
    Case {
        shows: "two logs have three files",
        failing: &[],
        steps: &[
            Step::Make(2, Ok(())),
            Step::Holds(0, Some(REGISTRY)),
            Step::Holds(1, Some(NEW1)),
            Step::Holds(2, Some(NEW2)),
            Step::Holds(3, None),
            Step::Make(
                2,
                Err(InitFault::NotEmpty {
                    number: 1,
                    length: 9,
                }),
            ),
        ],
    },
    Case {
        shows: "sixteen slots have two digits",
        failing: &[],
        steps: &[
            Step::Make(16, Ok(())),
            Step::Holds(0, Some(b"RDJ2\0\0\0\0\x01\0\0\0\x01\0\0\0\x04S 16\0")),
            Step::Holds(16, Some(b"RDJ2\0\0\0\x10\0")),
        ],
    },
    Case {
        shows: "a registry that has bytes is found last",
        failing: &[],
        steps: &[
            Step::Write(0, b"", 0, b"abc"),
            Step::Make(
                1,
                Err(InitFault::NotEmpty {
                    number: 0,
                    length: 3,
                }),
            ),
            Step::Holds(0, Some(b"abc")),
            Step::Holds(1, Some(NEW1)),
        ],
    },
    Case {
        shows: "the first call of a shelf fails",
        failing: &[0],
        steps: &[Step::Make(2, Err(InitFault::Failed)), Step::Faults(1)],
    },
    Case {
        shows: "the second call of a shelf fails",
        failing: &[1],
        steps: &[Step::Make(2, Err(InitFault::Failed)), Step::Faults(1)],
    },
    Case {
        shows: "the third call of a shelf fails",
        failing: &[2],
        steps: &[Step::Make(2, Err(InitFault::Failed)), Step::Faults(1)],
    },
];

/// The frame of a payload with a patch, behind a journal's number.
const PATCH: &[u8] =
    b"\x01\0\0\0\x01\0\0\0\x33H id <uuid:00000000-0000-4000-8000-000000000001> .\n\0";

/// The same of a run of two patches, and of a payload behind it that is none.
const RUN: &[u8] =
    b"\x01\0\0\0\x01\0\0\0\x9bH id <uuid:00000000-0000-4000-8000-000000000001> .\nH id <uuid:00000000-0000-4000-8000-000000000002> .\nH prev <uuid:00000000-0000-4000-8000-000000000001> .\n\0";

const BEHIND_RUN: &[u8] =
    b"\x01\0\0\0\x01\0\0\0\x9bH id <uuid:00000000-0000-4000-8000-000000000001> .\nH id <uuid:00000000-0000-4000-8000-000000000002> .\nH prev <uuid:00000000-0000-4000-8000-000000000001> .\n\x01\0\0\0\x02\0\0\0\x01X\0";

static CHECKS: [Case; 7] = [
    Case {
        shows: "files just made are told",
        failing: &[],
        steps: &[
            Step::Make(2, Ok(())),
            Step::Tells(
                b"file 0 records 1\nfile 1 patches 0 head none\nfile 2 patches 0 head none\n",
            ),
            Step::Holds(1, Some(NEW1)),
            Step::Holds(3, None),
            Step::Faults(0),
        ],
    },
    Case {
        shows: "a patch is told with its id",
        failing: &[],
        steps: &[
            Step::Make(2, Ok(())),
            Step::Write(1, NEW1, 8, PATCH),
            Step::Tells(
                b"file 0 records 1\nfile 1 patches 1 head 00000000-0000-4000-8000-000000000001\nfile 2 patches 0 head none\n",
            ),
        ],
    },
    Case {
        shows: "a run is told by its patches",
        failing: &[],
        steps: &[
            Step::Make(2, Ok(())),
            Step::Write(1, NEW1, 8, RUN),
            Step::Tells(
                b"file 0 records 1\nfile 1 patches 2 head 00000000-0000-4000-8000-000000000002\nfile 2 patches 0 head none\n",
            ),
        ],
    },
    Case {
        shows: "a report has a line for each file",
        failing: &[],
        steps: &[
            Step::Make(2, Ok(())),
            Step::Write(1, NEW1, 8, PATCH),
            Step::Lists(&[
                FileLine::Registry { records: 1 },
                FileLine::Log {
                    number: 1,
                    patches: 1,
                    head: Some(Id(0x0000_0000_0000_4000_8000_0000_0000_0001)),
                },
                FileLine::Log {
                    number: 2,
                    patches: 0,
                    head: None,
                },
            ]),
        ],
    },
    Case {
        shows: "a file that is missing is made empty",
        failing: &[],
        steps: &[
            Step::Breaks(CheckFault::Damaged { file: 0, at: 0 }),
            Step::Holds(0, Some(b"")),
        ],
    },
    Case {
        shows: "a shelf that fails at its first call is told",
        failing: &[0],
        steps: &[Step::Breaks(CheckFault::Failed), Step::Faults(1)],
    },
    Case {
        shows: "a shelf that fails at its second call has another fault first",
        failing: &[1],
        steps: &[
            Step::Breaks(CheckFault::Damaged { file: 0, at: 0 }),
            Step::Faults(0),
        ],
    },
];

fn write_within(disk: &mut MemDisk, at: u64, bytes: &[u8]) -> Result<(), Fail> {
    if at <= disk.len()? {
        disk.write_at(at, bytes)?;
    }
    Ok(())
}

fn write(
    rt: &impl Abort,
    at: Place,
    shelf: &mut MemShelf,
    dir: &Text,
    (number, held, from, bytes): (u32, &[u8], u64, &[u8]),
) -> Result<(), Fail> {
    match shelf.disk(dir, number) {
        Ok(mut disk) => {
            is(rt, at, &disk.len(), &Ok(held.len() as u64));
            is(rt, at, &shelf.file(dir, number), &Some(held));
            let written = write_within(&mut disk, from, bytes);
            shelf.put_back(disk);
            written
        }
        Err(_) => Err(Fail::from("no disk")),
    }
}

fn has_no_other(
    rt: &impl Abort,
    alloc: Global,
    at: Place,
    shelf: &MemShelf,
    number: u32,
) -> Result<(), Fail> {
    let other = Text::from_str(alloc, "e")?;
    is(rt, at, &shelf.file(&other, number), &None);
    Ok(())
}

/// What the making of files for so many logs answers.
fn make(
    alloc: Global,
    shelf: &mut MemShelf,
    dir: &Text,
    slots: u8,
) -> Result<Result<(), InitFault>, Fail> {
    if slots == 0 || u32::from(slots) > MOST_SLOTS {
        return Err(Fail::from("no number of slots"));
    }
    Ok(init_slots(alloc, shelf, dir, slots))
}

fn told(alloc: Global, shelf: &mut MemShelf, dir: &Text) -> Result<Vec<u8>, Fail> {
    let report = check_files(alloc, shelf, dir)?;
    let text = report_text(alloc, &report);
    drop(report);
    Ok(text?)
}

fn tells(
    rt: &impl Abort,
    alloc: Global,
    at: Place,
    shelf: &mut MemShelf,
    dir: &Text,
    wanted: &[u8],
) -> Result<(), Fail> {
    let text = told(alloc, shelf, dir)?;
    are_bytes(rt, at, text.as_slice(), wanted);
    Ok(())
}

fn lists(found: Result<Report, CheckFault>, lines: &[FileLine]) -> bool {
    match found {
        Ok(report) => {
            let same = report.as_slice() == lines;
            drop(report);
            same
        }
        Err(_) => false,
    }
}

fn fault_in(found: Result<Report, CheckFault>) -> Option<CheckFault> {
    match found {
        Ok(report) => {
            drop(report);
            None
        }
        Err(fault) => Some(fault),
    }
}

fn goes(
    rt: &impl Abort,
    alloc: Global,
    at: Place,
    (shelf, dir): (&mut MemShelf, &Text),
    step: &Step,
) -> Result<(), Fail> {
    match *step {
        Step::Write(number, held, from, bytes) => {
            write(rt, at, shelf, dir, (number, held, from, bytes))?;
        }
        Step::Take(number, well) => is(rt, at, &takes(shelf, dir, number).is_ok(), &well),
        Step::Holds(number, bytes) => is(rt, at, &shelf.file(dir, number), &bytes),
        Step::NoOther(number) => has_no_other(rt, alloc, at, shelf, number)?,
        Step::Make(slots, answer) => is(rt, at, &make(alloc, shelf, dir, slots)?, &answer),
        Step::Tells(text) => tells(rt, alloc, at, shelf, dir, text)?,
        Step::Lists(lines) => is(rt, at, &lists(check_files(alloc, shelf, dir), lines), &true),
        Step::Breaks(fault) => {
            let found = fault_in(check_files(alloc, shelf, dir));
            is(rt, at, &found, &Some(fault));
        }
        Step::Faults(faults) => is(rt, at, &shelf.faults(), &faults),
    }
    Ok(())
}

fn goes_through(
    rt: &impl Abort,
    alloc: Global,
    shelf: &mut MemShelf,
    shows: &'static str,
    steps: &[Step],
) -> Result<(), Fail> {
    let dir = Text::from_str(alloc, "d")?;
    for (step, wanted) in steps.iter().enumerate() {
        goes(rt, alloc, Place { shows, step }, (shelf, &dir), wanted)?;
    }
    Ok(())
}

fn holds(
    rt: &impl Abort,
    alloc: Global,
    shows: &'static str,
    failing: &[u64],
    steps: &[Step],
) -> Result<(), Fail> {
    let mut shelf = MemShelf::new(alloc, calls(alloc, failing)?);
    let gone = goes_through(rt, alloc, &mut shelf, shows, steps);
    drop(shelf);
    gone
}

fn hold(rt: &impl Abort, alloc: Global, cases: &[Case]) -> Result<(), Fail> {
    for case in cases {
        holds(rt, alloc, case.shows, case.failing, case.steps)?;
    }
    Ok(())
}

#[test]
fn what_a_shelf_in_memory_holds_and_a_check_tells_of_it(rt: HostRuntime) -> Result<(), Fail> {
    hold(&rt, rt.alloc(), &SHELVES)?;
    hold(&rt, rt.alloc(), &MAKINGS)?;
    hold(&rt, rt.alloc(), &CHECKS)
}

/// What a row shows; the number of one of the files of two logs, what it holds, and bytes that are
/// written from a place of it on; and the first fault of the files then.
type Broken = (
    &'static str,
    u32,
    &'static [u8],
    u64,
    &'static [u8],
    CheckFault,
);

static FAULTS: [Broken; 10] = [
    (
        "another form of file 0",
        0,
        REGISTRY,
        0,
        b"X",
        CheckFault::Damaged { file: 0, at: 0 },
    ),
    (
        "a first payload that tells no slots",
        0,
        REGISTRY,
        17,
        b"T",
        CheckFault::BrokenEvent { place: 0 },
    ),
    (
        "a second payload without an event",
        0,
        REGISTRY,
        20,
        b"\x01\0\0\0\x02\0\0\0\0\0",
        CheckFault::BrokenEvent { place: 1 },
    ),
    (
        "a registry without payloads",
        0,
        REGISTRY,
        8,
        b"\0",
        CheckFault::BrokenEvent { place: 0 },
    ),
    (
        "a gate with nothing behind it",
        1,
        NEW1,
        8,
        b"\x01",
        CheckFault::Damaged { file: 1, at: 9 },
    ),
    (
        "a registry of the form before",
        0,
        REGISTRY,
        3,
        b"1",
        CheckFault::OldFormat { file: 0 },
    ),
    (
        "a log of the form before, with another file's number",
        2,
        NEW2,
        3,
        b"1\0\0\0\x05",
        CheckFault::OldFormat { file: 2 },
    ),
    (
        "another file's number",
        2,
        NEW2,
        7,
        b"\x05",
        CheckFault::WrongNumber { file: 2, found: 5 },
    ),
    (
        "a payload that is no patch",
        2,
        NEW2,
        8,
        b"\x01\0\0\0\x01\0\0\0\x01X\0",
        CheckFault::BrokenChain {
            file: 2,
            version: 1,
        },
    ),
    (
        "a payload behind a run that is no patch",
        1,
        NEW1,
        8,
        BEHIND_RUN,
        CheckFault::BrokenChain {
            file: 1,
            version: 3,
        },
    ),
];

#[test]
fn the_first_fault_of_files_is_told(rt: HostRuntime) -> Result<(), Fail> {
    for (shows, number, held, from, bytes, fault) in FAULTS {
        let steps = [
            Step::Make(2, Ok(())),
            Step::Write(number, held, from, bytes),
            Step::Breaks(fault),
        ];
        holds(&rt, rt.alloc(), shows, &[], &steps)?;
    }
    Ok(())
}

static LINES: [(CheckFault, &str); 8] = [
    (
        CheckFault::Damaged { file: 1, at: 9 },
        "rdfdelta: file 1: byte 9: damaged\n",
    ),
    (
        CheckFault::OldFormat { file: 0 },
        "rdfdelta: file 0: old format\n",
    ),
    (
        CheckFault::WrongNumber { file: 2, found: 5 },
        "rdfdelta: file 2: wrong number 5\n",
    ),
    (
        CheckFault::OverLimit {
            file: 0,
            length: 2_097_153,
            limit: 2_097_152,
        },
        "rdfdelta: file 0: over limit: have 2097153, limit 2097152\n",
    ),
    (
        CheckFault::BrokenChain {
            file: 16,
            version: 3,
        },
        "rdfdelta: file 16: broken chain at version 3\n",
    ),
    (
        CheckFault::BrokenEvent { place: 1 },
        "rdfdelta: file 0: broken event at 1\n",
    ),
    (CheckFault::Failed, "rdfdelta: disk failed\n"),
    (CheckFault::OutOfMemory, "rdfdelta: out of memory\n"),
];

#[test]
fn each_fault_has_its_line(rt: HostRuntime) -> Result<(), Fail> {
    for (fault, line) in LINES {
        let text = fault_text(rt.alloc(), fault)?;
        assert!(rt; text.as_slice() == line.as_bytes(), "{line}");
    }
    Ok(())
}
