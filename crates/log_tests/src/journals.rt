//! Journals: why a file isn't opened, what writes and appends answer, and what a crash leaves.
ghost use Rattle.std.specs.Prelude.{IfOk, IsTrue};
ghost use Rattle.log_journal.specs.StandsFor.{is_settled};

use crate::tables::{EMPTY, Place, are_bytes, is, no_calls};
use delta_base::{Bytes, Failed};
use disk_model::{Disk, MemDisk, PlanDisk};
use log_base::Phase;
use log_journal::{AppendFault, Journal, JournalFault, Payloads, make_block, write};
use std::alloc::Global;
use std::process::Abort;
use std::test::Fail;
use worked_rows::disk_of;

// The journal of number 1 on a disk, and its payloads.
fn open<D: Disk + Drop>(alloc: Global, disk: D) -> Result<(Journal<D>, Payloads), Fail>
    ensures { IfOk result (λ opened. IsTrue (is_settled opened.0)) }
{
    match Journal::open_on(alloc, disk, 1, 1000) {
        Ok(opened) => Ok(opened),
        Err(refusal) => {
            drop(refusal);
            Err(Fail::from("refused"))
        }
    }
}

// The journal alone.
fn journal_on<D: Disk + Drop>(alloc: Global, disk: D) -> Result<Journal<D>, Fail>
    ensures { IfOk result (λ journal. IsTrue (is_settled journal)) }
{
    let (journal, payloads) = open(alloc, disk)?;
    drop(payloads);
    Ok(journal)
}

// Why a disk isn't opened as number 1 within so many bytes.
fn fault_of(alloc: Global, disk: MemDisk, limit: u64) -> Option<JournalFault> {
    match Journal::open_on(alloc, disk, 1, limit) {
        Ok(opened) => {
            drop(opened);
            None
        }
        Err(refusal) => {
            let fault = refusal.fault;
            drop(refusal);
            Some(fault)
        }
    }
}

/// A file that is opened within 18 bytes, and its fault.
type Opening = (&'static [u8], JournalFault);

static OPENINGS: [Opening; 20] = [
    (b"RDJ2\0\0\0\x01", JournalFault::Damaged { at: 8 }),
    (b"RDJ2\0\0\0\x02", JournalFault::WrongNumber { found: 2 }),
    (b"RDJ2\0\0\0", JournalFault::Damaged { at: 0 }),
    (b"RDJ3\0\0\0\x01\0", JournalFault::Damaged { at: 0 }),
    (b"", JournalFault::Damaged { at: 0 }),
    (b"RDJ2\0\0\0\x02\0", JournalFault::WrongNumber { found: 2 }),
    // The form before this one, with any number.
    (b"RDJ1\0\0\0\x01\x07", JournalFault::OldFormat),
    (b"RDJ1\0\0\0\x02\0", JournalFault::OldFormat),
    (b"RDJ1\0\0\0\x01", JournalFault::OldFormat),
    (b"RDJ1\0\0\0", JournalFault::Damaged { at: 0 }),
    // A running number that breaks off, and one that isn't the next.
    (b"RDJ2\0\0\0\x01\x01", JournalFault::Damaged { at: 9 }),
    (b"RDJ2\0\0\0\x01\x01\0\0\0", JournalFault::Damaged { at: 9 }),
    (
        b"RDJ2\0\0\0\x01\x01\0\0\0\x02",
        JournalFault::Damaged { at: 9 },
    ),
    (
        b"RDJ2\0\0\0\x01\x01\0\0\0\x01\0\0\0\x01a\x01\0\0\0\x01\0\0\0\0\0",
        JournalFault::Damaged { at: 19 },
    ),
    // A length that breaks off, a payload that does, and a whole one without the gate behind it.
    (
        b"RDJ2\0\0\0\x01\x01\0\0\0\x01\0\0\0",
        JournalFault::Damaged { at: 13 },
    ),
    (
        b"RDJ2\0\0\0\x01\x01\0\0\0\x01\0\0\0\x02a",
        JournalFault::Damaged { at: 17 },
    ),
    (
        b"RDJ2\0\0\0\x01\x01\0\0\0\x01\0\0\0\0",
        JournalFault::Damaged { at: 17 },
    ),
    (
        b"RDJ2\0\0\0\x01\x01\0\0\0\x01\0\0\0\x02ab",
        JournalFault::Damaged { at: 19 },
    ),
    (
        b"RDJ2\0\0\0\x01\x01\0\0\0\x01\0\0\0\x01a\x01\0\0\0\x02\0\0\0\x01",
        JournalFault::Damaged { at: 27 },
    ),
    (
        b"RDJ2\0\0\0\x01\x01\0\0\0\x01\0\0\0\x01a\0",
        JournalFault::OverLimit {
            length: 19,
            limit: 18,
        },
    ),
];

/// A call of an opening that fails, and the fault then. A sync, a look at the length, the header,
/// the first gate, and twice three reads: call 10 is none of the opening's.
static READS: [(u64, Option<JournalFault>); 2] = [(9, Some(JournalFault::Failed)), (10, None)];

#[test]
fn each_fault_of_a_file_has_its_place(rt: HostRuntime) -> Result<(), Fail> {
    let alloc = rt.alloc();
    let shows = "a file within 18 bytes";
    for (step, (image, fault)) in OPENINGS.iter().enumerate() {
        let found = fault_of(alloc, disk_of(alloc, image, &[])?, 18);
        is(&rt, Place { shows, step }, &found, &Some(*fault));
    }
    let image = b"RDJ2\0\0\0\x01\x01\0\0\0\x01\0\0\0\x01a\x01\0\0\0\x02\0\0\0\x02bc\0tail";
    let shows = "each payload is read in three";
    for (step, (call, fault)) in READS.iter().enumerate() {
        let found = fault_of(alloc, disk_of(alloc, image, &[*call])?, 1000);
        is(&rt, Place { shows, step }, &found, fault);
    }
    Ok(())
}

/// A call of a journal or a look at it, with what that gives.
enum Step {
    /// An append of `abc` to a journal that is settled.
    Append(Result<(), AppendFault>),
    /// A write of `abc`, for which there's room.
    Write(Result<(), Phase>),
    Settle(Result<(), Failed>),
    Length(u64),
    IsSettled(bool),
    /// There's room for a payload of this length.
    HasRoom(u64, bool),
}

/// What a crash leaves where this is chosen of what isn't synced.
enum Left {
    /// So many payloads, each of which is `abc`.
    Payloads(u64, usize),
    File(u64, &'static [u8]),
}

struct Case {
    shows: &'static str,
    /// The file that is opened, or none where one is made of an empty disk.
    file: Option<&'static [u8]>,
    /// The numbers of the calls that fail. The opening of a file without payloads makes a sync,
    /// a look at the length and two reads, and an append five calls.
    failing: &'static [u64],
    steps: &'static [Step],
    faults: u64,
    left: &'static [Left],
}

static CASES: [Case; 5] = [
    Case {
        shows: "a gate of seven is shut",
        file: Some(b"RDJ2\0\0\0\x01\x07"),
        failing: &[],
        steps: &[
            Step::Length(9),
            Step::IsSettled(true),
            Step::HasRoom(982, true),
            Step::HasRoom(983, false),
        ],
        faults: 0,
        left: &[Left::Payloads(0, 0)],
    },
    Case {
        shows: "a failed gate is in doubt until it is settled",
        file: Some(EMPTY),
        failing: &[8],
        steps: &[
            Step::Append(Err(AppendFault::Failed)),
            Step::Length(9),
            Step::IsSettled(false),
            Step::Settle(Ok(())),
        ],
        faults: 1,
        left: &[
            Left::Payloads(0, 0),
            Left::Payloads(1, 0),
            Left::Payloads(7, 0),
        ],
    },
    Case {
        shows: "a crash in doubt leaves the payload or not",
        file: Some(EMPTY),
        failing: &[8],
        steps: &[
            Step::Append(Err(AppendFault::Failed)),
            Step::Length(9),
            Step::IsSettled(false),
        ],
        faults: 1,
        left: &[Left::Payloads(0, 0), Left::Payloads(1, 1)],
    },
    // The gate's sync fails, then the settling's write, and then the sync of the body.
    Case {
        shows: "a write settles first",
        file: Some(EMPTY),
        failing: &[8, 9, 14],
        steps: &[
            Step::Write(Err(Phase::Gate)),
            Step::Write(Err(Phase::Settling)),
            Step::Write(Err(Phase::Body)),
            Step::Write(Ok(())),
            Step::Length(21),
        ],
        faults: 3,
        left: &[],
    },
    Case {
        shows: "a new journal takes a payload",
        file: None,
        failing: &[],
        steps: &[Step::Length(9), Step::Append(Ok(()))],
        faults: 0,
        left: &[Left::File(0, b"RDJ2\0\0\0\x01\x01\0\0\0\x01\0\0\0\x03abc\0")],
    },
];

// A new journal on an empty disk.
fn started(alloc: Global) -> Result<Journal<MemDisk>, Fail> {
    match Journal::start_on(MemDisk::new(alloc, no_calls(alloc)), 1, 1000) {
        Ok(journal) => Ok(journal),
        Err(refusal) => {
            drop(refusal);
            Err(Fail::from("refused"))
        }
    }
}

fn journal_of(alloc: Global, case: &Case) -> Result<Journal<MemDisk>, Fail> {
    match case.file {
        Some(file) => journal_on(alloc, disk_of(alloc, file, case.failing)?),
        None => started(alloc),
    }
}

/// What an append of a short payload answers.
pub fn append_to(
    alloc: Global,
    journal: &mut Journal<MemDisk>,
    payload: &[u8],
) -> Result<Result<(), AppendFault>, Fail> {
    if !journal.is_settled() || journal.count() == u32::MAX || payload.len() > 1000 {
        return Err(Fail::from("not settled, full or long"));
    }
    let block = make_block(alloc, payload)?;
    let answer = journal.append(&block);
    drop(block);
    Ok(answer)
}

// What an append of `abc` answers, or a write of it.
fn append(alloc: Global, journal: &mut Journal<MemDisk>) -> Result<Result<(), AppendFault>, Fail> {
    append_to(alloc, journal, b"abc")
}

fn write_abc<D: Disk + Drop>(
    alloc: Global,
    journal: &mut Journal<D>,
) -> Result<Result<(), Phase>, Fail> {
    if !journal.room_for(3) || journal.count() == u32::MAX {
        return Err(Fail::from("no room"));
    }
    let block = make_block(alloc, b"abc")?;
    let answer = write(journal, &block);
    drop(block);
    Ok(answer)
}

fn goes(
    rt: &impl Abort,
    alloc: Global,
    at: Place,
    journal: &mut Journal<MemDisk>,
    step: &Step,
) -> Result<(), Fail> {
    match step {
        Step::Append(answer) => is(rt, at, &append(alloc, journal)?, answer),
        Step::Write(answer) => is(rt, at, &write_abc(alloc, journal)?, answer),
        Step::Settle(answer) => is(rt, at, &journal.settle(), answer),
        Step::Length(length) => is(rt, at, &journal.length(), length),
        Step::IsSettled(settled) => is(rt, at, &journal.is_settled(), settled),
        Step::HasRoom(payload, room) => is(rt, at, &journal.room_for(*payload), room),
    }
    Ok(())
}

fn goes_through(
    rt: &impl Abort,
    alloc: Global,
    journal: &mut Journal<MemDisk>,
    case: &Case,
) -> Result<(), Fail> {
    let shows = case.shows;
    for (step, wanted) in case.steps.iter().enumerate() {
        goes(rt, alloc, Place { shows, step }, journal, wanted)?;
    }
    Ok(())
}

// How many payloads a file holds, each of which is `abc`.
fn count_of(alloc: Global, file: Bytes) -> Result<usize, Fail> {
    let (journal, payloads) = open(alloc, MemDisk::from_image(alloc, file, no_calls(alloc))?)?;
    drop(journal);
    let count = payloads.len();
    let alike = payloads
        .as_slice()
        .iter()
        .all(|payload| payload.as_slice() == b"abc".as_slice());
    drop(payloads);
    if alike {
        Ok(count)
    } else {
        Err(Fail::from("another payload"))
    }
}

fn leaves(
    rt: &impl Abort,
    alloc: Global,
    at: Place,
    disk: &MemDisk,
    left: &Left,
) -> Result<(), Fail> {
    match left {
        Left::Payloads(choice, count) => {
            is(rt, at, &count_of(alloc, disk.image(*choice)?)?, count);
        }
        Left::File(choice, file) => {
            let image = disk.image(*choice)?;
            are_bytes(rt, at, image.as_slice(), file);
            drop(image);
        }
    }
    Ok(())
}

fn leaves_all(rt: &impl Abort, alloc: Global, disk: &MemDisk, case: &Case) -> Result<(), Fail> {
    let shows = case.shows;
    for (step, left) in case.left.iter().enumerate() {
        leaves(rt, alloc, Place { shows, step }, disk, left)?;
    }
    Ok(())
}

fn holds(rt: &impl Abort, alloc: Global, case: &Case) -> Result<(), Fail> {
    let mut journal = journal_of(alloc, case)?;
    let gone = goes_through(rt, alloc, &mut journal, case);
    let disk = journal.close();
    assert!(rt; disk.faults() == case.faults, "{}", case.shows);
    let left = gone.and_then(|()| leaves_all(rt, alloc, &disk, case));
    drop(disk);
    left
}

#[test]
fn what_a_journal_answers_and_a_crash_leaves(rt: HostRuntime) -> Result<(), Fail> {
    for case in &CASES {
        holds(&rt, rt.alloc(), case)?;
    }
    Ok(())
}

/// Plans of syncs that fail, each with what a write answers then.
static PLANS: [(Option<u64>, Result<(), Phase>); 5] = [
    (Some(1), Err(Phase::Gate)),
    (Some(0), Err(Phase::Settling)),
    (Some(1), Err(Phase::Body)),
    (Some(2), Ok(())),
    (Some(1), Err(Phase::Gate)),
];

fn writes_as_planned(
    rt: &impl Abort,
    alloc: Global,
    journal: &mut Journal<PlanDisk>,
) -> Result<(), Fail> {
    let shows = "a planned sync fails in its phase";
    for (step, (next, answer)) in PLANS.iter().enumerate() {
        journal.plan(*next);
        is(
            rt,
            Place { shows, step },
            &write_abc(alloc, journal)?,
            answer,
        );
    }
    assert!(rt; !journal.is_short());
    Ok(())
}

// The second payload is in doubt: what was synced has one payload, and with 1 for what wasn't
// there are two.
fn leaves_doubt(rt: &impl Abort, alloc: Global, disk: &PlanDisk) -> Result<(), Fail> {
    for (choice, count) in [(0, 1), (257, 2)] {
        let left = count_of(alloc, disk.image(choice)?)?;
        assert!(rt; left == count, "choice {choice}");
    }
    Ok(())
}

#[test]
fn a_planned_journal_fails_in_its_phase(rt: HostRuntime) -> Result<(), Fail> {
    let alloc = rt.alloc();
    let disk = PlanDisk::new(alloc, Bytes::from_slice(alloc, EMPTY)?)?;
    let mut journal = journal_on(alloc, disk)?;
    let written = writes_as_planned(&rt, alloc, &mut journal);
    let disk = journal.close();
    let left = written.and_then(|()| leaves_doubt(&rt, alloc, &disk));
    drop(disk);
    left
}

// How many of up to ten appends are acknowledged.
fn append_ten(alloc: Global, journal: &mut Journal<MemDisk>) -> Result<usize, Fail> {
    let mut acknowledged = 0;
    for number in 0..10usize {
        if !journal.is_settled() || append(alloc, journal)?.is_err() {
            break;
        }
        acknowledged = number + 1;
    }
    Ok(acknowledged)
}

// A crash leaves what was acknowledged, or one payload more.
fn keeps_acknowledged(
    rt: &impl Abort,
    alloc: Global,
    fuse: u64,
    disk: &MemDisk,
    acknowledged: usize,
) -> Result<(), Fail> {
    for choice in [0, 1, 7, 257] {
        let count = count_of(alloc, disk.image(choice)?)?;
        assert!(rt; count.wrapping_sub(acknowledged) <= 1, "after {fuse} calls");
    }
    Ok(())
}

// Appends over a disk that fails for good after some calls.
fn stops(rt: &impl Abort, alloc: Global, fuse: u64) -> Result<(), Fail> {
    let disk = MemDisk::with_fuse(alloc, Bytes::from_slice(alloc, EMPTY)?, fuse)?;
    let mut journal = journal_on(alloc, disk)?;
    let acknowledged = append_ten(alloc, &mut journal);
    let disk = journal.close();
    let kept = acknowledged.and_then(|count| keeps_acknowledged(rt, alloc, fuse, &disk, count));
    drop(disk);
    kept
}

#[test]
fn each_stop_leaves_what_was_acknowledged(rt: HostRuntime) -> Result<(), Fail> {
    for fuse in 4..56u64 {
        stops(&rt, rt.alloc(), fuse)?;
    }
    Ok(())
}
