//! Files that are made empty, filled, and written anew in the place of others: what stands in them
//! then, and what a stop at each call of the disk leaves.
ghost use Rattle.std.specs.Prelude.{◌-◌, ◌^◌, ◌<◌, ◌≤◌, IfOk, length};
ghost use Rattle.disk_model.specs.Memory.{memory_past};
ghost use Rattle.disk_model.specs.Past.{EveryImage};
ghost use Rattle.log_base.specs.Journals.{payloads_length};
ghost use Rattle.log_journal.specs.File.{AreSized};
ghost use Rattle.log_journal.specs.Front.{HasFront};
ghost use Rattle.log_journal.specs.StandsFor.{limit_of};

use crate::forms::{OLD_TWO, TWO, WIDE, reads};
use crate::fronts::{Found, has_nothing, looks};
use crate::journals::append_to;
use crate::tables::{EMPTY, Place, are_bytes, is};
use delta_base::{Bytes, Failed};
use disk_model::MemDisk;
use log_journal::{AppendFault, FillFault, Form, Journal, Payloads, front, write_anew};
use std::alloc::Global;
use std::process::Abort;
use std::test::Fail;
use worked_rows::disk_of;

/// How a journal of number 1 comes onto a disk.
#[derive(Clone, Copy)]
enum Start {
    /// It is opened.
    Open,
    /// Its front is looked at, and what stands there is emptied.
    Restart,
    /// An empty one is written over whatever is there.
    Overwrite,
}

/// What is done with a file, or a look at it, with what that gives.
enum Step {
    Front(Found),
    /// It is made an empty journal, by so many calls of its disk.
    Empty(Start, u64),
    /// This is appended to its journal.
    Append(Start, &'static [u8]),
    /// It is overwritten and filled.
    Fill(Fill),
    /// The payloads of another file are written anew over it, by so many calls.
    Anew(&'static [u8], u64),
    /// It has this form and these payloads.
    Reads(Form, &'static [&'static [u8]]),
    Holds(&'static [u8]),
}

/// A fill with the payloads of a file, within so many bytes and by so many calls of the disk, and
/// what it answers.
struct Fill {
    of: &'static [u8],
    limit: u64,
    calls: u64,
    answer: Result<(), FillFault>,
}

struct Case {
    shows: &'static str,
    file: &'static [u8],
    steps: &'static [Step],
}

/// A file of `abc`, and one of three payloads.
const ONE: &[u8] = b"RDJ2\0\0\0\x01\x01\0\0\0\x01\0\0\0\x03abc\0";

const THREE: &[u8] =
    b"RDJ2\0\0\0\x01\x01\0\0\0\x01\0\0\0\x03one\x01\0\0\0\x02\0\0\0\0\x01\0\0\0\x03\0\0\0\x05three\0";

// An empty file takes five calls to restart: two of the look, and a length, a write and a sync. One
// with a payload takes seven of the look, and a length, a read, a write and a sync.
static CASES: [Case; 14] = [
    Case {
        shows: "an empty file is restarted",
        file: b"",
        steps: &[
            Step::Empty(Start::Restart, 5),
            Step::Holds(EMPTY),
            Step::Append(Start::Restart, b"abc"),
            Step::Holds(ONE),
        ],
    },
    Case {
        shows: "a few other bytes are overwritten by a restart",
        file: b"xxxxx",
        steps: &[
            Step::Empty(Start::Restart, 5),
            Step::Holds(EMPTY),
            Step::Append(Start::Restart, b"abc"),
            Step::Holds(ONE),
        ],
    },
    Case {
        shows: "nine other bytes are overwritten by a restart",
        file: b"RDJ1\0\0\0\x05\x01",
        steps: &[Step::Empty(Start::Restart, 5), Step::Holds(EMPTY)],
    },
    Case {
        shows: "a restart shuts the first gate",
        file: TWO,
        steps: &[
            Step::Front(Ok(Some((3, b"abc")))),
            Step::Empty(Start::Restart, 11),
            Step::Holds(b"RDJ2\0\0\0\x01\0\0\0\0\x01\0\0\0\x03abc\x01\0\0\0\x02\0\0\0\x02de\0"),
            Step::Front(Ok(None)),
        ],
    },
    // The second payload is whole and has the next number, and stays behind a shut gate.
    Case {
        shows: "an append behind a restart leaves the old payloads shut",
        file: TWO,
        steps: &[
            Step::Append(Start::Restart, b"fgh"),
            Step::Holds(b"RDJ2\0\0\0\x01\x01\0\0\0\x01\0\0\0\x03fgh\0\0\0\0\x02\0\0\0\x02de\0"),
            Step::Reads(Form::New, &[b"fgh"]),
        ],
    },
    Case {
        shows: "a shut gate stays shut",
        file: b"RDJ2\0\0\0\x01\0\0\0\0\x01\0\0\0\x03abc\0",
        steps: &[
            Step::Empty(Start::Restart, 7),
            Step::Holds(b"RDJ2\0\0\0\x01\0\0\0\0\x01\0\0\0\x03abc\0"),
            Step::Append(Start::Restart, b"abc"),
            Step::Holds(ONE),
        ],
    },
    Case {
        shows: "what follows the first payload may be damaged",
        file: b"RDJ2\0\0\0\x01\x01\0\0\0\x01\0\0\0\x01a\x01\0",
        steps: &[
            Step::Empty(Start::Restart, 11),
            Step::Holds(b"RDJ2\0\0\0\x01\0\0\0\0\x01\0\0\0\x01a\x01\0"),
            Step::Append(Start::Restart, b"abc"),
            Step::Holds(ONE),
        ],
    },
    Case {
        shows: "a file of any bytes is overwritten",
        file: b"RDJ1 is overwritten",
        steps: &[
            Step::Empty(Start::Overwrite, 2),
            Step::Holds(b"RDJ2\0\0\0\x01\0verwritten"),
            Step::Append(Start::Overwrite, b"abc"),
            Step::Holds(ONE),
        ],
    },
    // A fill takes three calls for each payload, and two syncs with the gate's write between.
    Case {
        shows: "a fill is as so many appends",
        file: b"",
        steps: &[
            Step::Append(Start::Overwrite, b"one"),
            Step::Append(Start::Open, b""),
            Step::Append(Start::Open, b"three"),
            Step::Holds(THREE),
            Step::Fill(Fill {
                of: THREE,
                limit: 44,
                calls: 14,
                answer: Ok(()),
            }),
            Step::Holds(THREE),
        ],
    },
    Case {
        shows: "a fill leaves what is behind it",
        file: OLD_TWO,
        steps: &[
            Step::Fill(Fill {
                of: ONE,
                limit: 1000,
                calls: 8,
                answer: Ok(()),
            }),
            Step::Holds(b"RDJ2\0\0\0\x01\x01\0\0\0\x01\0\0\0\x03abc\0de\0"),
        ],
    },
    Case {
        shows: "a fill with no payload makes no call",
        file: b"",
        steps: &[
            Step::Fill(Fill {
                of: EMPTY,
                limit: 9,
                calls: 2,
                answer: Ok(()),
            }),
            Step::Holds(EMPTY),
        ],
    },
    Case {
        shows: "a fill without room makes no call",
        file: b"",
        steps: &[
            Step::Fill(Fill {
                of: THREE,
                limit: 43,
                calls: 2,
                answer: Err(FillFault::Full {
                    length: 44,
                    limit: 43,
                }),
            }),
            Step::Holds(EMPTY),
        ],
    },
    Case {
        shows: "a file of the form before is written anew",
        file: OLD_TWO,
        steps: &[
            Step::Reads(Form::Old, &[b"abc", b"de"]),
            Step::Anew(TWO, 11),
            Step::Holds(TWO),
            Step::Reads(Form::New, &[b"abc", b"de"]),
        ],
    },
    Case {
        shows: "a file without payloads is written anew",
        file: b"RDJ1 is overwritten",
        steps: &[
            Step::Anew(EMPTY, 2),
            Step::Holds(b"RDJ2\0\0\0\x01\0verwritten"),
        ],
    },
];

// A disk with these bytes, whose calls all fail after so many.
fn fused(alloc: Global, file: &[u8], calls: u64) -> Result<MemDisk, Fail> {
    let bytes = Bytes::from_slice(alloc, file)?;
    Ok(MemDisk::with_fuse(alloc, bytes, calls)?)
}

// What a crash leaves of a disk, which is the same whatever is chosen.
fn left_by(rt: &impl Abort, at: Place, disk: &MemDisk) -> Result<Bytes, Fail> {
    let left = disk.image(0)?;
    for choice in [1, 7] {
        let other = disk.image(choice)?;
        are_bytes(rt, at, other.as_slice(), left.as_slice());
        drop(other);
    }
    Ok(left)
}

// Restarts a disk whose front has no fault.
fn empty(disk: MemDisk) -> Result<Journal<MemDisk>, MemDisk>
    requires { EveryImage (memory_past disk) (λ image. HasFront image 1) }
{
    match Journal::restart(disk, 1, 1000) {
        Ok(journal) => Ok(journal),
        Err(refusal) => Err(refusal.disk),
    }
}

// Looks at the front of a disk, and restarts it.
fn restarted(alloc: Global, disk: MemDisk) -> Result<Journal<MemDisk>, MemDisk> {
    let mut disk = disk;
    match front(alloc, &mut disk, 1) {
        Ok(found) => {
            drop(found);
            empty(disk)
        }
        Err(_) => Err(disk),
    }
}

fn overwritten(disk: MemDisk) -> Result<Journal<MemDisk>, MemDisk> {
    match Journal::overwrite(disk, 1, 1000) {
        Ok(journal) => Ok(journal),
        Err(refusal) => Err(refusal.disk),
    }
}

fn opened(alloc: Global, disk: MemDisk) -> Result<Journal<MemDisk>, MemDisk> {
    match Journal::open_on(alloc, disk, 1, 1000) {
        Ok((journal, payloads)) => {
            drop(payloads);
            Ok(journal)
        }
        Err(refusal) => Err(refusal.disk),
    }
}

fn started(alloc: Global, disk: MemDisk, start: Start) -> Result<Journal<MemDisk>, MemDisk> {
    match start {
        Start::Open => opened(alloc, disk),
        Start::Restart => restarted(alloc, disk),
        Start::Overwrite => overwritten(disk),
    }
}

// Whether a crash may leave this image of a file that is being emptied. Of an overwriting nothing
// is said.
fn may_be_left(alloc: Global, start: Start, file: &[u8], image: &[u8]) -> Result<bool, Fail> {
    match start {
        Start::Open => Ok(image == file),
        Start::Restart => Ok(image == file || has_nothing(alloc, image)?),
        Start::Overwrite => Ok(true),
    }
}

fn are_left(
    rt: &impl Abort,
    alloc: Global,
    at: Place,
    (disk, file): (&MemDisk, &[u8]),
    start: Start,
) -> Result<(), Fail> {
    for choice in [0, 1, 7] {
        let image = disk.image(choice)?;
        let may = may_be_left(alloc, start, file, image.as_slice());
        drop(image);
        is(rt, at, &may?, &true);
    }
    Ok(())
}

// A stop after so many calls, which are too few.
fn stops(
    rt: &impl Abort,
    alloc: Global,
    at: Place,
    file: &[u8],
    (start, calls): (Start, u64),
) -> Result<(), Fail> {
    match started(alloc, fused(alloc, file, calls)?, start) {
        Ok(journal) => {
            drop(journal);
            Err(Fail::from("not stopped"))
        }
        Err(disk) => {
            let left = are_left(rt, alloc, at, (&disk, file), start);
            drop(disk);
            left
        }
    }
}

// The file that an emptying leaves.
fn emptied(
    rt: &impl Abort,
    alloc: Global,
    at: Place,
    file: &[u8],
    (start, calls): (Start, u64),
) -> Result<Bytes, Fail> {
    for fewer in 0..calls {
        stops(rt, alloc, at, file, (start, fewer))?;
    }
    match started(alloc, fused(alloc, file, calls)?, start) {
        Ok(journal) => {
            is(rt, at, &(journal.length(), journal.count()), &(9, 0));
            let disk = journal.close();
            let left = left_by(rt, at, &disk);
            drop(disk);
            left
        }
        Err(disk) => {
            drop(disk);
            Err(Fail::from("stopped"))
        }
    }
}

// The file on a disk behind an append that was done.
fn append_left(
    rt: &impl Abort,
    at: Place,
    disk: &MemDisk,
    answer: Result<Result<(), AppendFault>, Fail>,
) -> Result<Bytes, Fail> {
    is(rt, at, &answer?, &Ok(()));
    left_by(rt, at, disk)
}

// The file that an append leaves.
fn appended(
    rt: &impl Abort,
    alloc: Global,
    at: Place,
    file: &[u8],
    (start, payload): (Start, &[u8]),
) -> Result<Bytes, Fail> {
    match started(alloc, disk_of(alloc, file, &[])?, start) {
        Ok(mut journal) => {
            let answer = append_to(alloc, &mut journal, payload);
            let disk = journal.close();
            let left = append_left(rt, at, &disk, answer);
            drop(disk);
            left
        }
        Err(disk) => {
            drop(disk);
            Err(Fail::from("no journal"))
        }
    }
}

// The payloads of a file.
fn payloads_of(alloc: Global, file: &[u8]) -> Result<Payloads, Fail>
    ensures sized { IfOk result (λ payloads. AreSized payloads.items) }
    ensures few { IfOk result (λ payloads. length payloads.items < 2 ^ 32) }
    ensures fits { IfOk result (λ payloads. payloads_length payloads.items < 2 ^ 64) }
{
    match Journal::open_on(alloc, disk_of(alloc, file, &[])?, 1, 1000) {
        Ok((journal, payloads)) => {
            drop(journal);
            Ok(payloads)
        }
        Err(refusal) => {
            drop(refusal);
            Err(Fail::from("not opened"))
        }
    }
}

/// A disk that was overwritten and filled, what the fill answered, and how long the journal is
/// then and how many payloads it has, and whether it is settled.
#[derive(Drop)]
struct Outcome {
    disk: MemDisk,
    answer: Result<(), FillFault>,
    stands: (u64, u32, bool),
}

// Fills a journal that holds nothing.
fn fill_journal(
    journal: &mut Journal<MemDisk>,
    payloads: &Payloads,
) -> Result<Result<(), FillFault>, Fail>
    requires bounded { limit_of journal.old < 2 ^ 64 - 1 }
    requires few { length payloads.now.items < 2 ^ 32 }
    requires sized { AreSized payloads.now.items }
{
    if !journal.is_settled() || journal.count() != 0 || journal.length() != 9 {
        return Err(Fail::from("not empty"));
    }
    Ok(journal.fill(payloads))
}

// Overwrites a disk, and fills it within so many bytes.
fn filled(disk: MemDisk, payloads: &Payloads, limit: u64) -> Result<Outcome, Fail>
    requires few { length payloads.now.items < 2 ^ 32 }
    requires sized { AreSized payloads.now.items }
    requires limit { (9 ≤ limit) × (limit ≤ 1000) }
{
    match Journal::overwrite(disk, 1, limit) {
        Ok(mut journal) => {
            let answer = fill_journal(&mut journal, payloads);
            let stands = (journal.length(), journal.count(), journal.is_settled());
            let disk = journal.close();
            match answer {
                Ok(answer) => Ok(Outcome {
                    disk,
                    answer,
                    stands,
                }),
                Err(fail) => {
                    drop(disk);
                    Err(fail)
                }
            }
        }
        Err(refusal) => {
            drop(refusal);
            Err(Fail::from("not overwritten"))
        }
    }
}

// A stop after so many calls, which are too few, leaves none of the payloads of a file or all.
fn fill_stops(
    rt: &impl Abort,
    alloc: Global,
    at: Place,
    file: &[u8],
    of: &[u8],
    payloads: &Payloads,
    calls: u64,
) -> Result<(), Fail>
    requires few { length payloads.now.items < 2 ^ 32 }
    requires sized { AreSized payloads.now.items }
{
    let Outcome {
        disk,
        answer,
        stands,
    } = filled(fused(alloc, file, calls)?, payloads, 1000)?;
    let left = has_none_or_all(rt, alloc, at, &disk, of);
    drop(disk);
    is(rt, at, &answer, &Err(FillFault::Failed));
    is(rt, at, &stands, &(9, 0, false));
    left
}

fn has_none_or_all(
    rt: &impl Abort,
    alloc: Global,
    at: Place,
    disk: &MemDisk,
    of: &[u8],
) -> Result<(), Fail> {
    for choice in [0, 1, 7] {
        let image = disk.image(choice)?;
        let has_all = image.as_slice().starts_with(of);
        let has_none = has_nothing(alloc, image.as_slice());
        drop(image);
        is(rt, at, &(has_none? || has_all), &true);
    }
    Ok(())
}

// The file that a fill leaves that isn't stopped.
fn fill_over(
    rt: &impl Abort,
    alloc: Global,
    at: Place,
    file: &[u8],
    fill: &Fill,
    payloads: &Payloads,
) -> Result<Bytes, Fail>
    requires few { length payloads.now.items < 2 ^ 32 }
    requires sized { AreSized payloads.now.items }
    requires limit { (9 ≤ fill.now.limit) × (fill.now.limit ≤ 1000) }
{
    let Outcome {
        disk,
        answer,
        stands,
    } = filled(fused(alloc, file, fill.calls)?, payloads, fill.limit)?;
    let left = left_by(rt, at, &disk);
    drop(disk);
    is(rt, at, &answer, &fill.answer);
    let wanted = match fill.answer {
        Ok(()) => (fill.of.len() as u64, payloads.len() as u32, true),
        Err(_) => (9, 0, true),
    };
    is(rt, at, &stands, &wanted);
    left
}

// The same behind each stop. The first two calls are those of the overwriting.
fn fill_behind_stops(
    rt: &impl Abort,
    alloc: Global,
    at: Place,
    file: &[u8],
    fill: &Fill,
    payloads: &Payloads,
) -> Result<Bytes, Fail>
    requires few { length payloads.now.items < 2 ^ 32 }
    requires sized { AreSized payloads.now.items }
{
    if fill.limit < 9 || fill.limit > 1000 {
        return Err(Fail::from("another limit"));
    }
    for calls in 2..fill.calls {
        fill_stops(rt, alloc, at, file, fill.of, payloads, calls)?;
    }
    fill_over(rt, alloc, at, file, fill, payloads)
}

fn refilled(
    rt: &impl Abort,
    alloc: Global,
    at: Place,
    file: &[u8],
    fill: &Fill,
) -> Result<Bytes, Fail> {
    let payloads = payloads_of(alloc, fill.of)?;
    let left = fill_behind_stops(rt, alloc, at, file, fill, &payloads);
    drop(payloads);
    left
}

// Writes payloads anew over a file, on a disk whose calls all fail after so many.
fn written(
    alloc: Global,
    file: &[u8],
    payloads: &Payloads,
    calls: u64,
) -> Result<(MemDisk, Result<(), Failed>), Fail>
    requires few { length payloads.now.items < 2 ^ 32 }
    requires sized { AreSized payloads.now.items }
    requires fits { payloads_length payloads.now.items < 2 ^ 64 }
{
    let mut disk = fused(alloc, file, calls)?;
    let answer = write_anew(&mut disk, 1, payloads.as_slice());
    Ok((disk, answer))
}

// The file that a writing anew leaves. Each stop is told.
fn write_over(
    rt: &impl Abort,
    alloc: Global,
    at: Place,
    file: &[u8],
    payloads: &Payloads,
    calls: u64,
) -> Result<Bytes, Fail>
    requires few { length payloads.now.items < 2 ^ 32 }
    requires sized { AreSized payloads.now.items }
    requires fits { payloads_length payloads.now.items < 2 ^ 64 }
{
    for fewer in 0..calls {
        let (disk, answer) = written(alloc, file, payloads, fewer)?;
        drop(disk);
        is(rt, at, &answer, &Err(Failed));
    }
    let (disk, answer) = written(alloc, file, payloads, calls)?;
    let left = left_by(rt, at, &disk);
    drop(disk);
    is(rt, at, &answer, &Ok(()));
    left
}

fn rewritten(
    rt: &impl Abort,
    alloc: Global,
    at: Place,
    (file, of): (&[u8], &[u8]),
    calls: u64,
) -> Result<Bytes, Fail> {
    let payloads = payloads_of(alloc, of)?;
    let left = write_over(rt, alloc, at, file, &payloads, calls);
    drop(payloads);
    left
}

// The file behind a step.
fn goes(
    rt: &impl Abort,
    alloc: Global,
    at: Place,
    file: &[u8],
    step: &Step,
) -> Result<Bytes, Fail> {
    match step {
        Step::Front(found) => looks(rt, alloc, at, disk_of(alloc, file, &[])?, found),
        Step::Empty(start, calls) => return emptied(rt, alloc, at, file, (*start, *calls)),
        Step::Append(start, payload) => return appended(rt, alloc, at, file, (*start, payload)),
        Step::Fill(fill) => return refilled(rt, alloc, at, file, fill),
        Step::Anew(of, calls) => return rewritten(rt, alloc, at, (file, of), *calls),
        Step::Reads(form, texts) => {
            let disk = disk_of(alloc, file, &[])?;
            reads(rt, alloc, at, disk, WIDE, &Ok((*form, texts)));
        }
        Step::Holds(bytes) => are_bytes(rt, at, file, bytes),
    }
    Ok(Bytes::from_slice(alloc, file)?)
}

fn holds(rt: &impl Abort, alloc: Global, case: &Case) -> Result<(), Fail> {
    let shows = case.shows;
    let mut file = Bytes::from_slice(alloc, case.file)?;
    for (step, wanted) in case.steps.iter().enumerate() {
        file = goes(rt, alloc, Place { shows, step }, file.as_slice(), wanted)?;
    }
    Ok(())
}

#[test]
fn what_a_file_written_anew_holds_and_a_stop_leaves(rt: HostRuntime) -> Result<(), Fail> {
    for case in &CASES {
        holds(&rt, rt.alloc(), case)?;
    }
    Ok(())
}
