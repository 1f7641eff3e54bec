//! What zones answer and have, and what their two files hold then.
use crate::tables::{ID1, ID2, Place, THIRD, has_taken, is, is_left, open, take};
use disk_model::MemDisk;
use paired_zone::{CheckEnd, PairedZone};
use std::alloc::Global;
use std::process::Abort;
use std::test::Fail;
use worked_rows::{FIRST, SECOND, disk_of, journal_of};
use zone_state::TakeAnswer;

/// The second file behind the first checkpoint of a zone that took the first patch.
const CHECKED: &[u8] =
    b"RDJ2\0\0\x03\xe9\x01\0\0\0\x01\0\0\0\x5cZ 1 1 104 0 1\n00000000-0000-4000-8000-000000000001\n<http://e/s> <http://e/p> <http://e/o> .\n\0";

/// Its one payload.
const CHECKPOINT: &[u8] =
    b"Z 1 1 104 0 1\n00000000-0000-4000-8000-000000000001\n<http://e/s> <http://e/p> <http://e/o> .\n";

/// The checkpoint behind it, of three patches.
const NEXT: &[u8] =
    b"Z 2 3 461 2 1\n00000000-0000-4000-8000-000000000001\n00000000-0000-4000-8000-000000000002\n00000000-0000-4000-8000-000000000003\nPA \"e\" <http://e/> .\nPA \"f\" <http://f/> .\n<http://e/s> <http://e/p> <http://e/o2> .\n";

/// The one behind that, where no patch was taken between them.
const LATER: &[u8] =
    b"Z 3 3 461 2 1\n00000000-0000-4000-8000-000000000001\n00000000-0000-4000-8000-000000000002\n00000000-0000-4000-8000-000000000003\nPA \"e\" <http://e/> .\nPA \"f\" <http://f/> .\n<http://e/s> <http://e/p> <http://e/o2> .\n";

/// The first checkpoint of a zone that took no patch.
const OF_NONE: &[u8] = b"Z 1 0 0 0 0\n";

/// One of no patches in the last generation.
const LAST: &[u8] = b"Z 18446744073709551615 0 0 0 0\n";

/// A call of a zone with what it answers, or a look at it.
enum Step {
    Take(&'static [u8], TakeAnswer),
    Checkpoint(CheckEnd),
    /// What so many of the three patches make.
    Has(u32),
    IsSettled(bool),
}

/// The payloads of the first file and of the second, which is empty where it has none.
type Payloads = (&'static [&'static [u8]], &'static [&'static [u8]]);

/// What is left of the two files.
enum Left {
    Files(Payloads),
    /// Any two images are of a zone that took so many patches.
    Version(u32),
}

struct Case {
    shows: &'static str,
    before: Payloads,
    /// The numbers of the calls of the second disk that fail.
    failing: &'static [u64],
    steps: &'static [Step],
    left: Left,
}

static CASES: [Case; 6] = [
    Case {
        shows: "a checkpoint stands alone in the second file",
        before: (&[], &[]),
        failing: &[],
        steps: &[
            Step::Take(FIRST, TakeAnswer::Applied { version: 1 }),
            Step::Checkpoint(CheckEnd::Done { version: 1 }),
            Step::Has(1),
            Step::IsSettled(true),
        ],
        left: Left::Files((&[FIRST], &[CHECKPOINT])),
    },
    Case {
        shows: "a zone goes on behind its checkpoint, and the next one stands in the first file",
        before: (&[FIRST], &[CHECKPOINT]),
        failing: &[],
        steps: &[
            Step::Has(1),
            Step::Take(
                FIRST,
                TakeAnswer::Diverged {
                    have: Some(ID1),
                    prev: None,
                },
            ),
            Step::Take(SECOND, TakeAnswer::Applied { version: 2 }),
            Step::Take(THIRD, TakeAnswer::Applied { version: 3 }),
            Step::Has(3),
            Step::Checkpoint(CheckEnd::Done { version: 3 }),
            Step::Has(3),
        ],
        left: Left::Files((&[NEXT], &[CHECKPOINT, SECOND, THIRD])),
    },
    Case {
        shows: "the later one is current, and one behind it takes the other file again",
        before: (&[NEXT], &[CHECKPOINT, SECOND, THIRD]),
        failing: &[],
        steps: &[
            Step::Has(3),
            Step::Checkpoint(CheckEnd::Done { version: 3 }),
            Step::Has(3),
        ],
        left: Left::Files((&[NEXT], &[LATER])),
    },
    Case {
        shows: "a zone of no patches has a checkpoint too",
        before: (&[], &[]),
        failing: &[],
        steps: &[
            Step::Checkpoint(CheckEnd::Done { version: 0 }),
            Step::Has(0),
        ],
        left: Left::Files((&[], &[OF_NONE])),
    },
    Case {
        shows: "behind the last generation there is none",
        before: (&[], &[LAST]),
        failing: &[],
        steps: &[
            Step::Checkpoint(CheckEnd::TooLarge {
                length: u64::MAX,
                limit: u64::MAX,
            }),
            Step::Has(0),
            Step::Take(FIRST, TakeAnswer::Applied { version: 1 }),
        ],
        left: Left::Files((&[], &[LAST, FIRST])),
    },
    // The last sync of the checkpoint fails, so that it may be current; and then it is settled.
    Case {
        shows: "a checkpoint in doubt is gone before the next patch is taken",
        before: (&[], &[]),
        failing: &[10],
        steps: &[
            Step::Take(FIRST, TakeAnswer::Applied { version: 1 }),
            Step::Checkpoint(CheckEnd::DiskFault),
            Step::Has(1),
            Step::IsSettled(true),
            Step::Take(SECOND, TakeAnswer::Applied { version: 2 }),
            Step::Has(2),
        ],
        left: Left::Version(2),
    },
];

fn goes(
    rt: &impl Abort,
    alloc: Global,
    at: Place,
    zone: &mut PairedZone<MemDisk>,
    step: &Step,
) -> Result<(), Fail> {
    match step {
        Step::Take(text, answer) => is(rt, at, &take(alloc, zone, text)?, answer),
        Step::Checkpoint(end) => is(rt, at, &zone.checkpoint(), end),
        Step::Has(version) => is(rt, at, &has_taken(zone, *version)?, &true),
        Step::IsSettled(settled) => is(rt, at, &zone.is_settled(), settled),
    }
    Ok(())
}

fn goes_through(
    rt: &impl Abort,
    alloc: Global,
    zone: &mut PairedZone<MemDisk>,
    case: &Case,
) -> Result<(), Fail> {
    let shows = case.shows;
    for (step, wanted) in case.steps.iter().enumerate() {
        goes(rt, alloc, Place { shows, step }, zone, wanted)?;
    }
    Ok(())
}

// The bytes of a file with these payloads; the second one has none without a payload.
fn file_of(alloc: Global, number: u32, payloads: &[&[u8]]) -> Result<Vec<u8>, Fail> {
    if number == 1001 && payloads.is_empty() {
        return Ok(Vec::new(alloc));
    }
    Ok(journal_of(alloc, number, payloads)?)
}

// Whether a disk reads as a file with these payloads. Where it was longer before, what stood behind
// them stays.
fn holds(
    alloc: Global,
    disk: &MemDisk,
    number: u32,
    before: &[&[u8]],
    payloads: &[&[u8]],
) -> Result<bool, Fail> {
    let was = file_of(alloc, number, before)?;
    let wanted = file_of(alloc, number, payloads)?;
    let image = disk.image(1)?;
    Ok(image.len() == wanted.len().max(was.len()) && image.as_slice().starts_with(&wanted))
}

fn leaves(alloc: Global, first: &MemDisk, second: &MemDisk, case: &Case) -> Result<bool, Fail> {
    let before = &case.before;
    match &case.left {
        Left::Files(left) => Ok(
            holds(alloc, first, 1000, before.0, left.0)?
                && holds(alloc, second, 1001, before.1, left.1)?,
        ),
        Left::Version(version) => is_left(alloc, first, second, *version, 0),
    }
}

fn goes_as_told(rt: &impl Abort, alloc: Global, case: &Case) -> Result<(), Fail> {
    let first = file_of(alloc, 1000, case.before.0)?;
    let second = file_of(alloc, 1001, case.before.1)?;
    let one = disk_of(alloc, &first, &[])?;
    let two = disk_of(alloc, &second, case.failing)?;
    let mut zone = open(alloc, one, two)?;
    let gone = goes_through(rt, alloc, &mut zone, case);
    let (one, two) = zone.close();
    let left = gone.and_then(|()| leaves(alloc, &one, &two, case));
    drop(one);
    drop(two);
    assert!(rt; left?, "{}", case.shows);
    Ok(())
}

#[test]
fn what_a_zone_answers_and_has_and_its_files_hold(rt: HostRuntime) -> Result<(), Fail> {
    let alloc = rt.alloc();
    let file = journal_of(alloc, 1001, &[CHECKPOINT])?;
    assert!(rt; CHECKED.len() == 110 && file.as_slice() == CHECKED);
    drop(file);
    for case in &CASES {
        goes_as_told(&rt, alloc, case)?;
    }
    Ok(())
}
