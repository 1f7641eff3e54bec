//! What zones answer and have then, and what a crash leaves of them.
use crate::searches::{dumps, finds, has_lines, has_prefixes};
use crate::tables::{ID1, ID2, ID3, ID9, LINE1, LINE2, Place, THIRD, found_in, is, open, take};
use delta_base::{Bytes, Id};
use disk_model::{Disk, PlanDisk};
use log_base::{FullKind, LOG_LIMITS, LogLimits};
use std::alloc::Global;
use std::process::Abort;
use std::test::Fail;
use worked_rows::{FIRST, SECOND, journal_of};
use zone_state::{TakeAnswer, ZONE_NUMBER, Zone};

// It has the id of the second patch and names none that there is.
const BEHIND_NINTH: &[u8] =
    b"H id <uuid:00000000-0000-4000-8000-000000000002> .\nH prev <uuid:00000000-0000-4000-8000-000000000009> .\n";

// It has the id of the first patch and names the second.
const AGAIN: &[u8] =
    b"H id <uuid:00000000-0000-4000-8000-000000000001> .\nH prev <uuid:00000000-0000-4000-8000-000000000002> .\n";

/// A call of a zone or a look at it, with what that gives.
enum Step {
    Take(&'static [u8], TakeAnswer),
    /// The version, the head and the lines.
    Has(u32, Option<Id>, &'static [&'static str]),
    IsSettled(bool),
    /// From here on the sync of this number fails, counted from 0.
    Plan(u64),
    /// A call failed for want of memory.
    IsShort(bool),
    /// Prefixes with their IRIs, in order.
    Prefixes(&'static [(&'static str, &'static str)]),
    /// So many quads have this object.
    Finds(&'static [u8], usize),
    Dumps(&'static str),
}

/// What a crash leaves where this is chosen of what isn't synced.
enum Left {
    /// The file as it was opened.
    Same(u64),
    /// So many patches.
    Patches(u64, u32),
}

struct Case {
    shows: &'static str,
    /// The patches that it has taken already.
    payloads: &'static [&'static [u8]],
    limits: LogLimits,
    steps: &'static [Step],
    faults: u64,
    left: &'static [Left],
}

static CASES: [Case; 9] = [
    Case {
        shows: "a zone takes the next patch alone",
        payloads: &[],
        limits: LOG_LIMITS,
        steps: &[
            Step::Take(
                SECOND,
                TakeAnswer::Diverged {
                    have: None,
                    prev: Some(ID1),
                },
            ),
            Step::Has(0, None, &[]),
            Step::IsSettled(true),
            Step::Take(FIRST, TakeAnswer::Applied { version: 1 }),
            Step::Has(1, Some(ID1), &[LINE1]),
            Step::IsSettled(true),
            Step::Take(
                BEHIND_NINTH,
                TakeAnswer::Diverged {
                    have: Some(ID1),
                    prev: Some(ID9),
                },
            ),
            Step::Has(1, Some(ID1), &[LINE1]),
            Step::IsSettled(true),
            Step::Take(SECOND, TakeAnswer::Applied { version: 2 }),
            Step::Has(2, Some(ID2), &[LINE2, LINE1]),
            Step::IsSettled(true),
            Step::Take(AGAIN, TakeAnswer::Repeated { version: 1 }),
            Step::Has(2, Some(ID2), &[LINE2, LINE1]),
            Step::IsSettled(true),
            Step::Take(THIRD, TakeAnswer::Applied { version: 3 }),
            Step::Has(3, Some(ID3), &[LINE2]),
            Step::IsSettled(true),
        ],
        faults: 0,
        left: &[],
    },
    // The zone is full of both kinds, and each text has a later refusal too.
    Case {
        shows: "refusals come in their order",
        payloads: &[],
        limits: LogLimits {
            patches: 2,
            bytes: 289,
        },
        steps: &[
            Step::Take(FIRST, TakeAnswer::Applied { version: 1 }),
            Step::Has(1, Some(ID1), &[LINE1]),
            Step::IsSettled(true),
            Step::Take(SECOND, TakeAnswer::Applied { version: 2 }),
            Step::Has(2, Some(ID2), &[LINE2, LINE1]),
            Step::IsSettled(true),
            Step::Take(
                BEHIND_NINTH,
                TakeAnswer::Diverged {
                    have: Some(ID2),
                    prev: Some(ID9),
                },
            ),
            Step::Has(2, Some(ID2), &[LINE2, LINE1]),
            Step::IsSettled(true),
            Step::Take(AGAIN, TakeAnswer::Repeated { version: 1 }),
            Step::Has(2, Some(ID2), &[LINE2, LINE1]),
            Step::IsSettled(true),
            Step::Take(
                THIRD,
                TakeAnswer::Full {
                    what: FullKind::Patches,
                    have: 2,
                    limit: 2,
                },
            ),
            Step::Has(2, Some(ID2), &[LINE2, LINE1]),
            Step::IsSettled(true),
        ],
        faults: 0,
        left: &[],
    },
    Case {
        shows: "a zone fills its file to the limit",
        payloads: &[],
        limits: LogLimits {
            patches: 9,
            bytes: 289,
        },
        steps: &[
            Step::Take(FIRST, TakeAnswer::Applied { version: 1 }),
            Step::Take(SECOND, TakeAnswer::Applied { version: 2 }),
        ],
        faults: 0,
        left: &[],
    },
    Case {
        shows: "a zone has no room over the limit",
        payloads: &[],
        limits: LogLimits {
            patches: 9,
            bytes: 288,
        },
        steps: &[
            Step::Take(FIRST, TakeAnswer::Applied { version: 1 }),
            Step::Take(
                SECOND,
                TakeAnswer::Full {
                    what: FullKind::Bytes,
                    have: 289,
                    limit: 288,
                },
            ),
        ],
        faults: 0,
        left: &[],
    },
    Case {
        shows: "a dump has the quads in the order of their lines",
        payloads: &[],
        limits: LOG_LIMITS,
        steps: &[
            Step::Take(FIRST, TakeAnswer::Applied { version: 1 }),
            Step::Take(SECOND, TakeAnswer::Applied { version: 2 }),
            Step::Dumps(
                "<http://e/s> <http://e/p> <http://e/o2> .\n<http://e/s> <http://e/p> <http://e/o> .\n",
            ),
        ],
        faults: 0,
        left: &[],
    },
    Case {
        shows: "an opening keeps the file, and the zone has its prefixes",
        payloads: &[FIRST, SECOND, THIRD],
        limits: LOG_LIMITS,
        steps: &[
            Step::Has(3, Some(ID3), &[LINE2]),
            Step::Prefixes(&[("e", "http://e/"), ("f", "http://f/")]),
        ],
        faults: 0,
        left: &[Left::Same(0), Left::Same(1), Left::Same(7)],
    },
    Case {
        shows: "a pattern finds the quads of a zone",
        payloads: &[FIRST, SECOND],
        limits: LOG_LIMITS,
        steps: &[
            Step::Finds(b"<http://e/o2>", 1),
            Step::Finds(b"<http://e/o3>", 0),
        ],
        faults: 0,
        left: &[],
    },
    // The sync of the second patch's gate fails.
    Case {
        shows: "a gate left in doubt may stand open",
        payloads: &[],
        limits: LOG_LIMITS,
        steps: &[
            Step::Take(FIRST, TakeAnswer::Applied { version: 1 }),
            Step::Plan(1),
            Step::Take(SECOND, TakeAnswer::DiskFault),
            Step::Has(1, Some(ID1), &[LINE1]),
            Step::IsSettled(false),
            Step::IsShort(false),
        ],
        faults: 1,
        left: &[Left::Patches(0, 1), Left::Patches(257, 2)],
    },
    // Behind the gate's sync that of the settling fails, and then that of the body behind it.
    Case {
        shows: "a gate is in doubt until it is settled",
        payloads: &[],
        limits: LOG_LIMITS,
        steps: &[
            Step::Take(FIRST, TakeAnswer::Applied { version: 1 }),
            Step::IsSettled(true),
            Step::Plan(1),
            Step::Take(SECOND, TakeAnswer::DiskFault),
            Step::IsSettled(false),
            Step::Take(
                THIRD,
                TakeAnswer::Diverged {
                    have: Some(ID1),
                    prev: Some(ID2),
                },
            ),
            Step::IsSettled(false),
            Step::Plan(0),
            Step::Take(SECOND, TakeAnswer::DiskFault),
            Step::IsSettled(false),
            Step::Plan(1),
            Step::Take(SECOND, TakeAnswer::DiskFault),
            Step::IsSettled(true),
            Step::Take(SECOND, TakeAnswer::Applied { version: 2 }),
            Step::IsSettled(true),
        ],
        faults: 3,
        left: &[Left::Patches(0, 2)],
    },
];

fn has(
    rt: &impl Abort,
    at: Place,
    zone: &Zone<PlanDisk>,
    wanted: (u32, Option<Id>),
    lines: &[&str],
) -> Result<(), Fail> {
    is(rt, at, &(zone.version(), zone.head()), &wanted);
    is(rt, at, &has_lines(zone, lines)?, &true);
    Ok(())
}

fn goes(
    rt: &impl Abort,
    alloc: Global,
    at: Place,
    zone: &mut Zone<PlanDisk>,
    step: &Step,
) -> Result<(), Fail> {
    match step {
        Step::Take(text, answer) => is(rt, at, &take(alloc, zone, text)?, answer),
        Step::Has(version, head, lines) => has(rt, at, zone, (*version, *head), lines)?,
        Step::IsSettled(settled) => is(rt, at, &zone.is_settled(), settled),
        Step::Plan(next) => zone.plan(Some(*next)),
        Step::IsShort(short) => is(rt, at, &zone.is_short(), short),
        Step::Prefixes(prefixes) => is(rt, at, &has_prefixes(zone, prefixes)?, &true),
        Step::Finds(object, count) => is(rt, at, &finds(alloc, zone, object)?, count),
        Step::Dumps(document) => is(rt, at, &dumps(alloc, zone, document)?, &true),
    }
    Ok(())
}

fn goes_through(
    rt: &impl Abort,
    alloc: Global,
    zone: &mut Zone<PlanDisk>,
    case: &Case,
) -> Result<(), Fail> {
    let shows = case.shows;
    for (step, wanted) in case.steps.iter().enumerate() {
        goes(rt, alloc, Place { shows, step }, zone, wanted)?;
    }
    Ok(())
}

fn leaves(
    rt: &impl Abort,
    alloc: Global,
    at: Place,
    (disk, file): (&PlanDisk, &[u8]),
    left: &Left,
) -> Result<(), Fail> {
    match left {
        Left::Same(choice) => {
            let image = disk.image(*choice)?;
            is(rt, at, &(image.as_slice() == file), &true);
            drop(image);
        }
        Left::Patches(choice, count) => {
            let (version, _) = found_in(alloc, disk.image(*choice)?)?;
            is(rt, at, &version, count);
        }
    }
    Ok(())
}

fn leaves_all(
    rt: &impl Abort,
    alloc: Global,
    disk: &PlanDisk,
    file: &[u8],
    case: &Case,
) -> Result<(), Fail> {
    let shows = case.shows;
    for (step, left) in case.left.iter().enumerate() {
        leaves(rt, alloc, Place { shows, step }, (disk, file), left)?;
    }
    Ok(())
}

fn holds_on(rt: &impl Abort, alloc: Global, file: &[u8], case: &Case) -> Result<(), Fail> {
    let disk = PlanDisk::new(alloc, Bytes::from_slice(alloc, file)?)?;
    let mut zone = open(alloc, disk, case.limits)?;
    let gone = goes_through(rt, alloc, &mut zone, case);
    let disk = zone.close();
    assert!(rt; disk.faults() == case.faults, "{}", case.shows);
    let left = gone.and_then(|()| leaves_all(rt, alloc, &disk, file, case));
    drop(disk);
    left
}

fn holds(rt: &impl Abort, alloc: Global, case: &Case) -> Result<(), Fail> {
    let file = journal_of(alloc, ZONE_NUMBER, case.payloads)?;
    let held = holds_on(rt, alloc, &file, case);
    drop(file);
    held
}

#[test]
fn what_a_zone_answers_and_has_and_a_crash_leaves(rt: HostRuntime) -> Result<(), Fail> {
    for case in &CASES {
        holds(&rt, rt.alloc(), case)?;
    }
    Ok(())
}
