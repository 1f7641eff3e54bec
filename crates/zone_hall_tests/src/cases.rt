//! What passes of one zone are answered, and see of each other's calls.
ghost use Rattle.std.specs.Prelude.{◌≡◌};
ghost use Rattle.turn_cell.specs.Knowing.{pass_number};
ghost use Rattle.turn_cell.specs.Sharing.{IsPassOf};
ghost use Rattle.zone_hall_tests.specs.Halls.{IsNumbered, zone_in_memory};

use crate::calls::{followed_over, reads, taken};
use crate::halls::{Passes, close, new_zone, share};
use crate::peers::{Reply, THIRD};
use delta_base::Id;
use disk_model::MemDisk;
use log_base::{FullKind, LogInfo};
use shared_zone::{Stayed, ZoneHall, ZonePass};
use std::alloc::Global;
use std::process::Abort;
use std::sync::Wait;
use std::test::Fail;
use worked_rows::{FIRST, SECOND};
use zone_state::TakeAnswer;

const ID1: Id = Id(0x0000_0000_0000_4000_8000_0000_0000_0001);

const ID2: Id = Id(0x0000_0000_0000_4000_8000_0000_0000_0002);

const LINE1: &str = "<http://e/s> <http://e/p> <http://e/o> .\n";

const LINE2: &str = "<http://e/s> <http://e/p> <http://e/o2> .\n";

/// Another patch without a previous one.
const OTHER: &[u8] = b"H id <uuid:00000000-0000-4000-8000-000000000009> .\n";

/// A patch behind `SECOND` with the id of the first.
const AGAIN: &[u8] =
    b"H id <uuid:00000000-0000-4000-8000-000000000001> .\nH prev <uuid:00000000-0000-4000-8000-000000000002> .\n";

/// A call of a pass with what it comes to.
enum Call {
    /// The zone has the patch of a text in a stay, as that of a version.
    Take(&'static [u8], u32, Stayed),
    /// The zone catches up over a connection that gives these replies, and ends so.
    Follow(&'static [Reply], (&'static str, u32)),
    Describe(u32, Option<Id>),
    Version(u32),
    Read(u32, &'static [&'static str]),
}

/// A call of the pass of this number.
struct Step(u32, Call);

struct Case {
    shows: &'static str,
    patches: u32,
    steps: &'static [Step],
}

const NO_PATCH: Reply = Reply::Json("404 Not Found", b"{\"error\":\"no_patch\",\"version\":1}");

const APPLIED1: Stayed = Stayed::Asked {
    had: 0,
    answer: TakeAnswer::Applied { version: 1 },
};

static CASES: [Case; 10] = [
    Case {
        shows: "a zone has nothing at first",
        patches: 9,
        steps: &[
            Step(1, Call::Version(0)),
            Step(1, Call::Describe(0, None)),
            Step(2, Call::Read(0, &[])),
        ],
    },
    Case {
        shows: "what one pass has taken the other reads",
        patches: 9,
        steps: &[
            Step(1, Call::Take(FIRST, 1, APPLIED1)),
            Step(2, Call::Version(1)),
            Step(2, Call::Read(1, &[LINE1])),
            Step(2, Call::Describe(1, Some(ID1))),
        ],
    },
    Case {
        shows: "a pass catches up, and the other reads what was taken",
        patches: 9,
        steps: &[
            Step(1, Call::Take(FIRST, 1, APPLIED1)),
            Step(
                2,
                Call::Follow(&[Reply::Log(2), Reply::Patch(2)], ("CaughtUp", 2)),
            ),
            Step(1, Call::Read(2, &[LINE2, LINE1])),
            Step(1, Call::Follow(&[Reply::Log(2)], ("CaughtUp", 2))),
            Step(2, Call::Describe(2, Some(ID2))),
        ],
    },
    Case {
        shows: "a version that is there is left as it is",
        patches: 9,
        steps: &[
            Step(1, Call::Take(FIRST, 1, APPLIED1)),
            Step(2, Call::Take(OTHER, 1, Stayed::Ahead { found: 1 })),
            Step(2, Call::Take(OTHER, 0, Stayed::Ahead { found: 1 })),
            Step(1, Call::Read(1, &[LINE1])),
        ],
    },
    Case {
        shows: "a log without the zone's head diverges, and so does a patch that names no last one",
        patches: 9,
        steps: &[
            Step(
                1,
                Call::Take(
                    SECOND,
                    1,
                    Stayed::Asked {
                        had: 0,
                        answer: TakeAnswer::Diverged {
                            have: None,
                            prev: Some(ID1),
                        },
                    },
                ),
            ),
            Step(
                1,
                Call::Follow(&[Reply::Log(2), Reply::Patch(2)], ("Diverged", 0)),
            ),
            Step(
                2,
                Call::Take(
                    OTHER,
                    1,
                    Stayed::Asked {
                        had: 0,
                        answer: TakeAnswer::Applied { version: 1 },
                    },
                ),
            ),
            Step(1, Call::Follow(&[Reply::Log(1)], ("Diverged", 1))),
        ],
    },
    Case {
        shows: "a shorter log is behind what the pass saw before it asked",
        patches: 9,
        steps: &[
            Step(1, Call::Take(FIRST, 1, APPLIED1)),
            Step(2, Call::Follow(&[Reply::Log(0)], ("PeerBehind", 1))),
        ],
    },
    Case {
        shows: "a text that is no patch is told with its version, and the zone isn't asked",
        patches: 9,
        steps: &[
            Step(
                1,
                Call::Follow(
                    &[Reply::Log(2), Reply::Patch(1), Reply::Text(b"H id 1 .\n")],
                    ("BadPatch", 2),
                ),
            ),
            Step(2, Call::Read(1, &[LINE1])),
        ],
    },
    Case {
        shows: "a patch that the log hasn't is told with the version that was asked",
        patches: 9,
        steps: &[
            Step(
                1,
                Call::Follow(&[Reply::Log(3), Reply::Patch(1), NO_PATCH], ("NoPatch", 2)),
            ),
            Step(2, Call::Version(1)),
        ],
    },
    Case {
        shows: "a patch with the id of an earlier one is told with that one's version",
        patches: 9,
        steps: &[
            Step(
                1,
                Call::Follow(
                    &[
                        Reply::Log(3),
                        Reply::Patch(1),
                        Reply::Patch(2),
                        Reply::Text(AGAIN),
                    ],
                    ("Repeated", 1),
                ),
            ),
            Step(2, Call::Describe(2, Some(ID2))),
        ],
    },
    Case {
        shows: "a zone takes no more patches than its limit",
        patches: 2,
        steps: &[
            Step(
                1,
                Call::Follow(
                    &[
                        Reply::Log(3),
                        Reply::Patch(1),
                        Reply::Patch(2),
                        Reply::Patch(3),
                    ],
                    ("Full", 0),
                ),
            ),
            Step(
                2,
                Call::Take(
                    THIRD,
                    3,
                    Stayed::Asked {
                        had: 2,
                        answer: TakeAnswer::Full {
                            what: FullKind::Patches,
                            have: 2,
                            limit: 2,
                        },
                    },
                ),
            ),
            Step(2, Call::Read(2, &[LINE2, LINE1])),
        ],
    },
];

// Whether a call of a pass comes to what is told with it.
fn comes<R: Wait>(
    rt: &R,
    alloc: Global,
    hall: &ZoneHall<MemDisk>,
    pass: &mut ZonePass<MemDisk>,
    call: &Call,
) -> Result<bool, Fail>
    requires { IsPassOf zone_in_memory hall.now pass.old }
    ensures of { IsPassOf zone_in_memory hall.now pass.new }
    ensures number { pass_number pass.new ≡ pass_number pass.old }
{
    match call {
        Call::Take(text, version, stayed) => {
            Ok(taken(rt, alloc, hall, pass, (text, *version))? == *stayed)
        }
        Call::Follow(replies, end) => {
            Ok(followed_over(rt, alloc, hall, pass, (replies, &[]))? == *end)
        }
        Call::Describe(version, head) => {
            let LogInfo {
                version: found,
                head: last,
            } = hall.describe(rt, pass);
            Ok(found == *version && last == *head)
        }
        Call::Version(version) => Ok(hall.version(pass) == *version),
        Call::Read(version, lines) => reads(rt, hall, pass, (*version, lines)),
    }
}

// One step by the pass of its number.
fn goes<R: Wait>(
    rt: &R,
    alloc: Global,
    hall: &ZoneHall<MemDisk>,
    passes: &mut Passes,
    step: &Step,
) -> Result<bool, Fail>
    requires one { IsNumbered hall.now 1 passes.old.one }
    requires two { IsNumbered hall.now 2 passes.old.two }
    ensures one { IsNumbered hall.now 1 passes.new.one }
    ensures two { IsNumbered hall.now 2 passes.new.two }
    ensures room { passes.new.room ≡ passes.old.room }
{
    if step.0 == 1 {
        comes(rt, alloc, hall, &mut passes.one, &step.1)
    } else {
        comes(rt, alloc, hall, &mut passes.two, &step.1)
    }
}

fn goes_through<R: Wait + Abort>(
    rt: &R,
    alloc: Global,
    hall: &ZoneHall<MemDisk>,
    passes: &mut Passes,
    case: &Case,
) -> Result<(), Fail>
    requires one { IsNumbered hall.now 1 passes.old.one }
    requires two { IsNumbered hall.now 2 passes.old.two }
    ensures one { IsNumbered hall.now 1 passes.new.one }
    ensures two { IsNumbered hall.now 2 passes.new.two }
    ensures room { passes.new.room ≡ passes.old.room }
{
    for step in case.steps {
        assert!(rt; goes(rt, alloc, hall, passes, step)?, "{}", case.shows);
    }
    Ok(())
}

// How many patches the zone has when both passes are back.
fn goes_and_closes<R: Wait + Abort>(rt: &R, alloc: Global, case: &Case) -> Result<u32, Fail> {
    let Some(zone) = new_zone(alloc, &[], case.patches)? else {
        return Err(Fail::from("not opened"));
    };
    let (hall, mut passes) = share(alloc, zone)?;
    let gone = goes_through(rt, alloc, &hall, &mut passes, case);
    let zone = close(hall, passes);
    let version = zone.version();
    drop(zone);
    gone?;
    Ok(version)
}

#[test]
fn what_passes_are_answered_and_see(rt: HostRuntime) -> Result<(), Fail> {
    for case in &CASES {
        let version = goes_and_closes(&rt, rt.alloc(), case)?;
        assert!(rt; version <= 2, "{}", case.shows);
    }
    Ok(())
}
