//! Worlds with a mirror: what its log and the log that it mirrors come to.
use crate::events::{Step, event_of};
use crate::parts::has_chain;
use chain_core::Fate;
use delta_base::Listing;
use log_base::Phase;
use std::alloc::Global;
use std::process::Abort;
use std::test::Fail;
use world_core::{LogPart, MirrorEvent, MirrorEvents, MirrorWorld, mirror_run};

/// An event of the log that is mirrored, or of the mirror.
#[derive(Clone, Copy)]
enum Event {
    Origin(Step),
    /// The message at this place reaches the mirror, whose device calls come to this fate.
    Take(u32, Fate),
    Stop { opened: bool },
    Open,
}

/// Both logs are up at the end and have just the patches with these numbers, in order.
struct Case {
    shows: &'static str,
    events: &'static [Event],
    origin: &'static [u32],
    mirror: &'static [u32],
}

const FIRST: Event = Event::Origin(Step::Append {
    number: 1,
    before: 0,
    fate: Fate::Done,
});

const SECOND: Event = Event::Origin(Step::Append {
    number: 2,
    before: 1,
    fate: Fate::Done,
});

const SERVE_1: Event = Event::Origin(Step::Serve { version: 1 });

const SERVE_2: Event = Event::Origin(Step::Serve { version: 2 });

/// The mirror stops with its gate open.
const STOPS_OPEN: Fate = Fate::Stops {
    phase: Phase::Gate,
    opened: true,
};

/// The same with its gate shut.
const STOPS_SHUT: Fate = Fate::Stops {
    phase: Phase::Gate,
    opened: false,
};

const DOUBT: Event = Event::Take(1, Fate::Fails(Phase::Gate));

static CASES: [Case; 7] = [
    Case {
        shows: "a mirror that stops with its gate open has the patch",
        events: &[
            FIRST,
            SERVE_1,
            Event::Take(1, STOPS_OPEN),
            Event::Open,
            Event::Origin(Step::Stop { opened: false }),
            Event::Origin(Step::Open),
        ],
        origin: &[1],
        mirror: &[1],
    },
    Case {
        shows: "a mirror that stops with its gate shut lacks the patch",
        events: &[FIRST, SERVE_1, Event::Take(1, STOPS_SHUT), Event::Open],
        origin: &[1],
        mirror: &[],
    },
    Case {
        shows: "a message that has no next patch changes nothing",
        events: &[
            FIRST,
            SECOND,
            SERVE_2,
            Event::Origin(Step::Describe),
            Event::Take(0, Fate::Done),
            Event::Take(2, Fate::Done),
            Event::Take(3, Fate::Done),
            Event::Take(9, Fate::Done),
        ],
        origin: &[1, 2],
        mirror: &[],
    },
    Case {
        shows: "a mirror has each patch once, however often it comes",
        events: &[
            FIRST,
            SECOND,
            SERVE_1,
            SERVE_2,
            Event::Take(2, Fate::Done),
            Event::Take(2, Fate::Done),
            Event::Take(3, Fate::Done),
            Event::Take(2, Fate::Done),
            Event::Take(3, Fate::Done),
        ],
        origin: &[1, 2],
        mirror: &[1, 2],
    },
    Case {
        shows: "a mirror takes the patches of a run one by one",
        events: &[
            Event::Origin(Step::AppendTwo {
                number: 1,
                before: 0,
                fate: Fate::Done,
            }),
            SERVE_1,
            Event::Take(1, Fate::Done),
        ],
        origin: &[1, 2],
        mirror: &[1],
    },
    Case {
        shows: "a mirror in doubt has the patch where it comes again",
        events: &[FIRST, SERVE_1, DOUBT, Event::Take(1, Fate::Done)],
        origin: &[1],
        mirror: &[1],
    },
    Case {
        shows: "a mirror's doubt is found where its gate stands open",
        events: &[
            FIRST,
            SERVE_1,
            DOUBT,
            Event::Stop { opened: true },
            Event::Open,
        ],
        origin: &[1],
        mirror: &[1],
    },
];

fn mirror_event_of(alloc: Global, event: Event) -> Result<MirrorEvent, Fail> {
    let made = match event {
        Event::Origin(step) => MirrorEvent::Origin(event_of(alloc, step)?),
        Event::Take(message, fate) => MirrorEvent::Take { message, fate },
        Event::Stop { opened } => MirrorEvent::MirrorStop { opened },
        Event::Open => MirrorEvent::MirrorOpen,
    };
    Ok(made)
}

fn add_all(alloc: Global, made: &mut MirrorEvents, events: &[Event]) -> Result<(), Fail> {
    for event in events {
        let next = mirror_event_of(alloc, *event)?;
        match made.push(next) {
            Ok(()) => {}
            Err(back) => {
                drop(back);
                return Err(Fail::from("no memory"));
            }
        }
    }
    Ok(())
}

fn run(alloc: Global, events: &[Event]) -> Result<MirrorWorld, Fail> {
    let mut made = Listing::new(alloc);
    add_all(alloc, &mut made, events)?;
    let ran = mirror_run(alloc, &made);
    drop(made);
    match ran {
        Ok(world) => Ok(world),
        Err(_) => Err(Fail::from("no memory")),
    }
}

// Each patch of the mirror is the origin's of its version, byte for byte.
fn has_texts(mirror: &LogPart, origin: &LogPart) -> bool {
    let (LogPart::Up(mirror), LogPart::Up(origin)) = (mirror, origin) else {
        return false;
    };
    let (has, wanted) = (mirror.chain(), origin.chain());
    for version in 1..=has.version() {
        match (has.by_version(version), wanted.by_version(version)) {
            (Some(patch), Some(same)) if patch.text.as_slice() == same.text.as_slice() => {}
            _ => return false,
        }
    }
    true
}

fn holds(rt: &impl Abort, alloc: Global, case: &Case) -> Result<(), Fail> {
    let world = run(alloc, case.events)?;
    let origin = has_chain(&world.origin.log, case.origin);
    let mirror = has_chain(&world.log, case.mirror);
    let texts = has_texts(&world.log, &world.origin.log);
    drop(world);
    assert!(rt; origin, "{}: the origin", case.shows);
    assert!(rt; mirror, "{}: the mirror", case.shows);
    assert!(rt; texts, "{}: the texts", case.shows);
    Ok(())
}

#[test]
fn what_a_mirror_has(rt: HostRuntime) -> Result<(), Fail> {
    for case in &CASES {
        holds(&rt, rt.alloc(), case)?;
    }
    Ok(())
}
