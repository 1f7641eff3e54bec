//! Worlds of a few events: what they come to.
use crate::events::{Step, id_of, patch_of, run};
use crate::parts::{are_notes, has_chain, has_values};
use crate::plain::Note;
use chain_core::Fate;
use delta_base::Id;
use log_base::{ChainLink, Phase};
use std::alloc::Global;
use std::process::Abort;
use std::test::Fail;
use world_core::{Message, World, ZonePart};

/// What a world has come to.
enum Look {
    /// Its log is up and has just the patches with these numbers, in order.
    Log(&'static [u32]),
    /// Just this was sent, in order.
    Sent(&'static [Note]),
    /// What was sent at this place has the patch with this number, byte for byte.
    Text(usize, u32),
    /// Its first zone is up and has taken so many patches.
    Taken(u32),
    /// The last one that it took has this number, and its dataset has just these values.
    Zone(u32, [bool; 5]),
}

struct Case {
    shows: &'static str,
    steps: &'static [Step],
    looks: &'static [Look],
}

const ID1: Id = Id(0x0000_0000_0000_4000_8000_0000_0000_0001);

const ID2: Id = Id(0x0000_0000_0000_4000_8000_0000_0000_0002);

const ID3: Id = Id(0x0000_0000_0000_4000_8000_0000_0000_0003);

// Patches that were accepted as runs of one.
const ONE: Note = Note::Accepted {
    first: 1,
    version: 1,
};

const TWO: Note = Note::Accepted {
    first: 2,
    version: 2,
};

const FIRST: Step = Step::Append {
    number: 1,
    before: 0,
    fate: Fate::Done,
};

const SECOND: Step = Step::Append {
    number: 2,
    before: 1,
    fate: Fate::Done,
};

/// The second patch fails at its gate.
const DOUBT: Step = Step::Append {
    number: 2,
    before: 1,
    fate: Fate::Fails(Phase::Gate),
};

/// The second patch and the third are a run.
const RUN: Step = Step::AppendTwo {
    number: 2,
    before: 1,
    fate: Fate::Done,
};

/// The same run fails at its gate.
const RUN_IN_DOUBT: Step = Step::AppendTwo {
    number: 2,
    before: 1,
    fate: Fate::Fails(Phase::Gate),
};

static CASES: [Case; 17] = [
    Case {
        shows: "a doubt is found where its gate stands open",
        steps: &[FIRST, DOUBT, Step::Stop { opened: true }, Step::Open],
        looks: &[Look::Log(&[1, 2]), Look::Sent(&[ONE])],
    },
    Case {
        shows: "a doubt is gone where its gate is shut",
        steps: &[FIRST, DOUBT, Step::Stop { opened: false }, Step::Open],
        looks: &[Look::Log(&[1]), Look::Sent(&[ONE])],
    },
    Case {
        shows: "the next append settles a doubt",
        steps: &[
            FIRST,
            DOUBT,
            Step::Append {
                number: 3,
                before: 1,
                fate: Fate::Done,
            },
            Step::Open,
        ],
        looks: &[Look::Log(&[1, 3]), Look::Sent(&[ONE, TWO])],
    },
    Case {
        shows: "what is asked is sent",
        steps: &[
            Step::Describe,
            FIRST,
            Step::Serve { version: 1 },
            Step::Serve { version: 2 },
            Step::Describe,
        ],
        looks: &[
            Look::Sent(&[
                Note::Info {
                    version: 0,
                    head: None,
                },
                ONE,
                Note::Item {
                    version: 1,
                    patch: ChainLink {
                        id: ID1,
                        prev: None,
                    },
                },
                Note::Info {
                    version: 1,
                    head: Some(ID1),
                },
            ]),
            Look::Text(2, 1),
        ],
    },
    Case {
        shows: "a zone takes an item once",
        steps: &[
            FIRST,
            Step::Serve { version: 1 },
            Step::NewZone,
            Step::Deliver {
                message: 1,
                fate: Fate::Done,
            },
            Step::Deliver {
                message: 1,
                fate: Fate::Done,
            },
        ],
        looks: &[
            Look::Taken(1),
            Look::Zone(1, [false, true, false, false, false]),
            Look::Log(&[1]),
        ],
    },
    Case {
        shows: "a zone waits for the patch behind its own",
        steps: &[
            FIRST,
            SECOND,
            Step::Serve { version: 2 },
            Step::Serve { version: 1 },
            Step::NewZone,
            Step::Deliver {
                message: 2,
                fate: Fate::Done,
            },
            Step::Deliver {
                message: 3,
                fate: Fate::Done,
            },
            Step::Deliver {
                message: 0,
                fate: Fate::Done,
            },
            Step::Deliver {
                message: 2,
                fate: Fate::Done,
            },
        ],
        looks: &[
            Look::Taken(2),
            Look::Zone(2, [false, true, true, false, false]),
        ],
    },
    Case {
        shows: "a zone that stops in the body lacks the patch",
        steps: &[
            FIRST,
            Step::Serve { version: 1 },
            Step::NewZone,
            Step::Deliver {
                message: 1,
                fate: Fate::Stops {
                    phase: Phase::Body,
                    opened: true,
                },
            },
            Step::ZoneOpen,
        ],
        looks: &[Look::Taken(0)],
    },
    Case {
        shows: "a zone that stops with its gate shut lacks the patch",
        steps: &[
            FIRST,
            Step::Serve { version: 1 },
            Step::NewZone,
            Step::Deliver {
                message: 1,
                fate: Fate::Stops {
                    phase: Phase::Gate,
                    opened: false,
                },
            },
            Step::ZoneOpen,
        ],
        looks: &[Look::Taken(0)],
    },
    Case {
        shows: "a zone that stops with its gate open has the patch",
        steps: &[
            FIRST,
            Step::Serve { version: 1 },
            Step::NewZone,
            Step::Deliver {
                message: 1,
                fate: Fate::Stops {
                    phase: Phase::Gate,
                    opened: true,
                },
            },
            Step::ZoneOpen,
        ],
        looks: &[Look::Taken(1)],
    },
    Case {
        shows: "a run is accepted whole",
        steps: &[FIRST, RUN, Step::Serve { version: 2 }, Step::Describe],
        looks: &[
            Look::Log(&[1, 2, 3]),
            Look::Sent(&[
                ONE,
                Note::Accepted {
                    first: 2,
                    version: 3,
                },
                Note::Item {
                    version: 2,
                    patch: ChainLink {
                        id: ID2,
                        prev: Some(ID1),
                    },
                },
                Note::Info {
                    version: 3,
                    head: Some(ID3),
                },
            ]),
        ],
    },
    Case {
        shows: "a run in doubt is found whole where its gate stands open",
        steps: &[FIRST, RUN_IN_DOUBT, Step::Stop { opened: true }, Step::Open],
        looks: &[Look::Log(&[1, 2, 3]), Look::Sent(&[ONE])],
    },
    Case {
        shows: "a run in doubt is gone whole where its gate is shut",
        steps: &[
            FIRST,
            RUN_IN_DOUBT,
            Step::Stop { opened: false },
            Step::Open,
        ],
        looks: &[Look::Log(&[1]), Look::Sent(&[ONE])],
    },
    Case {
        shows: "a run whose second patch is known is refused whole",
        steps: &[
            FIRST,
            Step::Append {
                number: 3,
                before: 1,
                fate: Fate::Done,
            },
            Step::AppendTwo {
                number: 2,
                before: 3,
                fate: Fate::Done,
            },
        ],
        looks: &[Look::Log(&[1, 3]), Look::Sent(&[ONE, TWO])],
    },
    Case {
        shows: "a run that begins inside the chain is refused whole",
        steps: &[FIRST, SECOND, RUN],
        looks: &[Look::Log(&[1, 2]), Look::Sent(&[ONE, TWO])],
    },
    Case {
        shows: "the next append settles a run in doubt",
        steps: &[
            FIRST,
            RUN_IN_DOUBT,
            Step::Append {
                number: 4,
                before: 1,
                fate: Fate::Done,
            },
            Step::Open,
        ],
        looks: &[Look::Log(&[1, 4]), Look::Sent(&[ONE, TWO])],
    },
    Case {
        shows: "a run in doubt is accepted where it is sent again",
        steps: &[FIRST, RUN_IN_DOUBT, RUN],
        looks: &[
            Look::Log(&[1, 2, 3]),
            Look::Sent(&[
                ONE,
                Note::Accepted {
                    first: 2,
                    version: 3,
                },
            ]),
        ],
    },
    Case {
        shows: "a zone takes the patches of a run one by one",
        steps: &[
            Step::AppendTwo {
                number: 1,
                before: 0,
                fate: Fate::Done,
            },
            Step::Serve { version: 1 },
            Step::Serve { version: 2 },
            Step::NewZone,
            Step::Deliver {
                message: 2,
                fate: Fate::Done,
            },
            Step::Deliver {
                message: 1,
                fate: Fate::Done,
            },
            Step::Deliver {
                message: 2,
                fate: Fate::Done,
            },
        ],
        looks: &[
            Look::Taken(2),
            Look::Zone(2, [false, true, true, false, false]),
        ],
    },
];

fn has_text(alloc: Global, message: Option<&Message>, number: u32) -> Result<bool, Fail> {
    let wanted = patch_of(alloc, id_of(number), None)?;
    let same = match message {
        Some(Message::Item { patch, .. }) => patch.text.as_slice() == wanted.text().as_slice(),
        _ => false,
    };
    drop(wanted);
    Ok(same)
}

fn taken_by(world: &World) -> Option<u32> {
    match world.zones.get(0) {
        Some(ZonePart::Up(zone)) => Some(zone.version()),
        Some(ZonePart::Down(_)) | None => None,
    }
}

fn has_taken(world: &World, head: u32, values: &[bool; 5]) -> Result<bool, Fail> {
    match world.zones.get(0) {
        Some(ZonePart::Up(zone)) => {
            let same = zone.head() == Some(id_of(head));
            let replayed = has_values(zone, values)?;
            Ok(same && replayed)
        }
        Some(ZonePart::Down(_)) | None => Ok(false),
    }
}

fn is_seen(alloc: Global, world: &World, look: &Look) -> Result<bool, Fail> {
    match look {
        Look::Log(numbers) => Ok(has_chain(&world.log, numbers)),
        Look::Sent(notes) => Ok(are_notes(world.pool.as_slice(), notes)),
        Look::Text(place, number) => has_text(alloc, world.pool.get(*place), *number),
        Look::Taken(version) => Ok(taken_by(world) == Some(*version)),
        Look::Zone(head, values) => has_taken(world, *head, values),
    }
}

fn are_seen(rt: &impl Abort, alloc: Global, world: &World, case: &Case) -> Result<(), Fail> {
    for (place, look) in case.looks.iter().enumerate() {
        assert!(rt;
            is_seen(alloc, world, look)?,
            "{}: look {place}",
            case.shows
        );
    }
    Ok(())
}

fn holds(rt: &impl Abort, alloc: Global, case: &Case) -> Result<(), Fail> {
    let world = run(alloc, case.steps)?;
    let seen = are_seen(rt, alloc, &world, case);
    drop(world);
    seen
}

#[test]
fn what_a_few_events_come_to(rt: HostRuntime) -> Result<(), Fail> {
    for case in &CASES {
        holds(&rt, rt.alloc(), case)?;
    }
    Ok(())
}
