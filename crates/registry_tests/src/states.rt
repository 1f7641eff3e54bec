//! A registry in one thread: what it answers, and what it has then.
use crate::calls::{
    ONE_SLOT, Place, TWO_SLOTS, Told, create, id_of, is, open_with, remove, rename,
};
use delta_base::{Id, Text};
use disk_model::MemDisk;
use log_base::{FullKind, SourceInfo};
use log_registry::RegistryState;
use registry_core::CreateAnswer;
use std::alloc::Global;
use std::process::Abort;
use std::test::Fail;

/// The id whose last digits are 9.
const ID9: Id = Id(0x0000_0000_0000_4000_8000_0000_0000_0009);

/// The slot, the name and the URI of a source.
type Source = (u32, &'static str, &'static str);

/// A call of a registry or a look at it, with what that gives.
enum Step {
    Create(&'static str, &'static str, u128, Told),
    Rename(&'static str, &'static str, Told),
    Remove(&'static str, Told),
    /// A creation with this id is refused, since the source with this name has it.
    IdOf(&'static str, u128, &'static str),
    FindsName(&'static str, Option<Source>),
    FindsUri(&'static str, Option<Source>),
    FindsId(u128, Option<Source>),
    /// The names in the order of the list, each behind a blank.
    Lists(&'static str),
    /// So many events were made.
    Count(u64),
    Faults(u64),
}

struct Case {
    shows: &'static str,
    file: &'static [u8],
    /// The numbers of the calls of the disk that fail. The opening makes the first seven, and each
    /// event five.
    failing: &'static [u64],
    steps: &'static [Step],
}

/// A creation that is refused is made again.
const TWICE: &[Step] = &[
    Step::Create("a", "http://e/a", 1, Told::DiskFault),
    Step::Faults(1),
    Step::Count(0),
    Step::Create("a", "http://e/a", 1, Told::Made { slot: 1 }),
    Step::Count(1),
];

static CASES: [Case; 11] = [
    Case {
        shows: "slots are few",
        file: ONE_SLOT,
        failing: &[],
        steps: &[
            Step::Create("ABC", "http://e/abc", 9, Told::Made { slot: 1 }),
            Step::Create("ABC", "http://e/x", 8, Told::NameTaken { id: ID9 }),
            Step::Create(
                "B",
                "http://e/x",
                8,
                Told::Full {
                    what: FullKind::Slots,
                    have: 1,
                    limit: 1,
                },
            ),
        ],
    },
    Case {
        shows: "a taken id shows its name, unless the name is taken too",
        file: TWO_SLOTS,
        failing: &[],
        steps: &[
            Step::Create("ABC", "http://e/abc", 9, Told::Made { slot: 1 }),
            Step::IdOf("B", 9, "ABC"),
            Step::Create("ABC", "http://e/x", 9, Told::NameTaken { id: ID9 }),
        ],
    },
    Case {
        shows: "a removed slot is not used again",
        file: TWO_SLOTS,
        failing: &[],
        steps: &[
            Step::Create("A", "http://e/a", 1, Told::Made { slot: 1 }),
            Step::Rename("A", "B", Told::Made { slot: 1 }),
            Step::Remove("B", Told::Made { slot: 1 }),
            Step::Create("B", "http://e/b", 2, Told::Made { slot: 2 }),
            Step::Lists(" B"),
            Step::Count(4),
        ],
    },
    Case {
        shows: "creations are refused at a place",
        file: TWO_SLOTS,
        failing: &[],
        steps: &[
            Step::Create("a/b", "http://e/b", 1, Told::BadName { at: 1 }),
            Step::Create("b", "abc", 1, Told::BadUri { at: 0 }),
            Step::Create("", "http://e/b", 1, Told::BadName { at: 0 }),
            Step::Create(".b", "http://e/b", 1, Told::BadName { at: 0 }),
            Step::Create("b", "http://e/ b", 1, Told::BadUri { at: 9 }),
        ],
    },
    Case {
        shows: "changes are refused",
        file: TWO_SLOTS,
        failing: &[],
        steps: &[
            Step::Create("ABC", "http://e/abc", 9, Told::Made { slot: 1 }),
            Step::Rename("ABC", "ABC", Told::NameTaken { id: ID9 }),
            Step::Rename("ABC", "a b", Told::BadName { at: 1 }),
            Step::Remove("X", Told::NoSuchName),
        ],
    },
    // A URI finds the source that has it first, and as a name it finds none.
    Case {
        shows: "sources are found and listed",
        file: TWO_SLOTS,
        failing: &[],
        steps: &[
            Step::Create("b", "http://e/x", 1, Told::Made { slot: 1 }),
            Step::Create("a", "http://e/x", 2, Told::Made { slot: 2 }),
            Step::Lists(" a b"),
            Step::FindsUri("http://e/x", Some((1, "b", "http://e/x"))),
            Step::FindsName("http://e/x", None),
            Step::FindsId(2, Some((2, "a", "http://e/x"))),
            Step::FindsName("a", Some((2, "a", "http://e/x"))),
        ],
    },
    Case {
        shows: "a creation fails at its first call",
        file: TWO_SLOTS,
        failing: &[7],
        steps: TWICE,
    },
    Case {
        shows: "a creation fails at its second call",
        file: TWO_SLOTS,
        failing: &[8],
        steps: TWICE,
    },
    Case {
        shows: "a creation fails at its third call",
        file: TWO_SLOTS,
        failing: &[9],
        steps: TWICE,
    },
    Case {
        shows: "a creation fails at its fourth call",
        file: TWO_SLOTS,
        failing: &[10],
        steps: TWICE,
    },
    Case {
        shows: "a creation fails at its fifth call",
        file: TWO_SLOTS,
        failing: &[11],
        steps: TWICE,
    },
];

fn has(source: &SourceInfo, (slot, name, uri): Source) -> bool {
    source.slot == slot && source.name.as_str() == name && source.uri.as_str() == uri
}

fn is_found(found: Option<SourceInfo>, wanted: Option<Source>) -> bool {
    let same = match (&found, wanted) {
        (Some(source), Some(wanted)) => has(source, wanted),
        (None, None) => true,
        _ => false,
    };
    drop(found);
    same
}

fn finds_name(
    alloc: Global,
    registry: &RegistryState<MemDisk>,
    name: &str,
    wanted: Option<Source>,
) -> Result<bool, Fail> {
    let name = Text::from_str(alloc, name)?;
    Ok(is_found(registry.resolve(&name)?, wanted))
}

fn finds_uri(
    alloc: Global,
    registry: &RegistryState<MemDisk>,
    uri: &str,
    wanted: Option<Source>,
) -> Result<bool, Fail> {
    let uri = Text::from_str(alloc, uri)?;
    Ok(is_found(registry.resolve_uri(&uri)?, wanted))
}

/// Whether a registry lists these names.
fn lists(alloc: Global, registry: &RegistryState<MemDisk>, names: &str) -> Result<bool, Fail> {
    let mut text = String::new(alloc);
    let listed = registry.list()?;
    for source in listed.as_slice() {
        text.push_str(" ")?;
        text.push_str(source.name.as_str())?;
    }
    Ok(text.as_str() == names)
}

/// Whether a creation with the id of another source shows the name of that.
fn shows_taken(
    alloc: Global,
    registry: &mut RegistryState<MemDisk>,
    name: &str,
    id: u128,
    other: &str,
) -> Result<bool, Fail> {
    let name = Text::from_str(alloc, name)?;
    let uri = Text::from_str(alloc, "http://e/x")?;
    let answer = registry.create(&name, &uri, id_of(id), 1);
    let shown = matches!(&answer, CreateAnswer::IdTaken { name } if name.as_str() == other);
    drop(answer);
    Ok(shown)
}

fn goes(
    rt: &impl Abort,
    alloc: Global,
    at: Place,
    registry: &mut RegistryState<MemDisk>,
    step: &Step,
) -> Result<(), Fail> {
    match step {
        Step::Create(name, uri, id, told) => {
            is(rt, at, &create(alloc, registry, name, uri, *id)?, told);
        }
        Step::Rename(name, new, told) => is(rt, at, &rename(alloc, registry, name, new)?, told),
        Step::Remove(name, told) => is(rt, at, &remove(alloc, registry, name)?, told),
        Step::IdOf(name, id, other) => {
            is(
                rt,
                at,
                &shows_taken(alloc, registry, name, *id, other)?,
                &true,
            );
        }
        Step::FindsName(name, source) => {
            is(rt, at, &finds_name(alloc, registry, name, *source)?, &true);
        }
        Step::FindsUri(uri, source) => {
            is(rt, at, &finds_uri(alloc, registry, uri, *source)?, &true);
        }
        Step::FindsId(id, source) => {
            is(
                rt,
                at,
                &is_found(registry.resolve_id(id_of(*id))?, *source),
                &true,
            );
        }
        Step::Lists(names) => is(rt, at, &lists(alloc, registry, names)?, &true),
        Step::Count(count) => is(rt, at, &registry.count(), count),
        Step::Faults(faults) => is(rt, at, &registry.faults(), faults),
    }
    Ok(())
}

fn goes_through(
    rt: &impl Abort,
    alloc: Global,
    registry: &mut RegistryState<MemDisk>,
    case: &Case,
) -> Result<(), Fail> {
    let shows = case.shows;
    for (step, wanted) in case.steps.iter().enumerate() {
        goes(rt, alloc, Place { shows, step }, registry, wanted)?;
    }
    Ok(())
}

fn holds(rt: &impl Abort, alloc: Global, case: &Case) -> Result<(), Fail> {
    let mut registry = open_with(alloc, case.file, case.failing)?;
    let gone = goes_through(rt, alloc, &mut registry, case);
    drop(registry);
    gone
}

#[test]
fn what_a_registry_answers_and_has_then(rt: HostRuntime) -> Result<(), Fail> {
    for case in &CASES {
        holds(&rt, rt.alloc(), case)?;
    }
    Ok(())
}
