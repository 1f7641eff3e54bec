//! Events, and the patches in them.
ghost use Rattle.std.specs.Prelude.{◌<◌};

use chain_core::Fate;
use delta_base::{Bytes, Id, Listing, id_text};
use patch_log::{Run, read_run};
use patch_meaning::{Checked, check_patch};
use std::alloc::Global;
use std::test::Fail;
use world_core::{World, WorldEvent, WorldEvents, world_run};

/// The id whose last digits are this number.
pub fn id_of(number: u32) -> Id {
    Id(0x0000_0000_0000_4000_8000_0000_0000_0000 | u128::from(number))
}

// Adds a header row whose value is an id.
fn push_id(text: &mut Vec<u8>, front: &[u8], id: Id) -> Result<(), Fail> {
    text.extend_from_slice(front)?;
    text.extend_from_slice(&id_text(id))?;
    text.extend_from_slice(b"> .\n")?;
    Ok(())
}

/// What a patch with this id adds and what it takes away: values from 0 to 4.
pub fn values_of(id: Id) -> (u8, u8)
    ensures added { result.0 < 5 }
    ensures taken { result.1 < 5 }
{
    let number = (id.0 % 16) as u8;
    (number % 5, (number + 2) % 5)
}

/// The line of the quad with a value.
pub fn line_of(value: u8) -> [u8; 32]
    requires { value < 5 }
{
    let mut line = *b"<http://e/s> <http://e/p> \"0\" .\n";
    line[27] = b'0' + value;
    line
}

// Adds a row that adds the quad with a value, or takes it away.
fn push_change(text: &mut Vec<u8>, code: &[u8], value: u8) -> Result<(), Fail>
    requires { value < 5 }
{
    text.extend_from_slice(code)?;
    text.extend_from_slice(&line_of(value))?;
    Ok(())
}

// Adds the rows of a patch with this id, which names that one before it.
fn push_rows(text: &mut Vec<u8>, id: Id, prev: Option<Id>) -> Result<(), Fail> {
    push_id(text, b"H id <uuid:", id)?;
    if let Some(prev) = prev {
        push_id(text, b"H prev <uuid:", prev)?;
    }
    let (added, taken) = values_of(id);
    text.extend_from_slice(b"TX .\n")?;
    push_change(text, b"A ", added)?;
    push_change(text, b"D ", taken)?;
    text.extend_from_slice(b"TC .\n")?;
    Ok(())
}

/// A patch with this id, which names that one before it.
pub fn patch_of(alloc: Global, id: Id, prev: Option<Id>) -> Result<Checked, Fail> {
    let mut text = Vec::new(alloc);
    push_rows(&mut text, id, prev)?;
    let patch = check_patch(alloc, &text)?;
    Ok(patch)
}

/// A run of patches with these ids. Each names the one before it, and the first one names that.
pub fn run_of(alloc: Global, ids: &[Id], prev: Option<Id>) -> Result<Run, Fail> {
    let mut text = Vec::new(alloc);
    let mut before = prev;
    for id in ids {
        push_rows(&mut text, *id, before)?;
        before = Some(*id);
    }
    match read_run(alloc, Bytes::from_vec(text)) {
        Ok(run) => Ok(run),
        Err(_) => Err(Fail::from("no run")),
    }
}

/// An event, with the numbers of patches in the place of patches.
#[derive(Clone, Copy)]
pub enum Step {
    /// An append of a patch with this number behind the one with that number, or of a first one
    /// where that is 0.
    Append {
        number: u32,
        before: u32,
        fate: Fate,
    },
    /// The same of a run of two: the patch with this number, and behind it the one with the next.
    AppendTwo {
        number: u32,
        before: u32,
        fate: Fate,
    },
    Serve {
        version: u32,
    },
    Describe,
    Stop {
        opened: bool,
    },
    Open,
    NewZone,
    /// A message reaches the first zone.
    Deliver {
        message: u32,
        fate: Fate,
    },
    ZoneOpen,
}

/// An append of the patch with this number behind the one before it.
pub fn next(number: u32, fate: Fate) -> Step {
    Step::Append {
        number,
        before: number.saturating_sub(1),
        fate,
    }
}

/// The same of this one and the next as a run.
pub fn next_two(number: u32, fate: Fate) -> Step {
    Step::AppendTwo {
        number,
        before: number.saturating_sub(1),
        fate,
    }
}

// The id of the patch that is named as the one before: none where the number is 0.
fn named(number: u32) -> Option<Id> {
    if number == 0 {
        return None;
    }
    Some(id_of(number))
}

/// The event with its patches.
pub fn event_of(alloc: Global, step: Step) -> Result<WorldEvent, Fail> {
    let event = match step {
        Step::Append {
            number,
            before,
            fate,
        } => {
            let run = run_of(alloc, &[id_of(number)], named(before))?;
            WorldEvent::Append { run, fate }
        }
        Step::AppendTwo {
            number,
            before,
            fate,
        } => {
            let ids = [id_of(number), id_of(number.saturating_add(1))];
            let run = run_of(alloc, &ids, named(before))?;
            WorldEvent::Append { run, fate }
        }
        Step::Serve { version } => WorldEvent::Serve { version },
        Step::Describe => WorldEvent::Describe,
        Step::Stop { opened } => WorldEvent::Stop { opened },
        Step::Open => WorldEvent::Open,
        Step::NewZone => WorldEvent::NewZone,
        Step::Deliver { message, fate } => WorldEvent::Deliver {
            message,
            zone: 0,
            fate,
        },
        Step::ZoneOpen => WorldEvent::ZoneOpen { zone: 0 },
    };
    Ok(event)
}

/// Adds an event.
pub fn add(events: &mut WorldEvents, event: WorldEvent) -> Result<(), Fail> {
    match events.push(event) {
        Ok(()) => Ok(()),
        Err(back) => {
            drop(back);
            Err(Fail::from("no memory"))
        }
    }
}

fn add_all(alloc: Global, events: &mut WorldEvents, steps: &[Step]) -> Result<(), Fail> {
    for step in steps {
        let event = event_of(alloc, *step)?;
        add(events, event)?;
    }
    Ok(())
}

/// Runs the world of these events.
pub fn run_events(alloc: Global, events: WorldEvents) -> Result<World, Fail> {
    let ran = world_run(alloc, &events);
    drop(events);
    match ran {
        Ok(world) => Ok(world),
        Err(_) => Err(Fail::from("no memory")),
    }
}

/// The world of these events.
pub fn run(alloc: Global, steps: &[Step]) -> Result<World, Fail> {
    let mut events = Listing::new(alloc);
    add_all(alloc, &mut events, steps)?;
    run_events(alloc, events)
}
