//! Many lists of events, made by rule.
use crate::events::{add, id_of, run_events, run_of};
use crate::parts::is_world;
use crate::plain::Plain;
use chain_core::Fate;
use delta_base::Listing;
use log_base::Phase;
use std::alloc::Global;
use std::test::Fail;
use world_core::{WorldEvent, WorldEvents};

// How many lists a test runs, and how many events each has.
const LISTS: u32 = 2_500;

const EVENTS: u32 = 40;

// Numbers by rule: each is the one before it times a factor and one more, of which the high
// digits are taken.
#[derive(Drop)]
struct Rolls {
    state: u64,
}

impl Rolls {
    // A number from 0 to 15.
    fn roll(&mut self) -> u32 {
        self.state = self
            .state
            .wrapping_mul(6_364_136_223_846_793_005)
            .wrapping_add(1_442_695_040_888_963_407);
        u32::try_from(self.state >> 60).unwrap_or(0)
    }

    fn flip(&mut self) -> bool {
        self.roll() < 8
    }

    fn phase(&mut self) -> Phase {
        match self.roll() {
            0..=4 => Phase::Settling,
            5..=8 => Phase::Body,
            _ => Phase::Gate,
        }
    }

    fn fate(&mut self) -> Fate {
        match self.roll() {
            0..=8 => Fate::Done,
            9..=12 => Fate::Fails(self.phase()),
            _ => Fate::Stops {
                phase: self.phase(),
                opened: self.flip(),
            },
        }
    }

    // An append of one patch, of two or of three, most times behind the head.
    fn append(&mut self, alloc: Global, plain: &Plain) -> Result<WorldEvent, Fail> {
        let number = self.roll();
        let prev = if self.roll() < 13 {
            plain.log.head()
        } else {
            Some(id_of(self.roll()))
        };
        let ids = [
            id_of(number),
            id_of(number.wrapping_add(5) % 16),
            id_of(number.wrapping_add(9) % 16),
        ];
        let run = match self.roll() {
            0..=7 => run_of(alloc, &ids[..1], prev)?,
            8..=12 => run_of(alloc, &ids[..2], prev)?,
            _ => run_of(alloc, &ids, prev)?,
        };
        let fate = self.fate();
        Ok(WorldEvent::Append { run, fate })
    }

    // A version is asked for, most times one that a zone lacks.
    fn serve(&mut self, plain: &Plain) -> WorldEvent {
        let zone = self.roll() / 8;
        let version = if self.roll() < 12 {
            plain.wanted(zone)
        } else {
            self.roll()
        };
        WorldEvent::Serve { version }
    }

    // A message reaches one of two zones, most times the one that it lacks.
    fn deliver(&mut self, plain: &Plain) -> WorldEvent {
        let zone = self.roll() / 8;
        let other = self.roll();
        let message = match plain.item(plain.wanted(zone)) {
            Some(message) if self.roll() < 12 => message,
            _ => other,
        };
        WorldEvent::Deliver {
            message,
            zone,
            fate: self.fate(),
        }
    }

    // An event of a zone, which may be none.
    fn zone_event(&mut self) -> WorldEvent {
        let zone = self.roll() / 7;
        match self.roll() {
            0..=4 => WorldEvent::NewZone,
            5 | 6 => WorldEvent::ZoneStop {
                zone,
                opened: self.flip(),
            },
            _ => WorldEvent::ZoneOpen { zone },
        }
    }

    fn event(&mut self, alloc: Global, plain: &Plain) -> Result<WorldEvent, Fail> {
        match self.roll() {
            0..=3 => self.append(alloc, plain),
            4..=6 => Ok(self.serve(plain)),
            7 if self.flip() => Ok(WorldEvent::Describe),
            7 => Ok(WorldEvent::Stop {
                opened: self.flip(),
            }),
            8 | 9 => Ok(WorldEvent::Open),
            10 | 11 => Ok(self.zone_event()),
            _ => Ok(self.deliver(plain)),
        }
    }
}

// Adds so many events, and takes each to the plain world.
fn make(
    alloc: Global,
    rolls: &mut Rolls,
    events: &mut WorldEvents,
    plain: &mut Plain,
) -> Result<(), Fail> {
    for _ in 0..EVENTS {
        let event = rolls.event(alloc, plain)?;
        match plain.step(alloc, &event) {
            Ok(()) => add(events, event)?,
            Err(fail) => {
                drop(event);
                return Err(fail);
            }
        }
    }
    Ok(())
}

// Whether the events come to the plain world.
fn comes_to(alloc: Global, events: WorldEvents, plain: &Plain) -> Result<bool, Fail> {
    let world = run_events(alloc, events)?;
    is_world(alloc, world, plain)
}

// A list of events, run and computed: whether the two worlds are one.
fn is_run_as_computed(alloc: Global, rolls: &mut Rolls) -> Result<bool, Fail> {
    let mut events = Listing::new(alloc);
    let mut plain = Plain::new(alloc);
    make(alloc, rolls, &mut events, &mut plain)?;
    let same = comes_to(alloc, events, &plain);
    drop(plain);
    same
}

// Whether all lists are that begin with this number.
fn are_run_as_computed(alloc: Global, first: u64) -> Result<bool, Fail> {
    let mut rolls = Rolls { state: first };
    for _ in 0..LISTS {
        if !is_run_as_computed(alloc, &mut rolls)? {
            return Ok(false);
        }
    }
    Ok(true)
}

#[test]
fn lists_made_by_rule_are_run_as_computed(rt: HostRuntime) -> Result<(), Fail> {
    assert!(rt; are_run_as_computed(rt.alloc(), 1)?);
    Ok(())
}

#[test]
fn more_lists_are_run_as_computed(rt: HostRuntime) -> Result<(), Fail> {
    assert!(rt; are_run_as_computed(rt.alloc(), 2)?);
    Ok(())
}

#[test]
fn other_lists_are_run_as_computed(rt: HostRuntime) -> Result<(), Fail> {
    assert!(rt; are_run_as_computed(rt.alloc(), 3)?);
    Ok(())
}

#[test]
fn the_last_lists_are_run_as_computed(rt: HostRuntime) -> Result<(), Fail> {
    assert!(rt; are_run_as_computed(rt.alloc(), 4)?);
    Ok(())
}
