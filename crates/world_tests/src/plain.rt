//! What events make of a world, computed plainly by the cases of the definition. Patches are told
//! by their links.
use crate::events::values_of;
use chain_core::{Fate, Patch};
use delta_base::Id;
use log_base::{ChainLink, Phase};
use patch_log::Run;
use std::alloc::Global;
use std::test::Fail;
use world_core::{WorldEvent, WorldEvents};

/// A log or a zone: whether it is up, its patches, and the run in doubt, which is one patch of
/// a zone.
#[derive(Drop)]
pub struct Point {
    pub up: bool,
    pub chain: Vec<ChainLink>,
    pub doubt: Option<Vec<ChainLink>>,
}

/// A message that was sent.
#[derive(Clone, Copy, PartialEq, Eq)]
pub enum Note {
    Accepted { first: u32, version: u32 },
    Info { version: u32, head: Option<Id> },
    Item { version: u32, patch: ChainLink },
}

/// A world.
#[derive(Drop)]
pub struct Plain {
    pub log: Point,
    pub zones: Vec<Point>,
    pub pool: Vec<Note>,
}

fn link_of(patch: &Patch) -> ChainLink {
    ChainLink {
        id: patch.id,
        prev: patch.prev,
    }
}

fn links_of(alloc: Global, run: &Run) -> Result<Vec<ChainLink>, Fail> {
    let mut links = Vec::new(alloc);
    for patch in run.patches().as_slice() {
        links.push(link_of(patch))?;
    }
    Ok(links)
}

impl Point {
    /// An empty one that is up.
    pub fn new(alloc: Global) -> Point {
        Point {
            up: true,
            chain: Vec::new(alloc),
            doubt: None,
        }
    }

    /// How many patches it has.
    pub fn version(&self) -> u32 {
        u32::try_from(self.chain.len()).unwrap_or(u32::MAX)
    }

    /// The id of its last patch.
    pub fn head(&self) -> Option<Id> {
        match self.chain.last() {
            Some(last) => Some(last.id),
            None => None,
        }
    }

    /// Which values the replay of its patches has, from 0 to 4.
    pub fn values(&self) -> [bool; 5] {
        let mut values = [false; 5];
        for link in &self.chain {
            let (added, taken) = values_of(link.id);
            values[added as usize] = true;
            values[taken as usize] = false;
        }
        values
    }

    // No patch has this id.
    fn is_new(&self, id: Id) -> bool {
        for old in &self.chain {
            if old.id == id {
                return false;
            }
        }
        true
    }

    // The first patch names the head, and each id is new. Room there is always.
    fn fits(&self, run: &[ChainLink]) -> bool {
        for patch in run {
            if !self.is_new(patch.id) {
                return false;
            }
        }
        match run.first() {
            Some(first) => first.prev == self.head(),
            None => false,
        }
    }

    fn push(&mut self, run: &[ChainLink]) -> Result<(), Fail> {
        for patch in run {
            self.chain.push(*patch)?;
        }
        Ok(())
    }

    // The run is behind the others, and none is in doubt.
    fn accept(&mut self, run: &[ChainLink]) -> Result<Option<Note>, Fail> {
        let first = self.version().saturating_add(1);
        self.push(run)?;
        self.doubt = None;
        let version = self.version();
        Ok(Some(Note::Accepted { first, version }))
    }

    // It is down, with this run where its gate stands open.
    fn halt(&mut self, doubt: Option<Vec<ChainLink>>, opened: bool) -> Result<(), Fail> {
        if let (Some(run), true) = (&doubt, opened) {
            self.push(run)?;
        }
        self.up = false;
        self.doubt = None;
        Ok(())
    }

    // A stop with what is in doubt.
    fn halt_here(&mut self, opened: bool) -> Result<(), Fail> {
        let doubt = self.doubt.take();
        self.halt(doubt, opened)
    }

    // Fails in this phase, or goes on where there is nothing to settle.
    fn fail(&mut self, run: Vec<ChainLink>, phase: Phase) -> Result<Option<Note>, Fail> {
        match phase {
            Phase::Settling => {
                if self.doubt.is_none() {
                    return self.accept(&run);
                }
            }
            Phase::Body => self.doubt = None,
            Phase::Gate => self.doubt = Some(run),
        }
        Ok(None)
    }

    // Stops in this phase, or goes on where there is nothing to settle.
    fn stop(
        &mut self,
        run: Vec<ChainLink>,
        phase: Phase,
        opened: bool,
    ) -> Result<Option<Note>, Fail> {
        match phase {
            Phase::Settling => {
                if self.doubt.is_none() {
                    return self.accept(&run);
                }
                self.halt_here(opened)?;
            }
            Phase::Body => self.halt(None, opened)?,
            Phase::Gate => self.halt(Some(run), opened)?,
        }
        Ok(None)
    }

    /// An append with this fate: what is sent where it was accepted.
    pub fn stay(&mut self, run: Vec<ChainLink>, fate: Fate) -> Result<Option<Note>, Fail> {
        if !self.up || !self.fits(&run) {
            return Ok(None);
        }
        match fate {
            Fate::Done => self.accept(&run),
            Fate::Fails(phase) => self.fail(run, phase),
            Fate::Stops { phase, opened } => self.stop(run, phase, opened),
        }
    }

    // A stop between two calls.
    fn close(&mut self, opened: bool) -> Result<(), Fail> {
        if self.up {
            self.halt_here(opened)?;
        }
        Ok(())
    }
}

impl Plain {
    /// An empty log that is up, no zone and no message.
    pub fn new(alloc: Global) -> Plain {
        Plain {
            log: Point::new(alloc),
            zones: Vec::new(alloc),
            pool: Vec::new(alloc),
        }
    }

    /// The version behind those of a zone, or the first one where there is no such zone.
    pub fn wanted(&self, zone: u32) -> u32 {
        match self.zones.get(zone as usize) {
            Some(zone) => zone.version().saturating_add(1),
            None => 1,
        }
    }

    /// Which message has the patch of a version, if one has.
    pub fn item(&self, wanted: u32) -> Option<u32> {
        for (place, note) in self.pool.iter().enumerate() {
            match note {
                Note::Item { version, .. } if *version == wanted => {
                    return u32::try_from(place).ok();
                }
                _ => {}
            }
        }
        None
    }

    // What is sent to who asks for a version.
    fn serve(&mut self, version: u32) -> Result<(), Fail> {
        if !self.log.up || version == 0 {
            return Ok(());
        }
        if let Some(patch) = self.log.chain.get(version as usize - 1) {
            let patch = *patch;
            self.pool.push(Note::Item { version, patch })?;
        }
        Ok(())
    }

    // An event of the log.
    fn run_log(&mut self, alloc: Global, event: &WorldEvent) -> Result<(), Fail> {
        match event {
            WorldEvent::Append { run, fate } => {
                let links = links_of(alloc, run)?;
                if let Some(note) = self.log.stay(links, *fate)? {
                    self.pool.push(note)?;
                }
            }
            WorldEvent::Serve { version } => self.serve(*version)?,
            WorldEvent::Describe => {
                if self.log.up {
                    let version = self.log.version();
                    let head = self.log.head();
                    self.pool.push(Note::Info { version, head })?;
                }
            }
            WorldEvent::Stop { opened } => self.log.close(*opened)?,
            WorldEvent::Open => self.log.up = true,
            _ => {}
        }
        Ok(())
    }

    // A message reaches a zone.
    fn deliver(&mut self, alloc: Global, message: u32, zone: u32, fate: Fate) -> Result<(), Fail> {
        let Some(Note::Item { version, patch }) = self.pool.get(message as usize) else {
            return Ok(());
        };
        let (version, patch) = (*version, *patch);
        if let Some(zone) = self.zones.get_mut(zone as usize) {
            if u64::from(version) == u64::from(zone.version()) + 1 {
                let mut run = Vec::new(alloc);
                run.push(patch)?;
                let _taken = zone.stay(run, fate)?;
            }
        }
        Ok(())
    }

    // An event of a zone.
    fn run_zone(&mut self, alloc: Global, event: &WorldEvent) -> Result<(), Fail> {
        match event {
            WorldEvent::NewZone => self.zones.push(Point::new(alloc))?,
            WorldEvent::Deliver {
                message,
                zone,
                fate,
            } => self.deliver(alloc, *message, *zone, *fate)?,
            WorldEvent::ZoneStop { zone, opened } => {
                if let Some(zone) = self.zones.get_mut(*zone as usize) {
                    zone.close(*opened)?;
                }
            }
            WorldEvent::ZoneOpen { zone } => {
                if let Some(zone) = self.zones.get_mut(*zone as usize) {
                    zone.up = true;
                }
            }
            _ => {}
        }
        Ok(())
    }

    /// Any event. One that doesn't fit changes nothing.
    pub fn step(&mut self, alloc: Global, event: &WorldEvent) -> Result<(), Fail> {
        self.run_zone(alloc, event)?;
        self.run_log(alloc, event)
    }

    /// The world that these events make.
    pub fn of(alloc: Global, events: &WorldEvents) -> Result<Plain, Fail> {
        let mut plain = Plain::new(alloc);
        for event in events.as_slice() {
            plain.step(alloc, event)?;
        }
        Ok(plain)
    }
}
