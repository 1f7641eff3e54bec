//! Compares worlds that were run with plain ones.
use crate::events::{id_of, line_of};
use crate::plain::{Note, Plain, Point};
use chain_core::Chain;
use delta_base::Bytes;
use disk_model::PlanDisk;
use log_base::{ChainLink, LOG_LIMITS};
use patch_log::LogState;
use std::alloc::Global;
use std::test::Fail;
use world_core::{LOG_NUMBER, LogPart, Message, World, ZonePart};
use zone_state::{ZONE_NUMBER, Zone};

// The chain has just the patches with these links, in order, and then these.
fn has_links(chain: &Chain, links: &[ChainLink], more: &[ChainLink]) -> bool {
    if chain.version() as usize != links.len() + more.len() {
        return false;
    }
    for version in 1..=chain.version() {
        let Some(patch) = chain.by_version(version) else {
            return false;
        };
        let place = version as usize - 1;
        let wanted = match links.get(place) {
            Some(link) => Some(*link),
            None => more.get(place.saturating_sub(links.len())).copied(),
        };
        let found = ChainLink {
            id: patch.id,
            prev: patch.prev,
        };
        if wanted != Some(found) {
            return false;
        }
    }
    true
}

// The chain has just the patches with these numbers, in order.
fn is_chain(chain: &Chain, numbers: &[u32]) -> bool {
    if chain.version() as usize != numbers.len() {
        return false;
    }
    for (place, number) in numbers.iter().enumerate() {
        match chain.by_version(place as u32 + 1) {
            Some(patch) if patch.id == id_of(*number) => {}
            _ => return false,
        }
    }
    true
}

/// The log is up and has just the patches with these numbers, in order.
pub fn has_chain(part: &LogPart, numbers: &[u32]) -> bool {
    match part {
        LogPart::Up(log) => is_chain(log.chain(), numbers),
        LogPart::Down(_) => false,
    }
}

// Opening a disk finds just these patches.
fn keeps(
    alloc: Global,
    disk: PlanDisk,
    number: u32,
    links: &[ChainLink],
    more: &[ChainLink],
) -> Result<bool, Fail> {
    match LogState::open_on(alloc, disk, number, LOG_LIMITS) {
        Ok(log) => {
            let same = has_links(log.chain(), links, more);
            drop(log);
            Ok(same)
        }
        Err(refusal) => {
            drop(refusal);
            Ok(false)
        }
    }
}

// The same of an image.
fn holds(
    alloc: Global,
    image: Bytes,
    number: u32,
    links: &[ChainLink],
    more: &[ChainLink],
) -> Result<bool, Fail> {
    let disk = PlanDisk::new(alloc, image)?;
    keeps(alloc, disk, number, links, more)
}

// What a stop leaves of a disk is the plain one, with the run in doubt or without.
fn leaves(alloc: Global, disk: PlanDisk, number: u32, point: &Point) -> Result<bool, Fail> {
    let shut = disk.image(0)?;
    let open = disk.image(257)?;
    drop(disk);
    let doubt = match &point.doubt {
        Some(run) => run.as_slice(),
        None => &[],
    };
    let without = holds(alloc, shut, number, &point.chain, &[])?;
    let having = holds(alloc, open, number, &point.chain, doubt)?;
    Ok(without && having)
}

// A log is the plain one, and so is what a stop leaves of it.
fn is_log(alloc: Global, part: LogPart, point: &Point) -> Result<bool, Fail> {
    match part {
        LogPart::Up(log) => {
            let same = point.up
                && log.is_settled() == point.doubt.is_none()
                && has_links(log.chain(), &point.chain, &[]);
            let left = leaves(alloc, log.close(), LOG_NUMBER, point)?;
            Ok(same && left)
        }
        LogPart::Down(disk) => {
            let same = keeps(alloc, disk, LOG_NUMBER, &point.chain, &[])?;
            Ok(same && !point.up)
        }
    }
}

/// The zone's dataset has just these values.
pub fn has_values(zone: &Zone<PlanDisk>, values: &[bool; 5]) -> Result<bool, Fail> {
    let lines = zone.lines()?;
    let mut at: usize = 0;
    let mut same = true;
    for (value, is_there) in values.iter().enumerate() {
        if *is_there {
            let wanted = line_of(value as u8);
            same = same && at < lines.len() && lines.line(at) == wanted.as_slice();
            at = at.saturating_add(1);
        }
    }
    let is_all = at == lines.len();
    drop(lines);
    Ok(same && is_all)
}

// A zone is the plain one: its version, its head and its dataset.
fn is_taken(zone: &Zone<PlanDisk>, point: &Point) -> Result<bool, Fail> {
    let same = zone.version() == point.version() && zone.head() == point.head();
    let replayed = has_values(zone, &point.values())?;
    Ok(same && replayed)
}

// Opening a disk as a zone finds the plain one.
fn reopens(alloc: Global, disk: PlanDisk, point: &Point) -> Result<bool, Fail> {
    match Zone::open_on(alloc, disk, LOG_LIMITS) {
        Ok(zone) => {
            let same = is_taken(&zone, point)?;
            drop(zone);
            Ok(same)
        }
        Err(refusal) => {
            drop(refusal);
            Ok(false)
        }
    }
}

// A zone is the plain one, and so is what a stop leaves of it.
fn is_zone(alloc: Global, part: ZonePart, point: &Point) -> Result<bool, Fail> {
    match part {
        ZonePart::Up(zone) => {
            let same = point.up && zone.is_settled() == point.doubt.is_none();
            let taken = is_taken(&zone, point)?;
            let left = leaves(alloc, zone.close(), ZONE_NUMBER, point)?;
            Ok(same && taken && left)
        }
        ZonePart::Down(disk) => {
            let same = reopens(alloc, disk, point)?;
            Ok(same && !point.up)
        }
    }
}

// A message says what the plain one does.
fn is_note(message: &Message, note: Note) -> bool {
    let said = match message {
        Message::Accepted { first, version } => Note::Accepted {
            first: *first,
            version: *version,
        },
        Message::Info { version, head } => Note::Info {
            version: *version,
            head: *head,
        },
        Message::Item { version, patch } => Note::Item {
            version: *version,
            patch: ChainLink {
                id: patch.id,
                prev: patch.prev,
            },
        },
    };
    said == note
}

/// Just these messages were sent, in order.
pub fn are_notes(messages: &[Message], notes: &[Note]) -> bool {
    if messages.len() != notes.len() {
        return false;
    }
    for (message, note) in messages.iter().zip(notes) {
        if !is_note(message, *note) {
            return false;
        }
    }
    true
}

// The zones are the plain ones.
fn are_zones(alloc: Global, parts: Vec<ZonePart>, points: &[Point]) -> Result<bool, Fail> {
    if parts.len() != points.len() {
        drop(parts);
        return Ok(false);
    }
    let mut same = true;
    for (part, point) in parts.into_iter().zip(points) {
        let alike = is_zone(alloc, part, point)?;
        same = same && alike;
    }
    Ok(same)
}

/// A world is the plain one.
pub fn is_world(alloc: Global, world: World, plain: &Plain) -> Result<bool, Fail> {
    let World { log, zones, pool } = world;
    let told = are_notes(pool.as_slice(), &plain.pool);
    drop(pool);
    let followed = are_zones(alloc, zones.into_vec(), &plain.zones)?;
    let same = is_log(alloc, log, &plain.log)?;
    Ok(told && followed && same)
}
