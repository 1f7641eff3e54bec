//! What the tests run on, and where in a table they are.
use delta_base::{Bytes, Id, Listing};
use disk_model::MemDisk;
use log_base::LOG_LIMITS;
use paired_zone::PairedZone;
use patch_meaning::check_patch;
use std::alloc::Global;
use std::process::Abort;
use std::test::Fail;
use zone_state::TakeAnswer;

/// The patch behind `SECOND`, which sets two prefixes and takes a quad away.
pub const THIRD: &[u8] =
    b"H id <uuid:00000000-0000-4000-8000-000000000003> .\nH prev <uuid:00000000-0000-4000-8000-000000000002> .\nTX .\nPA \"f\" <http://f/> .\nPA \"e\" <http://e/> .\nD <http://e/s> <http://e/p> <http://e/o> .\nTC .\n";

pub const ID1: Id = Id(0x0000_0000_0000_4000_8000_0000_0000_0001);

pub const ID2: Id = Id(0x0000_0000_0000_4000_8000_0000_0000_0002);

pub const ID3: Id = Id(0x0000_0000_0000_4000_8000_0000_0000_0003);

/// The lines of the quads that patches add.
pub const LINE1: &str = "<http://e/s> <http://e/p> <http://e/o> .\n";

pub const LINE2: &str = "<http://e/s> <http://e/p> <http://e/o2> .\n";

/// The head and the lines of a zone that took so many of the three patches.
pub fn after(version: u32) -> (Option<Id>, &'static [&'static str]) {
    match version {
        0 => (None, &[]),
        1 => (Some(ID1), &[LINE1]),
        2 => (Some(ID2), &[LINE2, LINE1]),
        _ => (Some(ID3), &[LINE2]),
    }
}

/// The zone on two disks.
pub fn open(alloc: Global, first: MemDisk, second: MemDisk) -> Result<PairedZone<MemDisk>, Fail> {
    match PairedZone::open_pair(alloc, first, second, LOG_LIMITS) {
        Ok(zone) => Ok(zone),
        Err(refusal) => {
            drop(refusal);
            Err(Fail::from("not opened"))
        }
    }
}

/// What a zone answers to the patch that a text is.
pub fn take(
    alloc: Global,
    zone: &mut PairedZone<MemDisk>,
    text: &[u8],
) -> Result<TakeAnswer, Fail> {
    let patch = check_patch(alloc, text)?;
    let answer = zone.take_next(&patch);
    drop(patch);
    Ok(answer)
}

// Whether a zone has these lines.
fn has_lines(zone: &PairedZone<MemDisk>, lines: &[&str]) -> Result<bool, Fail> {
    let found = zone.lines()?;
    let mut same = found.len() == lines.len();
    for at in 0..found.len() {
        same = same
            && lines
                .get(at)
                .is_some_and(|line| found.line(at) == line.as_bytes());
    }
    drop(found);
    Ok(same)
}

/// Whether a zone has what so many of the three patches make, and nothing else.
pub fn has_taken(zone: &PairedZone<MemDisk>, version: u32) -> Result<bool, Fail> {
    let (head, lines) = after(version);
    let prefixes = if version < 3 { 0 } else { 2 };
    Ok(
        zone.version() == version
            && zone.head() == head
            && has_lines(zone, lines)?
            && zone.prefix_rows()?.len() == prefixes,
    )
}

/// The version of the zone on two images, which has what so many of the three patches make.
pub fn version_on(alloc: Global, first: Bytes, second: Bytes) -> Result<u32, Fail> {
    let one = MemDisk::from_image(alloc, first, Listing::new(alloc))?;
    let two = MemDisk::from_image(alloc, second, Listing::new(alloc))?;
    let zone = open(alloc, one, two)?;
    let version = zone.version();
    let has = has_taken(&zone, version);
    drop(zone);
    if has? {
        Ok(version)
    } else {
        Err(Fail::from("another dataset"))
    }
}

/// Whether any two images that a crash may leave are of a zone that took so many of the patches, or
/// some more.
pub fn is_left(
    alloc: Global,
    first: &MemDisk,
    second: &MemDisk,
    taken: u32,
    more: u32,
) -> Result<bool, Fail> {
    for one in [0, 1, 7] {
        for two in [0, 1, 7] {
            let version = version_on(alloc, first.image(one)?, second.image(two)?)?;
            if version.wrapping_sub(taken) > more {
                return Ok(false);
            }
        }
    }
    Ok(true)
}

/// A step of a case of a table.
#[derive(Clone, Copy)]
pub struct Place {
    /// What the case shows.
    pub shows: &'static str,
    pub step: usize,
}

/// What was found at a place is what stands there.
pub fn is<T: PartialEq>(rt: &impl Abort, at: Place, found: &T, wanted: &T) {
    assert!(rt; found == wanted, "{}: step {}", at.shows, at.step);
}
