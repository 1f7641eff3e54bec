//! What the tests run on, and where in a table they are.
use delta_base::{Bytes, Id, Listing};
use disk_model::{Disk, MemDisk};
use log_base::{LOG_LIMITS, LogLimits};
use patch_meaning::check_patch;
use std::alloc::Global;
use std::process::Abort;
use std::test::Fail;
use zone_state::{TakeAnswer, Zone};

/// A file of no patches.
pub const EMPTY: &[u8] = b"RDJ2\0\0\x03\xe8\0";

/// The patch behind `SECOND`, which sets two prefixes and takes a quad away.
pub const THIRD: &[u8] =
    b"H id <uuid:00000000-0000-4000-8000-000000000003> .\nH prev <uuid:00000000-0000-4000-8000-000000000002> .\nTX .\nPA \"f\" <http://f/> .\nPA \"e\" <http://e/> .\nD <http://e/s> <http://e/p> <http://e/o> .\nTC .\n";

pub const ID1: Id = Id(0x0000_0000_0000_4000_8000_0000_0000_0001);

pub const ID2: Id = Id(0x0000_0000_0000_4000_8000_0000_0000_0002);

pub const ID3: Id = Id(0x0000_0000_0000_4000_8000_0000_0000_0003);

pub const ID9: Id = Id(0x0000_0000_0000_4000_8000_0000_0000_0009);

/// The lines of the quads that patches add.
pub const LINE1: &str = "<http://e/s> <http://e/p> <http://e/o> .\n";

pub const LINE2: &str = "<http://e/s> <http://e/p> <http://e/o2> .\n";

/// The zone on a disk.
pub fn open<D: Disk + Drop>(alloc: Global, disk: D, limits: LogLimits) -> Result<Zone<D>, Fail> {
    match Zone::open_on(alloc, disk, limits) {
        Ok(zone) => Ok(zone),
        Err(_) => Err(Fail::from("not opened")),
    }
}

/// What a zone answers to the patch that a text is.
pub fn take<D: Disk>(alloc: Global, zone: &mut Zone<D>, text: &[u8]) -> Result<TakeAnswer, Fail> {
    let patch = check_patch(alloc, text)?;
    let answer = zone.take_next(&patch);
    drop(patch);
    Ok(answer)
}

/// A step of a case of a table.
#[derive(Clone, Copy)]
pub struct Place {
    /// What the case shows.
    pub shows: &'static str,
    pub step: usize,
}

/// What was found at a place is what stands there.
pub fn is<T: PartialEq>(rt: &impl Abort, at: Place, found: &T, wanted: &T) {
    assert!(rt; found == wanted, "{}: step {}", at.shows, at.step);
}

/// The version and the head of the zone on an image.
pub fn found_in(alloc: Global, image: Bytes) -> Result<(u32, Option<Id>), Fail> {
    let disk = MemDisk::from_image(alloc, image, Listing::new(alloc))?;
    let zone = open(alloc, disk, LOG_LIMITS)?;
    let found = (zone.version(), zone.head());
    drop(zone);
    Ok(found)
}
