//! What stands at the front of a journal's file.
use crate::tables::{Place, are_bytes, is};
use disk_model::MemDisk;
use log_journal::{Front, FrontFault, front};
use std::alloc::Global;
use std::process::Abort;
use std::test::Fail;
use worked_rows::disk_of;

/// What is found at the front of a file of number 1: the length of its first payload and what is
/// shown of it, or none where nothing stands there.
pub type Found = Result<Option<(u32, &'static [u8])>, FrontFault>;

// A first payload of 66 bytes.
const LONG: &[u8] =
    b"RDJ2\0\0\0\x01\x01\0\0\0\x01\0\0\0\x42# 3 5 7 9 1 3 5 7 9 1 3 5 7 9 1 3 5 7 9 1 3 5 7 9 1 3 5 7 9 1 3 56\0";

static FRONTS: [(&[u8], Found); 23] = [
    // Up to nine bytes, whatever they are.
    (b"", Ok(None)),
    (b"xxxxxxxxx", Ok(None)),
    (b"RDJ1\0\0\0\x01\x01", Ok(None)),
    (b"RDJ2\0\0\0\x02\x01", Ok(None)),
    // A gate that isn't open.
    (b"RDJ2\0\0\0\x01\0y", Ok(None)),
    (b"RDJ2\0\0\0\x01\x07y", Ok(None)),
    // A whole payload, whatever follows.
    (b"RDJ2\0\0\0\x01\x01\0\0\0\x01\0\0\0\0", Ok(Some((0, b"")))),
    (
        b"RDJ2\0\0\0\x01\x01\0\0\0\x01\0\0\0\x02ab",
        Ok(Some((2, b"ab"))),
    ),
    (
        b"RDJ2\0\0\0\x01\x01\0\0\0\x01\0\0\0\x02ab\x01\0\0",
        Ok(Some((2, b"ab"))),
    ),
    (
        LONG,
        Ok(Some((
            66,
            b"# 3 5 7 9 1 3 5 7 9 1 3 5 7 9 1 3 5 7 9 1 3 5 7 9 1 3 5 7 9 1 3 ",
        ))),
    ),
    // Another form, and another number.
    (b"xxxxxxxxxx", Err(FrontFault::Damaged { at: 0 })),
    (b"RDJ3\0\0\0\x01\0y", Err(FrontFault::Damaged { at: 0 })),
    (b"RDJ1\0\0\0\x01\0y", Err(FrontFault::OldFormat)),
    (b"RDJ1\0\0\0\x02\x01y", Err(FrontFault::OldFormat)),
    (
        b"RDJ2\0\0\0\x02\0y",
        Err(FrontFault::WrongNumber { found: 2 }),
    ),
    (
        b"RDJ2\0\0\0\x02\x01\0",
        Err(FrontFault::WrongNumber { found: 2 }),
    ),
    // A running number that breaks off, and one that isn't the first.
    (
        b"RDJ2\0\0\0\x01\x01\0\0\0",
        Err(FrontFault::Damaged { at: 9 }),
    ),
    (
        b"RDJ2\0\0\0\x01\x01\0\0\0\x02\0\0\0\0\0",
        Err(FrontFault::Damaged { at: 9 }),
    ),
    (
        b"RDJ2\0\0\0\x01\x01\0\0\0\0\0\0\0\0\0",
        Err(FrontFault::Damaged { at: 9 }),
    ),
    // A length that breaks off, and a payload that does.
    (
        b"RDJ2\0\0\0\x01\x01\0\0\0\x01",
        Err(FrontFault::Damaged { at: 13 }),
    ),
    (
        b"RDJ2\0\0\0\x01\x01\0\0\0\x01\0\0\0",
        Err(FrontFault::Damaged { at: 13 }),
    ),
    (
        b"RDJ2\0\0\0\x01\x01\0\0\0\x01\0\0\0\x02",
        Err(FrontFault::Damaged { at: 17 }),
    ),
    (
        b"RDJ2\0\0\0\x01\x01\0\0\0\x01\0\0\0\x02a",
        Err(FrontFault::Damaged { at: 17 }),
    ),
];

/// How long the first payload is, or the fault; and what is shown of it.
type Shown<'a> = (Result<Option<u32>, FrontFault>, &'a [u8]);

fn shown(found: &Result<Front, FrontFault>) -> Shown<'_> {
    match found {
        Ok(Front::Nothing) => (Ok(None), &[]),
        Ok(Front::First { length, bytes }) => (Ok(Some(*length)), bytes.as_slice()),
        Err(fault) => (Err(*fault), &[]),
    }
}

fn wanted_of(found: &Found) -> Shown<'_> {
    match found {
        Ok(None) => (Ok(None), &[]),
        Ok(Some((length, bytes))) => (Ok(Some(*length)), bytes),
        Err(fault) => (Err(*fault), &[]),
    }
}

/// This is found at the front of a disk.
pub fn looks(rt: &impl Abort, alloc: Global, at: Place, disk: MemDisk, wanted: &Found) {
    let mut disk = disk;
    let found = front(alloc, &mut disk, 1);
    drop(disk);
    let (length, bytes) = shown(&found);
    let (wanted_length, wanted_bytes) = wanted_of(wanted);
    is(rt, at, &length, &wanted_length);
    are_bytes(rt, at, bytes, wanted_bytes);
    drop(found);
}

/// Whether nothing stands at the front of a file.
pub fn has_nothing(alloc: Global, file: &[u8]) -> Result<bool, Fail> {
    let mut disk = disk_of(alloc, file, &[])?;
    let found = front(alloc, &mut disk, 1);
    drop(disk);
    let nothing = matches!(&found, Ok(Front::Nothing));
    drop(found);
    Ok(nothing)
}

/// The calls of a look: a sync, the length, the header, the gate, and the running number, the
/// length and the bytes of the payload.
const CALLS: usize = 7;

#[test]
fn the_front_of_a_file_is_nothing_or_its_first_payload(rt: HostRuntime) -> Result<(), Fail> {
    let alloc = rt.alloc();
    let shows = "the front of a file";
    for (step, (file, wanted)) in FRONTS.iter().enumerate() {
        let disk = disk_of(alloc, file, &[])?;
        looks(&rt, alloc, Place { shows, step }, disk, wanted);
    }
    let shows = "each call of a look may fail";
    let file = b"RDJ2\0\0\0\x01\x01\0\0\0\x01\0\0\0\x02ab\0";
    for step in 0..CALLS {
        let disk = disk_of(alloc, file, &[step as u64])?;
        looks(
            &rt,
            alloc,
            Place { shows, step },
            disk,
            &Err(FrontFault::Failed),
        );
    }
    let disk = disk_of(alloc, file, &[CALLS as u64])?;
    let at = Place { shows, step: CALLS };
    looks(&rt, alloc, at, disk, &Ok(Some((2, b"ab"))));
    Ok(())
}
