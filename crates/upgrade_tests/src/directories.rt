//! The upgrade of a directory: what stands behind one that stops at whichever call of a disk.
use crate::stopping::{Image, Stop, StoppingShelf};
use delta_base::{Bytes, Id, Listing, OutOfMemory, Text};
use directory_upgrade::upgrade_directory;
use disk_model::{Disk, MemShelf, Shelf};
use journal_upgrade::Upgraded;
use slot_checks::{CheckFault, FileLine, check_files};
use std::alloc::Global;
use std::process::Abort;
use std::test::Fail;
use worked_rows::{FIRST, SECOND, calls};

/// The files in the order in which their disks stop.
const NUMBERS: [u32; 5] = [0, 1, 2000, 2001, 2099];

/// The id of the second patch.
const SECOND_ID: Id = Id(0x00000000_0000_4000_8000_000000000002);

// The journal of a log of two patches in the form before this one.
fn old_log(alloc: Global) -> Result<Bytes, OutOfMemory> {
    let mut bytes = Vec::from_slice(alloc, b"RDJ1\0\0\0\x01\x01\0\0\0\x68")?;
    bytes.extend_from_slice(FIRST)?;
    bytes.extend_from_slice(b"\x01\0\0\0\x9e")?;
    bytes.extend_from_slice(SECOND)?;
    bytes.push(0)?;
    Ok(Bytes::from_vec(bytes))
}

// A registry of one slot, and its log.
fn old_files(alloc: Global) -> Result<Listing<Image>, OutOfMemory> {
    let registry = Bytes::from_slice(alloc, b"RDJ1\0\0\0\0\x01\0\0\0\x03S 1\0")?;
    let log = old_log(alloc)?;
    let mut files = Listing::new(alloc);
    files.push(Image {
        number: 0,
        bytes: registry,
    })?;
    files.push(Image {
        number: 1,
        bytes: log,
    })?;
    Ok(files)
}

// These files on a shelf whose calls all succeed.
fn shelf_of(alloc: Global, dir: &Text, files: &Listing<Image>) -> Result<MemShelf, Fail> {
    let mut shelf = MemShelf::new(alloc, calls(alloc, &[])?);
    for image in files.as_slice() {
        if let Ok(mut disk) = shelf.disk(dir, image.number) {
            let _ = disk.write_at(0, image.bytes.as_slice());
            shelf.put_back(disk);
        }
    }
    Ok(shelf)
}

// The files have the new form, and the log both patches.
fn are_whole(rt: &impl Abort, alloc: Global, shelf: &mut MemShelf, dir: &Text) {
    let wanted = [
        FileLine::Registry { records: 1 },
        FileLine::Log {
            number: 1,
            patches: 2,
            head: Some(SECOND_ID),
        },
    ];
    let report = check_files(alloc, shelf, dir);
    let whole = match &report {
        Ok(report) => report.as_slice() == wanted.as_slice(),
        Err(_) => false,
    };
    drop(report);
    assert!(rt; whole);
}

// An upgrade that one disk stops, and another one of what a crash leaves. What the first one did.
fn goes_on(
    rt: &impl Abort,
    alloc: Global,
    stop: Stop,
    choice: u64,
) -> Result<Result<Upgraded, CheckFault>, Fail> {
    let dir = Text::from_str(alloc, "d")?;
    let mut stopping = StoppingShelf::new(alloc, old_files(alloc)?, stop, choice);
    let answer = upgrade_directory(alloc, &mut stopping, &dir);
    let left = stopping.into_images();
    let shelf = shelf_of(alloc, &dir, &left);
    drop(left);
    let mut shelf = shelf?;
    let again = upgrade_directory(alloc, &mut shelf, &dir);
    assert!(rt; again.is_ok());
    are_whole(rt, alloc, &mut shelf, &dir);
    drop(shelf);
    drop(dir);
    Ok(answer)
}

// A stop at each call of one disk, until the upgrade ends without it. How many calls that took.
fn stops_of(rt: &impl Abort, alloc: Global, number: u32, choice: u64) -> Result<u64, Fail> {
    for calls in 0..100 {
        match goes_on(rt, alloc, Stop { number, calls }, choice)? {
            Ok(done) => {
                assert!(rt; done == Upgraded::Files(2));
                return Ok(calls);
            }
            Err(fault) => assert!(rt; fault == CheckFault::Failed),
        }
    }
    Err(Fail::from("it never ended"))
}

#[test]
fn an_upgrade_of_a_directory_goes_on_behind_a_stop_at_each_call(
    rt: HostRuntime,
) -> Result<(), Fail> {
    let alloc = rt.alloc();
    for choice in [0, 1, 7] {
        for number in NUMBERS {
            let calls = stops_of(&rt, alloc, number, choice)?;
            assert!(rt; calls > 0);
        }
    }
    Ok(())
}
