//! Disks in memory: what their calls answer, and what a crash leaves of them.
use crate::tables::{EMPTY, Place, are_bytes, is};
use delta_base::{Bytes, Failed, OutOfMemory};
use disk_model::{Disk, MemDisk, PlanDisk, Planned};
use log_journal::{FormatFault, format};
use std::alloc::Global;
use std::process::Abort;
use std::test::Fail;
use worked_rows::{calls, disk_of};

/// What a disk begins with, and which of its calls fail.
enum Start {
    /// An empty one, whose calls of these numbers fail.
    New(&'static [u64]),
    Image(&'static [u8], &'static [u64]),
    /// One whose calls all fail after so many.
    Fused(&'static [u8], u64),
}

/// A call of a disk or a look at it, with what that gives.
enum Step {
    Write(u64, &'static [u8], Result<(), Failed>),
    Sync(Result<(), Failed>),
    /// Six syncs, so many of which are done well.
    Syncs(u64),
    Length(u64),
    /// A read of four bytes from a place on gives so many, and leaves the dots of the others.
    Read(u64, usize, [u8; 4]),
    /// A crash leaves these bytes where this is chosen of what isn't synced.
    Left(u64, &'static [u8]),
    Faults(u64),
    /// A file of number 1 is made of it.
    Format(Result<(), FormatFault>),
}

struct Case {
    shows: &'static str,
    disk: Start,
    steps: &'static [Step],
}

static CASES: [Case; 9] = [
    Case {
        shows: "an image keeps, loses or fills what is not synced",
        disk: Start::New(&[]),
        steps: &[
            Step::Write(0, b"abc", Ok(())),
            Step::Sync(Ok(())),
            Step::Write(2, b"XY", Ok(())),
            Step::Left(0, b"abc"),
            Step::Left(1, b"abXY"),
            Step::Left(7, b"ab\x07\x07"),
            Step::Left(263, b"ab\x07\x07"),
            Step::Sync(Ok(())),
            Step::Left(0, b"abXY"),
            Step::Left(1, b"abXY"),
            Step::Left(7, b"abXY"),
        ],
    },
    Case {
        shows: "a read stops at the end of the file",
        disk: Start::Image(b"abc", &[]),
        steps: &[
            Step::Length(3),
            Step::Read(1, 2, *b"bc.."),
            Step::Read(9, 0, *b"...."),
        ],
    },
    // Nothing is synced, and a failed write has written its range.
    Case {
        shows: "each call of a list fails and no other",
        disk: Start::New(&[1, 2]),
        steps: &[
            Step::Write(0, b"ab", Ok(())),
            Step::Sync(Err(Failed)),
            Step::Write(2, b"c", Err(Failed)),
            Step::Faults(2),
            Step::Left(0, b""),
            Step::Left(1, b"abc"),
        ],
    },
    Case {
        shows: "all calls fail behind a fuse of 0",
        disk: Start::Fused(b"a", 0),
        steps: &[Step::Syncs(0), Step::Faults(6)],
    },
    Case {
        shows: "all calls fail behind a fuse of 1",
        disk: Start::Fused(b"a", 1),
        steps: &[Step::Syncs(1), Step::Faults(5)],
    },
    Case {
        shows: "all calls fail behind a fuse of 2",
        disk: Start::Fused(b"a", 2),
        steps: &[Step::Syncs(2), Step::Faults(4)],
    },
    Case {
        shows: "all calls fail behind a fuse of 3",
        disk: Start::Fused(b"a", 3),
        steps: &[Step::Syncs(3), Step::Faults(3)],
    },
    // A failed sync makes nothing durable.
    Case {
        shows: "a failed write has written its range",
        disk: Start::Image(b"abc", &[0, 2]),
        steps: &[
            Step::Write(1, b"XYZ", Err(Failed)),
            Step::Faults(1),
            Step::Length(4),
            Step::Left(0, b"abc"),
            Step::Left(1, b"aXYZ"),
            Step::Left(7, b"a\x07\x07\x07"),
            Step::Sync(Err(Failed)),
            Step::Left(0, b"abc"),
        ],
    },
    Case {
        shows: "an empty file is formatted once",
        disk: Start::New(&[]),
        steps: &[
            Step::Format(Ok(())),
            Step::Left(0, EMPTY),
            Step::Format(Err(FormatFault::NotEmpty { length: 9 })),
        ],
    },
];

fn disk_from(alloc: Global, disk: &Start) -> Result<MemDisk, Fail> {
    match disk {
        Start::New(failing) => Ok(MemDisk::new(alloc, calls(alloc, failing)?)),
        Start::Image(image, failing) => Ok(disk_of(alloc, image, failing)?),
        Start::Fused(image, calls) => {
            let bytes = Bytes::from_slice(alloc, image)?;
            Ok(MemDisk::with_fuse(alloc, bytes, *calls)?)
        }
    }
}

/// What a write answers that begins within the file or at its end.
fn write(disk: &mut MemDisk, at: u64, bytes: &[u8]) -> Result<Result<(), Failed>, Fail> {
    let read = disk.image(1)?;
    let length = read.len() as u64;
    drop(read);
    if at > length {
        return Err(Fail::from("a write behind the end"));
    }
    Ok(disk.write_at(at, bytes))
}

/// How many of six syncs are done well.
fn sync_six(disk: &mut MemDisk) -> u64 {
    let mut well = 0u64;
    for _ in 0..6 {
        if disk.sync().is_ok() {
            well = well.saturating_add(1);
        }
    }
    well
}

fn read(disk: &mut MemDisk, from: u64) -> (Result<usize, Failed>, [u8; 4]) {
    let mut into = *b"....";
    let count = disk.read_at(from, &mut into);
    (count, into)
}

fn leaves(
    rt: &impl Abort,
    at: Place,
    disk: &MemDisk,
    choice: u64,
    wanted: &[u8],
) -> Result<(), OutOfMemory> {
    let left = disk.image(choice)?;
    are_bytes(rt, at, left.as_slice(), wanted);
    Ok(())
}

fn goes(rt: &impl Abort, at: Place, disk: &mut MemDisk, step: &Step) -> Result<(), Fail> {
    match step {
        Step::Write(place, bytes, answer) => is(rt, at, &write(disk, *place, bytes)?, answer),
        Step::Sync(answer) => is(rt, at, &disk.sync(), answer),
        Step::Syncs(well) => is(rt, at, &sync_six(disk), well),
        Step::Length(length) => is(rt, at, &disk.len(), &Ok(*length)),
        Step::Read(from, count, into) => is(rt, at, &read(disk, *from), &(Ok(*count), *into)),
        Step::Left(choice, bytes) => leaves(rt, at, disk, *choice, bytes)?,
        Step::Faults(faults) => is(rt, at, &disk.faults(), faults),
        Step::Format(answer) => is(rt, at, &format(disk, 1), answer),
    }
    Ok(())
}

fn goes_through(rt: &impl Abort, disk: &mut MemDisk, case: &Case) -> Result<(), Fail> {
    let shows = case.shows;
    for (step, wanted) in case.steps.iter().enumerate() {
        goes(rt, Place { shows, step }, disk, wanted)?;
    }
    Ok(())
}

fn holds(rt: &impl Abort, alloc: Global, case: &Case) -> Result<(), Fail> {
    let mut disk = disk_from(alloc, &case.disk)?;
    let gone = goes_through(rt, &mut disk, case);
    drop(disk);
    gone
}

#[test]
fn what_a_disk_in_memory_answers_and_a_crash_leaves(rt: HostRuntime) -> Result<(), Fail> {
    for case in &CASES {
        holds(&rt, rt.alloc(), case)?;
    }
    Ok(())
}

/// A crash leaves what was synced.
fn keeps(rt: &impl Abort, disk: &PlanDisk, image: &[u8]) -> Result<(), OutOfMemory> {
    let left = disk.image(0)?;
    assert!(rt; left.as_slice() == image);
    Ok(())
}

/// The second sync fails, and what it was for isn't durable until the next one.
fn fails_as_planned(rt: &impl Abort, disk: &mut PlanDisk) -> Result<(), OutOfMemory> {
    disk.plan(Some(1));
    assert!(rt; disk.write_at(0, b"a").is_ok());
    assert!(rt; disk.sync().is_ok());
    assert!(rt; disk.write_at(1, b"b").is_ok());
    assert!(rt; disk.sync().is_err());
    keeps(rt, disk, b"a")?;
    assert!(rt; disk.faults() == 1);
    assert!(rt; disk.sync().is_ok());
    keeps(rt, disk, b"ab")
}

#[test]
fn the_planned_sync_fails(rt: HostRuntime) -> Result<(), Fail> {
    let mut disk = PlanDisk::new(rt.alloc(), Bytes::from_slice(rt.alloc(), b"")?)?;
    let failed = fails_as_planned(&rt, &mut disk);
    // A failure that was planned isn't one for want of memory.
    let short = disk.is_short();
    drop(disk);
    assert!(rt; !short);
    Ok(failed?)
}
