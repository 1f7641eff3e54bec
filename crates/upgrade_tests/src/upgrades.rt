//! Upgrades: what they write, and what stands behind one that stops at whichever call of a disk.
use delta_base::{Bytes, Listing};
use disk_model::MemDisk;
use journal_upgrade::{Disks, UpgradeFault, UpgradeSet, Upgraded, upgrade_files};
use std::alloc::Global;
use std::process::Abort;
use std::test::Fail;
use worked_rows::{calls, disk_of};

const MARKER: u32 = 2099;

/// What two files, their spares and the marker have.
type Images = [&'static [u8]; 5];

const OLD: Images = [
    b"RDJ1\0\0\0\0\x01\0\0\0\x03S 1\0",
    b"RDJ1\0\0\0\x01\x01\0\0\0\x03abc\x01\0\0\0\x02de\0",
    b"",
    b"",
    b"",
];

const NEW: [&[u8]; 2] = [
    b"RDJ2\0\0\0\0\x01\0\0\0\x01\0\0\0\x03S 1\0",
    b"RDJ2\0\0\0\x01\x01\0\0\0\x01\0\0\0\x03abc\x01\0\0\0\x02\0\0\0\x02de\0",
];

/// Spares of these files under a marker, and files that were broken off.
const MARKED: Images = [
    b"RDJ2\0\0",
    b"RDJ1\0\0\0\x01\x01\0\0\0\x03ab",
    b"RDJ2\0\0\x07\xd0\x01\0\0\0\x01\0\0\0\x03S 1\0",
    b"RDJ2\0\0\x07\xd1\x01\0\0\0\x01\0\0\0\x03abc\x01\0\0\0\x02\0\0\0\x02de\0",
    b"RDJ2\0\0\x08\x33\x01\0\0\0\x01\0\0\0\x01U\0",
];

/// Which disk stops, in the order of the images, and after how many calls.
#[derive(Clone, Copy)]
struct Stop {
    disk: usize,
    calls: u64,
}

fn disk_at(alloc: Global, image: &[u8], place: usize, stop: Option<Stop>) -> Result<MemDisk, Fail> {
    match stop {
        Some(stop) if stop.disk == place => {
            let bytes = Bytes::from_slice(alloc, image)?;
            Ok(MemDisk::with_fuse(alloc, bytes, stop.calls)?)
        }
        _ => Ok(disk_of(alloc, image, &[])?),
    }
}

fn set_of(
    alloc: Global,
    images: [&[u8]; 5],
    stop: Option<Stop>,
) -> Result<UpgradeSet<MemDisk>, Fail> {
    let [first, second, first_spare, second_spare, marker] = images;
    let mut files = Vec::new(alloc);
    files.push(disk_at(alloc, first, 0, stop)?)?;
    files.push(disk_at(alloc, second, 1, stop)?)?;
    let mut spares = Vec::new(alloc);
    spares.push(disk_at(alloc, first_spare, 2, stop)?)?;
    spares.push(disk_at(alloc, second_spare, 3, stop)?)?;
    Ok(UpgradeSet {
        files: Listing::from_vec(files),
        spares: Listing::from_vec(spares),
        marker: disk_at(alloc, marker, 4, stop)?,
        marker_number: MARKER,
        numbers: calls(alloc, &[0, 1])?,
    })
}

fn upgraded(
    alloc: Global,
    set: UpgradeSet<MemDisk>,
) -> Result<(UpgradeSet<MemDisk>, Result<Upgraded, UpgradeFault>), Fail> {
    if !set.is_whole() {
        drop(set);
        return Err(Fail::from("no set"));
    }
    Ok(upgrade_files(alloc, set))
}

fn image_at(disks: &Disks<MemDisk>, place: usize, choice: u64) -> Result<Bytes, Fail> {
    match disks.get(place) {
        Some(disk) => Ok(disk.image(choice)?),
        None => Err(Fail::from("no disk")),
    }
}

// The files are as an upgrade writes them, and nothing stands in the marker.
fn are_new(rt: &impl Abort, set: &UpgradeSet<MemDisk>) -> Result<(), Fail> {
    for (place, new) in NEW.iter().enumerate() {
        let image = image_at(&set.files, place, 0)?;
        assert!(rt; image.as_slice().starts_with(new));
        drop(image);
    }
    let marker = set.marker.image(0)?;
    assert!(rt; marker.as_slice().len() <= 9 || marker.as_slice()[8] != 1);
    drop(marker);
    Ok(())
}

// The answer to these images, behind which the files are new where it is no fault.
fn answers(
    rt: &impl Abort,
    alloc: Global,
    images: [&[u8]; 5],
    wanted: Result<Upgraded, UpgradeFault>,
) -> Result<(), Fail> {
    let (set, answer) = upgraded(alloc, set_of(alloc, images, None)?)?;
    assert!(rt; answer == wanted);
    let found = if answer.is_ok() {
        are_new(rt, &set)
    } else {
        Ok(())
    };
    drop(set);
    found
}

#[test]
fn an_upgrade_writes_each_file_anew(rt: HostRuntime) -> Result<(), Fail> {
    let alloc = rt.alloc();
    let (set, answer) = upgraded(alloc, set_of(alloc, OLD, None)?)?;
    assert!(rt; answer == Ok(Upgraded::Files(2)));
    let (set, answer) = upgraded(alloc, set)?;
    assert!(rt; answer == Ok(Upgraded::Files(0)));
    let new = are_new(&rt, &set);
    drop(set);
    new
}

#[test]
fn an_upgrade_answers_what_it_finds(rt: HostRuntime) -> Result<(), Fail> {
    let alloc = rt.alloc();
    let [first, second, _, _, _] = OLD;
    let cut = b"RDJ1\0\0\0\x01\x01\0\0";
    answers(&rt, alloc, MARKED, Ok(Upgraded::Finished))?;
    answers(
        &rt,
        alloc,
        [first, NEW[1], b"", b"", b""],
        Ok(Upgraded::Files(1)),
    )?;
    answers(
        &rt,
        alloc,
        [first, cut, b"", b"", b""],
        Err(UpgradeFault::Damaged { file: 1, at: 9 }),
    )?;
    answers(
        &rt,
        alloc,
        [first, second, b"", b"", b"RDJ1\0\0\x08\x33\0\0"],
        Err(UpgradeFault::Damaged {
            file: MARKER,
            at: 0,
        }),
    )
}

// An upgrade that one disk stops, and another one of what a crash leaves. Whether the first one
// was done.
fn goes_on(rt: &impl Abort, alloc: Global, stop: Stop, choice: u64) -> Result<bool, Fail> {
    let (set, answer) = upgraded(alloc, set_of(alloc, OLD, Some(stop))?)?;
    let first = image_at(&set.files, 0, choice)?;
    let second = image_at(&set.files, 1, choice)?;
    let first_spare = image_at(&set.spares, 0, choice)?;
    let second_spare = image_at(&set.spares, 1, choice)?;
    let marker = set.marker.image(choice)?;
    drop(set);
    let images = [
        first.as_slice(),
        second.as_slice(),
        first_spare.as_slice(),
        second_spare.as_slice(),
        marker.as_slice(),
    ];
    let (set, again) = upgraded(alloc, set_of(alloc, images, None)?)?;
    assert!(rt; again.is_ok());
    let new = are_new(rt, &set);
    drop(set);
    new?;
    Ok(answer.is_ok())
}

#[test]
fn an_upgrade_goes_on_behind_a_stop_at_each_call(rt: HostRuntime) -> Result<(), Fail> {
    let alloc = rt.alloc();
    for choice in [0, 1, 7] {
        for disk in 0..5 {
            let mut done = false;
            for calls in 0..60 {
                if !done {
                    done = goes_on(&rt, alloc, Stop { disk, calls }, choice)?;
                }
            }
            assert!(rt; done);
        }
    }
    Ok(())
}
