//! Which files aren't opened, and why.
use crate::tables::{EMPTY, Place, THIRD, is};
use disk_model::MemDisk;
use log_base::LogLimits;
use std::alloc::Global;
use std::test::Fail;
use worked_rows::{FIRST, SECOND, disk_of, journal_of};
use zone_state::{ZONE_NUMBER, Zone, ZoneFault};

/// A file that is opened with at most two patches.
enum File {
    Image(&'static [u8]),
    Payloads(&'static [&'static [u8]]),
}

/// A file, the numbers of the calls that fail, and why it isn't opened.
static REFUSED: [(File, &[u64], ZoneFault); 13] = [
    (
        File::Payloads(&[FIRST, SECOND, THIRD]),
        &[],
        ZoneFault::BrokenChain { version: 3 },
    ),
    (
        File::Payloads(&[FIRST, FIRST]),
        &[],
        ZoneFault::BrokenChain { version: 2 },
    ),
    (
        File::Payloads(&[SECOND]),
        &[],
        ZoneFault::BrokenChain { version: 1 },
    ),
    (
        File::Payloads(&[FIRST, b"X", SECOND]),
        &[],
        ZoneFault::BrokenChain { version: 2 },
    ),
    (
        File::Payloads(&[&[b'#'; 983], b"X"]),
        &[],
        ZoneFault::OverLimit {
            length: 1011,
            limit: 1000,
        },
    ),
    (
        File::Image(b"RDJ1\0\0\x03\xe8\0"),
        &[],
        ZoneFault::OldFormat,
    ),
    (
        File::Image(b"RDJ2\0\0\0\x01\0"),
        &[],
        ZoneFault::WrongNumber { found: 1 },
    ),
    (File::Image(b"RDJ2"), &[], ZoneFault::Damaged { at: 0 }),
    // The first payload is no patch, and the second is cut short.
    (
        File::Image(b"RDJ2\0\0\x03\xe8\x01\0\0\0\x01\0\0\0\x01X\x01\0\0"),
        &[],
        ZoneFault::Damaged { at: 19 },
    ),
    (File::Image(EMPTY), &[0], ZoneFault::Failed),
    (File::Image(EMPTY), &[1], ZoneFault::Failed),
    (File::Image(EMPTY), &[2], ZoneFault::Failed),
    (File::Image(EMPTY), &[3], ZoneFault::Failed),
];

fn file_on(alloc: Global, file: &File, failing: &[u64]) -> Result<MemDisk, Fail> {
    match file {
        File::Image(image) => Ok(disk_of(alloc, image, failing)?),
        File::Payloads(payloads) => {
            let journal = journal_of(alloc, ZONE_NUMBER, payloads)?;
            let disk = disk_of(alloc, &journal, failing);
            drop(journal);
            Ok(disk?)
        }
    }
}

fn fault_of(alloc: Global, disk: MemDisk) -> Option<ZoneFault> {
    let limits = LogLimits {
        patches: 2,
        bytes: 1000,
    };
    match Zone::open_on(alloc, disk, limits) {
        Ok(zone) => {
            drop(zone);
            None
        }
        Err(refusal) => {
            let fault = refusal.fault;
            drop(refusal);
            Some(fault)
        }
    }
}

#[test]
fn each_fault_of_a_file_is_told(rt: HostRuntime) -> Result<(), Fail> {
    let shows = "a file that is refused";
    for (step, (file, failing, fault)) in REFUSED.iter().enumerate() {
        let disk = file_on(rt.alloc(), file, failing)?;
        let found = fault_of(rt.alloc(), disk);
        is(&rt, Place { shows, step }, &found, &Some(*fault));
    }
    Ok(())
}
