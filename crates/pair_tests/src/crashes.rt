//! What stops and failing calls leave of zones on two files.
use crate::tables::{THIRD, has_taken, is_left, open, take};
use delta_base::Bytes;
use disk_model::MemDisk;
use log_base::LOG_LIMITS;
use paired_zone::{CheckEnd, PairedZone};
use std::alloc::Global;
use std::process::Abort;
use std::test::Fail;
use worked_rows::{FIRST, SECOND, disk_of};
use zone_state::TakeAnswer;

/// A first file of no patches.
const EMPTY: &[u8] = b"RDJ2\0\0\x03\xe8\0";

/// Patches, with a checkpoint behind each of the first two.
static CALLS: [Option<&[u8]>; 5] = [Some(FIRST), None, Some(SECOND), None, Some(THIRD)];

// One more call of a zone. Whether it was done.
fn call(alloc: Global, zone: &mut PairedZone<MemDisk>, text: Option<&[u8]>) -> Result<bool, Fail> {
    match text {
        Some(text) => Ok(matches!(take(alloc, zone, text)?, TakeAnswer::Applied { .. })),
        None => Ok(matches!(zone.checkpoint(), CheckEnd::Done { .. })),
    }
}

// Makes each call, and once again where it isn't done. How many patches were taken.
fn make_each(rt: &impl Abort, alloc: Global, zone: &mut PairedZone<MemDisk>) -> Result<u32, Fail> {
    let mut taken = 0;
    for text in &CALLS {
        let done = call(alloc, zone, *text)? || call(alloc, zone, *text)?;
        if done && text.is_some() {
            taken = zone.version();
        }
    }
    assert!(rt; has_taken(zone, taken)?);
    Ok(taken)
}

// How many patches a zone takes, and how often its disks failed. Each crash leaves that, or so many
// more.
fn leaves(
    rt: &impl Abort,
    alloc: Global,
    mut zone: PairedZone<MemDisk>,
    more: u32,
) -> Result<(u32, u64), Fail> {
    let taken = make_each(rt, alloc, &mut zone);
    let faults = zone.faults();
    let (first, second) = zone.close();
    let left = taken.and_then(|taken| Ok((taken, is_left(alloc, &first, &second, taken, more)?)));
    drop(first);
    drop(second);
    let (taken, left) = left?;
    assert!(rt; left, "{taken} taken");
    Ok((taken, faults))
}

// Of the two disks one fails in its call of this number, or in each from there on.
fn disks_with(
    alloc: Global,
    on_second: bool,
    number: u64,
    stops: bool,
) -> Result<(MemDisk, MemDisk), Fail> {
    let image: &[u8] = if on_second { b"" } else { EMPTY };
    let failing = if stops {
        MemDisk::with_fuse(alloc, Bytes::from_slice(alloc, image)?, number)?
    } else {
        disk_of(alloc, image, &[number])?
    };
    if on_second {
        Ok((disk_of(alloc, EMPTY, &[])?, failing))
    } else {
        Ok((failing, disk_of(alloc, b"", &[])?))
    }
}

// All are taken where one call fails, and each crash leaves them. Whether that call is made.
fn takes_all(rt: &impl Abort, alloc: Global, on_second: bool, number: u64) -> Result<bool, Fail> {
    let (first, second) = disks_with(alloc, on_second, number, false)?;
    match PairedZone::open_pair(alloc, first, second, LOG_LIMITS) {
        Ok(zone) => {
            let (taken, faults) = leaves(rt, alloc, zone, 0)?;
            assert!(rt; taken == 3 && faults <= 1, "call {number}");
            Ok(faults == 1)
        }
        Err(refusal) => {
            drop(refusal);
            Ok(true)
        }
    }
}

// What was taken is left where a disk stops at a call, or one patch more. Whether that call is
// made.
fn stops(rt: &impl Abort, alloc: Global, on_second: bool, number: u64) -> Result<bool, Fail> {
    let (first, second) = disks_with(alloc, on_second, number, true)?;
    match PairedZone::open_pair(alloc, first, second, LOG_LIMITS) {
        Ok(zone) => Ok(leaves(rt, alloc, zone, 1)?.1 > 0),
        Err(refusal) => {
            drop(refusal);
            Ok(true)
        }
    }
}

// At each call of the disk, up to the first that isn't made.
fn goes_on_at_each(rt: &impl Abort, alloc: Global, on_second: bool) -> Result<(), Fail> {
    for number in 0..100u64 {
        let fails = takes_all(rt, alloc, on_second, number)?;
        let ends = stops(rt, alloc, on_second, number)?;
        assert!(rt; fails == ends, "call {number}");
        if !fails {
            return Ok(());
        }
    }
    Err(Fail::from("it never ended"))
}

#[test]
fn what_was_taken_is_found_after_a_stop_or_a_failing_call(rt: HostRuntime) -> Result<(), Fail> {
    let alloc = rt.alloc();
    goes_on_at_each(&rt, alloc, false)?;
    goes_on_at_each(&rt, alloc, true)
}
