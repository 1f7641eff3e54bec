//! What failing calls and stops leave of zones.
use crate::tables::{EMPTY, found_in, open, take};
use delta_base::{Bytes, Id};
use disk_model::MemDisk;
use log_base::LOG_LIMITS;
use std::alloc::Global;
use std::process::Abort;
use std::test::Fail;
use worked_rows::disk_of;
use zone_state::{TakeAnswer, Zone};

/// The id of the patch before the first one, if there were one.
const BEFORE: u128 = 0x0000_0000_0000_4000_8000_0000_0000_0010;

// The head of a zone that took so many of the patches.
fn head_at(version: u32) -> Option<Id> {
    if version == 0 {
        return None;
    }
    Some(Id(BEFORE.saturating_add(u128::from(version))))
}

// The patch that makes this version, which adds a quad of its own.
fn text_at(alloc: Global, version: u32) -> Result<Vec<u8>, Fail> {
    let mut text = format!(in alloc;
        "H id <uuid:00000000-0000-4000-8000-0000000000{:02x}> .\n",
        version.saturating_add(16)
    )?;
    if version > 1 {
        text.push_str(format!(in alloc;
            "H prev <uuid:00000000-0000-4000-8000-0000000000{:02x}> .\n",
            version.saturating_add(15)
        )?
        .as_str())?;
    }
    text.push_str(format!(in alloc;
        "A <http://e/s> <http://e/p> <http://e/{version}> .\n"
    )?.as_str())?;
    Ok(text.into_bytes())
}

// Ten patches, each behind the one before it.
fn ten_texts(alloc: Global) -> Result<Vec<Vec<u8>>, Fail> {
    let mut texts = Vec::new(alloc);
    for version in 1..11 {
        texts.push(text_at(alloc, version)?)?;
    }
    Ok(texts)
}

// What a zone answers to a patch, which it gets again where the disk failed.
fn take_again(alloc: Global, zone: &mut Zone<MemDisk>, text: &[u8]) -> Result<TakeAnswer, Fail> {
    match take(alloc, zone, text)? {
        TakeAnswer::DiskFault => take(alloc, zone, text),
        answer => Ok(answer),
    }
}

// How many of these patches a zone takes, each of which it gets twice at most. It tells as many.
fn take_each(
    rt: &impl Abort,
    alloc: Global,
    zone: &mut Zone<MemDisk>,
    texts: &[Vec<u8>],
) -> Result<u32, Fail> {
    let mut taken = 0;
    for text in texts {
        if let TakeAnswer::Applied { version } = take_again(alloc, zone, text)? {
            taken = version;
        }
    }
    assert!(rt; zone.version() == taken && zone.head() == head_at(taken));
    Ok(taken)
}

// Whether each image that a crash may leave took so many, or some more, and has its head.
fn is_left(alloc: Global, disk: &MemDisk, taken: u32, more: u32) -> Result<bool, Fail> {
    for choice in [0, 1, 7] {
        let (version, head) = found_in(alloc, disk.image(choice)?)?;
        if version.wrapping_sub(taken) > more || head != head_at(version) {
            return Ok(false);
        }
    }
    Ok(true)
}

// What a zone took, and how often its disk failed. Each crash leaves that, or so many more.
fn leaves(
    rt: &impl Abort,
    alloc: Global,
    mut zone: Zone<MemDisk>,
    texts: &[Vec<u8>],
    more: u32,
) -> Result<(u32, u64), Fail> {
    let taken = take_each(rt, alloc, &mut zone, texts);
    let faults = zone.faults();
    let disk = zone.close();
    let left = taken.and_then(|taken| Ok((taken, is_left(alloc, &disk, taken, more)?)));
    drop(disk);
    let (taken, left) = left?;
    assert!(rt; left, "{taken} taken");
    Ok((taken, faults))
}

// All ten are taken where a call fails, and each crash leaves them. The first call that isn't made.
fn takes_all_at_each(rt: &impl Abort, alloc: Global, texts: &[Vec<u8>]) -> Result<u64, Fail> {
    for failing in 4..100u64 {
        let zone = open(alloc, disk_of(alloc, EMPTY, &[failing])?, LOG_LIMITS)?;
        let (taken, faults) = leaves(rt, alloc, zone, texts, 0)?;
        assert!(rt; taken == 10 && faults <= 1, "call {failing}");
        if faults == 0 {
            return Ok(failing);
        }
    }
    Err(Fail::from("it never ended"))
}

// What is taken of the ten on a disk that stops after so many calls, where a zone opens on it.
fn stops(
    rt: &impl Abort,
    alloc: Global,
    texts: &[Vec<u8>],
    fuse: u64,
) -> Result<Option<u32>, Fail> {
    let disk = MemDisk::with_fuse(alloc, Bytes::from_slice(alloc, EMPTY)?, fuse)?;
    match Zone::open_on(alloc, disk, LOG_LIMITS) {
        Ok(zone) => Ok(Some(leaves(rt, alloc, zone, texts, 1)?.0)),
        Err(refusal) => {
            drop(refusal);
            Ok(None)
        }
    }
}

// An opening makes four calls, and a taking five.
fn stops_at_each(rt: &impl Abort, alloc: Global, texts: &[Vec<u8>]) -> Result<(), Fail> {
    for fuse in 0..55u64 {
        let wanted = if fuse < 4 {
            None
        } else {
            Some(((fuse - 4) / 5) as u32)
        };
        assert!(rt; stops(rt, alloc, texts, fuse)? == wanted, "{fuse} calls");
    }
    Ok(())
}

#[test]
fn what_was_taken_is_found_after_a_stop_or_a_failing_call(rt: HostRuntime) -> Result<(), Fail> {
    let alloc = rt.alloc();
    let texts = ten_texts(alloc)?;
    let end = takes_all_at_each(&rt, alloc, &texts);
    let end = end.and_then(|end| {
        stops_at_each(&rt, alloc, &texts)?;
        Ok(end)
    });
    drop(texts);
    assert!(rt; end? == 54);
    Ok(())
}
