//! What stands after a crash or after a call of the disk that failed.
use crate::calls::{TWO_SLOTS, Told, create, open_with, rename};
use delta_base::Bytes;
use disk_model::MemDisk;
use log_registry::RegistryState;
use std::alloc::Global;
use std::process::Abort;
use std::test::Fail;

fn is_made(told: Told) -> bool {
    matches!(told, Told::Made { .. })
}

// How many calls were acknowledged, with this one.
fn counted(done: u64, told: Told) -> u64 {
    if is_made(told) {
        done.saturating_add(1)
    } else {
        done
    }
}

// Makes ten calls, and answers how many were acknowledged.
fn ten_calls(alloc: Global, registry: &mut RegistryState<MemDisk>) -> Result<u64, Fail> {
    let mut done = counted(0, create(alloc, registry, "a", "http://e/a", 1)?);
    done = counted(done, create(alloc, registry, "b", "http://e/b", 2)?);
    for _ in 0..4 {
        done = counted(done, rename(alloc, registry, "a", "c")?);
        done = counted(done, rename(alloc, registry, "c", "a")?);
    }
    Ok(done)
}

// The same, and the registry has as many events.
fn acknowledged(
    rt: &impl Abort,
    alloc: Global,
    registry: &mut RegistryState<MemDisk>,
) -> Result<u64, Fail> {
    let done = ten_calls(alloc, registry)?;
    assert!(rt; registry.count() == done);
    Ok(done)
}

// How many events the registry of an image has.
fn events_in(alloc: Global, image: &[u8]) -> Result<u64, Fail> {
    let registry = open_with(alloc, image, &[])?;
    let count = registry.count();
    drop(registry);
    Ok(count)
}

// Each image reopens with what was acknowledged or one event more.
fn reopens(rt: &impl Abort, alloc: Global, disk: &MemDisk, done: u64) -> Result<u64, Fail> {
    for choice in [0, 1, 7] {
        let image = disk.image(choice)?;
        let count = events_in(alloc, image.as_slice());
        drop(image);
        let count = count?;
        assert!(rt; count == done || count == done.wrapping_add(1));
    }
    Ok(done)
}

// What ten calls leave, of which so many were acknowledged.
fn survives(rt: &impl Abort, alloc: Global, registry: RegistryState<MemDisk>) -> Result<u64, Fail> {
    let mut registry = registry;
    let done = acknowledged(rt, alloc, &mut registry);
    let disk = registry.close();
    let left = match done {
        Ok(done) => reopens(rt, alloc, &disk, done),
        Err(fail) => Err(fail),
    };
    drop(disk);
    left
}

// The same on a disk of which only so many calls succeed.
fn survives_fuse(rt: &impl Abort, alloc: Global, calls: u64) -> Result<u64, Fail> {
    let disk = MemDisk::with_fuse(alloc, Bytes::from_slice(alloc, TWO_SLOTS)?, calls)?;
    match RegistryState::open_on(alloc, disk) {
        Ok(registry) => survives(rt, alloc, registry),
        Err(_) => Ok(0),
    }
}

// The same on a disk that fails at one call.
fn survives_fault(rt: &impl Abort, alloc: Global, failing: u64) -> Result<u64, Fail> {
    let registry = open_with(alloc, TWO_SLOTS, &[failing])?;
    survives(rt, alloc, registry)
}

// The first seven calls are those of the opening, and each event has five.
#[test]
fn what_was_acknowledged_survives_a_stop_or_a_failing_call(rt: HostRuntime) -> Result<(), Fail> {
    let alloc = rt.alloc();
    let mut most = 0;
    for calls in 0..60 {
        most = survives_fuse(&rt, alloc, calls)?;
    }
    assert!(rt; most == 10);
    for failing in 7..57 {
        let done = survives_fault(&rt, alloc, failing)?;
        assert!(rt; done >= 1 && done <= 10, "call {failing}");
    }
    Ok(())
}
