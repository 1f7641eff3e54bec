//! Runs on a log that two passes share.
use crate::passes::{close, is, log_on, run_of, share};
use chain_core::LogAnswer;
use disk_model::MemDisk;
use log_base::{FullKind, LOG_LIMITS, LogLimits};
use patch_log::{LogState, Run};
use std::alloc::Global;
use std::test::Fail;
use worked_rows::{FIRST, SECOND, disk_of};

/// The patch behind the second.
const THIRD: &[u8] =
    b"H id <uuid:00000000-0000-4000-8000-000000000003> .\nH prev <uuid:00000000-0000-4000-8000-000000000002> .\nTX .\nTC .\n";

// Two patches as one run.
fn run_of_two(alloc: Global, first: &[u8], second: &[u8]) -> Result<Run, Fail> {
    let mut text = Vec::from_slice(alloc, first)?;
    text.extend_from_slice(second)?;
    run_of(alloc, &text)
}

// The pass that brought the patch of a version, and how many of its run stand behind it.
fn place_of(log: &LogState<MemDisk>, version: u32) -> Option<(u32, u32)> {
    let entry = log.chain().entry(version)?;
    Some((entry.by, entry.rest))
}

#[test]
fn a_run_is_added_whole(rt: HostRuntime) -> Result<(), Fail> {
    let run = run_of_two(rt.alloc(), FIRST, SECOND)?;
    let again = run.copy()?;
    let (log, mut passes) = share(rt.alloc(), &[], LOG_LIMITS)?;
    let answer = log.append(&rt, &mut passes.one, run);
    is(&rt, answer, LogAnswer::Accepted { version: 2 });
    let answer = log.append(&rt, &mut passes.two, again);
    let same = true;
    is(&rt, answer, LogAnswer::Known { version: 1, same });
    let state = close(log, passes);
    assert!(rt; state.chain().version() == 2);
    assert!(rt; place_of(&state, 1) == Some((1, 1)));
    assert!(rt; place_of(&state, 2) == Some((1, 0)));
    drop(state);
    Ok(())
}

#[test]
fn a_run_past_the_limit_is_refused_whole(rt: HostRuntime) -> Result<(), Fail> {
    let alloc = rt.alloc();
    let first = run_of(alloc, FIRST)?;
    let behind = run_of_two(alloc, SECOND, THIRD)?;
    let bytes = LOG_LIMITS.bytes;
    let (log, mut passes) = share(alloc, &[], LogLimits { patches: 2, bytes })?;
    let answer = log.append(&rt, &mut passes.one, first);
    is(&rt, answer, LogAnswer::Accepted { version: 1 });
    let answer = log.append(&rt, &mut passes.two, behind);
    let what = FullKind::Patches;
    is(
        &rt,
        answer,
        LogAnswer::Full {
            what,
            have: 1,
            limit: 2,
        },
    );
    assert!(rt; log.version(&mut passes.one) == 1);
    drop(passes);
    drop(log);
    Ok(())
}

// How many patches a log has that is opened on what a crash leaves of a disk.
fn found_on(alloc: Global, disk: &MemDisk, choice: u64) -> Result<u32, Fail> {
    let image = disk.image(choice)?;
    let log = log_on(alloc, disk_of(alloc, image.as_slice(), &[])?, LOG_LIMITS)?;
    Ok(log.chain().version())
}

// An opening makes four calls, and the last sync of the first append is call 7.
#[test]
fn a_fault_leaves_a_run_whole_or_not_at_all(rt: HostRuntime) -> Result<(), Fail> {
    let alloc = rt.alloc();
    let run = run_of_two(alloc, FIRST, SECOND)?;
    let (log, mut passes) = share(alloc, &[7], LOG_LIMITS)?;
    let answer = log.append(&rt, &mut passes.one, run);
    is(&rt, answer, LogAnswer::DiskFault);
    assert!(rt; log.version(&mut passes.two) == 0);
    let disk = close(log, passes).close();
    let without = found_on(alloc, &disk, 0)?;
    let having = found_on(alloc, &disk, 1)?;
    assert!(rt; (without, having) == (0, 2));
    Ok(())
}
