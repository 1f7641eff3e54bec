//! Threads that append to one log, each behind the head that its last answer showed.
ghost use Rattle.std.specs.Prelude.{◌≡◌, ◌<◌, ◌≤◌, ◌^◌, [], vec_capacity};
ghost use Rattle.turn_cell.specs.Knowing.{pass_number};
ghost use Rattle.turn_cell.specs.Sharing.{IsPassOf};
ghost use Rattle.shared_tests.specs.Memory.{log_in_memory};

use crate::passes::{Passes, close, share};
use chain_core::LogAnswer;
use delta_base::{Bytes, Id, id_text};
use disk_model::MemDisk;
use log_base::LOG_LIMITS;
use patch_log::{LogState, Run, read_run};
use shared_log::{LogPass, SharedLog};
use std::alloc::Global;
use std::sync::Wait;
use std::test::Fail;
use std::thread::{Threads, join};

/// How many patches each thread brings.
const EACH: u32 = 50;

// The patch of this number behind that one, as a run by itself, and its id.
fn numbered(alloc: Global, number: u32, prev: Option<Id>) -> Option<(Run, Id)> {
    let row = format!(in alloc;
        "H id <uuid:00000000-0000-4000-8000-00000000{number:04}> .\n"
    ).ok()?;
    let mut text = Vec::from_slice(alloc, row.as_bytes()).ok()?;
    if let Some(id) = prev {
        text.extend_from_slice(b"H prev <uuid:").ok()?;
        text.extend_from_slice(&id_text(id)).ok()?;
        text.extend_from_slice(b"> .\n").ok()?;
    }
    let run = read_run(alloc, Bytes::from_vec(text)).ok()?;
    let id = run.patches().as_slice().first()?.id;
    Some((run, id))
}

// Brings patches of its own until each is accepted or too many tries are made, and answers
// how many were.
fn contend<R: Wait>(
    rt: &R,
    alloc: Global,
    log: &SharedLog<MemDisk>,
    mut pass: LogPass<MemDisk>,
    base: u32,
) -> (LogPass<MemDisk>, u32)
    requires of { IsPassOf log_in_memory log.now pass }
    requires base { base < 10_000 }
    ensures { IsPassOf log_in_memory log.now result.0 × (pass_number result.0 ≡ pass_number pass) }
{
    let mut told = 0u32;
    let mut head = None;
    for _ in 0..10_000 {
        if told >= EACH {
            break;
        }
        let Some((patch, id)) = numbered(alloc, base + told, head) else {
            break;
        };
        match log.append(rt, &mut pass, patch) {
            LogAnswer::Accepted { version: _ } => {
                told += 1;
                head = Some(id);
            }
            LogAnswer::Conflict {
                version: _,
                head: shown,
                prev_version: _,
            } => head = shown,
            _ => {}
        }
    }
    (pass, told)
}

// Two threads append at once. Answers the log, and how many patches each was told of.
fn race<R: Threads + Wait + Sync>(
    rt: &R,
    alloc: Global,
    log: SharedLog<MemDisk>,
    passes: Passes,
) -> (LogState<MemDisk>, u32, u32)
    requires one { IsPassOf log_in_memory log passes.one × (pass_number passes.one ≡ 1) }
    requires two { IsPassOf log_in_memory log passes.two × (pass_number passes.two ≡ 2) }
    requires room { (log.seats ≡ 2) × (passes.room.items ≡ [])
        × (2 ≤ vec_capacity passes.room) }
{
    let Passes { one, two, room } = passes;
    let shared = &log;
    let ((one, first), (two, second)) = join(
        rt,
        || -> (LogPass<MemDisk>, u32)
            requires { IsPassOf log_in_memory shared.now one }
            ensures { IsPassOf log_in_memory shared.entry.now result.0
                × (pass_number result.0 ≡ pass_number one) }
        { contend(rt, alloc, shared, one, 1000) },
        || -> (LogPass<MemDisk>, u32)
            requires { IsPassOf log_in_memory shared.now two }
            ensures { IsPassOf log_in_memory shared.entry.now result.0
                × (pass_number result.0 ≡ pass_number two) }
        { contend(rt, alloc, shared, two, 2000) },
    );
    let state = close(log, Passes { one, two, room });
    (state, first, second)
}

// How many patches of a log the pass of this number brought.
fn count_by(log: &LogState<MemDisk>, number: u32) -> usize {
    let chain = log.chain();
    (1..=chain.version())
        .filter(|version| chain
            .entry(*version)
            .is_some_and(|entry| entry.by == number))
        .count()
}

#[test]
fn each_thread_has_what_it_was_told(rt: HostRuntime) -> Result<(), Fail> {
    let alloc = rt.alloc();
    let (log, passes) = share(alloc, &[], LOG_LIMITS)?;
    let (state, first, second) = race(&rt, alloc, log, passes);
    assert!(rt; (first, second) == (EACH, EACH));
    assert!(rt; count_by(&state, 1) == first as usize);
    assert!(rt; count_by(&state, 2) == second as usize);
    assert!(rt; state.chain().version() == 2 * EACH);
    Ok(())
}
