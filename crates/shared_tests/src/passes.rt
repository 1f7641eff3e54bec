//! Two passes of one log over a disk in memory.
ghost use Rattle.std.specs.Prelude.{◌≡◌, ◌<◌, ◌≤◌, ◌^◌, [], IfOk, vec_capacity};
ghost use Rattle.std.specs.List.{AllByRecursion};
ghost use Rattle.turn_cell.specs.Knowing.{pass_number};
ghost use Rattle.turn_cell.specs.Sharing.{IsPassOf};
ghost use Rattle.shared_tests.specs.Memory.{log_in_memory};

use chain_core::LogAnswer;
use delta_base::{Bytes, Id};
use disk_model::MemDisk;
use log_base::{LOG_LIMITS, LogLimits};
use patch_log::{LogState, Run, read_run};
use shared_log::{Fetched, LogPass, SharedLog};
use std::alloc::Global;
use std::process::Abort;
use std::sync::Wait;
use std::test::Fail;
use worked_rows::{FIRST, SECOND, disk_of};

pub(crate) const EMPTY: &[u8] = b"RDJ2\0\0\0\x01\0";

const THIRD: &[u8] =
    b"H id <uuid:00000000-0000-4000-8000-000000000003> .\nH prev <uuid:00000000-0000-4000-8000-000000000001> .\nTX .\nA <http://e/s> <http://e/p> <http://e/o3> .\nTC .\n";

// The id whose last digits are this number.
fn id_of(number: u128) -> Id {
    Id(0x0000_0000_0000_4000_8000_0000_0000_0000 | number)
}

// The log on a disk.
pub(crate) fn log_on(
    alloc: Global,
    disk: MemDisk,
    limits: LogLimits,
) -> Result<LogState<MemDisk>, Fail>
    ensures { IfOk result (λ log. AllByRecursion (λ entry. entry.by ≡ 0) log.entries) }
{
    match LogState::open_on(alloc, disk, 1, limits) {
        Ok(log) => Ok(log),
        Err(_) => Err(Fail::from("not opened")),
    }
}

// An empty log over a disk whose calls of these numbers fail.
fn open(alloc: Global, failing: &[u64], limits: LogLimits) -> Result<LogState<MemDisk>, Fail>
    ensures { IfOk result (λ log. AllByRecursion (λ entry. entry.by ≡ 0) log.entries) }
{
    log_on(alloc, disk_of(alloc, EMPTY, failing)?, limits)
}

// Two passes, and the room that they came in.
#[derive(Drop)]
pub(crate) struct Passes {
    pub one: LogPass<MemDisk>,
    pub two: LogPass<MemDisk>,
    pub room: Vec<LogPass<MemDisk>>,
}

// A log that two passes share.
pub(crate) fn share(
    alloc: Global,
    failing: &[u64],
    limits: LogLimits,
) -> Result<(SharedLog<MemDisk>, Passes), Fail>
    ensures one { IfOk result (λ r.
        IsPassOf log_in_memory r.0 r.1.one × (pass_number r.1.one ≡ 1)) }
    ensures two { IfOk result (λ r.
        IsPassOf log_in_memory r.0 r.1.two × (pass_number r.1.two ≡ 2)) }
    ensures room { IfOk result (λ r.
        (r.0.seats ≡ 2) × (r.1.room.items ≡ []) × (2 ≤ vec_capacity r.1.room)) }
{
    let Ok((log, mut room)) = SharedLog::new(alloc, open(alloc, failing, limits)?, 2) else {
        return Err(Fail::from("no memory"));
    };
    let Some(two) = room.pop() else {
        return Err(Fail::from("no pass 2"));
    };
    let Some(one) = room.pop() else {
        return Err(Fail::from("no pass 1"));
    };
    Ok((log, Passes { one, two, room }))
}

// Gives both passes back.
pub(crate) fn close(log: SharedLog<MemDisk>, passes: Passes) -> LogState<MemDisk>
    requires one { IsPassOf log_in_memory log passes.one × (pass_number passes.one ≡ 1) }
    requires two { IsPassOf log_in_memory log passes.two × (pass_number passes.two ≡ 2) }
    requires room { (log.seats ≡ 2) × (passes.room.items ≡ [])
        × (2 ≤ vec_capacity passes.room) }
{
    let Passes { one, two, mut room } = passes;
    room.push_reserved(one);
    room.push_reserved(two);
    log.close(room)
}

// The pass that brought the patch of a version, and the patch's id.
fn entry_of(log: &LogState<MemDisk>, version: u32) -> Option<(u32, Id)> {
    let entry = log.chain().entry(version)?;
    Some((entry.by, entry.patch.id))
}

// The run that a text is.
pub(crate) fn run_of(alloc: Global, text: &[u8]) -> Result<Run, Fail> {
    Ok(read_run(alloc, Bytes::from_slice(alloc, text)?)?)
}

// Runs of one patch each, of which the second and the third both name the first.
#[derive(Drop)]
struct Runs {
    first: Run,
    again: Run,
    second: Run,
    third: Run,
}

fn four_runs(alloc: Global) -> Result<Runs, Fail> {
    let first = run_of(alloc, FIRST)?;
    Ok(Runs {
        again: first.copy()?,
        first,
        second: run_of(alloc, SECOND)?,
        third: run_of(alloc, THIRD)?,
    })
}

pub(crate) fn is(rt: &impl Abort, answer: LogAnswer, wanted: LogAnswer) {
    assert!(rt; answer == wanted);
}

fn has_first_and_third(rt: &impl Abort, log: &LogState<MemDisk>) {
    assert!(rt; log.chain().version() == 2);
    assert!(rt; entry_of(log, 1) == Some((1, id_of(1))));
    assert!(rt; entry_of(log, 2) == Some((2, id_of(3))));
}

// Both append the first patch, and the other one the third.
fn both_append<R: Wait + Abort>(
    rt: &R,
    log: &SharedLog<MemDisk>,
    passes: &mut Passes,
    first: Run,
    again: Run,
    third: Run,
)
    requires one { IsPassOf log_in_memory log.now passes.old.one }
    requires two { IsPassOf log_in_memory log.now passes.old.two }
    ensures one { IsPassOf log_in_memory log.now passes.new.one }
    ensures two { IsPassOf log_in_memory log.now passes.new.two }
    ensures numbers { (pass_number passes.new.one ≡ pass_number passes.old.one)
        × (pass_number passes.new.two ≡ pass_number passes.old.two) }
    ensures room { passes.new.room ≡ passes.old.room }
{
    let answer = log.append(rt, &mut passes.one, first);
    is(rt, answer, LogAnswer::Accepted { version: 1 });
    assert!(rt; log.version(&mut passes.two) == 1);
    let answer = log.append(rt, &mut passes.two, again);
    let same = true;
    is(rt, answer, LogAnswer::Known { version: 1, same });
    let answer = log.append(rt, &mut passes.two, third);
    is(rt, answer, LogAnswer::Accepted { version: 2 });
}

#[test]
fn what_one_pass_brings_the_other_sees(rt: HostRuntime) -> Result<(), Fail> {
    let Runs {
        first,
        again,
        second,
        third,
    } = four_runs(rt.alloc())?;
    let (log, mut passes) = share(rt.alloc(), &[], LOG_LIMITS)?;
    both_append(&rt, &log, &mut passes, first, again, third);
    let answer = log.append(&rt, &mut passes.one, second);
    let conflict = LogAnswer::Conflict {
        version: 2,
        head: Some(id_of(3)),
        prev_version: Some(1),
    };
    is(&rt, answer, conflict);
    let state = close(log, passes);
    has_first_and_third(&rt, &state);
    drop(state);
    Ok(())
}

// An opening makes four calls, so the first call of an append fails.
#[test]
fn a_fault_is_that_of_its_own_pass(rt: HostRuntime) -> Result<(), Fail> {
    let alloc = rt.alloc();
    let first = run_of(alloc, FIRST)?;
    let again = first.copy()?;
    let (log, mut passes) = share(alloc, &[4], LOG_LIMITS)?;
    let answer = log.append(&rt, &mut passes.one, first);
    is(&rt, answer, LogAnswer::DiskFault);
    assert!(rt; log.version(&mut passes.two) == 0);
    assert!(rt; log.describe(&rt, &mut passes.two).version == 0);
    assert!(rt; passes.one.own_faults() > 0 && passes.two.own_faults() == 0);
    let answer = log.append(&rt, &mut passes.two, again);
    is(&rt, answer, LogAnswer::Accepted { version: 1 });
    assert!(rt; passes.two.own_faults() == 0);
    drop(passes);
    drop(log);
    Ok(())
}

// The text of a patch that was found, or the length of the log that hasn't it.
fn text_of(fetched: &Fetched) -> Result<&[u8], u32> {
    match fetched {
        Fetched::Found { patch } => Ok(patch.text.as_slice()),
        Fetched::Missing { version } => Err(*version),
    }
}

// A log of two patches that the first pass brought.
fn share_two<R: Wait>(rt: &R, alloc: Global) -> Result<(SharedLog<MemDisk>, Passes), Fail>
    ensures { IfOk result (λ r. IsPassOf log_in_memory r.0 r.1.two) }
{
    let first = run_of(alloc, FIRST)?;
    let second = run_of(alloc, SECOND)?;
    let (log, mut passes) = share(alloc, &[], LOG_LIMITS)?;
    log.append(rt, &mut passes.one, first);
    log.append(rt, &mut passes.one, second);
    Ok((log, passes))
}

// The patch of this version has that text, or the log is that long.
fn fetches_version<R: Wait + Abort>(
    rt: &R,
    log: &SharedLog<MemDisk>,
    pass: &mut LogPass<MemDisk>,
    version: u32,
    text: Result<&[u8], u32>,
) -> Result<(), Fail>
    requires { IsPassOf log_in_memory log.now pass.old }
    ensures { IsPassOf log_in_memory log.now pass.new }
{
    let fetched = log.fetch_version(rt, pass, version)?;
    assert!(rt; text_of(&fetched) == text);
    Ok(())
}

fn fetches_versions<R: Wait + Abort>(
    rt: &R,
    log: &SharedLog<MemDisk>,
    pass: &mut LogPass<MemDisk>,
) -> Result<(), Fail>
    requires { IsPassOf log_in_memory log.now pass.old }
{
    fetches_version(rt, log, pass, 0, Err(2))?;
    fetches_version(rt, log, pass, 1, Ok(FIRST))?;
    fetches_version(rt, log, pass, 2, Ok(SECOND))?;
    fetches_version(rt, log, pass, 3, Err(2))
}

#[test]
fn versions_are_fetched(rt: HostRuntime) -> Result<(), Fail> {
    let (log, mut passes) = share_two(&rt, rt.alloc())?;
    let fetched = fetches_versions(&rt, &log, &mut passes.two);
    drop(passes);
    drop(log);
    fetched
}

// The patch of this id has that text, or the log is that long.
fn fetches_id<R: Wait + Abort>(
    rt: &R,
    log: &SharedLog<MemDisk>,
    pass: &mut LogPass<MemDisk>,
    id: Id,
    text: Result<&[u8], u32>,
) -> Result<(), Fail>
    requires { IsPassOf log_in_memory log.now pass.old }
    ensures { IsPassOf log_in_memory log.now pass.new }
{
    let fetched = log.fetch_id(rt, pass, id)?;
    assert!(rt; text_of(&fetched) == text);
    Ok(())
}

fn fetches_ids<R: Wait + Abort>(
    rt: &R,
    log: &SharedLog<MemDisk>,
    pass: &mut LogPass<MemDisk>,
) -> Result<(), Fail>
    requires { IsPassOf log_in_memory log.now pass.old }
{
    fetches_id(rt, log, pass, id_of(2), Ok(SECOND))?;
    fetches_id(rt, log, pass, id_of(9), Err(2))?;
    fetches_id(rt, log, pass, id_of(1), Ok(FIRST))
}

#[test]
fn ids_are_fetched(rt: HostRuntime) -> Result<(), Fail> {
    let (log, mut passes) = share_two(&rt, rt.alloc())?;
    let fetched = fetches_ids(&rt, &log, &mut passes.two);
    drop(passes);
    drop(log);
    fetched
}

// The second pass is told this version and head.
fn describes<R: Wait + Abort>(
    rt: &R,
    log: SharedLog<MemDisk>,
    passes: Passes,
    version: u32,
    head: Option<Id>,
)
    requires { IsPassOf log_in_memory log passes.two }
{
    let mut passes = passes;
    let told = log.describe(rt, &mut passes.two);
    assert!(rt; (told.version, told.head) == (version, head));
    drop(passes);
    drop(log);
}

#[test]
fn a_log_is_described(rt: HostRuntime) -> Result<(), Fail> {
    let (log, passes) = share(rt.alloc(), &[], LOG_LIMITS)?;
    describes(&rt, log, passes, 0, None);
    let (log, passes) = share_two(&rt, rt.alloc())?;
    describes(&rt, log, passes, 2, Some(id_of(2)));
    Ok(())
}
