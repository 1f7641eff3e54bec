//! What is done with a log over a disk in memory, step by step, and what a crash leaves of it.
use crate::tables::{Place, is, no_calls};
use chain_core::{Decision, LogAnswer};
use delta_base::{Bytes, Id, Listing, OutOfMemory};
use disk_model::MemDisk;
use log_base::{LOG_LIMITS, LogLimits};
use patch_log::{LogState, Ready, Run, append_all, append_made, read_run};
use std::alloc::Global;
use std::process::Abort;
use std::test::Fail;
use worked_rows::{disk_of, journal_of};

/// The texts of patches, one behind another.
pub type Texts = &'static [&'static [u8]];

/// A call of a log or a look at it, with what that gives.
pub enum Step {
    /// Pass 7 takes the memory for a run first, and then appends it.
    Add(Texts, LogAnswer),
    /// The run is made ready for pass 5 outside the log.
    Ready(Texts, LogAnswer),
    /// The same, or else it is told why not.
    Made(Texts, LogAnswer),
    /// There's no memory to make it ready.
    Want(Texts, LogAnswer),
    /// Patches are appended one after another.
    All(Texts, &'static [LogAnswer]),
    Decide(Texts, Decision),
    /// The pass that brought each patch, and how many of its run are behind it.
    Entries(&'static [(u32, u32)]),
    /// The pass that brought the first patch.
    BroughtBy(u32),
    Has(Id, Option<u32>),
    /// How many patches it has, and its head.
    Stands(u32, Option<Id>),
    IsSettled(bool),
    Faults(u64),
}

/// A log, what is done with it, and what a crash leaves then.
pub struct Case {
    pub shows: &'static str,
    /// What is in the log when it is opened.
    pub payloads: Texts,
    /// The numbers of the calls that fail. The opening of a log without patches makes four calls,
    /// and an append five.
    pub failing: &'static [u64],
    pub limits: LogLimits,
    pub steps: &'static [Step],
    /// The version and the head of what a crash leaves where this is chosen of what isn't synced.
    pub left: &'static [(u64, u32, Option<Id>)],
}

/// These texts, one behind another.
pub fn joined(alloc: Global, texts: &[&[u8]]) -> Result<Vec<u8>, OutOfMemory> {
    let mut all = Vec::new(alloc);
    for text in texts {
        all.extend_from_slice(text)?;
    }
    Ok(all)
}

/// A disk with these payloads, whose calls of these numbers fail.
pub fn disk_with(alloc: Global, payloads: &[&[u8]], failing: &[u64]) -> Result<MemDisk, Fail> {
    let file = journal_of(alloc, 1, payloads)?;
    let disk = disk_of(alloc, &file, failing);
    drop(file);
    Ok(disk?)
}

/// The log of number 1 on a disk.
pub fn open(alloc: Global, disk: MemDisk, limits: LogLimits) -> Result<LogState<MemDisk>, Fail> {
    match LogState::open_on(alloc, disk, 1, limits) {
        Ok(log) => Ok(log),
        Err(refusal) => {
            drop(refusal);
            Err(Fail::from("not opened"))
        }
    }
}

/// The run of these patches.
fn run_of(alloc: Global, texts: &[&[u8]]) -> Result<Run, Fail> {
    let text = joined(alloc, texts)?;
    Ok(read_run(alloc, Bytes::from_vec(text))?)
}

// What was made ready.
fn ready_of(made: Result<Ready, Run>) -> Result<Ready, Fail> {
    match made {
        Ok(ready) => Ok(ready),
        Err(run) => {
            drop(run);
            Err(Fail::from("no memory"))
        }
    }
}

/// What pass 7 is answered of a run for which it has taken the memory.
pub fn add(alloc: Global, log: &mut LogState<MemDisk>, texts: &[&[u8]]) -> Result<LogAnswer, Fail> {
    let run = run_of(alloc, texts)?;
    match log.reserve(run, 7) {
        Ok(ready) => Ok(log.append_reserved(ready)),
        Err(run) => {
            drop(run);
            Err(Fail::from("no memory"))
        }
    }
}

fn add_ready(
    alloc: Global,
    log: &mut LogState<MemDisk>,
    texts: &[&[u8]],
) -> Result<LogAnswer, Fail> {
    let run = run_of(alloc, texts)?;
    let ready = ready_of(Ready::of(alloc, run, 5))?;
    Ok(log.append_ready(ready))
}

fn add_made(
    alloc: Global,
    log: &mut LogState<MemDisk>,
    texts: &[&[u8]],
) -> Result<LogAnswer, Fail> {
    let run = run_of(alloc, texts)?;
    Ok(append_made(log, Ready::of(alloc, run, 5)))
}

fn add_in_want(
    alloc: Global,
    log: &mut LogState<MemDisk>,
    texts: &[&[u8]],
) -> Result<LogAnswer, Fail> {
    let run = run_of(alloc, texts)?;
    Ok(append_made(log, Err(run)))
}

fn decided(alloc: Global, log: &LogState<MemDisk>, texts: &[&[u8]]) -> Result<Decision, Fail> {
    let run = run_of(alloc, texts)?;
    let found = log.decide_here(&run);
    drop(run);
    Ok(found)
}

/// Whether these texts have these answers, one after another.
fn answers_all(
    alloc: Global,
    log: &mut LogState<MemDisk>,
    texts: &[&[u8]],
    wanted: &[LogAnswer],
) -> Result<bool, Fail> {
    let mut runs = Listing::new(alloc);
    for text in texts {
        let run = run_of(alloc, &[text])?;
        if runs.push(run).is_err() {
            return Err(Fail::from("no memory for a run"));
        }
    }
    let answers = append_all(alloc, log, runs, 3)?;
    let same = answers.as_slice() == wanted;
    drop(answers);
    Ok(same)
}

/// Whether each patch of a log was brought by this pass, and has so many of its run behind it.
pub fn has_entries(log: &LogState<MemDisk>, wanted: &[(u32, u32)]) -> bool {
    log.chain().version() as usize == wanted.len()
        && (1..=log.chain().version()).all(|version| {
            match (log.chain().entry(version), wanted.get(version as usize - 1)) {
                (Some(entry), Some((by, rest))) => entry.by == *by && entry.rest == *rest,
                _ => false,
            }
        })
}

/// Which pass brought the first patch of a log.
fn brought_by(log: &LogState<MemDisk>) -> Option<u32> {
    log.chain().entry(1).map(|entry| entry.by)
}

fn stands(log: &LogState<MemDisk>) -> (u32, Option<Id>) {
    (log.chain().version(), log.chain().head())
}

fn goes(
    rt: &impl Abort,
    alloc: Global,
    at: Place,
    log: &mut LogState<MemDisk>,
    step: &Step,
) -> Result<(), Fail> {
    match step {
        Step::Add(texts, answer) => is(rt, at, &add(alloc, log, texts)?, answer),
        Step::Ready(texts, answer) => is(rt, at, &add_ready(alloc, log, texts)?, answer),
        Step::Made(texts, answer) => is(rt, at, &add_made(alloc, log, texts)?, answer),
        Step::Want(texts, answer) => is(rt, at, &add_in_want(alloc, log, texts)?, answer),
        Step::All(texts, answers) => {
            is(rt, at, &answers_all(alloc, log, texts, answers)?, &true);
        }
        Step::Decide(texts, decision) => is(rt, at, &decided(alloc, log, texts)?, decision),
        Step::Entries(entries) => is(rt, at, &has_entries(log, entries), &true),
        Step::BroughtBy(pass) => is(rt, at, &brought_by(log), &Some(*pass)),
        Step::Has(id, version) => is(rt, at, &log.version_of(*id), version),
        Step::Stands(version, head) => is(rt, at, &stands(log), &(*version, *head)),
        Step::IsSettled(settled) => is(rt, at, &log.is_settled(), settled),
        Step::Faults(faults) => is(rt, at, &log.faults(), faults),
    }
    Ok(())
}

fn goes_through(
    rt: &impl Abort,
    alloc: Global,
    log: &mut LogState<MemDisk>,
    case: &Case,
) -> Result<(), Fail> {
    let shows = case.shows;
    for (step, wanted) in case.steps.iter().enumerate() {
        goes(rt, alloc, Place { shows, step }, log, wanted)?;
    }
    Ok(())
}

/// The log that a crash leaves.
pub fn log_left(alloc: Global, disk: &MemDisk, choice: u64) -> Result<LogState<MemDisk>, Fail> {
    let image = disk.image(choice)?;
    let left = MemDisk::from_image(alloc, image, no_calls(alloc))?;
    open(alloc, left, LOG_LIMITS)
}

/// Its version and head, and the pass that brought its first patch.
pub fn found_in(
    alloc: Global,
    disk: &MemDisk,
    choice: u64,
) -> Result<(u32, Option<Id>, Option<u32>), Fail> {
    let log = log_left(alloc, disk, choice)?;
    let (version, head) = stands(&log);
    let by = brought_by(&log);
    drop(log);
    Ok((version, head, by))
}

/// What a crash leaves has no patch that a pass brought.
fn leaves(rt: &impl Abort, alloc: Global, disk: &MemDisk, case: &Case) -> Result<(), Fail> {
    let shows = case.shows;
    for (step, (choice, version, head)) in case.left.iter().enumerate() {
        let found = found_in(alloc, disk, *choice)?;
        let wanted = (*version, *head, head.map(|_| 0));
        is(rt, Place { shows, step }, &found, &wanted);
    }
    Ok(())
}

/// What the steps of a case give, and what is left.
pub fn holds(rt: &impl Abort, alloc: Global, case: &Case) -> Result<(), Fail> {
    let disk = disk_with(alloc, case.payloads, case.failing)?;
    let mut log = open(alloc, disk, case.limits)?;
    let gone = goes_through(rt, alloc, &mut log, case);
    let disk = log.close();
    let left = gone.and_then(|()| leaves(rt, alloc, &disk, case));
    drop(disk);
    left
}
