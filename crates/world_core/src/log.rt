//! A log over a disk whose syncs fail as planned, event by event.
ghost use Rattle.std.specs.Prelude.{◌≡◌, ℕ, ◌≤◌, [], ◌∷◌, ◌++◌, List, Bool, length};
ghost use Rattle.std.specs.Prelude.{Option, Some, None, IfOk, if◌then◌else◌};
ghost use Rattle.std.specs.Option.{option_map};
ghost use Rattle.log_base.specs.declared.limits.TheConstants.{LOG_LIMITS};
ghost use Rattle.chain_core.specs.declared.chain.Patch.{Patch as OnePatch};
ghost use Rattle.chain_core.specs.Log.{LogPoint, up};
ghost use Rattle.log_base.specs.OneMore.{with_one_more};
ghost use Rattle.chain_core.specs.Patches.{patch_at, last_id};
ghost use Rattle.chain_core.specs.Runs.{patches_in};
ghost use Rattle.chain_core.specs.Stay.{run_stay};
ghost use Rattle.chain_core.specs.Replies.{as_run};
ghost use Rattle.world_core.specs.Parts.{run_as, stop_by, Runs, KeepsRuns};
ghost use Rattle.world_core.specs.Parts.{IsPartOf, IsSoundMessage, IsSoundSent};
ghost use Rattle.world_core.specs.World.{accepted_message, served, appended, while_up, sending};

use crate::disks::{new_disk, stopped_disk};
use crate::event::WorldEvent;
use crate::message::Message;
use crate::plan::{failing_sync, stop_of};
use chain_core::{Fate, LogAnswer};
use delta_base::OutOfMemory;
use disk_model::{PlanDisk, Planned};
use log_base::LOG_LIMITS;
use patch_log::{LogFault, LogRefusal, LogState, Ready, Run, append_made};
use std::alloc::Global;

/// The number of the log's file.
pub const LOG_NUMBER: u32 = 1;

/// A log that runs, or the disk of one that was stopped.
#[derive(Drop)]
pub enum LogPart {
    Up(LogState<PlanDisk>),
    Down(PlanDisk),
}

/// A log, and the message that it sent, if it sent one.
pub(crate) type Sent = (LogPart, Option<Message>);

/// Opens the log that a disk keeps.
pub(crate) fn open(alloc: Global, disk: PlanDisk) -> Result<LogState<PlanDisk>, OutOfMemory>
    requires { (runs : List (List OnePatch)) × KeepsRuns disk runs }
    ensures { IfOk result (λ log. (runs : List (List OnePatch)) → KeepsRuns disk runs
        → Runs log runs None) }
{
    match LogState::open_on(alloc, disk, LOG_NUMBER, LOG_LIMITS) {
        Ok(log) => {
            let _chain = log.chain();
            Ok(log)
        }
        Err(LogRefusal { fault, .. }) => match fault {
            LogFault::Failed | LogFault::OutOfMemory => Err(OutOfMemory),
            _ => unreachable!(),
        },
    }
}

/// An empty log over a new disk.
pub(crate) fn start(alloc: Global) -> Result<LogState<PlanDisk>, OutOfMemory>
    ensures { IfOk result (λ log. Runs log [] None) }
{
    let disk = new_disk(alloc, LOG_NUMBER)?;
    open(alloc, disk)
}

/// The disk as a stop leaves it: a gate in doubt stands open, or it is shut.
pub(crate) fn stop(
    alloc: Global,
    log: LogState<PlanDisk>,
    opened: bool,
) -> Result<PlanDisk, OutOfMemory>
    ensures { IfOk result (λ disk. (runs : List (List OnePatch)) (doubt : Option (List OnePatch))
        → Runs log runs doubt
        → KeepsRuns disk (if opened then with_one_more runs doubt else runs)) }
{
    stopped_disk(alloc, log.close(), opened)
}

// Appends, so that the calls of the disk come to this fate.
fn append_by_plan(
    alloc: Global,
    log: &mut LogState<PlanDisk>,
    run: &Run,
    fate: Fate,
) -> Result<LogAnswer, OutOfMemory>
    ensures stay { IfOk result (λ answer. (runs : List (List OnePatch))
        (doubt : Option (List OnePatch)) → Runs log.old runs doubt
        → (after : List (List OnePatch)) × (left : Option (List OnePatch))
        × Runs log.new after left
        × (run_stay LOG_LIMITS (up runs doubt) run.now (run_as doubt fate)
        ≡ (up after left, Some answer))) }
    ensures counted { IfOk result (λ answer. (version : ℕ) → answer ≡ LogAnswer.Accepted version
        → length run.now ≤ version) }
{
    let plan = failing_sync(log.is_settled(), fate);
    log.plan(plan);
    let made = Ready::of(alloc, run.copy()?, 1);
    let answer = append_made(log, made);
    if answer == LogAnswer::OutOfMemory || log.is_short() {
        return Err(OutOfMemory);
    }
    let _chain = log.chain();
    Ok(answer)
}

// How the gate is to stand where the log is stopped behind this answer.
fn stop_by(fate: Fate, answer: LogAnswer) -> Option<bool>
    ensures { result ≡ stop_by fate answer }
{
    match answer {
        LogAnswer::DiskFault => stop_of(fate),
        _ => None,
    }
}

// The message that the answer to a run sends.
fn message_of(run: &Run, answer: LogAnswer) -> Option<Message>
    requires counted { (version : ℕ) → answer ≡ LogAnswer.Accepted version
        → length run.now ≤ version }
    ensures sound { IsSoundSent result }
    ensures told { result
        ≡ accepted_message (option_map (as_run (length run.now)) (Some answer)) }
{
    match answer.as_run(run.count()) {
        LogAnswer::AcceptedRun { first, version } => Some(Message::Accepted { first, version }),
        _ => None,
    }
}

/// Appends with this fate. A stop is run as a failure of its phase, behind which the log is closed.
pub(crate) fn append_as(
    alloc: Global,
    log: LogState<PlanDisk>,
    run: &Run,
    fate: Fate,
) -> Result<Sent, OutOfMemory>
    ensures sound { IfOk result (λ sent. IsSoundSent sent.1) }
    ensures part { IfOk result (λ sent. (runs : List (List OnePatch))
        (doubt : Option (List OnePatch)) → Runs log runs doubt
        → let stayed = run_stay LOG_LIMITS (up runs doubt) run.now fate in
        let sending = appended (length run.now) stayed in
        IsPartOf sent.0 sending.0 × (sent.1 ≡ sending.1)) }
{
    let mut log = log;
    let answer = append_by_plan(alloc, &mut log, run, fate)?;
    match stop_by(fate, answer) {
        Some(opened) => Ok((LogPart::Down(stop(alloc, log, opened)?), None)),
        None => {
            let message = message_of(run, answer);
            Ok((LogPart::Up(log), message))
        }
    }
}

// The patch of a version, as it is sent.
fn serve(log: &LogState<PlanDisk>, version: u32) -> Result<Option<Message>, OutOfMemory>
    ensures sound { IfOk result IsSoundSent }
    ensures message { IfOk result (λ message. (runs : List (List OnePatch))
        (doubt : Option (List OnePatch)) → Runs log.now runs doubt
        → message ≡ served version (patch_at (patches_in runs) version)) }
{
    match log.chain().by_version(version) {
        Some(patch) => Ok(Some(Message::Item {
            version,
            patch: patch.copy()?,
        })),
        None => Ok(None),
    }
}

// How long the log is, and its head, as they are sent.
fn describe(log: &LogState<PlanDisk>) -> Message
    ensures sound { IsSoundMessage result }
    ensures told { (runs : List (List OnePatch)) (doubt : Option (List OnePatch))
        → Runs log.now runs doubt
        → Some result ≡ (while_up LOG_LIMITS runs doubt WorldEvent.Describe).1 }
{
    let chain = log.chain();
    Message::Info {
        version: chain.version(),
        head: chain.head(),
    }
}

// Runs an event of a log that is up.
fn run_up(alloc: Global, log: LogState<PlanDisk>, event: &WorldEvent) -> Result<Sent, OutOfMemory>
    ensures sound { IfOk result (λ sent. IsSoundSent sent.1) }
    ensures part { IfOk result (λ sent. (runs : List (List OnePatch))
        (doubt : Option (List OnePatch)) → Runs log runs doubt
        → let sending = while_up LOG_LIMITS runs doubt event.now in
        IsPartOf sent.0 sending.0 × (sent.1 ≡ sending.1)) }
{
    match event {
        WorldEvent::Append { run, fate } => append_as(alloc, log, run, *fate),
        WorldEvent::Serve { version } => {
            let message = serve(&log, *version)?;
            Ok((LogPart::Up(log), message))
        }
        WorldEvent::Describe => {
            let message = describe(&log);
            Ok((LogPart::Up(log), Some(message)))
        }
        WorldEvent::Stop { opened } => Ok((LogPart::Down(stop(alloc, log, *opened)?), None)),
        WorldEvent::Open
        | WorldEvent::NewZone
        | WorldEvent::Deliver { .. }
        | WorldEvent::ZoneStop { .. }
        | WorldEvent::ZoneOpen { .. } => Ok((LogPart::Up(log), None)),
    }
}

/// Runs an event of a log.
pub(crate) fn run_log(alloc: Global, log: LogPart, event: &WorldEvent) -> Result<Sent, OutOfMemory>
    requires { (point : LogPoint (List OnePatch)) × IsPartOf log point }
    ensures sound { IfOk result (λ sent. IsSoundSent sent.1) }
    ensures part { IfOk result (λ sent. (point : LogPoint (List OnePatch)) → IsPartOf log point
        → let sending = sending LOG_LIMITS point event.now in
        IsPartOf sent.0 sending.0 × (sent.1 ≡ sending.1)) }
{
    match log {
        LogPart::Up(log) => run_up(alloc, log, event),
        LogPart::Down(disk) => match event {
            WorldEvent::Open => Ok((LogPart::Up(open(alloc, disk)?), None)),
            _ => Ok((LogPart::Down(disk), None)),
        },
    }
}
