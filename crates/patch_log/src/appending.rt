//! Appends: one stay in a log's turn, and many.
ghost use Rattle.std.specs.Prelude.{◌≡◌, ◌≤◌, ℕ, List, count_by, IfOk, OnErr};
ghost use Rattle.delta_base.specs.Outside.{RoseBy};
ghost use Rattle.chain_core.specs.declared.chain.Patch.{Patch};
ghost use Rattle.disk_model.specs.Past.{LeavesOnly};
ghost use Rattle.patch_log.specs.Ready.{IsMadeOf};
ghost use Rattle.patch_log.specs.Run.{AppendedRun, AppendedAll, GrowsBy};
ghost use Rattle.patch_log.specs.Run.{HoldsInSeries, is_disk_fault};

use crate::ready::Ready;
use crate::run::Run;
use crate::state::LogState;
use chain_core::{Decision, LogAnswer};
use delta_base::{Listing, OutOfMemory};
use disk_model::Disk;
use std::alloc::Global;

/// Adds a run that was made ready, or for which no memory was found. Says why not in this order:
/// Known, Conflict, Full, want of memory, a disk fault. That it is accepted is told with the
/// version of its last patch.
pub fn append_made<D: Disk>(log: &mut LogState<D>, made: Result<Ready, Run>) -> LogAnswer
    ensures { (run : List Patch) (by : ℕ) → IsMadeOf run by made
        → AppendedRun D.Disk log.old log.new run by result }
{
    match made {
        Ok(ready) => log.append_ready(ready),
        Err(run) => match log.decide_here(&run) {
            Decision::Accept { version: _ } => LogAnswer::OutOfMemory,
            decision => LogAnswer::told(decision),
        },
    }
}

/// Adds a run, or says why not: Known, Conflict, Full, want of memory and a disk fault, in this
/// order. All its patches are added or none.
pub fn append<D: Disk>(log: &mut LogState<D>, run: Run, by: u32) -> LogAnswer
    ensures { AppendedRun D.Disk log.old log.new run by result }
{
    let made = Ready::of(log.alloc(), run, by);
    append_made(log, made)
}

/// Adds runs one after another. Memory for the answers is taken first.
#[tactic(auto, using(crate::proofs::Runs::grows_none, crate::proofs::Runs::no_append_yet))]
pub fn append_all<D: Disk>(
    alloc: Global,
    log: &mut LogState<D>,
    runs: Listing<Run>,
    by: u32,
) -> Result<Listing<LogAnswer>, OutOfMemory>
    ensures run { IfOk result (λ answers.
        AppendedAll D.Disk by log.old runs.items answers.items log.new) }
    ensures grown { GrowsBy by log.old.entries log.new.entries }
    ensures none { OnErr result (log.new ≡ log.old) }

    // A crash at any moment leaves what it might have left before, or what an append of one of
    // the runs may leave.
    ensures any_moment { D.tells
        → LeavesOnly (HoldsInSeries D.Disk by log.old runs.items)
        (D.past log.old.disk) (D.past log.new.disk) }

    // Each answer that tells a fault of the disk has a fault of its own.
    ensures cause { IfOk result (λ answers. RoseBy (count_by is_disk_fault answers.items)
        (D.faults log.old.disk) (D.faults log.new.disk)) }
    ensures faults { D.faults log.old.disk ≤ D.faults log.new.disk }
    ensures limits { log.new.limits ≡ log.old.limits }
    ensures number { log.new.number ≡ log.old.number }
    ensures mark { D.mark log.new.disk ≡ D.mark log.old.disk }
{
    let mut answers = Listing::new(alloc);
    answers.reserve(runs.len())?;
    for run in runs.into_vec() {
        let answer = append(log, run, by);
        match answers.push(answer) {
            Ok(()) => {}
            Err(_) => unreachable!(),
        }
    }
    Ok(answers)
}
