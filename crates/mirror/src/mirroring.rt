//! A shared log as a replica of the origin's.
ghost use Rattle.std.specs.Prelude.{◌≡◌, ℕ, [], ◌∷◌, Option, Some, IfOk, IfErr};
ghost use Rattle.delta_base.specs.declared.id.Id.{Id as PatchId};
ghost use Rattle.chain_core.specs.declared.answer.LogAnswer.TheVariants as answers;
ghost use Rattle.chain_core.specs.declared.chain.Patch.{Patch};
ghost use Rattle.patch_log.specs.Opening.{IsPatchRead};
ghost use Rattle.turn_cell.specs.Sharing.{IsPassOf};
ghost use Rattle.shared_log.specs.History.{shared_log};
ghost use Rattle.mirror.specs.Ends.{refused_text};
ghost use Rattle.mirror.specs.Pulling.{ComesOf, IsTextRefusal, ShowsLog, TakesText};

use crate::ends::PullRefusal;
use catch_up::{Replica, Standing};
use chain_core::LogAnswer;
use delta_base::{Bytes, Id};
use disk_model::Disk;
use log_base::LogInfo;
use patch_log::{Run, read_patch};
use patch_meaning::PatchFault;
use shared_log::{LogPass, SharedLog};
use std::alloc::Global;
use std::sync::Wait;

/// A log to which a pass appends what it is handed. The state is the pass.
#[derive(Drop)]
pub(crate) struct Mirroring<'a, R: Wait, D: Disk> {
    pub(crate) rt: &'a R,
    pub(crate) log: &'a SharedLog<D>,
}

// A text that is no patch, or want of memory.
fn no_patch(version: u32, fault: PatchFault) -> PullRefusal
    ensures { result ≡ refused_text version fault }
{
    match fault {
        PatchFault::OutOfMemory => PullRefusal::OutOfMemory,
        fault => PullRefusal::BadPatch { version, fault },
    }
}

// The patch that the text of a version is.
fn read_text(alloc: Global, text: &[u8], version: u32) -> Result<Run, PullRefusal>
    ensures ok { IfOk result (IsPatchRead text.now) }
    ensures err { IfErr result (IsTextRefusal text.now version) }
{
    let text = match Bytes::from_slice(alloc, text) {
        Ok(text) => text,
        Err(_) => return Err(PullRefusal::OutOfMemory),
    };
    match read_patch(alloc, text) {
        Ok(run) => Ok(run),
        Err(fault) => Err(no_patch(version, fault)),
    }
}

// The id of a run's first patch.
fn first_id(run: &Run) -> Option<Id>
    ensures { (patch : Patch) → run.now ≡ patch ∷ [] → result ≡ Some patch.id }
{
    match run.patches().as_slice().first() {
        Some(patch) => Some(patch.id),
        None => None,
    }
}

// Where a patch with this id is appended that the log has elsewhere, or with another text.
fn diverged<R: Wait, D: Disk>(
    rt: &R,
    log: &SharedLog<D>,
    pass: &mut LogPass<D>,
    theirs: Option<Id>,
) -> PullRefusal
    requires of { IsPassOf (shared_log D.Disk) log.now pass.old }
    ensures of { IsPassOf (shared_log D.Disk) log.now pass.new }
    ensures diverged { (has : ℕ) × (head : Option PatchId)
        × (result ≡ PullRefusal.Diverged has head theirs)
        × ShowsLog D.Disk log.now.origin pass.old has head pass.new }
{
    let LogInfo { version, head } = log.describe(rt, pass);
    PullRefusal::Diverged {
        version,
        head,
        theirs,
    }
}

// What the log's answer to the patch of a version comes to.
fn told<R: Wait, D: Disk>(
    rt: &R,
    log: &SharedLog<D>,
    pass: &mut LogPass<D>,
    answer: LogAnswer,
    theirs: Option<Id>,
    version: u32,
) -> Result<u32, PullRefusal>
    requires of { IsPassOf (shared_log D.Disk) log.now pass.old }
    requires one { (first last : ℕ) → answer ≡ answers.AcceptedRun first last → ⊥ }
    ensures of { IsPassOf (shared_log D.Disk) log.now pass.new }
    ensures comes { ComesOf D.Disk log.now.origin version theirs answer pass.old result pass.new }
{
    match answer {
        LogAnswer::Accepted { version: _ } => Ok(version),
        LogAnswer::AcceptedRun {
            first: _,
            version: _,
        } => Ok(version),
        LogAnswer::Known { version: at, same } => {
            if same && at == version {
                Ok(version)
            } else {
                Err(diverged(rt, log, pass, theirs))
            }
        }
        LogAnswer::Conflict {
            version: has,
            head,
            prev_version: _,
        } => Err(PullRefusal::Diverged {
            version: has,
            head,
            theirs,
        }),
        LogAnswer::Full { what, have, limit } => Err(PullRefusal::Full { what, have, limit }),
        LogAnswer::DiskFault => Err(PullRefusal::DiskFault),
        LogAnswer::OutOfMemory => Err(PullRefusal::OutOfMemory),
    }
}

impl<'a, R: Wait, D: Disk> Replica for Mirroring<'a, R, D> {
    ghost use Rattle.std.specs.Prelude.{◌≤◌, length};
    ghost use Rattle.turn_cell.specs.Knowing.{seen_of};
    ghost use Rattle.turn_cell.specs.Sharing.{IsPassOf};
    ghost use Rattle.shared_log.specs.History.{shared_log};
    ghost use Rattle.mirror.specs.Pulling.{ShowsLog, TakesText};

    type State = LogPass<D>;

    type Refusal = PullRefusal;

    ghost ready = { λ m p. IsPassOf (shared_log D.Disk) m.log.now p };

    ghost goes_on = { λ m p from. from ≤ length (seen_of p) };

    ghost shows = { λ m. ShowsLog D.Disk m.log.now.origin };

    ghost takes = { λ m. TakesText D.Disk m.log.now.origin };

    fn standing(&self, pass: &mut LogPass<D>) -> Standing {
        let LogInfo { version, head } = self.log.describe(self.rt, pass);
        Standing { version, head }
    }

    fn take(
        &self,
        alloc: Global,
        pass: &mut LogPass<D>,
        text: &[u8],
        version: u32,
    ) -> Result<u32, PullRefusal> {
        let run = match read_text(alloc, text, version) {
            Ok(run) => run,
            Err(refusal) => return Err(refusal),
        };
        let theirs = first_id(&run);
        let answer = self.log.append(self.rt, pass, run);
        told(self.rt, self.log, pass, answer, theirs, version)
    }
}
