//! A log that threads share.
ghost use Rattle.std.specs.Prelude.{◌≡◌, ◌<◌, ◌≤◌, ℕ, ◌+◌, [], ◌∷◌, Some, length, slice_get};
ghost use Rattle.std.specs.Prelude.{IfOk, IfErr, OnErr, vec_len, vec_capacity};
ghost use Rattle.std.specs.List.{AllByRecursion};
ghost use Rattle.chain_core.specs.Replies as asked;
ghost use Rattle.chain_core.specs.declared.answer.LogAnswer.TheVariants as answers;
ghost use Rattle.chain_core.specs.declared.chain.Patch.{Patch};
ghost use Rattle.patch_log.specs.Tail.{StandsForChain, log_of};
ghost use Rattle.turn_cell.specs.Knowing.{Wants, IsSame, IsQuiet, looks_of, seen_of};
ghost use Rattle.turn_cell.specs.Sharing.{IsPassOf, IsNewPassOf, AreAllPassesOf, IsClosedOf};
ghost use Rattle.turn_cell.specs.Sights.{IsOutside};
ghost use Rattle.twin_cell.specs.Sights.{IsWorkFrom, IsListFrom, IsWorkAsFound};
ghost use Rattle.shared_log.specs.History.{shared_log, SeesWhole};
ghost use Rattle.shared_log.specs.Replies.{reply_fetched, reply_described};
ghost use Rattle.shared_log.specs.Stays.{CalledOnLog};

use crate::replies::Fetched;
use crate::value::{LogList, LogWork};
use chain_core::LogAnswer;
use delta_base::{Back, Id, OutOfMemory};
use disk_model::Disk;
use log_base::LogInfo;
use patch_log::{LogState, Ready, Run};
use std::alloc::Global;
use std::marker::Model;
use std::sync::Wait;
use twin_cell::{BackTwo, Backed, HeldList, HeldWork, Listed, Twin, TwinPass};

/// What a pass knows of one log.
pub type LogPass<D> = TwinPass<LogWork<D>, LogList>;

/// A log that threads append to and ask, each with a pass of its own. An append has the turn of the
/// work while the disk is asked; a call that asks takes that of the list alone.
#[derive(Drop)]
pub struct SharedLog<D: Disk> {
    twin: Twin<LogWork<D>, LogList>,
    alloc: Global,
}

impl<D: Disk> Model for SharedLog<D> {
    ghost use Rattle.patch_log.specs.State.{LogView};
    ghost use Rattle.patch_log.specs.Tail.{log_of};
    ghost use Rattle.turn_cell.specs.Sights.{Made};

    ghost Value = { Made (LogView D) };

    ghost view = { λ s. record {
      cell = s.twin.cell;
      origin = log_of s.twin.work.tail s.twin.list.chain.items s.twin.list.chain.spare;
      seats = s.twin.seats;
    } };
}

// The log of both parts.
fn whole<D: Disk>(work: LogWork<D>, list: LogList) -> LogState<D>
    requires { StandsForChain work.tail list.chain.items }
    ensures { result ≡ log_of work.tail list.chain.items list.chain.spare }
{
    LogState::join(work.tail, list.chain)
}

impl<D: Disk> SharedLog<D> {
    /// Shares a log among passes, which have the numbers from 1 on.
    pub fn new(
        alloc: Global,
        state: LogState<D>,
        seats: u32,
    ) -> Result<(SharedLog<D>, Vec<LogPass<D>>), Back<LogState<D>>>
        requires seats { (0 < seats) × (seats ≤ 16) }
        requires by_nobody { AllByRecursion (λ entry. entry.by ≡ 0) state.entries }
        ensures log { IfOk result (λ r. (r.0.origin ≡ state) × (r.0.seats ≡ seats)) }
        ensures passes { IfOk result (λ r.
            (vec_len r.1 ≡ seats) × (vec_capacity r.1 ≡ seats)) }
        ensures new { IfOk result (λ r. (k : ℕ) (p : _) → slice_get r.1.items k ≡ Some p
            → IsNewPassOf (shared_log D.Disk) r.0 (k + 1) p) }
        ensures back { IfErr result (λ b. b.item ≡ state) }
    {
        let (tail, chain) = state.split();
        let work = LogWork { tail };
        let list = LogList { chain };
        let _version = list.version();
        match Twin::new(alloc, work, list, seats) {
            Ok((twin, passes)) => Ok((SharedLog { twin, alloc }, passes)),
            Err(BackTwo { work, list }) => Err(Back {
                item: whole(work, list),
            }),
        }
    }

    /// Adds a run, or says why not: Known, Conflict, Full, want of memory and a disk fault, in this
    /// order. All its patches are added or none, and no pass ever sees some of them without the
    /// others. That it is accepted is told with the version of its last patch. Its block is made
    /// before a turn is taken, and the disk is asked in the turn of the work alone.
    pub fn append<R: Wait>(&self, rt: &R, pass: &mut LogPass<D>, run: Run) -> LogAnswer
        requires of { IsPassOf (shared_log D.Disk) self.now pass.old }
        ensures of { IsPassOf (shared_log D.Disk) self.now pass.new }
        ensures whole { SeesWhole pass.new }
        ensures called { CalledOnLog D.Disk self.now.origin pass.old
            (asked.append_run run) (asked.answered (asked.as_run (length run) result)) pass.new }
        ensures alone { (patch : Patch) → run ≡ patch ∷ []
            → CalledOnLog D.Disk self.now.origin pass.old
            (asked.append patch) (asked.answered result) pass.new }

        // So the answer can be told as one to a run.
        ensures counted { (version : ℕ) → result ≡ answers.Accepted version
            → length run ≤ version }
    {
        let by = pass.number();
        let need = u64::from(run.count());
        let made = Ready::of(self.alloc, run, by);
        let mut work = self.twin.enter_work(rt, pass);
        let mut list = self.twin.enter_list(rt, pass);
        let (version, ready) = match list.value_mut().prepare(work.value(), made) {
            Ok(prepared) => prepared,
            Err(answer) => {
                self.leave_as_found(pass, work, list);
                return answer;
            }
        };
        self.twin.leave_list(pass, list, need);
        match work.value_mut().tail.write(ready) {
            Some(run) => {
                let mut list = self.twin.enter_list(rt, pass);
                list.value_mut().chain.push_run(run, by);
                self.twin.publish(pass, &work, list);
                self.twin.leave_work(pass, work);
                LogAnswer::Accepted { version }
            }
            None => {
                self.twin.leave_work(pass, work);
                LogAnswer::DiskFault
            }
        }
    }

    // Hands both turns on over a work and a list as they were found.
    fn leave_as_found(
        &self,
        pass: &mut LogPass<D>,
        work: HeldWork<LogWork<D>, LogList>,
        list: HeldList<LogWork<D>, LogList>,
    )
        requires cell { pass.old.cell ≡ self.now.cell }
        requires of_work { IsWorkFrom ⟦<LogWork<D> as Backed<LogList>>⟧.fault_count
            ⟦<LogWork<D> as Backed<LogList>>⟧.doubt ⟦<LogWork<D> as Backed<LogList>>⟧.fixed
            pass.old work }
        requires of_list { IsListFrom ⟦<LogList as Listed>⟧.entries ⟦<LogList as Listed>⟧.spare
            pass.old list }
        requires stands { ⟦<LogWork<D> as Backed<LogList>>⟧.stands work.value (seen_of pass.old) }
        requires as_found { (work.value ≡ work.was) × (list.value ≡ list.was) }
        ensures same { IsSame pass.old pass.new × IsOutside pass.new }
        ensures looks { looks_of pass.new ≡ looks_of pass.old }
        ensures seen { seen_of pass.new ≡ seen_of pass.old }
        ensures quiet { IsQuiet pass.old pass.new }
    {
        self.twin.leave_list(pass, list, 0);
        self.twin.leave_work_as_found(pass, work);
    }

    /// The patch of a version, counted from 1.
    pub fn fetch_version<R: Wait>(
        &self,
        rt: &R,
        pass: &mut LogPass<D>,
        version: u32,
    ) -> Result<Fetched, OutOfMemory>
        requires of { IsPassOf (shared_log D.Disk) self.now pass.old }
        ensures of { IsPassOf (shared_log D.Disk) self.now pass.new }
        ensures whole { SeesWhole pass.new }
        ensures called { IfOk result (λ fetched. CalledOnLog D.Disk self.now.origin pass.old
            (asked.fetch_version version) (reply_fetched fetched) pass.new) }
        ensures want { OnErr result (Wants pass.old pass.new) }
    {
        let held = self.twin.enter_list(rt, pass);
        let fetched = held.value().fetch_version(version);
        self.twin.leave_list(pass, held, 0);
        fetched
    }

    /// The patch with an id.
    pub fn fetch_id<R: Wait>(
        &self,
        rt: &R,
        pass: &mut LogPass<D>,
        id: Id,
    ) -> Result<Fetched, OutOfMemory>
        requires of { IsPassOf (shared_log D.Disk) self.now pass.old }
        ensures of { IsPassOf (shared_log D.Disk) self.now pass.new }
        ensures whole { SeesWhole pass.new }
        ensures called { IfOk result (λ fetched. CalledOnLog D.Disk self.now.origin pass.old
            (asked.fetch_id id) (reply_fetched fetched) pass.new) }
        ensures want { OnErr result (Wants pass.old pass.new) }
    {
        let held = self.twin.enter_list(rt, pass);
        let fetched = held.value().fetch_id(id);
        self.twin.leave_list(pass, held, 0);
        fetched
    }

    /// How long the log is, and the id of its last patch.
    pub fn describe<R: Wait>(&self, rt: &R, pass: &mut LogPass<D>) -> LogInfo
        requires of { IsPassOf (shared_log D.Disk) self.now pass.old }
        ensures of { IsPassOf (shared_log D.Disk) self.now pass.new }
        ensures whole { SeesWhole pass.new }
        ensures called { CalledOnLog D.Disk self.now.origin pass.old
            asked.describe (reply_described result) pass.new }
    {
        let held = self.twin.enter_list(rt, pass);
        let info = held.value().describe();
        self.twin.leave_list(pass, held, 0);
        info
    }

    /// How long the log is. It waits for nobody.
    pub fn version(&self, pass: &mut LogPass<D>) -> u32
        requires of { IsPassOf (shared_log D.Disk) self.now pass.old }
        ensures of { IsPassOf (shared_log D.Disk) self.now pass.new }
        ensures whole { SeesWhole pass.new }
        ensures called { CalledOnLog D.Disk self.now.origin pass.old
            asked.version (asked.counted result) pass.new }
    {
        self.twin.count(pass) as u32
    }

    /// The log, once all passes are back. Its entries begin with what each pass knew, and have just
    /// its own at its places.
    pub fn close(self, passes: Vec<LogPass<D>>) -> LogState<D>
        requires { AreAllPassesOf (shared_log D.Disk) self passes.items }
        ensures closed { IsClosedOf (shared_log D.Disk) self passes.items result }
    {
        let SharedLog { twin, .. } = self;
        let (work, list) = twin.close(passes);
        whole(work, list)
    }
}
