//! One log in one thread.
ghost use Rattle.std.specs.Prelude.{◌≡◌, ◌≢◌, ℕ, ◌+◌, ◌≤◌, is_none, None, length};
ghost use Rattle.std.specs.Prelude.{IfOk, IfErr, OnOk, OnErr};
ghost use Rattle.std.specs.List.{AllByRecursion};
ghost use Rattle.disk_model.specs.Past.{reads};
ghost use Rattle.log_journal.specs.File.{Holds};
ghost use Rattle.log_journal.specs.Written.{Reopened, RefusedOpening};
ghost use Rattle.chain_core.specs.Patches.{version_of};
ghost use Rattle.chain_core.specs.Runs.{AreWhole, file_length, patches_in};
ghost use Rattle.chain_core.specs.Decision.{run_decision};
ghost use Rattle.patch_log.specs.Log.{payloads_of, IsSoundLog, StandsForLog};
ghost use Rattle.patch_log.specs.Fault.{HasLogFault};
ghost use Rattle.patch_log.specs.Ready.{IsMadeOf};
ghost use Rattle.patch_log.specs.Run.{AppendedRun};
ghost use Rattle.patch_log.specs.State.{chain_of, runs_in};
ghost use Rattle.patch_log.specs.Tail.{StandsForChain, log_of};

use crate::fault::{LogFault, LogRefusal};
use crate::indexed::IndexedChain;
use crate::opening::read_log;
use crate::ready::Ready;
use crate::run::Run;
use crate::tail::LogTail;
use chain_core::{Chain, Decision, LogAnswer, Lookup};
use delta_base::{Id, OutOfMemory};
use disk_model::{Disk, Planned};
use log_base::LogLimits;
use log_journal::{Journal, OpenRefusal};
use std::alloc::Global;
use std::marker::Model;

/// A log: the list of its patches with an index by id, and its tail, which stands for the list.
#[derive(Drop)]
pub struct LogState<D: Disk> {
    tail: LogTail<D>,
    chain: IndexedChain,
}

impl<D: Disk> Model for LogState<D> {
    ghost use Rattle.patch_log.specs.State.{LogView};
    ghost use Rattle.patch_log.specs.Tail.{StandsForChain, log_of};

    ghost Value = { LogView D };

    ghost view = { λ s. log_of s.tail s.chain.items s.chain.spare };

    ghost invariant = { λ s. StandsForChain s.tail s.chain.items };
}

impl<D: Disk> LogState<D> {
    /// Opens a file that a crash may have left. A refusal hands the disk back.
    pub fn open_on(
        alloc: Global,
        disk: D,
        number: u32,
        limits: LogLimits,
    ) -> Result<LogState<D>, LogRefusal<D>>
        // The chain is that of the journal's payloads, brought by no pass, and no patch
        // is in doubt.
        ensures payloads { D.tells → IfOk result (λ log.
            Holds (reads (D.past disk)) number (payloads_of (runs_in log))) }
        ensures log { IfOk result (λ log. IsSoundLog limits (runs_in log)) }
        ensures by_nobody { IfOk result (λ log.
            AllByRecursion (λ entry. entry.by ≡ 0) log.entries) }
        ensures settled { IfOk result (λ log.
            (log.doubt ≡ None) × (log.number ≡ number) × (log.limits ≡ limits)) }
        ensures fault { D.tells → IfErr result (λ refusal.
            HasLogFault (reads (D.past disk)) number limits refusal.fault) }

        // What becomes of its disk.
        ensures reopened { IfOk result (λ log.
            Reopened D.Disk disk log.disk (file_length (runs_in log))) }
        ensures refused { IfErr result (λ refusal.
            RefusedOpening D.Disk (refusal.fault ≡ LogFault.Failed) disk refusal.disk) }
    {
        let (journal, payloads) = match Journal::open_on(alloc, disk, number, limits.bytes) {
            Ok(opened) => opened,
            Err(OpenRefusal { disk, fault }) => return Err(LogRefusal {
                disk,
                fault: LogFault::from(fault),
            }),
        };
        let chain = match read_log(alloc, payloads, limits.patches) {
            Ok(chain) => chain,
            Err(fault) => return Err(LogRefusal {
                disk: journal.close(),
                fault,
            }),
        };
        let _version = chain.chain().version();
        let length = chain.chain().journal_length();
        if length > limits.bytes {
            return Err(LogRefusal {
                disk: journal.close(),
                fault: LogFault::OverLimit {
                    length,
                    limit: limits.bytes,
                },
            });
        }
        Ok(LogState {
            tail: LogTail {
                alloc,
                journal,
                doubt: None,
                number,
                limits,
            },
            chain,
        })
    }

    /// The chain, whose runs stand whole. Every image that a crash may leave holds them, with the
    /// one in doubt or without.
    pub fn chain(&self) -> &Chain
        ensures entries { result.now.items ≡ self.now.entries }
        ensures whole { AreWhole self.now.entries }
        ensures log { IsSoundLog self.now.limits (runs_in self.now) }
        ensures stands { D.tells → StandsForLog (D.past self.now.disk) self.now.number
            self.now.limits (runs_in self.now) self.now.doubt }
    {
        self.chain.chain()
    }

    /// The version of the patch with an id, found by the index.
    pub fn version_of(&self, id: Id) -> Option<u32>
        ensures { result ≡ version_of (chain_of self.now) id }
    {
        self.chain.version_of(id)
    }

    // Where its memory comes from.
    pub(crate) fn alloc(&self) -> Global {
        self.tail.alloc()
    }

    /// No run is in doubt.
    pub fn is_settled(&self) -> bool
        ensures { result ≡ is_none self.now.doubt }
    {
        self.tail.is_settled()
    }

    /// How often its disk has failed.
    pub fn faults(&self) -> u64
        ensures { result ≡ D.faults self.now.disk }
    {
        self.tail.faults()
    }

    /// What the chain makes of the run, found by the index. It takes no memory.
    pub fn decide_here(&self, run: &Run) -> Decision
        ensures decision { result
            ≡ run_decision (patches_in (runs_in self.now)) run.now self.now.limits }
        ensures stands { D.tells → StandsForLog (D.past self.now.disk) self.now.number
            self.now.limits (runs_in self.now) self.now.doubt }
        ensures whole { AreWhole self.now.entries }
    {
        self.tail.decide(&self.chain, run)
    }

    // Makes so many places ready.
    fn reserve_places(&mut self, need: u32) -> Result<(), OutOfMemory>
        ensures spare { OnOk result (need ≤ self.new.spare) }
        ensures kept { self.old.spare ≤ self.new.spare }
        ensures same { self.new ≡ record self.old { spare = self.new.spare } }
        ensures err { OnErr result (self.new ≡ self.old) }
    {
        self.chain.reserve(need)
    }

    /// Takes all the memory that adding the run needs. Where there is none, the run is handed back.
    pub fn reserve(&mut self, run: Run, by: u32) -> Result<Ready, Run>
        ensures made { IsMadeOf run by result }
        ensures spare { OnOk result (length run ≤ self.new.spare) }
        ensures kept { self.old.spare ≤ self.new.spare }
        ensures same { self.new ≡ record self.old { spare = self.new.spare } }
        ensures err { OnErr result (self.new ≡ self.old) }
    {
        let need = run.count();
        let ready = Ready::of(self.tail.alloc(), run, by)?;
        match self.reserve_places(need) {
            Ok(()) => Ok(ready),
            Err(_) => Err(ready.into_run()),
        }
    }

    // Writes a run that was accepted, in places that are ready.
    fn write_accepted(&mut self, version: u32, ready: Ready) -> LogAnswer
        requires room { length ready.run ≤ self.old.spare }
        requires accept { run_decision (patches_in (runs_in self.old)) ready.run self.old.limits
            ≡ Decision.Accept version }
        ensures appended { AppendedRun D.Disk self.old self.new ready.run ready.by result }
        ensures memory { result ≢ LogAnswer.OutOfMemory }
        ensures spare { self.old.spare ≤ self.new.spare + length ready.run }
    {
        let by = ready.by;
        match self.tail.write(ready) {
            Some(run) => {
                self.chain.push_run(run, by);
                LogAnswer::Accepted { version }
            }
            None => LogAnswer::DiskFault,
        }
    }

    /// Adds the run, in places that are ready, or says why not. It takes no memory.
    pub fn append_reserved(&mut self, ready: Ready) -> LogAnswer
        requires room { length ready.run ≤ self.old.spare }
        ensures appended { AppendedRun D.Disk self.old self.new ready.run ready.by result }
        ensures memory { result ≢ LogAnswer.OutOfMemory }
        ensures spare { self.old.spare ≤ self.new.spare + length ready.run }
    {
        match self.decide_here(ready.run()) {
            Decision::Accept { version } => self.write_accepted(version, ready),
            decision => LogAnswer::told(decision),
        }
    }

    /// Adds the run, or says why not. Only for one that can be accepted it makes places ready.
    pub fn append_ready(&mut self, ready: Ready) -> LogAnswer
        ensures appended { AppendedRun D.Disk self.old self.new ready.run ready.by result }
        ensures spare { self.old.spare ≤ self.new.spare + length ready.run }
    {
        match self.decide_here(ready.run()) {
            Decision::Accept { version } => match self.reserve_places(ready.run().count()) {
                Ok(()) => self.write_accepted(version, ready),
                Err(_) => LogAnswer::OutOfMemory,
            },
            decision => LogAnswer::told(decision),
        }
    }

    /// Gives the disk back.
    pub fn close(self) -> D
        ensures disk { result ≡ self.disk }
        ensures stands { D.tells → StandsForLog (D.past result) self.number self.limits
            (runs_in self) self.doubt }
    {
        let LogState { tail, .. } = self;
        tail.close()
    }

    /// The log in two parts: its tail, and the list for which that stands.
    pub fn split(self) -> (LogTail<D>, IndexedChain)
        ensures stands { StandsForChain result.0 result.1.items }
        ensures log { self ≡ log_of result.0 result.1.items result.1.spare }
    {
        let LogState { tail, chain } = self;
        (tail, chain)
    }

    /// The log of a tail and of a list for which it stands.
    pub fn join(tail: LogTail<D>, chain: IndexedChain) -> LogState<D>
        requires { StandsForChain tail chain.items }
        ensures { result ≡ log_of tail chain.items chain.spare }
    {
        LogState { tail, chain }
    }
}

impl<D: Planned> LogState<D> {
    /// Plans which sync of its disk fails.
    pub fn plan(&mut self, next: Option<u64>)
        ensures same { self.new ≡ record self.old { disk = self.new.disk } }
        ensures next { D.next_failure self.new.disk ≡ next }
        ensures past { D.past self.new.disk ≡ D.past self.old.disk }
        ensures short { D.short self.new.disk ≡ D.short self.old.disk }
        ensures faults { D.faults self.new.disk ≡ D.faults self.old.disk }
        ensures mark { D.mark self.new.disk ≡ D.mark self.old.disk }
    {
        self.tail.plan(next);
    }

    /// Whether a call of its disk has failed for want of memory.
    pub fn is_short(&self) -> bool
        ensures { result ≡ D.short self.now.disk }
    {
        self.tail.is_short()
    }
}
