//! What a log has beside the list of its patches.
ghost use Rattle.std.specs.Prelude.{◌≡◌, ℕ, is_none, List};
ghost use Rattle.chain_core.specs.declared.chain.Entry.{Entry as Placed};
ghost use Rattle.chain_core.specs.Patches.{patches_of};
ghost use Rattle.chain_core.specs.Decision.{run_decision};
ghost use Rattle.log_journal.specs.StandsFor.{disk_of};
ghost use Rattle.patch_log.specs.Tail.{StandsForChain, TakesRun, WroteRun};

use crate::indexed::IndexedChain;
use crate::ready::Ready;
use crate::run::Run;
use chain_core::Decision;
use disk_model::{Disk, Planned};
use log_base::{LogLimits, Phase};
use log_journal::{Journal, write};
use std::alloc::Global;

/// What a log has beside the list of its patches: its journal on a disk, and the run whose gate was
/// left in doubt. It stands for a list of entries, which lies elsewhere.
#[derive(Drop)]
pub struct LogTail<D: Disk> {
    pub(crate) alloc: Global,
    pub(crate) journal: Journal<D>,
    pub(crate) doubt: Option<Run>,
    pub(crate) number: u32,
    pub(crate) limits: LogLimits,
}

impl<D: Disk> LogTail<D> {
    /// Where its memory comes from.
    pub fn alloc(&self) -> Global {
        self.alloc
    }

    /// No run is in doubt.
    pub fn is_settled(&self) -> bool
        ensures { result ≡ is_none self.now.doubt }
    {
        self.doubt.is_none()
    }

    /// How often its disk has failed.
    pub fn faults(&self) -> u64
        ensures { result ≡ D.faults (disk_of self.now.journal) }
    {
        self.journal.faults()
    }

    /// What the list makes of the run, within the limits of the log. It takes no memory, and asks
    /// no disk.
    pub fn decide(&self, list: &IndexedChain, run: &Run) -> Decision
        ensures { result ≡ run_decision (patches_of list.now.items) run.now self.now.limits }
    {
        list.decide(&self.limits, run)
    }

    /// Writes a run that the entries for which it stands take, and hands it back to be put behind
    /// them. Where the disk failed it hands back none, and keeps the run where it is in doubt.
    pub fn write(&mut self, ready: Ready) -> Option<Run>
        requires { (entries : List Placed) × (version : ℕ)
            × TakesRun self.old entries ready.run version }
        ensures { (entries : List Placed) (version : ℕ)
            → TakesRun self.old entries ready.run version
            → WroteRun D.Disk self.old self.new entries ready version result }
    {
        let Ready { run, block, by: _ } = ready;
        match write(&mut self.journal, &block) {
            Ok(()) => {
                self.doubt = None;
                Some(run)
            }
            Err(Phase::Settling) => None,
            Err(Phase::Body) => {
                self.doubt = None;
                None
            }
            Err(Phase::Gate) => {
                self.doubt = Some(run);
                None
            }
        }
    }

    /// Gives the disk back.
    pub fn close(self) -> D
        ensures { result ≡ disk_of self.journal }
    {
        let LogTail { journal, .. } = self;
        journal.close()
    }
}

impl<D: Planned> LogTail<D> {
    /// Plans which sync of its disk fails.
    pub fn plan(&mut self, next: Option<u64>)
        ensures stands { (entries : List Placed) → StandsForChain self.old entries
            → StandsForChain self.new entries }
        ensures same { self.new ≡ record self.old { journal = self.new.journal } }
        ensures next { D.next_failure (disk_of self.new.journal) ≡ next }
        ensures past { D.past (disk_of self.new.journal) ≡ D.past (disk_of self.old.journal) }
        ensures short { D.short (disk_of self.new.journal) ≡ D.short (disk_of self.old.journal) }
        ensures faults { D.faults (disk_of self.new.journal)
            ≡ D.faults (disk_of self.old.journal) }
        ensures mark { D.mark (disk_of self.new.journal) ≡ D.mark (disk_of self.old.journal) }
    {
        self.journal.plan(next);
    }

    /// Whether a call of its disk has failed for want of memory.
    pub fn is_short(&self) -> bool
        ensures { result ≡ D.short (disk_of self.now.journal) }
    {
        self.journal.is_short()
    }
}
