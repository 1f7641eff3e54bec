//! The two values of a shared log: its list, and the work behind the list.
ghost use Rattle.std.specs.Prelude.{◌≡◌, ◌≤◌, ◌<◌, ◌^◌, ℕ, List, length, false};
ghost use Rattle.std.specs.Prelude.{IfOk, IfErr};
ghost use Rattle.chain_core.specs.declared.chain.Patch.{Patch as LogPatch};
ghost use Rattle.chain_core.specs.Patches.{patches_of};
ghost use Rattle.chain_core.specs.Replies as asked;
ghost use Rattle.log_base.specs.declared.limits.LogLimits.{LogLimits as Limits};
ghost use Rattle.patch_log.specs.Ready.{IsMadeOf};
ghost use Rattle.patch_log.specs.Run.{AppendedRun};
ghost use Rattle.patch_log.specs.Tail.{StandsForChain, TakesRun, log_of};
ghost use Rattle.shared_log.specs.Legal.{asks_disk};
ghost use Rattle.shared_log.specs.Replies.{reply_fetched, reply_described};

use crate::replies::Fetched;
use chain_core::{Decision, LogAnswer, Lookup, Patch};
use delta_base::{Id, OutOfMemory};
use disk_model::Disk;
use log_base::{LogInfo, LogLimits};
use patch_log::{IndexedChain, LogTail, Ready, Run};
use std::collections::LinkedList;
use twin_cell::{Backed, Listed};

/// What never changes of a log. No value of it is made.
pub struct LogFixed {
    pub number: u32,
    pub limits: LogLimits,
    /// The directory and the number of its disk's file.
    pub mark: Option<(LinkedList<u8>, u64)>,
}

/// A patch of a log, and how many patches of its run stand behind it. No value of it is made.
pub struct Placed {
    pub patch: Patch,
    pub rest: u32,
}

/// The list of a shared log. It has all texts of the log, and its index by id.
#[derive(Drop)]
pub struct LogList {
    pub(crate) chain: IndexedChain,
}

/// The work behind the list: a tail, whose disk stands for it.
#[derive(Drop)]
pub struct LogWork<D: Disk> {
    pub(crate) tail: LogTail<D>,
}

impl LogList {
    pub(crate) fn version(&self) -> u32
        ensures version { result ≡ length self.now.chain.items }
        ensures few { length self.now.chain.items < 2 ^ 32 }
    {
        self.chain.chain().version()
    }

    pub(crate) fn describe(&self) -> LogInfo
        ensures { (limits : Limits) → reply_described result
            ≡ asked.log_reply limits asked.describe (patches_of self.now.chain.items) }
    {
        let chain = self.chain.chain();
        LogInfo {
            version: chain.version(),
            head: chain.head(),
        }
    }

    pub(crate) fn fetch_version(&self, version: u32) -> Result<Fetched, OutOfMemory>
        ensures { IfOk result (λ fetched. (limits : Limits) → reply_fetched fetched
            ≡ asked.log_reply limits (asked.fetch_version version)
            (patches_of self.now.chain.items)) }
    {
        match self.chain.chain().by_version(version) {
            Some(patch) => Ok(Fetched::Found {
                patch: patch.copy()?,
            }),
            None => Ok(Fetched::Missing {
                version: self.version(),
            }),
        }
    }

    pub(crate) fn fetch_id(&self, id: Id) -> Result<Fetched, OutOfMemory>
        ensures { IfOk result (λ fetched. (limits : Limits) → reply_fetched fetched
            ≡ asked.log_reply limits (asked.fetch_id id) (patches_of self.now.chain.items)) }
    {
        match self.chain.version_of(id) {
            Some(version) => self.fetch_version(version),
            None => Ok(Fetched::Missing {
                version: self.version(),
            }),
        }
    }

    // Makes places ready for a run that the list takes, or says why it isn't added: Known, Conflict,
    // Full or want of memory.
    pub(crate) fn prepare<D: Disk>(
        &mut self,
        work: &LogWork<D>,
        made: Result<Ready, Run>,
    ) -> Result<(u32, Ready), LogAnswer>
        requires stands { StandsForChain work.now.tail self.old.chain.items }
        ensures items { self.new.chain.items ≡ self.old.chain.items }
        ensures ready { IfOk result (λ r. length r.1.run ≤ self.new.chain.spare) }
        ensures takes { IfOk result (λ r.
            TakesRun work.now.tail self.old.chain.items r.1.run r.0) }
        ensures made { (run : List LogPatch) (by : ℕ) → IsMadeOf run by made
            → IfOk result (λ r. (r.1.run ≡ run) × (r.1.by ≡ by)) }
        ensures as_found { IfErr result (λ answer.
            (self.new ≡ self.old) × (asks_disk answer ≡ false)) }
        ensures told { (run : List LogPatch) (by : ℕ) → IsMadeOf run by made
            → IfErr result (λ answer. let log = log_of work.now.tail self.old.chain.items
            self.old.chain.spare in AppendedRun D.Disk log log run by answer) }
    {
        match made {
            Ok(ready) => match work.tail.decide(&self.chain, ready.run()) {
                Decision::Accept { version } => match self.chain.reserve(ready.run().count()) {
                    Ok(()) => Ok((version, ready)),
                    Err(_) => Err(LogAnswer::OutOfMemory),
                },
                decision => Err(LogAnswer::told(decision)),
            },
            Err(run) => match work.tail.decide(&self.chain, &run) {
                Decision::Accept { version: _ } => Err(LogAnswer::OutOfMemory),
                decision => Err(LogAnswer::told(decision)),
            },
        }
    }
}

impl Listed for LogList {
    ghost use Rattle.shared_log.specs.History.{history_of, MayBeSeen};

    type Content = Placed;

    ghost entries = { λ list. history_of list.chain.items };

    ghost spare = { λ list. list.chain.spare };

    ghost fits = { MayBeSeen };

    fn count(&self) -> u64 {
        u64::from(self.version())
    }
}

impl<D: Disk> Backed<LogList> for LogWork<D> {
    ghost use Rattle.log_journal.specs.StandsFor.{disk_of};
    ghost use Rattle.patch_log.specs.Tail.{StandsForChain, log_of};
    ghost use Rattle.std.specs.Prelude.{[]};
    ghost use Rattle.shared_log.specs.Apart.{runs_apart};
    ghost use Rattle.shared_log.specs.History.{entries_known, fixed_of};

    type Doubt = LinkedList<Patch>;

    type Fixed = LogFixed;

    ghost stands = { λ work history. StandsForChain work.tail (entries_known history) };

    ghost fault_count = { λ work. D.faults (disk_of work.tail.journal) };

    ghost doubt = { λ work. work.tail.doubt };

    ghost fixed = { λ work. fixed_of D.mark (log_of work.tail [] 0) };

    ghost tells_apart = { runs_apart };

    fn faults(&self) -> u64 {
        self.tail.faults()
    }
}
