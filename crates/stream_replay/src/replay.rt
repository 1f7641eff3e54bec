//! The dataset that a chain of patches makes.
ghost use Rattle.std.specs.Prelude.{◌≡◌, ◌+◌, ◌-◌, ◌<◌, ◌≤◌, ◌^◌, ◌++◌};
ghost use Rattle.std.specs.Prelude.{◌∷◌, List, [], None, true, is_some, IfOk, IfErr, OnOk};
ghost use Rattle.rdf_terms.specs.declared.change.Change.{Change};
ghost use Rattle.patch_meaning.specs.Patch.{Meaning};
ghost use Rattle.patch_meaning.specs.PartRead.{meaning_of};
ghost use Rattle.patch_meaning.specs.Replay.{replay};
ghost use Rattle.stream_replay.specs.Edits.{MakesLines};

use crate::edits::Edits;
use crate::fault::ReplayFault;
use chain_core::{ChainFault, ChainTest};
use delta_base::{Id, OutOfMemory};
use line_log::MadeLines;
use log_base::ChainLink;
use std::alloc::Global;

/// The dataset that a chain of patches makes from the empty one.
#[derive(Drop)]
pub struct Replayed {
    /// The canonical lines of its quads, in the order of their bytes.
    pub lines: MadeLines,
    /// How many patches the chain has.
    pub patches: u64,
    /// How many quads the dataset has.
    pub quads: usize,
    /// The id of the chain's last patch.
    pub head: Option<Id>,
}

/// The ids of patches, as long as they are a chain.
#[derive(Drop)]
pub struct Replay {
    chain: ChainTest,
    /// The first fault of the chain. Behind it no id is taken.
    fault: Option<ChainFault>,
}

impl Replay {
    ghost use Rattle.stream_replay.specs.Replaying.{AreReplayed, EndsChain, IsReplay};

    /// No patch so far.
    pub fn new(alloc: Global) -> Replay
        ensures replay { IsReplay [] result }
        ensures whole { result.fault ≡ None }
        ensures version { result.chain.version ≡ 0 }
    {
        Replay {
            chain: ChainTest::new(alloc),
            fault: None,
        }
    }

    /// Whether the chain has a fault.
    #[inline]
    pub fn is_broken(&self) -> bool
        ensures { result ≡ is_some self.now.fault }
    {
        self.fault.is_some()
    }

    /// Tests a patch against the chain. Most rows complete none, so this stays out of the
    /// way of those.
    #[inline(never)]
    pub fn take(&mut self, link: ChainLink) -> Result<(), OutOfMemory>
        requires room { self.old.chain.version < 2 ^ 32 - 1 }
        ensures replay { OnOk result ((ms : List Meaning) (changes : List Change)
            → IsReplay ms self.old → IsReplay (ms ++ meaning_of link changes ∷ []) self.new) }
        ensures broken { OnOk result
            (is_some self.old.fault ≡ true → is_some self.new.fault ≡ true) }
        ensures version { OnOk result (self.new.chain.version ≤ self.old.chain.version + 1) }
    {
        if self.is_broken() {
            return Ok(());
        }
        match self.chain.fault_of(link) {
            Some(fault) => self.fault = Some(fault),
            None => self.chain.push(link)?,
        }
        Ok(())
    }

    /// The dataset whose lines the edits make, where the patches are a chain.
    pub fn finish(self, edits: Edits) -> Result<Replayed, ReplayFault>
        ensures ok { IfOk result (λ replayed. (ms : List Meaning) → IsReplay ms self
            → MakesLines edits.log (replay ms) → AreReplayed ms replayed) }
        ensures whole { OnOk result (self.fault ≡ None) }
        ensures fault { IfErr result (λ fault. (ms : List Meaning) → IsReplay ms self
            → EndsChain ms fault) }
    {
        if let Some(fault) = self.fault {
            return Err(ReplayFault::Chain(fault));
        }
        let lines = edits.into_lines()?;
        let quads = lines.len();
        Ok(Replayed {
            lines,
            patches: u64::from(self.chain.version()),
            quads,
            head: self.chain.head(),
        })
    }
}
