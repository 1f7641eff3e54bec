//! A chain whose patches are found by id without a walk along it.
ghost use Rattle.std.specs.Prelude.{◌≡◌, ◌+◌, ◌≤◌, [], ◌∷◌, ◌++◌, length, OnOk, OnErr};
ghost use Rattle.chain_core.specs.Runs.{entries_of};
ghost use Rattle.chain_core.specs.Chain.{IsBoundedChain};
ghost use Rattle.chain_core.specs.Decision.{run_decision};
ghost use Rattle.chain_core.specs.Patches.{patches_of};

use crate::run::Run;
use chain_core::{Chain, Decision, IdIndex, Lookup, Patch, decide_run};
use delta_base::{Id, OutOfMemory};
use log_base::LogLimits;
use std::alloc::Global;
use std::marker::Model;

/// A chain, and the index of its patches' ids.
#[derive(Drop)]
pub struct IndexedChain {
    chain: Chain,
    index: IdIndex,
}

impl Model for IndexedChain {
    ghost use Rattle.std.specs.Prelude.{◌≤◌};
    ghost use Rattle.delta_base.specs.Listed.{Listed};
    ghost use Rattle.chain_core.specs.declared.chain.Entry.{Entry};
    ghost use Rattle.chain_core.specs.Index.{IsIndexOf};
    ghost use Rattle.chain_core.specs.Patches.{patches_of, patch_ids};

    ghost Value = { Listed Entry };

    ghost view = { λ c. record { items = c.chain.items; spare = c.index.places } };

    ghost invariant = { λ c. IsIndexOf c.index (patch_ids (patches_of c.chain.items))
        × (c.index.places ≤ c.chain.spare) };
}

impl IndexedChain {
    /// The chain of no patches.
    pub fn new(alloc: Global) -> IndexedChain
        ensures { result.items ≡ [] }
    {
        IndexedChain {
            chain: Chain::new(alloc),
            index: IdIndex::new(alloc),
        }
    }

    /// Makes so many places ready in the chain and in the index.
    pub fn reserve(&mut self, need: u32) -> Result<(), OutOfMemory>
        ensures items { self.new.items ≡ self.old.items }
        ensures spare { OnOk result (need ≤ self.new.spare) }
        ensures kept { self.old.spare ≤ self.new.spare }
        ensures err { OnErr result (self.new ≡ self.old) }
    {
        self.chain.reserve(need)?;
        self.index.reserve(need)
    }

    /// What the chain makes of the run, found by the index. It takes no memory.
    pub fn decide(&self, limits: &LogLimits, run: &Run) -> Decision
        ensures { result ≡ run_decision (patches_of self.now.items) run.now limits.now }
    {
        decide_run(self, limits, run.patches().as_slice())
    }

    /// Adds a patch, in a place that is ready.
    pub fn push(&mut self, patch: Patch, by: u32, rest: u32)
        requires ready { 1 ≤ self.old.spare }
        requires kept { IsBoundedChain
            (self.old.items ++ record { patch = patch; by = by; rest = rest } ∷ []) }
        ensures items { self.new.items
            ≡ self.old.items ++ record { patch = patch; by = by; rest = rest } ∷ [] }
        ensures spare { self.new.spare + 1 ≡ self.old.spare }
    {
        let version = self.chain.version() + 1;
        match self.index.insert(patch.id, version) {
            Ok(_) => {}
            Err(_) => unreachable!(),
        }
        self.chain.push(patch, by, rest);
    }

    /// Adds a run, in places that are ready.
    pub fn push_run(&mut self, run: Run, by: u32)
        requires ready { length run ≤ self.old.spare }
        requires kept { IsBoundedChain (self.old.items ++ entries_of run by) }
        ensures items { self.new.items ≡ self.old.items ++ entries_of run by }
        ensures spare { self.new.spare + length run ≡ self.old.spare }
    {
        let mut rest = run.count();
        let Run { patches } = run;
        for patch in patches.into_vec() {
            rest -= 1;
            self.push(patch, by, rest);
        }
    }
}

impl Lookup for IndexedChain {
    ghost entries = { λ chain. chain.items };

    fn chain(&self) -> &Chain {
        &self.chain
    }

    /// The version of the patch with an id, found by the index.
    fn version_of(&self, id: Id) -> Option<u32> {
        self.index.version_of(id)
    }
}
