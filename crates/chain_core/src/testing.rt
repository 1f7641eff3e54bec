//! The test whether patches are a chain, patch by patch.
ghost use Rattle.std.specs.Prelude.{◌≡◌, ◌+◌, ◌-◌, ◌<◌, ◌^◌, List, [], ◌∷◌};
ghost use Rattle.std.specs.Prelude.{◌++◌, OnOk, OnErr, IfNone, IfSome};
ghost use Rattle.log_base.specs.declared.chain_link.ChainLink.{ChainLink};
ghost use Rattle.chain_core.specs.Links.{IsChain};
ghost use Rattle.chain_core.specs.Breaks.{Breaks};
ghost use Rattle.chain_core.specs.Tested.{IsTested};

use crate::id_index::IdIndex;
use delta_base::{Id, OutOfMemory};
use log_base::ChainLink;
use std::alloc::Global;

/// Why patches are no chain.
#[derive(Clone, Copy, Debug, PartialEq, Eq)]
pub enum ChainFault {
    /// Behind `version` patches, of which the last has the id `have`, one names `found` as the
    /// one before it.
    Diverged {
        version: u32,
        have: Option<Id>,
        found: Option<Id>,
    },
    /// The patch of this version has the id already.
    Repeated {
        id: Id,
        version: u32,
    },
}

/// What is kept of a chain to test the patch behind it.
#[derive(Drop)]
pub struct ChainTest {
    /// How many patches it has.
    version: u32,
    /// The id of the last one.
    head: Option<Id>,
    index: IdIndex,
}

impl ChainTest {
    /// The test behind no patch.
    pub fn new(alloc: Global) -> ChainTest
        ensures tested { IsTested [] result }
    {
        ChainTest {
            version: 0,
            head: None,
            index: IdIndex::new(alloc),
        }
    }

    /// How many patches the chain has.
    pub fn version(&self) -> u32
        ensures { result ≡ self.now.version }
    {
        self.version
    }

    /// The id of the last one.
    pub fn head(&self) -> Option<Id>
        ensures { result ≡ self.now.head }
    {
        self.head
    }

    /// Tests a patch: first the previous one that it names, then its id.
    pub fn fault_of(&self, link: ChainLink) -> Option<ChainFault>
        ensures follows { IfNone result ((links : List ChainLink) → IsTested links self.now
            → IsChain (links ++ link ∷ [])) }
        ensures breaks { IfSome result (λ fault. (links more : List ChainLink)
            → IsTested links self.now → Breaks (links ++ link ∷ more) fault) }
    {
        if link.prev != self.head {
            return Some(ChainFault::Diverged {
                version: self.version,
                have: self.head,
                found: link.prev,
            });
        }
        match self.index.version_of(link.id) {
            Some(version) => Some(ChainFault::Repeated {
                id: link.id,
                version,
            }),
            None => None,
        }
    }

    /// Takes a patch that goes on the chain.
    pub fn push(&mut self, link: ChainLink) -> Result<(), OutOfMemory>
        requires room { self.old.version < 2 ^ 32 - 1 }
        ensures ok { OnOk result ((links : List ChainLink) → IsTested links self.old
            → IsChain (links ++ link ∷ []) → IsTested (links ++ link ∷ []) self.new) }
        ensures version { OnOk result (self.new.version ≡ self.old.version + 1) }
        ensures err { OnErr result ((links : List ChainLink)
            → IsTested links self.old → IsTested links self.new) }
    {
        self.index.insert(link.id, self.version + 1)?;
        self.version += 1;
        self.head = Some(link.id);
        Ok(())
    }
}
