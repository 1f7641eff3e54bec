//! Ids in the order in which their patches were taken, found without a walk along them.
ghost use Rattle.std.specs.Prelude.{◌≡◌, ◌+◌, ◌^◌, ◌<◌, ◌≤◌, [], ◌∷◌, ◌++◌, length, OnOk, None};
ghost use Rattle.std.specs.List.{All};
ghost use Rattle.delta_base.specs.Ids.{IsId};
ghost use Rattle.chain_core.specs.Ids.{last_of, version_among};

use chain_core::IdIndex;
use delta_base::{Id, Listing, OutOfMemory};
use std::alloc::Global;
use std::marker::Model;

/// Ids, and their index.
#[derive(Drop)]
pub struct Ids {
    list: Listing<Id>,
    index: IdIndex,
}

impl Model for Ids {
    ghost use Rattle.std.specs.Prelude.{◌<◌, ◌≤◌, ◌^◌, length};
    ghost use Rattle.std.specs.List.{All};
    ghost use Rattle.delta_base.specs.declared.id.Id.{Id as TheId};
    ghost use Rattle.delta_base.specs.Ids.{IsId};
    ghost use Rattle.delta_base.specs.Listed.{Listed};
    ghost use Rattle.chain_core.specs.Index.{IsIndexOf};

    ghost Value = { Listed TheId };

    ghost view = { λ s. record { items = s.list.items; spare = s.index.places } };

    ghost invariant = { λ s. (length s.list.items < 2 ^ 32) × IsIndexOf s.index s.list.items
        × (s.index.places ≤ s.list.spare) × All (λ id. IsId id.0) s.list.items };
}

impl Ids {
    pub fn new(alloc: Global) -> Ids
        ensures { result.items ≡ [] }
    {
        Ids {
            list: Listing::new(alloc),
            index: IdIndex::new(alloc),
        }
    }

    pub fn len(&self) -> u32
        ensures len { result ≡ length self.now.items }
        ensures few { length self.now.items < 2 ^ 32 }
    {
        self.list.len() as u32
    }

    /// The last one.
    pub fn last(&self) -> Option<Id>
        ensures { result ≡ last_of self.now.items }
    {
        self.list.as_slice().last().copied()
    }

    /// All of them.
    pub fn as_slice(&self) -> &[Id]
        ensures items { result.now ≡ self.now.items }
        ensures are { All (λ id. IsId id.0) self.now.items }
    {
        self.list.as_slice()
    }

    /// The version of the patch with an id.
    pub fn version_of(&self, id: Id) -> Option<u32>
        ensures { result ≡ version_among self.now.items id }
    {
        self.index.version_of(id)
    }

    /// Makes a place ready.
    pub fn reserve(&mut self) -> Result<(), OutOfMemory>
        ensures items { self.new.items ≡ self.old.items }
        ensures spare { OnOk result (1 ≤ self.new.spare) }
    {
        self.list.reserve(1)?;
        self.index.reserve(1)
    }

    /// Adds an id that is new, in a place that is ready.
    pub fn push(&mut self, id: Id)
        requires ready { 1 ≤ self.old.spare }
        requires new { version_among self.old.items id ≡ None }
        requires few { length self.old.items + 1 < 2 ^ 32 }
        ensures items { self.new.items ≡ self.old.items ++ id ∷ [] }
    {
        let version = self.len() + 1;
        match self.index.insert(id, version) {
            Ok(_) => {}
            Err(_) => unreachable!(),
        }
        match self.list.push(id) {
            Ok(()) => {}
            Err(_) => unreachable!(),
        }
    }
}
