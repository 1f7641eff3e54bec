//! The versions of ids, found without a walk along the ids.
ghost use Rattle.std.specs.Prelude.{◌≡◌, ◌-◌, ◌≤◌, max, List, [], IfOk, OnOk, OnErr, IsOk};
ghost use Rattle.std.specs.HashMap.{spare};
ghost use Rattle.delta_base.specs.declared.id.Id.{Id as TheId};
ghost use Rattle.chain_core.specs.Ids.{version_among};

use delta_base::{Id, OutOfMemory};
use std::alloc::Global;
use std::collections::HashMap;

/// Versions by the numbers of their ids. Whoever keeps it knows which ids these are.
#[derive(Drop)]
pub struct IdIndex {
    versions: HashMap<u128, u32>,
    /// How many places are ready.
    places: usize,
    ghost ready: { places ≤ spare versions },
}

impl IdIndex {
    ghost use Rattle.chain_core.specs.Index.{HasOneMore, HasSameIds, IsIndexOf};

    /// Of no ids.
    pub fn new(alloc: Global) -> IdIndex
        ensures index { IsIndexOf result [] }
        ensures places { result.places ≡ 0 }
    {
        IdIndex {
            versions: HashMap::new(alloc),
            places: 0,
        }
    }

    /// The version of an id.
    pub fn version_of(&self, id: Id) -> Option<u32>
        ensures { (ids : List TheId) → IsIndexOf self.now ids → result ≡ version_among ids id }
    {
        self.versions.get(&id.0).copied()
    }

    /// Makes so many places ready.
    pub fn reserve(&mut self, need: u32) -> Result<(), OutOfMemory>
        ensures index { HasSameIds self.old self.new }
        ensures places { OnOk result (self.new.places ≡ max self.old.places need) }
        ensures err { OnErr result (self.new.places ≡ self.old.places) }
    {
        let need = need as usize;
        if self.places < need {
            self.versions.reserve(need)?;
            self.places = need;
        }
        Ok(())
    }

    /// Puts in an id with its version, in a place that is ready if there is one, and tells the
    /// version that it had.
    pub fn insert(&mut self, id: Id, version: u32) -> Result<Option<u32>, OutOfMemory>
        ensures had { IfOk result (λ had. (ids : List TheId) → IsIndexOf self.old ids
            → had ≡ version_among ids id) }
        ensures more { OnOk result (HasOneMore self.old id version self.new) }
        ensures places { OnOk result (self.new.places ≡ self.old.places - 1) }
        ensures err { OnErr result (HasSameIds self.old self.new) }
        ensures succeeds { 1 ≤ self.old.places → IsOk result }
    {
        let had = self.versions.insert(id.0, version)?;
        self.places = self.places.saturating_sub(1);
        Ok(had)
    }
}
