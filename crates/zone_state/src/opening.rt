//! Reads the patches of a zone's journal, payload by payload.
ghost use Rattle.std.specs.Prelude.{◌≡◌, ◌⊎◌, ℕ, ◌+◌, ◌^◌, ◌<◌, ◌≤◌, ◌↔◌, ◌++◌, [], ◌∷◌, List};
ghost use Rattle.std.specs.Prelude.{length, false, None, IfOk, IfErr, OnOk, IsErrOf, IsTrue};
ghost use Rattle.rdf_terms.specs.Dataset.{empty};
ghost use Rattle.term_table.specs.Table.{most};
ghost use Rattle.dataset_tx.specs.Held.{AreMet, AreMore};
ghost use Rattle.chain_core.specs.Breaks.{BreaksAt};
ghost use Rattle.patch_meaning.specs.Checked.{CheckedPatch};
ghost use Rattle.patch_meaning.specs.Patch.{IsPatch};
ghost use Rattle.zone_state.specs.Log.{AreChained};
ghost use Rattle.chain_core.specs.Ids.{last_of, version_among};
ghost use Rattle.zone_state.specs.Brief.{brief_of, changes_taken};
ghost use Rattle.zone_state.specs.Next.{IsNextPatch, AreFoundPatches};
ghost use Rattle.zone_state.specs.State.{brief_in};

use crate::fault::ZoneFault;
use crate::ids::Ids;
use crate::kept::Kept;
use dataset_tx::DataFault;
use delta_base::{Bytes, Id, OutOfMemory};
use log_journal::Receiver;
use patch_log::NextFault;
use patch_meaning::{Checked, PatchFault, check_patch};
use std::alloc::Global;

/// What is kept of the payloads that were read. Behind one that isn't the next patch nothing more
/// is kept, and where there are too many terms the dataset stays behind: a fault that comes first
/// may still be read.
#[derive(Drop)]
pub struct Reading {
    alloc: Global,
    pub most: u32,
    pub kept: Kept,
    pub full: bool,
    pub broken: bool,
    ghost unstaged: { kept.contents.staged ≡ None },
}

// The patch that a text is.
fn read_patch(alloc: Global, text: &[u8]) -> Result<Checked, NextFault>
    ensures ok { IfOk result (λ patch.
        (patch.text ≡ text.now) × IsPatch patch.text patch.meaning) }
    ensures broken { IsErrOf result NextFault.Broken
        → (patch : CheckedPatch) → patch.text ≡ text.now → IsPatch patch.text patch.meaning → ⊥ }
{
    match check_patch(alloc, text) {
        Ok(patch) => Ok(patch),
        Err(fault) => match fault {
            PatchFault::OutOfMemory => Err(NextFault::OutOfMemory),
            _ => Err(NextFault::Broken),
        },
    }
}

// Whether it names the last patch, and its id is new.
fn follows(ids: &Ids, id: Id, prev: Option<Id>) -> bool
    ensures { IsTrue result
        ↔ ((prev ≡ last_of ids.now.items) × (version_among ids.now.items id ≡ None)) }
{
    prev == ids.last() && ids.version_of(id).is_none()
}

// The patch that a text is, if it goes behind those with these ids.
fn next_patch(alloc: Global, ids: &Ids, text: &[u8], most: u32) -> Result<Checked, NextFault>
    ensures ok { IfOk result (λ patch. IsNextPatch ids.now.items text.now most patch) }
    ensures broken { IsErrOf result NextFault.Broken
        → (patch : CheckedPatch) → IsNextPatch ids.now.items text.now most patch → ⊥ }
{
    if ids.len() >= most {
        return Err(NextFault::Broken);
    }
    match read_patch(alloc, text) {
        Ok(patch) if follows(ids, patch.id(), patch.prev()) => Ok(patch),
        Ok(patch) => {
            drop(patch);
            Err(NextFault::Broken)
        }
        Err(fault) => Err(fault),
    }
}

impl Reading {
    ghost use Rattle.zone_state.specs.Opening.{AddsPatch, MeetsMore, HasReceived};

    /// Of no payloads. There may be so many patches.
    pub fn new(alloc: Global, most: u32) -> Reading
        ensures received { HasReceived result [] result }
        ensures most { result.most ≡ most }
        ensures countable { most < 2 ^ 32 }
        ensures whole { result.broken ≡ false }
        ensures room { result.full ≡ false }
        ensures ids { result.kept.ids.items ≡ [] }
        ensures bytes { result.kept.bytes ≡ 0 }
        ensures contents { result.kept.contents
            ≡ record { contents = empty; staged = None; terms = [] } }
    {
        Reading {
            alloc,
            most,
            kept: Kept::new(alloc),
            full: false,
            broken: false,
        }
    }

    // Applies the changes of a patch, unless there are too many terms.
    fn apply(&mut self, patch: &Checked) -> Result<(), OutOfMemory>
        ensures ok { OnOk result (MeetsMore self.old self.new patch.now.meaning.changes) }
        ensures ids { self.new.kept.ids ≡ self.old.kept.ids }
        ensures bytes { self.new.kept.bytes ≡ self.old.kept.bytes }
        ensures most { self.new.most ≡ self.old.most }
        ensures broken { self.new.broken ≡ self.old.broken }
    {
        if self.full {
            return Ok(());
        }
        match self.kept.contents.apply(patch.changes()) {
            Ok(()) => Ok(()),
            Err(DataFault::TermsFull) => {
                self.full = true;
                Ok(())
            }
            Err(DataFault::OutOfMemory) => Err(OutOfMemory),
        }
    }

    // Adds a patch that goes behind those that were read.
    fn add(&mut self, patch: &Checked) -> Result<(), OutOfMemory>
        requires new { version_among self.old.kept.ids.items patch.now.meaning.id ≡ None }
        requires few { length self.old.kept.ids.items + 1 < 2 ^ 32 }
        ensures ok { OnOk result (AddsPatch self.old self.new patch.now) }
        ensures most { self.new.most ≡ self.old.most }
        ensures broken { self.new.broken ≡ self.old.broken }
    {
        self.kept.ids.reserve()?;
        self.apply(patch)?;
        self.kept.count(patch.id(), patch.text().len() as u64);
        Ok(())
    }

    /// Adds the patch of a payload, if it goes behind those that were read.
    pub fn add_next(&mut self, text: &Bytes) -> Result<(), NextFault>
        ensures ok { OnOk result ((patch : CheckedPatch)
            × IsNextPatch self.old.kept.ids.items text.now self.old.most patch
            × AddsPatch self.old self.new patch) }
        ensures none { IsErrOf result NextFault.Broken → (patch : CheckedPatch)
            → IsNextPatch self.old.kept.ids.items text.now self.old.most patch → ⊥ }
        ensures same { IsErrOf result NextFault.Broken → self.new ≡ self.old }
        ensures most { self.new.most ≡ self.old.most }
        ensures broken { self.new.broken ≡ self.old.broken }
    {
        match next_patch(self.alloc, &self.kept.ids, text.as_slice(), self.most) {
            Ok(patch) => {
                let added = self.add(&patch);
                drop(patch);
                match added {
                    Ok(()) => Ok(()),
                    Err(_) => Err(NextFault::OutOfMemory),
                }
            }
            Err(fault) => Err(fault),
        }
    }

    /// What is kept of the payloads, if they are the patches of a chain.
    pub fn finish(self) -> Result<Kept, ZoneFault>
        ensures ok { (first : Reading) (payloads : List (List ℕ)) → HasReceived first payloads self
            → IfOk result (λ kept. (taken : List CheckedPatch)
            × AreFoundPatches payloads first.most taken × (brief_in kept ≡ brief_of taken)
            × AreMet (changes_taken taken) [] kept.contents.terms) }
        ensures unstaged { IfOk result (λ kept. kept.contents.staged ≡ None) }
        ensures broken { (first : Reading) (payloads : List (List ℕ))
            → HasReceived first payloads self
            → (version : ℕ) → IsErrOf result (ZoneFault.BrokenChain version)
            → BreaksAt (AreChained first.most) payloads version }
        ensures terms_full { (first : Reading) (payloads : List (List ℕ))
            → HasReceived first payloads self → IsErrOf result ZoneFault.TermsFull
            → (taken : List CheckedPatch) × AreFoundPatches payloads first.most taken
            × AreMore most (changes_taken taken) [] }
        ensures faults { IfErr result (λ fault.
            ((version : ℕ) × (fault ≡ ZoneFault.BrokenChain version))
            ⊎ (fault ≡ ZoneFault.TermsFull)) }
    {
        let Reading {
            kept,
            full,
            broken,
            ..
        } = self;
        if broken {
            let version = u64::from(kept.ids.len()) + 1;
            drop(kept);
            return Err(ZoneFault::BrokenChain { version });
        }
        if full {
            drop(kept);
            return Err(ZoneFault::TermsFull);
        }
        Ok(kept)
    }
}

impl Receiver for Reading {
    ghost use Rattle.zone_state.specs.Opening.{HasReceived};

    ghost received = { λ first payloads reading. HasReceived first payloads reading };

    fn receive(&mut self, payload: Bytes) -> Result<(), OutOfMemory> {
        if self.broken {
            return Ok(());
        }
        match self.add_next(&payload) {
            Ok(()) => Ok(()),
            Err(NextFault::Broken) => {
                self.broken = true;
                Ok(())
            }
            Err(NextFault::OutOfMemory) => Err(OutOfMemory),
        }
    }
}
