//! What is kept of the patches that were taken.
ghost use Rattle.std.specs.Prelude.{◌≡◌, ◌+◌, ◌-◌, ◌^◌, ◌<◌, ◌≤◌, min, [], ◌∷◌, ◌++◌, length};
ghost use Rattle.std.specs.Prelude.{IfOk, OnOk, OnErr, IsErrOf, IsSome, None, Some};
ghost use Rattle.rdf_terms.specs.Dataset.{apply, empty};
ghost use Rattle.term_table.specs.Table.{most};
ghost use Rattle.dataset_tx.specs.Held.{AreMet, AreMore};
ghost use Rattle.log_journal.specs.Payload.{payload_of};
ghost use Rattle.patch_log.specs.Log.{bare};
ghost use Rattle.patch_meaning.specs.Patch.{IsPatch};
ghost use Rattle.chain_core.specs.Ids.{version_among};
ghost use Rattle.zone_state.specs.Brief.{file_length};
ghost use Rattle.zone_state.specs.Taking.{taking, within_limits};

use crate::answer::TakeAnswer;
use crate::ids::Ids;
use dataset_tx::{DataFault, Dataset};
use delta_base::Id;
use log_base::{EMPTY_JOURNAL, FullKind, LogLimits, PAYLOAD_FRAME};
use log_journal::{Block, make_block};
use patch_meaning::Checked;
use std::alloc::Global;

/// The ids, how many bytes the texts have, and the dataset.
#[derive(Drop)]
pub struct Kept {
    pub ids: Ids,
    pub bytes: u64,
    pub contents: Dataset,
}

impl Kept {
    /// Of no patches.
    pub fn new(alloc: Global) -> Kept
        ensures ids { result.ids.items ≡ [] }
        ensures bytes { result.bytes ≡ 0 }
        ensures contents { result.contents
            ≡ record { contents = empty; staged = None; terms = [] } }
    {
        Kept {
            ids: Ids::new(alloc),
            bytes: 0,
            contents: Dataset::new(alloc),
        }
    }

    /// What is made of a patch.
    pub fn taking(&self, patch: &Checked, limits: &LogLimits) -> TakeAnswer
        requires small { self.now.bytes < 2 ^ 63 }
        ensures { result ≡ taking self.now.ids.items self.now.bytes (bare patch.now) limits.now }
    {
        let last = self.ids.last();
        let prev = patch.prev();
        if prev != last {
            return TakeAnswer::Diverged { have: last, prev };
        }
        if let Some(version) = self.ids.version_of(patch.id()) {
            return TakeAnswer::Repeated { version };
        }
        self.within(patch, limits)
    }

    // Whether a text more is within the limits.
    fn within(&self, patch: &Checked, limits: &LogLimits) -> TakeAnswer
        requires small { self.now.bytes < 2 ^ 63 }
        ensures { result
            ≡ within_limits self.now.ids.items self.now.bytes (bare patch.now) limits.now }
    {
        let size = patch.text().len() as u64;
        let count = self.ids.len();
        if count >= limits.patches {
            return TakeAnswer::Full {
                what: FullKind::Patches,
                have: u64::from(count),
                limit: u64::from(limits.patches),
            };
        }
        let have = EMPTY_JOURNAL
            + PAYLOAD_FRAME * u64::from(count)
            + self.bytes
            + (PAYLOAD_FRAME + size);
        if have > limits.bytes {
            return TakeAnswer::Full {
                what: FullKind::Bytes,
                have,
                limit: limits.bytes,
            };
        }
        TakeAnswer::Applied { version: count + 1 }
    }

    /// Takes all the memory that taking the patch needs, and stages what it makes of the dataset.
    pub fn prepare(&mut self, alloc: Global, patch: &Checked) -> Result<Block, DataFault>
        requires { self.old.contents.staged ≡ None }
        ensures block { IfOk result (λ block. payload_of block ≡ patch.now.text) }
        ensures checked { IsPatch patch.now.text patch.now.meaning }
        ensures ready { OnOk result (1 ≤ self.new.ids.spare) }
        ensures staged { OnOk result (self.new.contents.staged
            ≡ Some (apply patch.now.meaning.changes self.old.contents.contents)) }
        ensures unstaged { OnErr result (self.new.contents.staged ≡ None) }
        ensures ids { self.new.ids.items ≡ self.old.ids.items }
        ensures bytes { self.new.bytes ≡ self.old.bytes }
        ensures contents { self.new.contents.contents ≡ self.old.contents.contents }
        ensures full { IsErrOf result DataFault.TermsFull
            → AreMore most patch.now.meaning.changes self.old.contents.terms }
        ensures met { AreMet patch.now.meaning.changes self.old.contents.terms
            self.new.contents.terms }
    {
        let text = patch.text();
        self.ids.reserve()?;
        let block = make_block(alloc, text.as_slice())?;
        self.contents.stage(patch.changes())?;
        Ok(block)
    }

    /// Gives up what is staged. Takes no memory.
    pub fn drop_staged(&mut self)
        requires { IsSome self.old.contents.staged }
        ensures ids { self.new.ids ≡ self.old.ids }
        ensures bytes { self.new.bytes ≡ self.old.bytes }
        ensures contents { self.new.contents.contents ≡ self.old.contents.contents }
        ensures staged { self.new.contents.staged ≡ None }
        ensures terms { self.new.contents.terms ≡ self.old.contents.terms }
    {
        self.contents.drop_staged();
    }

    /// Makes what is staged the contents, and counts its patch in a place that is ready.
    /// Takes no memory.
    pub fn commit_staged(&mut self, id: Id, size: u64)
        requires staged { IsSome self.old.contents.staged }
        requires ready { 1 ≤ self.old.ids.spare }
        requires new { version_among self.old.ids.items id ≡ None }
        requires few { length self.old.ids.items + 1 < 2 ^ 32 }
        requires small { self.old.bytes + size < 2 ^ 64 }
        ensures ids { self.new.ids.items ≡ self.old.ids.items ++ id ∷ [] }
        ensures bytes { self.new.bytes ≡ self.old.bytes + size }
        ensures contents { Some self.new.contents.contents ≡ self.old.contents.staged }
        ensures staged { self.new.contents.staged ≡ None }
        ensures terms { self.new.contents.terms ≡ self.old.contents.terms }
    {
        self.contents.commit_staged();
        self.count(id, size);
    }

    /// Counts a patch that was applied, in a place that is ready. The number of bytes stops at the
    /// last one of 64 bits. Takes no memory.
    pub fn count(&mut self, id: Id, size: u64)
        requires ready { 1 ≤ self.old.ids.spare }
        requires new { version_among self.old.ids.items id ≡ None }
        requires few { length self.old.ids.items + 1 < 2 ^ 32 }
        ensures ids { self.new.ids.items ≡ self.old.ids.items ++ id ∷ [] }
        ensures bytes { self.new.bytes ≡ min (self.old.bytes + size) (2 ^ 64 - 1) }
        ensures contents { self.new.contents ≡ self.old.contents }
    {
        self.ids.push(id);
        self.bytes = self.bytes.saturating_add(size);
    }

    /// How long a journal of the patches is, or the last number of 64 bits where that is less.
    pub fn journal_length(&self) -> u64
        ensures { result ≡ min (file_length self.now.ids.items self.now.bytes) (2 ^ 64 - 1) }
    {
        let count = u64::from(self.ids.len());
        (EMPTY_JOURNAL + PAYLOAD_FRAME * count).saturating_add(self.bytes)
    }
}
