//! The net changes of patches, gathered from the last change on.
ghost use Rattle.std.specs.Prelude.{◌≡◌, ◌++◌, ◌∷◌, [], List, None, IfOk, IfErr, OnOk};
ghost use Rattle.std.specs.Prelude.{map};
ghost use Rattle.std.specs.BTreeSet.{insert_key};
ghost use Rattle.std.specs.Cmp.Lexicographic.{slice_cmp};
ghost use Rattle.std.specs.Ordering.{nat_cmp};
ghost use Rattle.patch_algebra.specs.Gathered.{AreGathered, ArePlaced, HasGathered};
ghost use Rattle.patch_algebra.specs.Gathered.{net_turned, skips_from, stands_from, turned};
ghost use Rattle.patch_algebra.specs.Nets.{ranked_row};
ghost use Rattle.patch_algebra.specs.Patches.{RefusesWritten};
ghost use Rattle.patch_algebra.specs.Written.{patch_in_block};
ghost use Rattle.patch_meaning.specs.Patch.{AreOutside, Meaning};
ghost use Rattle.patch_rows.specs.Printing.{IsWellPlaced};
ghost use Rattle.patch_rows.specs.declared.row.Row.TheVariants as row;
ghost use Rattle.printed_rows.specs.Printed.{IsPrintedRow};
ghost use Rattle.rdf_terms.specs.Dataset.{Dataset as Datasets, kept};
ghost use Rattle.rdf_terms.specs.declared.change.Change.{Change as Changed};

use crate::fault::NetFault;
use crate::rows::{alters, key_bytes, ranked_row, undone};
use crate::writing::write_patch;
use dataset_tx::Dataset;
use delta_base::{Id, OutOfMemory};
use patch_meaning::Checked;
use rdf_terms::Change;
use std::alloc::Global;
use std::collections::BTreeSet;

/// Which changes are gathered.
#[derive(Clone, Copy, PartialEq, Eq)]
pub enum Direction {
    /// The net changes.
    Forth,
    /// Those that undo them.
    Back,
}

/// What changes are about that were met, and the rows of those that are gathered, each behind the
/// byte of its kind.
#[derive(Drop)]
pub struct Gathering {
    alloc: Global,
    direction: Direction,
    met: BTreeSet<Vec<u8>>,
    rows: BTreeSet<Vec<u8>>,
}

// Whether changes are skipped in front of this one, met from behind: a block that an Abort ends
// is, from its end to its Begin.
fn skips_before(skips: bool, change: &Change) -> bool
    ensures { result ≡ skips_from skips change.now }
{
    match change {
        Change::Abort => true,
        Change::Begin | Change::Commit => false,
        Change::Add(_) | Change::Delete(_) => skips,
        Change::PrefixAdd { .. } | Change::PrefixDelete { .. } => skips,
    }
}

// Whether a change stands: it isn't skipped, and is no word of a block.
fn stands(skips: bool, change: &Change) -> bool
    ensures { result ≡ stands_from skips change.now }
{
    match change {
        Change::Abort | Change::Begin | Change::Commit => false,
        Change::Add(_) | Change::Delete(_) => !skips,
        Change::PrefixAdd { .. } | Change::PrefixDelete { .. } => !skips,
    }
}

impl Gathering {
    pub fn new(alloc: Global, direction: Direction) -> Gathering
        ensures { (d : Datasets) → HasGathered direction d [] result }
    {
        Gathering {
            alloc,
            direction,
            met: BTreeSet::new(alloc),
            rows: BTreeSet::new(alloc),
        }
    }

    /// Gathers one patch more, which stands in front of those that were gathered.
    pub fn take(&mut self, base: &Dataset, patch: &Checked) -> Result<(), OutOfMemory>
        requires { base.now.staged ≡ None }
        ensures { OnOk result ((direction : Direction) (behind : List Meaning)
            → HasGathered direction base.now.contents behind self.old
            → HasGathered direction base.now.contents (patch.now.meaning ∷ behind) self.new) }
    {
        patch.text();
        self.take_changes(base, patch.changes().as_slice())
    }

    /// The patch of these ids that has what was gathered in one block.
    pub fn patch(&self, alloc: Global, id: Id, prev: Option<Id>) -> Result<Checked, NetFault>
        ensures patch { IfOk result (λ patch. (direction : Direction) (d : Datasets)
            (ms : List Meaning) → HasGathered direction d ms self.now
            → patch ≡ patch_in_block id prev (net_turned direction d ms)) }
        ensures fault { IfErr result (λ fault. (direction : Direction) (d : Datasets)
            (ms : List Meaning) → HasGathered direction d ms self.now
            → RefusesWritten (patch_in_block id prev (net_turned direction d ms)) fault) }
    {
        write_patch(alloc, id, prev, &self.rows)
    }

    // Gathers the changes of a patch that stand, from the last one to the first.
    fn take_changes(&mut self, base: &Dataset, changes: &[Change]) -> Result<(), OutOfMemory>
        requires { base.now.staged ≡ None }
        ensures ok { OnOk result ((behind : List Changed) → AreOutside changes.now
            → ArePlaced (kept changes.now)
            → AreGathered base.now.contents behind self.old
            → AreGathered base.now.contents (kept changes.now ++ behind) self.new) }
        ensures direction { self.new.direction ≡ self.old.direction }
    {
        let mut skips = false;
        let mut rest = changes;
        while let Some((change, before)) = rest.split_last() {
            rest = before;
            skips = skips_before(skips, change);
            if stands(skips, change) {
                self.take_change(base, change)?;
            }
        }
        Ok(())
    }

    // Gathers a change, unless a later one is about the same or it changes nothing.
    fn take_change(&mut self, base: &Dataset, change: &Change) -> Result<(), OutOfMemory>
        requires { base.now.staged ≡ None }
        ensures ok { OnOk result ((behind : List Changed) → IsWellPlaced change.now
            → AreGathered base.now.contents behind self.old
            → AreGathered base.now.contents (change.now ∷ behind) self.new) }
        ensures direction { self.new.direction ≡ self.old.direction }
    {
        let key = key_bytes(self.alloc, change)?;
        if !self.met.insert(key)? {
            return Ok(());
        }
        if !alters(base, change)? {
            return Ok(());
        }
        self.put(base, change)
    }

    // The change itself, or what undoes it.
    fn turn(&self, base: &Dataset, change: &Change) -> Result<Change, OutOfMemory>
        requires { base.now.staged ≡ None }
        ensures { IfOk result (λ other.
            other ≡ turned self.now.direction base.now.contents change.now) }
    {
        match self.direction {
            Direction::Forth => change.copy(),
            Direction::Back => undone(base, change),
        }
    }

    // Puts the row of a change among the others.
    fn put(&mut self, base: &Dataset, change: &Change) -> Result<(), OutOfMemory>
        requires { base.now.staged ≡ None }
        ensures met { self.new.met ≡ self.old.met }
        ensures direction { self.new.direction ≡ self.old.direction }
        ensures rows { OnOk result (map (λ bytes. bytes.items) self.new.rows.keys
            ≡ insert_key (slice_cmp nat_cmp) (map (λ bytes. bytes.items) self.old.rows.keys)
            (ranked_row (turned self.old.direction base.now.contents change.now))) }
        ensures printed { OnOk result (IsWellPlaced
            (turned self.old.direction base.now.contents change.now)
            → IsPrintedRow (row.Change (turned self.old.direction base.now.contents change.now))) }
    {
        let other = self.turn(base, change)?;
        let row = ranked_row(self.alloc, other)?;
        self.rows.insert(row)?;
        Ok(())
    }
}
