//! What a dataset keeps: its terms, their quads and its prefixes, with what is staged beside them.
ghost use Rattle.std.specs.Prelude.{◌≡◌, ◌+◌, ◌≤◌, [], length, map, IfOk, OnOk, IsErrOf};
ghost use Rattle.std.specs.List.{filter};
ghost use Rattle.net_changes.specs.Keys.{has_quad};
ghost use Rattle.net_changes.specs.Values.{IsDatasetValue};
ghost use Rattle.rdf_terms.specs.Dataset.{effect, effects, empty, kept};
ghost use Rattle.rdf_terms.specs.declared.change.Change.TheVariants.{Add, Delete};
ghost use Rattle.rdf_terms.specs.Line.{line};
ghost use Rattle.term_table.specs.Table.{most};
ghost use Rattle.quad_keys.specs.Keys.{quads_of, AreKnown};
ghost use Rattle.dataset_tx.specs.Held.{AreMet, AreMore, terms_of};
ghost use Rattle.dataset_tx.specs.Numbering.{Grows, AreMoreThan};
ghost use Rattle.dataset_tx.specs.Modes.{effect_in};
ghost use Rattle.dataset_tx.specs.Pattern.{matches};

use crate::blocks::{Mode, mode_behind};
use crate::dataset::DataFault;
use crate::keys::StagedKeys;
use crate::numbering::{find_quad, number_quad};
use crate::pattern::{Pattern, key_pattern};
use crate::prefixes::PrefixMap;
use delta_base::{Listing, OutOfMemory};
use line_log::MadeLines;
use nquads_documents::quad_is_value;
use quad_index::{Keys, Steps};
use quad_keys::{in_line_order, lines};
use rdf_terms::{Change, Quad, Quads};
use std::alloc::Global;
use std::sync::ledger::Ledger;
use term_table::TermTable;

/// The numbered terms, the keys of the quads, and the prefixes.
#[derive(Drop)]
pub struct Store {
    pub terms: TermTable,
    pub quads: StagedKeys,
    pub prefixes: PrefixMap,
}

impl Store {
    ghost use Rattle.dataset_tx.specs.Stores.{contents_of, next_of, IsStore, IsSettled};

    pub fn new(alloc: Global) -> Store
        ensures store { IsStore result }
        ensures settled { IsSettled result }
        ensures contents { contents_of result ≡ empty }
        ensures terms { result.terms ≡ [] }
    {
        Store {
            terms: TermTable::new(alloc),
            quads: StagedKeys::new(alloc),
            prefixes: PrefixMap::new(alloc),
        }
    }

    fn stage_add(&mut self, quad: &Quad) -> Result<(), DataFault>
        requires { IsStore self.old }
        ensures store { IsStore self.new }
        ensures contents { contents_of self.new ≡ contents_of self.old }
        ensures ok { OnOk result (next_of self.new ≡ effect (Add quad.now) (next_of self.old)) }
        ensures grows { Grows (terms_of (Add quad.now)) self.old.terms self.new.terms }
        ensures full { IsErrOf result DataFault.TermsFull
            → AreMoreThan most (terms_of (Add quad.now)) self.new.terms }
    {
        quad_is_value(quad);
        let key = number_quad(&mut self.terms, quad)?;
        self.quads.add(key)?;
        Ok(())
    }

    fn stage_delete(&mut self, quad: &Quad) -> Result<(), DataFault>
        requires { IsStore self.old }
        ensures store { IsStore self.new }
        ensures contents { contents_of self.new ≡ contents_of self.old }
        ensures ok { OnOk result (next_of self.new ≡ effect (Delete quad.now) (next_of self.old)) }
        ensures terms { self.new.terms ≡ self.old.terms }
        ensures fault { IsErrOf result DataFault.TermsFull → ⊥ }
    {
        quad_is_value(quad);
        match find_quad(&self.terms, quad) {
            Some(key) => Ok(self.quads.delete(key)?),
            None => Ok(()),
        }
    }

    fn stage_effect(&mut self, change: &Change) -> Result<(), DataFault>
        requires { IsStore self.old }
        ensures store { IsStore self.new }
        ensures contents { contents_of self.new ≡ contents_of self.old }
        ensures ok { OnOk result (next_of self.new ≡ effect change.now (next_of self.old)) }
        ensures grows { Grows (terms_of change.now) self.old.terms self.new.terms }
        ensures full { IsErrOf result DataFault.TermsFull
            → AreMoreThan most (terms_of change.now) self.new.terms }
    {
        match change {
            Change::Add(quad) => self.stage_add(quad),
            Change::Delete(quad) => self.stage_delete(quad),
            Change::PrefixAdd { prefix, iri, graph } => Ok(self.prefixes.set(prefix, iri, graph)?),
            Change::PrefixDelete { prefix, graph } => Ok(self.prefixes.remove(prefix, graph)?),
            Change::Begin | Change::Commit | Change::Abort => Ok(()),
        }
    }

    fn stage_one(&mut self, mode: Mode, change: &Change) -> Result<(), DataFault>
        requires { IsStore self.old }
        ensures store { IsStore self.new }
        ensures contents { contents_of self.new ≡ contents_of self.old }
        ensures ok { OnOk result (next_of self.new ≡ effect_in mode change.now (next_of self.old)) }
        ensures grows { Grows (terms_of change.now) self.old.terms self.new.terms }
        ensures full { IsErrOf result DataFault.TermsFull
            → AreMoreThan most (terms_of change.now) self.new.terms }
    {
        match mode {
            Mode::Skipped => Ok(()),
            _ => self.stage_effect(change),
        }
    }

    /// Stages what the changes do that stand.
    pub fn stage_kept(&mut self, changes: &[Change]) -> Result<(), DataFault>
        requires { IsStore self.old }
        ensures store { IsStore self.new }
        ensures contents { contents_of self.new ≡ contents_of self.old }
        ensures ok { OnOk result
            (next_of self.new ≡ effects (kept changes.now) (next_of self.old)) }
        ensures met { AreMet changes.now self.old.terms self.new.terms }
        ensures full { IsErrOf result DataFault.TermsFull
            → AreMore most changes.now self.old.terms }
    {
        let mut mode = Mode::Outside;
        let mut rest = changes;
        'changes: while let Some((change, behind)) = rest.split_first() {
            rest = behind;
            mode = mode_behind(mode, change, behind);
            self.stage_one(mode, change)?;
        }
        Ok(())
    }

    /// Makes what is staged the contents. Takes no memory.
    pub fn commit(&mut self)
        requires { IsStore self.old }
        ensures store { IsStore self.new }
        ensures settled { IsSettled self.new }
        ensures contents { contents_of self.new ≡ next_of self.old }
        ensures terms { self.new.terms ≡ self.old.terms }
    {
        self.quads.commit();
        self.prefixes.commit();
    }

    /// Gives up what is staged. Takes no memory.
    pub fn give_up(&mut self)
        requires { IsStore self.old }
        ensures store { IsStore self.new }
        ensures settled { IsSettled self.new }
        ensures contents { contents_of self.new ≡ contents_of self.old }
        ensures terms { self.new.terms ≡ self.old.terms }
    {
        self.quads.give_up();
        self.prefixes.give_up();
    }

    /// Each quad and each prefix of the contents is one that a row can have, and they rise. It only
    /// says so.
    pub fn contents_are_values(&self)
        requires { IsStore self.now }
        ensures { IsDatasetValue (contents_of self.now) }
    {
        self.prefixes.are_values();
    }

    /// Whether a quad is there.
    pub fn contains(&self, quad: &Quad) -> bool
        requires store { IsStore self.now }
        requires settled { IsSettled self.now }
        ensures { result ≡ has_quad (contents_of self.now) quad.now }
    {
        quad_is_value(quad);
        match find_quad(&self.terms, quad) {
            Some(key) => self.quads.index().contains(&key),
            None => false,
        }
    }

    // The keys of the quads that match. A step is a key looked at.
    fn found<L: Ledger>(
        &mut self,
        alloc: Global,
        pattern: &Pattern,
        steps: &mut Steps<L>,
    ) -> Result<Keys, OutOfMemory>
        requires store { IsStore self.old }
        requires settled { IsSettled self.old }
        ensures known { IfOk result (λ found. AreKnown self.old.terms found.items) }
        ensures found { IfOk result (λ found. quads_of self.old.terms found.items
            ≡ filter (matches pattern.now) (contents_of self.old).quads) }
        ensures cost { OnOk result (steps.new
            ≤ steps.old + length (filter (matches pattern.now) (contents_of self.old).quads) + 1) }
        ensures counted { OnOk result (steps.old
            + length (filter (matches pattern.now) (contents_of self.old).quads) ≤ steps.new) }
        ensures same { self.new ≡ self.old }
    {
        let Some(pattern) = key_pattern(&self.terms, pattern) else {
            return Ok(Listing::new(alloc));
        };
        self.quads.matching(&pattern, steps)
    }

    /// The quads that match, in the order of their lines. A step is a key looked at.
    pub fn matching<L: Ledger>(
        &mut self,
        alloc: Global,
        pattern: &Pattern,
        steps: &mut Steps<L>,
    ) -> Result<Quads, OutOfMemory>
        requires store { IsStore self.old }
        requires settled { IsSettled self.old }
        ensures found { IfOk result
            (λ quads. quads.items ≡ filter (matches pattern.now) (contents_of self.old).quads) }
        ensures cost { IfOk result (λ quads. steps.new ≤ steps.old + length quads.items + 1) }
        ensures counted { IfOk result (λ quads. steps.old + length quads.items ≤ steps.new) }
        ensures same { self.new ≡ self.old }
    {
        let found = self.found(alloc, pattern, steps)?;
        in_line_order(alloc, &self.terms, found)
    }

    /// The lines of the quads that match, in the order of their bytes. A step is a key looked at.
    pub fn matching_lines<L: Ledger>(
        &mut self,
        alloc: Global,
        pattern: &Pattern,
        steps: &mut Steps<L>,
    ) -> Result<MadeLines, OutOfMemory>
        requires store { IsStore self.old }
        requires settled { IsSettled self.old }
        ensures found { IfOk result (λ lines. lines
            ≡ map line (filter (matches pattern.now) (contents_of self.old).quads)) }
        ensures cost { IfOk result (λ lines. steps.new ≤ steps.old + length lines + 1) }
        ensures counted { IfOk result (λ lines. steps.old + length lines ≤ steps.new) }
        ensures same { self.new ≡ self.old }
    {
        let found = self.found(alloc, pattern, steps)?;
        lines(alloc, &self.terms, found)
    }
}
