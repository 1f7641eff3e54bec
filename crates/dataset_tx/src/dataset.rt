//! The dataset as its callers see it.
ghost use Rattle.std.specs.Prelude.{◌≡◌, ◌+◌, ◌≤◌, [], Some, None, length};
ghost use Rattle.std.specs.Prelude.{map, option_copied, IfOk, OnOk, OnErr, IsErrOf, IsSome};
ghost use Rattle.std.specs.List.{filter};
ghost use Rattle.std.specs.List.Sorted.{IsPermutation, IsSorted};
ghost use Rattle.net_changes.specs.Keys.{has_quad, iri_of};
ghost use Rattle.net_changes.specs.Values.{IsDatasetValue};
ghost use Rattle.rdf_terms.specs.Dataset.{apply as applied, empty};
ghost use Rattle.rdf_terms.specs.Line.{line};
ghost use Rattle.term_table.specs.Table.{most};
ghost use Rattle.dataset_tx.specs.declared.dataset.DataFault.TheVariants as fault;
ghost use Rattle.dataset_tx.specs.Held.{AreMet, AreMore};
ghost use Rattle.dataset_tx.specs.Pattern.{matches};
ghost use Rattle.dataset_tx.specs.Prefixes.{has_prefix, prefix_change};
ghost use Rattle.dataset_tx.specs.Rows.{change_cmp, rows_in_order};

use crate::pattern::Pattern;
use crate::store::Store;
use delta_base::{OutOfMemory, Text};
use line_log::MadeLines;
use quad_index::Steps;
use quad_keys::{in_line_order, lines};
use rdf_terms::{Changes, Iri, Quad, Quads, Term};
use std::alloc::Global;
use std::marker::Model;
use std::sync::ledger::Ledger;

/// Why changes can't be made.
#[derive(Clone, Copy, Debug, PartialEq, Eq)]
pub enum DataFault {
    /// There is no number for one more term.
    TermsFull,
    OutOfMemory,
}

impl From<OutOfMemory> for DataFault {
    ghost from_gives = { λ _ e. e ≡ fault.OutOfMemory };

    fn from(_error: OutOfMemory) -> DataFault {
        DataFault::OutOfMemory
    }
}

/// A dataset, and what is staged beside it.
#[derive(Drop)]
pub struct Dataset {
    alloc: Global,
    store: Store,
    is_staged: bool,
}

impl Model for Dataset {
    ghost use Rattle.dataset_tx.specs.Held.{Held};
    ghost use Rattle.dataset_tx.specs.Stores.{held, IsStoreAfter};

    ghost Value = { Held };

    ghost view = { λ d. held d.store d.is_staged };

    ghost invariant = { λ d. IsStoreAfter d.store d.is_staged };
}

impl Dataset {
    /// The empty dataset.
    pub fn new(alloc: Global) -> Dataset
        ensures { result ≡ record { contents = empty; staged = None; terms = [] } }
    {
        Dataset {
            alloc,
            store: Store::new(alloc),
            is_staged: false,
        }
    }

    /// Makes changes at once. Those of a block that an Abort ends change nothing.
    pub fn apply(&mut self, changes: &Changes) -> Result<(), DataFault>
        requires { self.old.staged ≡ None }
        ensures ok { OnOk result (self.new.contents ≡ applied changes.now.items self.old.contents) }
        ensures err { OnErr result (self.new.contents ≡ self.old.contents) }
        ensures staged { self.new.staged ≡ None }
        ensures met { AreMet changes.now.items self.old.terms self.new.terms }
        ensures full { IsErrOf result DataFault.TermsFull
            → AreMore most changes.now.items self.old.terms }
    {
        self.stage(changes)?;
        self.commit_staged();
        Ok(())
    }

    /// Keeps beside the contents what changes make of them.
    pub fn stage(&mut self, changes: &Changes) -> Result<(), DataFault>
        requires { self.old.staged ≡ None }
        ensures contents { self.new.contents ≡ self.old.contents }
        ensures ok { OnOk result
            (self.new.staged ≡ Some (applied changes.now.items self.old.contents)) }
        ensures err { OnErr result (self.new.staged ≡ None) }
        ensures met { AreMet changes.now.items self.old.terms self.new.terms }
        ensures full { IsErrOf result DataFault.TermsFull
            → AreMore most changes.now.items self.old.terms }
    {
        match self.store.stage_kept(changes.as_slice()) {
            Ok(()) => {
                self.is_staged = true;
                Ok(())
            }
            Err(fault) => {
                self.store.give_up();
                Err(fault)
            }
        }
    }

    /// Makes what is staged the contents. Takes no memory.
    pub fn commit_staged(&mut self)
        requires { IsSome self.old.staged }
        ensures contents { Some self.new.contents ≡ self.old.staged }
        ensures staged { self.new.staged ≡ None }
        ensures terms { self.new.terms ≡ self.old.terms }
    {
        self.store.commit();
        self.is_staged = false;
    }

    /// Gives up what is staged. Takes no memory.
    pub fn drop_staged(&mut self)
        requires { IsSome self.old.staged }
        ensures contents { self.new.contents ≡ self.old.contents }
        ensures staged { self.new.staged ≡ None }
        ensures terms { self.new.terms ≡ self.old.terms }
    {
        self.store.give_up();
        self.is_staged = false;
    }

    /// Each quad and each prefix of the contents is one that a row can have, and they rise. It only
    /// says so.
    pub fn contents_are_values(&self)
        ensures { IsDatasetValue self.now.contents }
    {
        self.store.contents_are_values();
    }

    /// Whether a quad is there. Takes no memory.
    pub fn contains(&self, quad: &Quad) -> bool
        requires { self.now.staged ≡ None }
        ensures { result ≡ has_quad self.now.contents quad.now }
    {
        self.store.contains(quad)
    }

    /// The IRI that a prefix has in a graph or in the default graph.
    pub fn iri_of(&self, prefix: &Text, graph: &Option<Term>) -> Result<Option<&Iri>, OutOfMemory>
        requires { self.now.staged ≡ None }
        ensures { IfOk result (λ iri.
            option_copied iri ≡ iri_of self.now.contents (graph.now, prefix.now)) }
    {
        self.store.prefixes.iri_of(prefix, graph)
    }

    /// The quads, in the order of their lines.
    pub fn quads(&self) -> Result<Quads, OutOfMemory>
        requires { self.now.staged ≡ None }
        ensures { IfOk result (λ quads. quads.items ≡ self.now.contents.quads) }
    {
        in_line_order(
            self.alloc,
            &self.store.terms,
            self.store.quads.index().all()?,
        )
    }

    /// The lines of the quads, in the order of their bytes. No quad is copied.
    pub fn lines(&self) -> Result<MadeLines, OutOfMemory>
        requires { self.now.staged ≡ None }
        ensures { IfOk result (λ lines. lines ≡ map line self.now.contents.quads) }
    {
        lines(
            self.alloc,
            &self.store.terms,
            self.store.quads.index().all()?,
        )
    }

    /// Whether a prefix of a graph is set.
    pub fn has_prefix(&self, prefix: &Text, graph: &Option<Term>) -> Result<bool, OutOfMemory>
        ensures { IfOk result
            (λ has. has ≡ has_prefix self.now.contents.prefixes (graph.now, prefix.now)) }
    {
        self.store.prefixes.has(prefix, graph)
    }

    /// The changes that set the prefixes, in the order of their rows.
    pub fn prefixes(&self) -> Result<Changes, OutOfMemory>
        requires { self.now.staged ≡ None }
        ensures each { IfOk result (λ changes.
            IsPermutation (map prefix_change self.now.contents.prefixes) changes.items) }
        ensures in_order { IfOk result (λ changes. IsSorted change_cmp changes.items) }
    {
        self.store.prefixes.changes()
    }

    /// The rows of these changes, in the order of their bytes.
    pub fn prefix_rows(&self) -> Result<MadeLines, OutOfMemory>
        requires { self.now.staged ≡ None }
        ensures { IfOk result
            (λ rows. rows ≡ rows_in_order (map prefix_change self.now.contents.prefixes)) }
    {
        self.store.prefixes.change_rows()
    }

    /// The quads that match, in the order of their lines. A step is a key looked at. All stays as
    /// it was, an `Err` or not.
    pub fn matching<L: Ledger>(
        &mut self,
        pattern: &Pattern,
        steps: &mut Steps<L>,
    ) -> Result<Quads, OutOfMemory>
        requires { self.old.staged ≡ None }
        ensures found { IfOk result
            (λ quads. quads.items ≡ filter (matches pattern.now) self.old.contents.quads) }
        ensures cost { IfOk result (λ quads. steps.new ≤ steps.old + length quads.items + 1) }
        ensures counted { IfOk result (λ quads. steps.old + length quads.items ≤ steps.new) }
        ensures same { self.new ≡ self.old }
    {
        self.store.matching(self.alloc, pattern, steps)
    }

    /// The lines of the quads that match, in the order of their bytes, where no quad is copied. A
    /// step is a key looked at. All stays as it was, an `Err` or not.
    pub fn matching_lines<L: Ledger>(
        &mut self,
        pattern: &Pattern,
        steps: &mut Steps<L>,
    ) -> Result<MadeLines, OutOfMemory>
        requires { self.old.staged ≡ None }
        ensures found { IfOk result
            (λ lines. lines ≡ map line (filter (matches pattern.now) self.old.contents.quads)) }
        ensures cost { IfOk result (λ lines. steps.new ≤ steps.old + length lines + 1) }
        ensures counted { IfOk result (λ lines. steps.old + length lines ≤ steps.new) }
        ensures same { self.new ≡ self.old }
    {
        self.store.matching_lines(self.alloc, pattern, steps)
    }
}
