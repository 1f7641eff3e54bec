//! The prefixes of a dataset.
ghost use Rattle.std.specs.Prelude.{◌≡◌, ◌++◌, [], List, true, false, map};
ghost use Rattle.std.specs.Prelude.{IfOk, OnOk, OnErr, None, option_copied};
ghost use Rattle.std.specs.Option.{is_some, unwrap_or};
ghost use Rattle.std.specs.BTreeMap.{is_at, insert_entry};
ghost use Rattle.std.specs.Map.{keys_of, lookup, remove_entry};
ghost use Rattle.std.specs.Cmp.Lexicographic.{slice_cmp};
ghost use Rattle.std.specs.List.{All, AllByRecursion};
ghost use Rattle.std.specs.List.Sorted.{IsPermutation, IsSorted, IsStrictlySortedBy};
ghost use Rattle.std.specs.Ordering.{nat_cmp};
ghost use Rattle.net_changes.specs.Values.{IsPrefixValue};
ghost use Rattle.rdf_terms.specs.Dataset.{prefix_cmp};
ghost use Rattle.dataset_tx.specs.Prefixes.{PrefixRow, RowBytes, prefix_change, row_bytes};
ghost use Rattle.dataset_tx.specs.Prefixes.{has_prefix};
ghost use Rattle.dataset_tx.specs.Prefixes.{row_cmp, has_row, at_bytes, AreRows};
ghost use Rattle.dataset_tx.specs.Prefixes.{AreStagedRows, iri_in, setting, with_entry, settings};
ghost use Rattle.dataset_tx.specs.Prefixes.{next_settings, standing, set_to, settled};
ghost use Rattle.dataset_tx.specs.Rows.{change_cmp, rows_added, rows_in_order, HasItsRow};

use delta_base::{Listing, OutOfMemory, Text};
use line_log::{LineLog, MadeLines};
use nquads_text::{push_graph, push_quoted};
use patch_rows::{Row, print_row};
use rdf_terms::{Change, Changes, Iri, Term, copy_graph};
use std::alloc::Global;
use std::cmp::Ordering;
use std::collections::BTreeMap;
use std::marker::Model;

/// What stands under a prefix.
#[derive(Drop)]
pub struct PrefixEntry {
    pub prefix: Text,
    pub iri: Iri,
    pub graph: Option<Term>,
}

// What stands at the bytes of a row: the prefix in its quotes, then the graph.
type Rows = BTreeMap<Vec<u8>, Option<PrefixEntry>>;

/// The prefixes, and what is staged beside them.
#[derive(Drop)]
pub struct PrefixMap {
    alloc: Global,
    /// Nothing stands at a row that is there for what is staged.
    rows: Rows,
    /// What rows become.
    staged: Rows,
}

impl Model for PrefixMap {
    ghost use Rattle.dataset_tx.specs.Prefixes.{StagedPrefixes, AreStagedRows};
    ghost use Rattle.dataset_tx.specs.Prefixes.{settings, next_settings};

    ghost Value = { StagedPrefixes };

    ghost view = { λ p. record {
      contents = settings p.rows.entries;
      next = next_settings p.staged.entries p.rows.entries;
    } };

    ghost invariant = { λ p. AreStagedRows p.rows.entries p.staged.entries };
}

impl PrefixMap {
    pub fn new(alloc: Global) -> PrefixMap
        ensures contents { result.contents ≡ [] }
        ensures next { result.next ≡ [] }
    {
        PrefixMap {
            alloc,
            rows: BTreeMap::new(alloc),
            staged: BTreeMap::new(alloc),
        }
    }

    /// Stages a prefix of a graph to be set.
    pub fn set(&mut self, prefix: &Text, iri: &Iri, graph: &Option<Term>) -> Result<(), OutOfMemory>
        ensures contents { self.new.contents ≡ self.old.contents }
        ensures ok { OnOk result (self.new.next
            ≡ insert_entry prefix_cmp self.old.next (graph.now, prefix.now) iri.now) }
        ensures err { OnErr result (self.new.next ≡ self.old.next) }
    {
        let row = row_of(self.alloc, prefix, graph)?;
        set_row(&mut self.rows, &mut self.staged, row, prefix, iri, graph)
    }

    /// Stages a prefix of a graph to be gone.
    pub fn remove(&mut self, prefix: &Text, graph: &Option<Term>) -> Result<(), OutOfMemory>
        ensures contents { self.new.contents ≡ self.old.contents }
        ensures ok { OnOk result (self.new.next
            ≡ remove_entry (is_at (prefix_cmp (graph.now, prefix.now))) self.old.next) }
        ensures err { OnErr result (self.new.next ≡ self.old.next) }
    {
        let row = row_of(self.alloc, prefix, graph)?;
        remove_row(&self.rows, &mut self.staged, row, prefix, graph)
    }

    /// Makes what is staged the contents. Takes no memory.
    pub fn commit(&mut self)
        ensures contents { self.new.contents ≡ self.old.next }
        ensures next { self.new.next ≡ self.old.next }
    {
        settle_all(&mut self.rows, &mut self.staged);
    }

    /// Gives up what is staged. Takes no memory.
    pub fn give_up(&mut self)
        ensures contents { self.new.contents ≡ self.old.contents }
        ensures next { self.new.next ≡ self.old.contents }
    {
        give_back_all(&mut self.rows, &mut self.staged);
    }

    /// Whether a prefix of a graph is set.
    pub fn has(&self, prefix: &Text, graph: &Option<Term>) -> Result<bool, OutOfMemory>
        ensures { IfOk result
            (λ has. has ≡ has_prefix self.now.contents (graph.now, prefix.now)) }
    {
        let row = row_of(self.alloc, prefix, graph)?;
        Ok(is_taken(&self.rows, row.as_slice()))
    }

    /// The IRI that a prefix of a graph has.
    pub fn iri_of(&self, prefix: &Text, graph: &Option<Term>) -> Result<Option<&Iri>, OutOfMemory>
        ensures { IfOk result (λ iri. option_copied iri
            ≡ lookup (is_at (prefix_cmp (graph.now, prefix.now))) self.now.contents) }
    {
        let row = row_of(self.alloc, prefix, graph)?;
        Ok(iri_at(&self.rows, row.as_slice()))
    }

    /// Each prefix of the contents is one that a row can have, and they rise. It only says so.
    pub fn are_values(&self)
        ensures each { AllByRecursion IsPrefixValue (keys_of self.now.contents) }
        ensures rise { IsStrictlySortedBy prefix_cmp (keys_of self.now.contents) }
    {
        let _rows = &self.rows;
    }

    // The changes that set the contents, each with its row.
    fn rows(&self) -> Result<Vec<(Text, Change)>, OutOfMemory>
        ensures changes { IfOk result (λ rows.
            map (λ row. row.1) rows.items ≡ map prefix_change self.now.contents) }
        ensures rows { IfOk result (λ rows. All HasItsRow rows.items) }
    {
        let mut rows = Vec::new(self.alloc);
        for entry in self.rows.values() {
            push_row(self.alloc, &mut rows, entry)?;
        }
        Ok(rows)
    }

    /// The changes that set the contents, in the order of their rows.
    pub fn changes(&self) -> Result<Changes, OutOfMemory>
        ensures each { IfOk result
            (λ changes. IsPermutation (map prefix_change self.now.contents) changes.items) }
        ensures in_order { IfOk result (λ changes. IsSorted change_cmp changes.items) }
    {
        let mut rows = self.rows()?;
        rows.sort_unstable_by(by_row);
        Ok(Listing::from_vec(changes_of(self.alloc, rows)?))
    }

    /// The rows of these changes, in the order of their bytes.
    pub fn change_rows(&self) -> Result<MadeLines, OutOfMemory>
        ensures { IfOk result
            (λ rows. rows ≡ rows_in_order (map prefix_change self.now.contents)) }
    {
        let mut log = LineLog::new(self.alloc);
        for entry in self.rows.values() {
            log_row(self.alloc, &mut log, entry)?;
        }
        log.into_lines()
    }
}

// Compares rows by their bytes.
fn by_row(a: &(Text, Change), b: &(Text, Change)) -> Ordering
    ensures { result ≡ slice_cmp nat_cmp a.now.0 b.now.0 }
{
    a.0.cmp(&b.0)
}

// The changes of rows, as they stand.
fn changes_of(alloc: Global, rows: Vec<(Text, Change)>) -> Result<Vec<Change>, OutOfMemory>
    ensures { IfOk result (λ changes. changes.items ≡ map (λ row. row.1) rows.items) }
{
    Ok(rows.into_iter().map(|(_, change)| change).collect(alloc)?)
}

// The IRI that stands at a row.
fn iri_at<'a>(rows: &'a Rows, row: &[u8]) -> Option<&'a Iri>
    ensures { option_copied result ≡ iri_in (at_bytes row.now rows.now.entries) }
{
    match rows.get(row) {
        Some(entry) => match entry {
            Some(entry) => Some(&entry.iri),
            None => None,
        },
        None => None,
    }
}

// The bytes of a prefix and its graph, as a row writes them.
fn row_of(alloc: Global, prefix: &Text, graph: &Option<Term>) -> Result<Vec<u8>, OutOfMemory>
    ensures bytes { IfOk result (λ row. row.items ≡ row_bytes (graph.now, prefix.now)) }
    ensures value { OnOk result (IsPrefixValue (graph.now, prefix.now)) }
{
    let mut row = Vec::new(alloc);
    push_quoted(&mut row, prefix.as_bytes())?;
    push_graph(&mut row, graph)?;
    Ok(row)
}

// Whether something stands at a row.
fn is_taken(rows: &Rows, row: &[u8]) -> bool
    ensures { result ≡ is_some (unwrap_or (at_bytes row.now rows.now.entries) None) }
{
    match rows.get(row) {
        Some(Some(_)) => true,
        _ => false,
    }
}

fn set_row(
    rows: &mut Rows,
    staged: &mut Rows,
    row: Vec<u8>,
    prefix: &Text,
    iri: &Iri,
    graph: &Option<Term>,
) -> Result<(), OutOfMemory>
    requires rows { AreStagedRows rows.old.entries staged.old.entries }
    requires row { row.items ≡ row_bytes (graph.now, prefix.now) }
    requires value { IsPrefixValue (graph.now, prefix.now) }
    ensures rows { AreStagedRows rows.new.entries staged.new.entries }
    ensures contents { settings rows.new.entries ≡ settings rows.old.entries }
    ensures ok { OnOk result
        (next_settings staged.new.entries rows.new.entries
        ≡ insert_entry prefix_cmp (next_settings staged.old.entries rows.old.entries)
        (graph.now, prefix.now) iri.now) }
    ensures err { OnErr result
        (next_settings staged.new.entries rows.new.entries
        ≡ next_settings staged.old.entries rows.old.entries) }
{
    make_place(rows, &row)?;
    let entry = next_entry(rows, staged, row.as_slice(), prefix, iri, graph)?;
    drop(staged.insert(row, Some(entry))?);
    Ok(())
}

fn remove_row(
    rows: &Rows,
    staged: &mut Rows,
    row: Vec<u8>,
    prefix: &Text,
    graph: &Option<Term>,
) -> Result<(), OutOfMemory>
    requires rows { AreStagedRows rows.now.entries staged.old.entries }
    requires row { row.items ≡ row_bytes (graph.now, prefix.now) }
    ensures rows { AreStagedRows rows.now.entries staged.new.entries }
    ensures ok { OnOk result
        (next_settings staged.new.entries rows.now.entries
        ≡ remove_entry (is_at (prefix_cmp (graph.now, prefix.now)))
        (next_settings staged.old.entries rows.now.entries)) }
    ensures err { OnErr result
        (next_settings staged.new.entries rows.now.entries
        ≡ next_settings staged.old.entries rows.now.entries) }
{
    if rows.contains_key(row.as_slice()) {
        drop(staged.insert(row, None)?);
    }
    Ok(())
}

fn copy_row(row: &Vec<u8>) -> Result<Vec<u8>, OutOfMemory>
    ensures { IfOk result (λ copy. copy.items ≡ row.now.items) }
{
    Ok(row.clone()?)
}

// Has a row among them, at which nothing stands if it is new.
fn make_place(rows: &mut Rows, row: &Vec<u8>) -> Result<(), OutOfMemory>
    ensures rows { (staged : List PrefixRow) → AreStagedRows rows.old.entries staged
        → AreStagedRows rows.new.entries staged }
    ensures contents { settings rows.new.entries ≡ settings rows.old.entries }
    ensures next { (staged : List PrefixRow) → AreStagedRows rows.old.entries staged
        → next_settings staged rows.new.entries ≡ next_settings staged rows.old.entries }
    ensures ok { OnOk result (has_row rows.new.entries row.now.items ≡ true) }
{
    if !rows.contains_key(row.as_slice()) {
        let copy = copy_row(row)?;
        drop(rows.insert(copy, None)?);
    }
    Ok(())
}

// What is to stand at a row, where a prefix is set.
fn next_entry(
    rows: &Rows,
    staged: &Rows,
    row: &[u8],
    prefix: &Text,
    iri: &Iri,
    graph: &Option<Term>,
) -> Result<PrefixEntry, OutOfMemory>
    ensures { IfOk result (λ entry. entry
        ≡ set_to (graph.now, prefix.now) iri.now
        (standing staged.now.entries rows.now.entries row.now)) }
{
    match current(rows, staged, row) {
        Some(entry) => entry_of(&entry.prefix, iri, &entry.graph),
        None => entry_of(prefix, iri, graph),
    }
}

// What is to stand at a row.
fn current<'a>(rows: &'a Rows, staged: &'a Rows, row: &[u8]) -> Option<&'a PrefixEntry>
    ensures { option_copied result ≡ standing staged.now.entries rows.now.entries row.now }
{
    match staged.get(row) {
        Some(entry) => entry.as_ref(),
        None => match rows.get(row) {
            Some(entry) => entry.as_ref(),
            None => None,
        },
    }
}

fn entry_of(prefix: &Text, iri: &Iri, graph: &Option<Term>) -> Result<PrefixEntry, OutOfMemory>
    ensures { IfOk result
        (λ entry. entry ≡ record { prefix = prefix.now; iri = iri.now; graph = graph.now }) }
{
    Ok(PrefixEntry {
        prefix: prefix.copy()?,
        iri: iri.copy()?,
        graph: copy_graph(graph)?,
    })
}

// Puts what is staged at its rows.
fn settle_all(rows: &mut Rows, staged: &mut Rows)
    requires { AreStagedRows rows.old.entries staged.old.entries }
    ensures rows { AreStagedRows rows.new.entries staged.new.entries }
    ensures contents { settings rows.new.entries
        ≡ next_settings staged.old.entries rows.old.entries }
    ensures staged { staged.new.entries ≡ [] }
{
    while let Some((row, entry)) = staged.pop_first() {
        settle(rows, row, entry);
    }
}

// Puts at a row what is staged for it. The row is there, so this takes no memory.
fn settle(rows: &mut Rows, row: Vec<u8>, entry: Option<PrefixEntry>)
    requires { has_row rows.old.entries row.items ≡ true }
    ensures rows { rows.new.entries ≡ settled rows.old.entries row entry }
    ensures sorted { IsStrictlySortedBy row_cmp (keys_of rows.new.entries) }
    ensures others { (other : RowBytes) → is_at (row_cmp row) other ≡ false
        → at_bytes other.items rows.new.entries ≡ at_bytes other.items rows.old.entries }
{
    match entry {
        Some(entry) => match rows.insert(row, Some(entry)) {
            Ok(was) => drop(was),
            Err(refused) => drop(refused),
        },
        None => drop(rows.remove(row.as_slice())),
    }
}

// Takes out the rows that are there for what is staged alone.
fn give_back_all(rows: &mut Rows, staged: &mut Rows)
    requires { AreStagedRows rows.old.entries staged.old.entries }
    ensures rows { AreStagedRows rows.new.entries staged.new.entries }
    ensures contents { settings rows.new.entries ≡ settings rows.old.entries }
    ensures staged { staged.new.entries ≡ [] }
{
    while let Some((row, entry)) = staged.pop_first() {
        drop(entry);
        give_back(rows, row.as_slice());
    }
}

// Takes out a row where nothing stands.
fn give_back(rows: &mut Rows, row: &[u8])
    requires { IsStrictlySortedBy row_cmp (keys_of rows.old.entries) }
    ensures contents { settings rows.new.entries ≡ settings rows.old.entries }
    ensures stand { AreRows rows.old.entries → AreRows rows.new.entries }
    ensures sorted { IsStrictlySortedBy row_cmp (keys_of rows.new.entries) }
{
    if let Some(None) = rows.get(row) {
        drop(rows.remove(row));
    }
}

// Adds the change that sets what stands at a row, if anything does, and the row of the change.
fn push_row(
    alloc: Global,
    rows: &mut Vec<(Text, Change)>,
    entry: &Option<PrefixEntry>,
) -> Result<(), OutOfMemory>
    ensures changes { OnOk result (map (λ row. row.1) rows.new.items
        ≡ map (λ row. row.1) rows.old.items ++ map prefix_change (with_entry entry.now [])) }
    ensures rows { OnOk result (All HasItsRow rows.old.items → All HasItsRow rows.new.items) }
{
    if let Some(entry) = entry {
        let row = Row::Change(change_of(entry)?);
        let text = print_row(alloc, &row);
        drop(row);
        rows.push((text?, change_of(entry)?))?;
    }
    Ok(())
}

// Logs the row of the change that sets what stands at a row, if anything does.
fn log_row(alloc: Global, log: &mut LineLog, entry: &Option<PrefixEntry>) -> Result<(), OutOfMemory>
    ensures { OnOk result (log.new
        ≡ log.old ++ rows_added (map prefix_change (with_entry entry.now []))) }
{
    if let Some(entry) = entry {
        let row = Row::Change(change_of(entry)?);
        let text = print_row(alloc, &row);
        drop(row);
        log.push(true, text?.as_bytes())?;
    }
    Ok(())
}

// The change that sets a prefix.
fn change_of(entry: &PrefixEntry) -> Result<Change, OutOfMemory>
    ensures { IfOk result (λ change. change ≡ prefix_change (setting entry.now)) }
{
    Ok(Change::PrefixAdd {
        prefix: entry.prefix.copy()?,
        iri: entry.iri.copy()?,
        graph: copy_graph(&entry.graph)?,
    })
}
