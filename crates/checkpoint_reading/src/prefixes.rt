//! Rows that set prefixes.
ghost use Rattle.std.specs.Prelude.{◌≡◌, ◌++◌, ◌∷◌, ℕ, List, [], true, false, None};
ghost use Rattle.std.specs.Prelude.{Ok, Err, IfOk, IfSome, IfNone, OnOk, IsErrOf};
ghost use Rattle.rdf_terms.specs.Dataset.{effect, empty};
ghost use Rattle.patch_rows.specs.declared.row.Row.TheVariants as rows;
ghost use Rattle.patch_rows.specs.Printing.{row_text, IsChangeValue, IsWritable};
ghost use Rattle.dataset_tx.specs.Held.{AreMet};
ghost use Rattle.dataset_tx.specs.Prefixes.{has_prefix, prefix_change};
ghost use Rattle.checkpoint_text.specs.Text.{Setting, IsSetting, setting_line};
ghost use Rattle.checkpoint_reading.specs.Front.{IsPast, IsInFront, NoneInFront, RiseInFront};
ghost use Rattle.checkpoint_reading.specs.Reading.{HasSet, HaveOneEach, set_by};

use crate::applying::apply;
use crate::fault::CheckpointFault;
use crate::front::front_of;
use dataset_tx::Dataset;
use delta_base::{Listing, OutOfMemory, Text};
use nquads_documents::graph_is_value;
use patch_rows::parts::row_of;
use patch_rows::{Row, RowFault, TextEnd, print_row};
use rdf_terms::{Change, Changes, Iri, Term};
use std::alloc::Global;

/// A prefix that is set to an IRI in a graph or in the default graph.
#[derive(Drop)]
pub struct PrefixSetting {
    pub prefix: Text,
    pub iri: Iri,
    pub graph: Option<Term>,
}

// The row in front, however it is written. No row that sets another prefix stands there.
fn read_row(alloc: Global, text: &[u8]) -> Result<Row, CheckpointFault>
    ensures ok { IfOk result (λ row. (item : Setting) (rest : List ℕ)
        → IsInFront setting_line IsSetting text.now item rest
        → row ≡ rows.Change (prefix_change item)) }
    ensures writable { IfOk result IsWritable }
    ensures broken { IsErrOf result CheckpointFault.Broken
        → NoneInFront setting_line IsSetting text.now }
{
    match row_of(alloc, text, 0, TextEnd::Known) {
        Ok((row, _)) => Ok(row),
        Err(RowFault::At { .. }) => Err(CheckpointFault::Broken),
        Err(RowFault::OutOfMemory) => Err(CheckpointFault::OutOfMemory),
    }
}

// What stands behind a row's canonical line, where that stands in front.
fn behind_row<'t>(alloc: Global, text: &'t [u8], row: &Row) -> Result<Option<&'t [u8]>, OutOfMemory>
    ensures some { IfOk result (λ behind. IfSome behind (λ rest.
        text.now ≡ (row_text row.now ++ 10 ∷ []) ++ rest.now)) }
    ensures none { IfOk result (λ behind. IfNone behind
        ((rest : List ℕ) → text.now ≡ (row_text row.now ++ 10 ∷ []) ++ rest → ⊥)) }
{
    let line = print_row(alloc, row)?;
    Ok(text.strip_prefix(line.as_bytes()))
}

// What a row sets, if it sets a prefix.
fn setting_of(row: Row) -> Option<PrefixSetting>
    ensures some { IfSome result (λ found. (row ≡ rows.Change (prefix_change (set_by found)))
        × IsChangeValue (prefix_change (set_by found))) }
    ensures none { IfNone result ((s : Setting) → row ≡ rows.Change (prefix_change s) → ⊥) }
{
    match row {
        Row::Change(Change::PrefixAdd { prefix, iri, graph }) => {
            prefix.as_bytes();
            iri.as_bytes();
            graph_is_value(&graph);
            Some(PrefixSetting { prefix, iri, graph })
        }
        other => {
            drop(other);
            None
        }
    }
}

// The setting whose row stands in front, and what stands behind it.
fn read_setting<'t>(
    alloc: Global,
    text: &'t [u8],
) -> Result<(PrefixSetting, &'t [u8]), CheckpointFault>
    ensures ok { IfOk result (λ found.
        IsInFront setting_line IsSetting text.now (set_by found.0) found.1.now) }
    ensures broken { IsErrOf result CheckpointFault.Broken
        → NoneInFront setting_line IsSetting text.now }
{
    let row = read_row(alloc, text)?;
    match behind_row(alloc, text, &row) {
        Ok(Some(rest)) => match setting_of(row) {
            Some(setting) => Ok((setting, rest)),
            None => Err(CheckpointFault::Broken),
        },
        Ok(None) => {
            drop(row);
            Err(CheckpointFault::Broken)
        }
        Err(_) => {
            drop(row);
            Err(CheckpointFault::OutOfMemory)
        }
    }
}

// The same of a row that comes behind the last one in the order of bytes.
fn next_setting<'t>(
    alloc: Global,
    text: &'t [u8],
    last: &[u8],
) -> Result<(PrefixSetting, &'t [u8]), CheckpointFault>
    ensures ok { IfOk result (λ found. IsInFront setting_line
        (IsPast setting_line IsSetting last.now) text.now (set_by found.0) found.1.now) }
    ensures broken { IsErrOf result CheckpointFault.Broken
        → NoneInFront setting_line (IsPast setting_line IsSetting last.now) text.now }
{
    let (setting, rest) = read_setting(alloc, text)?;
    if last.cmp(front_of(text, rest)).is_lt() {
        Ok((setting, rest))
    } else {
        drop(setting);
        Err(CheckpointFault::Broken)
    }
}

// Sets a prefix that isn't set yet.
fn set_prefix(
    contents: &mut Dataset,
    changes: &mut Changes,
    given: PrefixSetting,
) -> Result<(), CheckpointFault>
    requires unstaged { contents.old.staged ≡ None }
    requires none { changes.old.items ≡ [] }
    ensures contents { OnOk result (contents.new.contents
        ≡ effect (prefix_change (set_by given)) contents.old.contents) }
    ensures unstaged { contents.new.staged ≡ None }
    ensures none { OnOk result (changes.new.items ≡ []) }
    ensures met { AreMet (prefix_change (set_by given) ∷ []) contents.old.terms
        contents.new.terms }
    ensures fresh { OnOk result
        (has_prefix contents.old.contents.prefixes (given.graph, given.prefix) ≡ false) }
    ensures broken { IsErrOf result CheckpointFault.Broken
        → has_prefix contents.old.contents.prefixes (given.graph, given.prefix) ≡ true }
{
    let is_set = contents.has_prefix(&given.prefix, &given.graph);
    let PrefixSetting { prefix, iri, graph } = given;
    let change = Change::PrefixAdd { prefix, iri, graph };
    match is_set {
        Ok(false) => apply(contents, changes, change),
        Ok(true) => {
            drop(change);
            Err(CheckpointFault::Broken)
        }
        Err(_) => {
            drop(change);
            Err(CheckpointFault::OutOfMemory)
        }
    }
}

/// Sets so many prefixes, whose rows stand in front in the order of their bytes. Answers what
/// stands behind them.
pub fn read_prefixes<'t>(
    alloc: Global,
    text: &'t [u8],
    count: u64,
    contents: &mut Dataset,
) -> Result<&'t [u8], CheckpointFault>
    requires { contents.old ≡ record { contents = empty; staged = None; terms = [] } }
    ensures ok { IfOk result (λ rest. (settings : List Setting)
        × RiseInFront setting_line IsSetting count text.now settings rest.now
        × HasSet contents.new settings) }
    ensures broken { IsErrOf result CheckpointFault.Broken
        → (settings : List Setting) (rest : List ℕ)
        → RiseInFront setting_line IsSetting count text.now settings rest
        → HaveOneEach settings → ⊥ }
{
    let mut changes = Listing::new(alloc);
    let mut last: &[u8] = &[];
    let mut rest = text;
    for _place in 0..count {
        let (setting, behind) = next_setting(alloc, rest, last)?;
        set_prefix(contents, &mut changes, setting)?;
        last = front_of(rest, behind);
        rest = behind;
    }
    Ok(rest)
}
