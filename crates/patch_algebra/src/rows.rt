//! One change beside a dataset: what it is about, whether it changes the dataset, what undoes it,
//! and its row.
ghost use Rattle.std.specs.Prelude.{◌≡◌, ◌∷◌, None, IfOk};
ghost use Rattle.patch_rows.specs.declared.row.Row.TheVariants as row;
ghost use Rattle.patch_rows.specs.Printing.{IsWellPlaced, IsWritable};
ghost use Rattle.printed_rows.specs.Printed.{IsPrintedRow, printed_line};
ghost use Rattle.net_changes.specs.Keys.{iri_of};
ghost use Rattle.net_changes.specs.Net.{alters, prefix_restored, undone};
ghost use Rattle.patch_algebra.specs.Names.{name_bytes};
ghost use Rattle.patch_algebra.specs.Nets.{rank, ranked_row};

use dataset_tx::Dataset;
use delta_base::{OutOfMemory, Text};
use nquads_documents::print_line;
use nquads_text::{push_graph, push_quoted};
use patch_rows::{Row, print_row};
use rdf_terms::{Change, Term, copy_graph};
use std::alloc::Global;

/// The bytes of what a change is about: a quad's line, or a prefix in its quotes with its graph
/// behind it, each behind a byte of its own. The words of blocks are about nothing.
pub fn key_bytes(alloc: Global, change: &Change) -> Result<Vec<u8>, OutOfMemory>
    ensures { IfOk result (λ key. key.items ≡ name_bytes change.now) }
{
    let mut key = Vec::new(alloc);
    match change {
        Change::Add(quad) | Change::Delete(quad) => {
            key.push(b'Q')?;
            let line = print_line(alloc, quad)?;
            key.extend_from_slice(line.as_bytes())?;
        }
        Change::PrefixAdd { prefix, graph, .. } | Change::PrefixDelete { prefix, graph } => {
            key.push(b'P')?;
            push_quoted(&mut key, prefix.as_bytes())?;
            push_graph(&mut key, graph)?;
        }
        Change::Begin | Change::Commit | Change::Abort => {}
    }
    Ok(key)
}

/// Whether a change changes a dataset.
pub fn alters(base: &Dataset, change: &Change) -> Result<bool, OutOfMemory>
    requires { base.now.staged ≡ None }
    ensures { IfOk result (λ answer. answer ≡ alters base.now.contents change.now) }
{
    Ok(match change {
        Change::Add(quad) => !base.contains(quad),
        Change::Delete(quad) => base.contains(quad),
        Change::PrefixAdd { prefix, iri, graph } => match base.iri_of(prefix, graph)? {
            Some(old) => old != iri,
            None => true,
        },
        Change::PrefixDelete { prefix, graph } => base.iri_of(prefix, graph)?.is_some(),
        Change::Begin | Change::Commit | Change::Abort => false,
    })
}

// A prefix gets back the IRI that it has in a dataset, or goes.
fn restored(base: &Dataset, prefix: &Text, graph: &Option<Term>) -> Result<Change, OutOfMemory>
    requires { base.now.staged ≡ None }
    ensures { IfOk result (λ change. change ≡ prefix_restored prefix.now graph.now
        (iri_of base.now.contents (graph.now, prefix.now))) }
{
    Ok(match base.iri_of(prefix, graph)? {
        Some(iri) => Change::PrefixAdd {
            prefix: prefix.copy()?,
            iri: iri.copy()?,
            graph: copy_graph(graph)?,
        },
        None => Change::PrefixDelete {
            prefix: prefix.copy()?,
            graph: copy_graph(graph)?,
        },
    })
}

/// The change that undoes one that changes a dataset.
pub fn undone(base: &Dataset, change: &Change) -> Result<Change, OutOfMemory>
    requires { base.now.staged ≡ None }
    ensures { IfOk result (λ other. other ≡ undone base.now.contents change.now) }
{
    match change {
        Change::Add(quad) => Ok(Change::Delete(quad.copy()?)),
        Change::Delete(quad) => Ok(Change::Add(quad.copy()?)),
        Change::PrefixAdd { prefix, graph, .. } => restored(base, prefix, graph),
        Change::PrefixDelete { prefix, graph } => restored(base, prefix, graph),
        Change::Begin => Ok(Change::Begin),
        Change::Commit => Ok(Change::Commit),
        Change::Abort => Ok(Change::Abort),
    }
}

// Where the rows of such changes stand: PD, PA, D, A.
fn rank(change: &Change) -> u8
    ensures { result ≡ rank change.now }
{
    match change {
        Change::PrefixDelete { .. } => 0,
        Change::PrefixAdd { .. } => 1,
        Change::Delete(_) => 2,
        Change::Add(_) => 3,
        Change::Begin => 4,
        Change::Commit => 5,
        Change::Abort => 6,
    }
}

// The line of a row behind a byte.
fn behind_byte(alloc: Global, byte: u8, row: &Row) -> Result<Vec<u8>, OutOfMemory>
    ensures bytes { IfOk result (λ bytes. bytes.items ≡ byte ∷ printed_line row.now) }
    ensures printed { IfOk result (λ _. IsWritable row.now → IsPrintedRow row.now) }
{
    let line = print_row(alloc, row)?;
    let mut bytes = Vec::new(alloc);
    bytes.push(byte)?;
    bytes.extend_from_slice(line.as_bytes())?;
    Ok(bytes)
}

/// The canonical row of a change, on its line, behind a byte for its kind.
pub fn ranked_row(alloc: Global, change: Change) -> Result<Vec<u8>, OutOfMemory>
    ensures bytes { IfOk result (λ row. row.items ≡ ranked_row change) }
    ensures printed { IfOk result (λ _. IsWellPlaced change → IsPrintedRow (row.Change change)) }
{
    let rank = rank(&change);
    let row = Row::Change(change);
    let bytes = behind_byte(alloc, rank, &row);
    drop(row);
    bytes
}
