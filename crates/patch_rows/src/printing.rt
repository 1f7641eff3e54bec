//! The canonical text of a row.

ghost use Rattle.std.specs.Prelude.{◌≡◌, ◌≤◌, ◌+◌, ◌-◌, ◌++◌, ◌∷◌, [], ℕ, List, OnOk, IfOk, length};
ghost use Rattle.nquads_text.specs.Printing.{HasTermValues};
ghost use Rattle.patch_rows.specs.Grammar.{RowAt, row_limit, IsDecidedRow, letters};
ghost use Rattle.patch_rows.specs.Grammar.{code_of as code_for, code_of_change as code_for_change};
ghost use Rattle.patch_rows.specs.Printing.{quad_text, change_text, parts_text, row_text};
ghost use Rattle.patch_rows.specs.Printing.{IsChangeValue, IsRowValue, IsWritable};

use crate::codes::Code;
use crate::row::Row;
use delta_base::{OutOfMemory, Text};
use nquads_text::{push_graph, push_iri, push_quoted, push_term};
use rdf_terms::{Change, Quad};
use std::alloc::Global;

fn code_of_change(change: &Change) -> Code
    ensures { result ≡ code_for_change change.now }
{
    match change {
        Change::Add(_) => Code::Add,
        Change::Delete(_) => Code::Delete,
        Change::PrefixAdd { .. } => Code::PrefixAdd,
        Change::PrefixDelete { .. } => Code::PrefixDelete,
        Change::Begin => Code::Begin,
        Change::Commit => Code::Commit,
        Change::Abort => Code::Abort,
    }
}

fn code_of(row: &Row) -> Code
    ensures { result ≡ code_for row.now }
{
    match row {
        Row::Header { .. } => Code::Header,
        Row::Change(change) => code_of_change(change),
    }
}

/// Appends the terms of a quad, each behind a space.
fn push_quad(out: &mut Vec<u8>, quad: &Quad) -> Result<(), OutOfMemory>
    ensures text { OnOk result (out.new.items ≡ out.old.items ++ quad_text quad.now) }
    ensures value { OnOk result (HasTermValues quad.now) }
{
    out.push(b' ')?;
    push_term(out, quad.subject())?;
    out.push(b' ')?;
    push_term(out, quad.predicate())?;
    out.push(b' ')?;
    push_term(out, quad.object())?;
    push_graph(out, quad.graph())
}

/// Appends the parts of a change, each behind a space.
fn push_change(out: &mut Vec<u8>, change: &Change) -> Result<(), OutOfMemory>
    ensures text { OnOk result (out.new.items ≡ out.old.items ++ change_text change.now) }
    ensures value { OnOk result (IsChangeValue change.now) }
{
    match change {
        Change::Add(quad) => push_quad(out, quad),
        Change::Delete(quad) => push_quad(out, quad),
        Change::PrefixAdd { prefix, iri, graph } => {
            out.push(b' ')?;
            push_quoted(out, prefix.as_bytes())?;
            out.push(b' ')?;
            push_iri(out, iri.as_bytes())?;
            push_graph(out, graph)
        }
        Change::PrefixDelete { prefix, graph } => {
            out.push(b' ')?;
            push_quoted(out, prefix.as_bytes())?;
            push_graph(out, graph)
        }
        Change::Begin => Ok(()),
        Change::Commit => Ok(()),
        Change::Abort => Ok(()),
    }
}

/// Appends the parts of a row, each behind a space.
fn push_parts(out: &mut Vec<u8>, row: &Row) -> Result<(), OutOfMemory>
    ensures text { OnOk result (out.new.items ≡ out.old.items ++ parts_text row.now) }
    ensures value { OnOk result (IsRowValue row.now) }
{
    match row {
        Row::Header { key, value } => {
            out.push(b' ')?;
            out.extend_from_slice(key.as_bytes())?;
            out.push(b' ')?;
            push_term(out, value)
        }
        Row::Change(change) => push_change(out, change),
    }
}

/// The canonical text of a row, and a line feed.
#[tactic(auto, unfolding(crate::specs::Printing::row_text))]
pub fn print_row(alloc: Global, row: &Row) -> Result<Text, OutOfMemory>
    ensures text { IfOk result (λ text. text ≡ row_text row.now ++ 10 ∷ []) }
    ensures read_again { IfOk result (λ text. IsWritable row.now
        → (rest : List ℕ) → RowAt (text ++ rest) row.now (10 ∷ rest)) }
    ensures decided { IfOk result (λ text. IsWritable row.now → length text ≤ row_limit + 1
        → IsDecidedRow text 0 row.now (length text - 1)) }
{
    let mut out = Vec::new(alloc);
    out.extend_from_slice(code_of(row).letters())?;
    push_parts(&mut out, row)?;
    out.extend_from_slice(b" .\n")?;
    // Its parts are in UTF-8, and what stands between them is ASCII.
    Ok(Text::from_string(unsafe { String::from_utf8_unchecked(out) }))
}
