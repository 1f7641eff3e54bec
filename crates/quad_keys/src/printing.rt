//! The lines of keys, in order, without a copy of their quads.
ghost use Rattle.std.specs.Prelude.{◌≡◌, ◌∷◌, ◌++◌, [], true, OnOk, IfOk, IsSome, map};
ghost use Rattle.line_log.specs.Edits.{made};
ghost use Rattle.rdf_terms.specs.Line.{line, graph_text};
ghost use Rattle.term_table.specs.Table.{term_numbered};
ghost use Rattle.quad_keys.specs.Keys.{term_of_number, quad_of_key, quads_of, AreKnown, IsNumbered};

use delta_base::{OutOfMemory, Text};
use line_log::{LineLog, MadeLines};
use nquads_text::push_term;
use quad_index::{Keys, QuadKey};
use rdf_terms::Term;
use std::alloc::Global;
use term_table::TermTable;

/// The term of a number.
pub(crate) fn term_of(terms: &TermTable, number: u32) -> &Term
    requires { IsSome (term_numbered terms.now number) }
    ensures { result.now ≡ term_of_number terms.now number }
{
    terms.term(number).unwrap()
}

// Appends the graph of a number behind a space, where there is one.
fn push_graph(out: &mut Vec<u8>, terms: &TermTable, number: u32) -> Result<(), OutOfMemory>
    ensures { OnOk result (out.new.items
        ≡ out.old.items ++ graph_text (term_numbered terms.now number)) }
{
    if let Some(graph) = terms.term(number) {
        out.push(b' ')?;
        push_term(out, graph)?;
    }
    Ok(())
}

// Appends the canonical line of a key's quad.
#[tactic(auto, using(crate::proofs::Laying::key_parts))]
fn push_key(out: &mut Vec<u8>, terms: &TermTable, key: &QuadKey) -> Result<(), OutOfMemory>
    requires { IsNumbered terms.now key.now }
    ensures { OnOk result (out.new.items ≡ out.old.items ++ line (quad_of_key terms.now key.now)) }
{
    push_term(out, term_of(terms, key.s))?;
    out.push(b' ')?;
    push_term(out, term_of(terms, key.p))?;
    out.push(b' ')?;
    push_term(out, term_of(terms, key.o))?;
    push_graph(out, terms, key.g)?;
    out.extend_from_slice(b" .\n")?;
    Ok(())
}

/// The canonical line of a key's quad, made in a room that lines share.
pub(crate) fn key_line(
    alloc: Global,
    terms: &TermTable,
    key: &QuadKey,
    room: &mut Vec<u8>,
) -> Result<Text, OutOfMemory>
    requires { IsNumbered terms.now key.now }
    ensures { IfOk result (λ text. text ≡ line (quad_of_key terms.now key.now)) }
{
    room.clear();
    push_key(room, terms, key)?;
    // Its terms are in UTF-8, and what stands between them is ASCII.
    Text::from_str(alloc, unsafe { str::from_utf8_unchecked(room) })
}

// Logs the line of a key's quad, made in a room that lines share.
fn log_line(
    terms: &TermTable,
    key: &QuadKey,
    room: &mut Vec<u8>,
    log: &mut LineLog,
) -> Result<(), OutOfMemory>
    requires { IsNumbered terms.now key.now }
    ensures { OnOk result (log.new ≡ log.old ++ (true, line (quad_of_key terms.now key.now)) ∷ []) }
{
    room.clear();
    push_key(room, terms, key)?;
    log.push(true, room)
}

// Logs the lines of keys, from the last key on.
fn log_lines(
    alloc: Global,
    terms: &TermTable,
    keys: &mut Vec<QuadKey>,
    log: &mut LineLog,
) -> Result<(), OutOfMemory>
    requires known { AreKnown terms.now keys.old.items }
    requires empty { log.old ≡ [] }
    ensures { OnOk result (made log.new ≡ map line (quads_of terms.now keys.old.items)) }
{
    let mut room = Vec::new(alloc);
    'keys: while let Some(key) = keys.pop() {
        log_line(terms, &key, &mut room, log)?;
    }
    Ok(())
}

/// The canonical lines of the quads of keys, in the order of their bytes. No quad is copied.
pub fn lines(alloc: Global, terms: &TermTable, keys: Keys) -> Result<MadeLines, OutOfMemory>
    requires { AreKnown terms.now keys.items }
    ensures { IfOk result (λ lines. lines ≡ map line (quads_of terms.now keys.items)) }
{
    let mut keys = keys.into_vec();
    let mut log = LineLog::new(alloc);
    log_lines(alloc, terms, &mut keys, &mut log)?;
    log.into_lines()
}
