//! Terms whose canonical text is written as they are read, so that no string is kept.

ghost use Rattle.std.specs.Prelude.{◌≡◌, ◌≤◌, ◌++◌, length, drop, slice_range, OnOk, IfOk};
ghost use Rattle.std.specs.Prelude.{encode_utf8};
ghost use Rattle.std.specs.List.{flat_map};
ghost use Rattle.rdf_terms.specs.Line.{escaped, kind_text, quoted, term_text};
ghost use Rattle.nquads_text.specs.Fault.{Pushes};
ghost use Rattle.nquads_text.specs.Reading.{string_body_at, with_front};
ghost use Rattle.nquads_text.specs.Terms.{literal_at, term_at};

use crate::fault::ReadFault;
use crate::pieces::string_piece;
use crate::plain_runs::plain_string_end;
use crate::printing::{push_escapes, push_kind, push_term};
use crate::terms::{read_term, suffix};
use delta_base::OutOfMemory;
use std::alloc::Global;

/// Appends bytes that stand for themselves, and gives the place behind them.
fn copy_plain(text: &[u8], at: usize, out: &mut Vec<u8>) -> Result<usize, OutOfMemory>
    requires { at ≤ length text.now }
    ensures low { IfOk result (λ run. at ≤ run) }
    ensures high { IfOk result (λ run. run ≤ length text.now) }
    ensures written { IfOk result (λ run. out.new.items
        ≡ out.old.items ++ flat_map escaped (slice_range text.now at run)) }
    ensures same { IfOk result (λ run. with_front (slice_range text.now at run)
        (string_body_at (drop run text.now)) ≡ string_body_at (drop at text.now)) }
{
    let run = plain_string_end(text, at);
    out.extend_from_slice(&text[at..run])?;
    Ok(run)
}

/// Appends a character, escaped where a string has it so.
fn push_char(out: &mut Vec<u8>, c: char) -> Result<(), OutOfMemory>
    ensures { OnOk result (out.new.items ≡ out.old.items ++ flat_map escaped (encode_utf8 c)) }
{
    let mut bytes = [0u8; 4];
    push_escapes(out, c.encode_utf8(&mut bytes).as_bytes())
}

/// The string behind the quote before `start`.
fn copy_string(text: &[u8], start: usize, out: &mut Vec<u8>) -> Result<usize, ReadFault>
    requires { start ≤ length text.now }
    ensures { Pushes quoted text.now out.old.items out.new.items result
        (string_body_at (drop start text.now)) }
{
    out.push(b'"')?;
    let mut at = start;
    loop {
        let run = copy_plain(text, at, out)?;
        let (piece, next) = string_piece(text, run)?;
        match piece {
            None => {
                out.push(b'"')?;
                return Ok(next);
            }
            Some(c) => push_char(out, c)?,
        }
        at = next;
    }
}

/// The literal whose opening quote stands at `start`, and what follows that at `at`.
fn copy_literal(
    alloc: Global,
    text: &[u8],
    start: usize,
    at: usize,
    out: &mut Vec<u8>,
) -> Result<usize, ReadFault>
    requires begins { start ≤ length text.now }
    requires within { at ≤ length text.now }
    ensures { Pushes (λ l. quoted l.lexical ++ kind_text l.kind) text.now out.old.items
        out.new.items result (literal_at (drop start text.now) (drop at text.now)) }
{
    let behind = copy_string(text, at, out)?;
    let (kind, end) = suffix(alloc, text, start, behind)?;
    push_kind(out, &kind)?;
    Ok(end)
}

/// Appends the canonical text of the term at a place, and gives the place behind it.
///
/// A literal is written as it is read; another term is made.
pub fn copy_term(
    alloc: Global,
    text: &[u8],
    at: usize,
    out: &mut Vec<u8>,
) -> Result<usize, ReadFault>
    requires { at ≤ length text.now }
    ensures { Pushes term_text text.now out.old.items out.new.items result
        (term_at (drop at text.now)) }
{
    if at < text.len() && text[at] == b'"' {
        return copy_literal(alloc, text, at, at + 1, out);
    }
    let (term, end) = read_term(alloc, text, at)?;
    push_term(out, &term)?;
    Ok(end)
}
