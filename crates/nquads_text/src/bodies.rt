//! The text inside an IRIREF and inside a string.

ghost use Rattle.std.specs.Prelude.{◌≡◌, ◌≤◌, [], length, drop, IfOk};
ghost use Rattle.std.specs.String.{string_bytes};
ghost use Rattle.nquads_text.specs.Fault.{Gives};
ghost use Rattle.nquads_text.specs.Reading.{iri_body_at, string_body_at, with_front};

use crate::fault::ReadFault;
use crate::pieces::{iri_piece, string_piece};
use crate::plain_runs::{plain_iri_end, plain_string_end};
use delta_base::OutOfMemory;
use memchr::memchr;
use std::alloc::Global;

/// Appends bytes that stand for themselves, and gives the place behind them.
fn push_plain_iri(out: &mut String, text: &[u8], at: usize) -> Result<usize, OutOfMemory>
    requires { at ≤ length text.now }
    ensures low { IfOk result (λ run. at ≤ run) }
    ensures high { IfOk result (λ run. run ≤ length text.now) }
    ensures same { IfOk result (λ run.
        with_front (string_bytes out.new) (iri_body_at (drop run text.now))
        ≡ with_front (string_bytes out.old) (iri_body_at (drop at text.now))) }
{
    let run = plain_iri_end(text, at);
    let plain = unsafe { str::from_utf8_unchecked(&text[at..run]) };
    out.push_str(plain)?;
    Ok(run)
}

/// The text inside an IRIREF, and the place behind its `>`.
pub fn iri_body(alloc: Global, text: &[u8], start: usize) -> Result<(String, usize), ReadFault>
    requires { start ≤ length text.now }
    ensures { Gives text.now (λ s. string_bytes s) result (iri_body_at (drop start text.now)) }
{
    let mut out = String::new(alloc);
    let mut at = start;
    loop {
        let run = push_plain_iri(&mut out, text, at)?;
        let (piece, next) = iri_piece(text, run)?;
        match piece {
            None => return Ok((out, next)),
            Some(c) => out.push(c)?,
        }
        at = next;
    }
}

/// Appends bytes that stand for themselves, and gives the place behind them.
fn push_plain_string(out: &mut String, text: &[u8], at: usize) -> Result<usize, OutOfMemory>
    requires { at ≤ length text.now }
    ensures low { IfOk result (λ run. at ≤ run) }
    ensures high { IfOk result (λ run. run ≤ length text.now) }
    ensures same { IfOk result (λ run.
        with_front (string_bytes out.new) (string_body_at (drop run text.now))
        ≡ with_front (string_bytes out.old) (string_body_at (drop at text.now))) }
{
    let run = plain_string_end(text, at);
    let plain = unsafe { str::from_utf8_unchecked(&text[at..run]) };
    out.push_str(plain)?;
    Ok(run)
}

/// As much room is taken for a string at once at most; a longer one takes more as it grows.
const MOST_ROOM: usize = 256;

/// An empty text with room for the string that may end at the next quote.
fn room_for(alloc: Global, text: &[u8], start: usize) -> Result<String, OutOfMemory>
    requires { start ≤ length text.now }
    ensures { IfOk result (λ s. string_bytes s ≡ []) }
{
    let size = memchr(b'"', &text[start..]).unwrap_or(MOST_ROOM);
    Ok(String::with_capacity(alloc, size.min(MOST_ROOM))?)
}

/// The text inside a string, and the place behind its closing quote.
pub fn string_body(alloc: Global, text: &[u8], start: usize) -> Result<(String, usize), ReadFault>
    requires { start ≤ length text.now }
    ensures { Gives text.now (λ s. string_bytes s) result (string_body_at (drop start text.now)) }
{
    let mut out = room_for(alloc, text, start)?;
    let mut at = start;
    loop {
        let run = push_plain_string(&mut out, text, at)?;
        let (piece, next) = string_piece(text, run)?;
        match piece {
            None => return Ok((out, next)),
            Some(c) => out.push(c)?,
        }
        at = next;
    }
}
