//! Sessions: how they end, and what is sent.
ghost use Rattle.std.specs.Prelude.{◌<◌};

use crate::echo::Echo;
use crate::links::{Turns, link_of};
use case_scripts::Words;
use delta_base::{Link, OutOfMemory};
use http_session::converse;
use http_text::SessionEnd;
use std::alloc::{AllocError, Global};
use std::sync::Wait;

/// How many bytes a session reads at once.
const WHOLE: usize = 8_192;

/// A session that has ended.
#[derive(Drop)]
struct Ended {
    end: SessionEnd,
    faults: u64,
    sent: Vec<u8>,
}

// The session over a text in pieces, of whose connection the calls of these numbers fail.
fn session<R: Wait>(
    rt: &R,
    alloc: Global,
    text: &[u8],
    piece: usize,
    failing: &[u64],
) -> Result<Ended, OutOfMemory>
    requires { 0 < piece }
{
    let mut link = link_of(alloc, text, piece, failing)?;
    let mut count = 0;
    let end = converse(rt, alloc, &Echo, &mut count, &mut link);
    let sent = Vec::from_slice(alloc, link.sent());
    let faults = link.faults();
    drop(link);
    Ok(Ended {
        end,
        faults,
        sent: sent?,
    })
}

// The name of an end.
fn name(end: SessionEnd) -> &'static str {
    match end {
        SessionEnd::Closed => "closed",
        SessionEnd::Asked => "asked",
        SessionEnd::Spent => "spent",
        SessionEnd::Refused { .. } => "refused",
        SessionEnd::CutShort => "cut short",
        SessionEnd::LinkFault => "link fault",
        SessionEnd::OutOfMemory => "out of memory",
    }
}

// Tells how a session ended, and what was sent.
fn tell(alloc: Global, end: SessionEnd, sent: &[u8]) -> Result<Vec<u8>, AllocError> {
    let mut told = Vec::from_slice(alloc, name(end).as_bytes())?;
    if let SessionEnd::Refused { status } = end {
        told.extend_from_slice(format!(in alloc; " {status}")?.as_bytes())?;
    }
    if !sent.is_empty() {
        told.extend_from_slice(b" ")?;
        told.extend_from_slice(sent)?;
    }
    Ok(told)
}

// What comes of a text in pieces.
fn talked<R: Wait>(rt: &R, alloc: Global, text: &[u8], piece: usize) -> Result<Vec<u8>, OutOfMemory>
    requires { 0 < piece }
{
    let ended = session(rt, alloc, text, piece, &[])?;
    Ok(tell(alloc, ended.end, ended.sent.as_slice())?)
}

// What comes of a text in pieces of each size; or the first size at which something else does.
fn talked_anyhow<R: Wait>(rt: &R, alloc: Global, text: &[u8]) -> Result<Vec<u8>, OutOfMemory> {
    let told = talked(rt, alloc, text, WHOLE)?;
    for size in 0..text.len() {
        if talked(rt, alloc, text, size + 1)? != told {
            return Ok(format!(in alloc; "something else in pieces of {}", size + 1)?.into_bytes());
        }
    }
    Ok(told)
}

/// `talk TEXT [SIZE]`: how the session over a text ends, however it comes, or in pieces of one size, and what is sent.
pub(crate) fn talk<R: Wait>(rt: &R, alloc: Global, words: &Words) -> Result<Vec<u8>, OutOfMemory> {
    match words.number(2) {
        Some(size) => talked(rt, alloc, words.bytes(1), size.max(1) as usize),
        None => talked_anyhow(rt, alloc, words.bytes(1)),
    }
}

/// `fronts TEXT`: for the lengths of a text's fronts from 0 on, what comes of that front alone, byte by byte and in one
/// piece, where it is something else than of the front before.
pub(crate) fn fronts<R: Wait>(rt: &R, alloc: Global, text: &[u8]) -> Result<Vec<u8>, OutOfMemory> {
    let mut told = Vec::new(alloc);
    let mut last = Vec::new(alloc);
    for length in 0..=text.len() {
        let front = &text[..length];
        let next = talked(rt, alloc, front, 1)?;
        if talked(rt, alloc, front, WHOLE)? != next {
            told.extend_from_slice(b"otherwise in one piece: ")?;
        }
        if next != last {
            let sign = if length == 0 { "" } else { " | " };
            told.extend_from_slice(format!(in alloc; "{sign}{length} ")?.as_bytes())?;
            told.extend_from_slice(next.as_slice())?;
            last = next;
        }
    }
    Ok(told)
}

/// `breaks TEXT SIZE`: how many calls of its connection a session has over a text in pieces of one size. Where one of
/// them fails, the session ends by that one fault, and what was sent is a front of what is sent else.
pub(crate) fn breaks<R: Wait>(
    rt: &R,
    alloc: Global,
    words: &Words,
) -> Result<Vec<u8>, OutOfMemory> {
    let text = words.bytes(1);
    let piece = words.number(2).unwrap_or(1).max(1) as usize;
    let whole = session(rt, alloc, text, piece, &[])?;
    for call in 0..u64::MAX {
        let ended = session(rt, alloc, text, piece, &[call])?;
        if ended.end != SessionEnd::LinkFault {
            return Ok(format!(in alloc; "{call} calls")?.into_bytes());
        }
        if ended.faults != 1 || !whole.sent.starts_with(ended.sent.as_slice()) {
            return Ok(format!(in alloc; "something else at call {call}")?.into_bytes());
        }
    }
    Err(OutOfMemory)
}

/// `turns TEXT REPLY ..`: how a session ends over texts of which each one comes only once the replies before it were
/// sent, and what is sent.
pub(crate) fn turns<R: Wait>(rt: &R, alloc: Global, words: &Words) -> Result<Vec<u8>, OutOfMemory> {
    let mut link = Turns::new(alloc, words);
    let mut count = 0;
    let end = converse(rt, alloc, &Echo, &mut count, &mut link);
    let told = tell(alloc, end, link.sent());
    drop(link);
    Ok(told?)
}
