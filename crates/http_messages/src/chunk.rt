//! The steps by which a chunked body is read from pieces.
ghost use Rattle.std.specs.Prelude.{◌≡◌, ◌<◌, ◌≤◌, ◌++◌, ◌+◌, ◌-◌, IfOk};
ghost use Rattle.std.specs.Prelude.{drop, length, List, ℕ, min, take, true};
ghost use Rattle.http_messages.specs.Stages.{AreOpenTrailers, FollowsTrailers, HoldsLine};
ghost use Rattle.http_messages.specs.Stages.{HoldsPart, HoldsTrailers, IsOpenLine, PartStepIs};
ghost use Rattle.httparse.specs.Grammar.{HasNoSection};
ghost use Rattle.http_heads.specs.Follow.{is_known};
ghost use Rattle.http_messages.specs.Line.{FollowsLine, is_followed};
ghost use Rattle.http_heads.specs.declared.framing.Framing.{Framing};

use crate::line::{LineAt, find_line_at, stays_there};
use crate::stage::{BodyPart, line_len};
use http_heads::{FrameFault, HeadProgress, Kind, MOST_BODY, follow, make_room};
use httparse::spans::{HeaderSpan, parse_headers};
use httparse::{Error, Status, parse_chunk_size};
use std::alloc::{AllocError, Global};

/// The most bytes of a chunk line.
pub const MOST_LINE: usize = 256;

/// The most bytes of a trailer section.
pub const MOST_TRAILERS: usize = 16_384;

// Adds as much of the piece as the limit leaves room for, and answers how much that is.
fn keep_front(pending: &mut Vec<u8>, piece: &[u8], limit: usize) -> Result<usize, AllocError>
    requires { length pending.old.items ≤ limit }
    ensures most { IfOk result (λ most.
        most ≡ min (length piece.now) (limit - length pending.old.items)) }
    ensures kept { IfOk result (λ most.
        pending.new.items ≡ pending.old.items ++ take most piece.now) }
{
    let most = piece.len().min(limit - pending.len());
    pending.extend_from_slice(&piece[..most])?;
    Ok(most)
}

// Keeps so many bytes of a chunk line that were followed.
fn keep_line(
    pending: &mut Vec<u8>,
    bytes: &[u8],
    at: LineAt,
) -> Result<(usize, Option<BodyPart>), FrameFault>
    requires fits { length pending.old.items + length bytes.now ≤ 256 }
    requires some { 0 < length bytes.now }
    ensures { (framing : Framing) (body behind : List ℕ)
        → HoldsLine framing body behind pending.old.items
        → is_followed at ≡ true → FollowsLine (pending.old.items ++ bytes.now) at
        → PartStepIs framing behind bytes.now body pending.new.items result }
{
    pending.extend_from_slice(bytes)?;
    if pending.len() == MOST_LINE {
        return Err(FrameFault::BadChunk);
    }
    Ok((bytes.len(), Some(BodyPart::Line { at })))
}

// Reads the line before a chunk of which this much has come, behind so many bytes of data.
fn read_line(
    had: usize,
    pending: &mut Vec<u8>,
    piece: &[u8],
) -> Result<(usize, Option<BodyPart>), FrameFault>
    requires piece { 0 < length piece.now }
    requires open { IsOpenLine pending.old.items }
    requires had { had ≤ 4194304 }
    ensures { (framing : Framing) (body behind : List ℕ) → had ≡ length body
        → HoldsLine framing body behind pending.old.items
        → PartStepIs framing behind piece.now body pending.new.items result }
{
    let kept = pending.len();
    let most = keep_front(pending, piece, MOST_LINE)?;
    match parse_chunk_size(pending.as_slice()) {
        Ok(Status::Complete((len, size))) => {
            if size > MOST_BODY - had as u64 {
                return Err(FrameFault::BodyTooLong {
                    length: u128::from(size) + had as u128,
                    limit: MOST_BODY,
                });
            }
            pending.clear();
            let used = len - kept;
            if size == 0 {
                let progress = HeadProgress::Line;
                return Ok((used, Some(BodyPart::Trailers { progress })));
            }
            let left = size as usize;
            Ok((used, Some(BodyPart::Content { left })))
        }
        Ok(Status::Partial) => {
            if pending.len() == MOST_LINE {
                return Err(FrameFault::BadChunk);
            }
            let at = find_line_at(pending.as_slice());
            Ok((most, Some(BodyPart::Line { at })))
        }
        Err(_) => Err(FrameFault::BadChunk),
    }
}

/// Reads on in the line before a chunk, behind so many bytes of data.
pub fn step_line(
    had: usize,
    at: LineAt,
    pending: &mut Vec<u8>,
    piece: &[u8],
) -> Result<(usize, Option<BodyPart>), FrameFault>
    requires piece { 0 < length piece.now }
    requires open { IsOpenLine pending.old.items }
    requires follows { FollowsLine pending.old.items at }
    requires had { had ≤ 4194304 }
    ensures { (framing : Framing) (body behind : List ℕ) → had ≡ length body
        → HoldsLine framing body behind pending.old.items
        → PartStepIs framing behind piece.now body pending.new.items result }
{
    let front = &piece[..piece.len().min(MOST_LINE - pending.len())];
    if stays_there(at, front) {
        return keep_line(pending, front, at);
    }
    read_line(had, pending, piece)
}

/// Reads on in the data of a chunk.
pub fn step_content(
    body: &mut Vec<u8>,
    left: usize,
    piece: &[u8],
) -> Result<(usize, Option<BodyPart>), FrameFault>
    requires piece { 0 < length piece.now }
    ensures { (framing : Framing) (behind pending : List ℕ)
        → HoldsPart (BodyPart.Content left) body.old.items pending framing behind
        → PartStepIs framing behind piece.now body.new.items pending result }
{
    let used = piece.len().min(left);
    body.extend_from_slice(&piece[..used])?;
    if used == left {
        return Ok((used, Some(BodyPart::ContentEnd)));
    }
    Ok((used, Some(BodyPart::Content { left: left - used })))
}

/// Reads on in the line end behind the data of a chunk.
pub fn step_content_end(
    pending: &mut Vec<u8>,
    piece: &[u8],
) -> Result<(usize, Option<BodyPart>), FrameFault>
    requires piece { 0 < length piece.now }
    ensures { (framing : Framing) (body behind : List ℕ)
        → HoldsPart BodyPart.ContentEnd body pending.old.items framing behind
        → PartStepIs framing behind piece.now body pending.new.items result }
{
    if pending.is_empty() {
        if piece[0] != b'\r' {
            return Err(FrameFault::BadChunk);
        }
        pending.push(b'\r')?;
        Ok((1, Some(BodyPart::ContentEnd)))
    } else {
        if piece[0] != b'\n' {
            return Err(FrameFault::BadChunk);
        }
        pending.clear();
        let at = LineAt::Unknown;
        Ok((1, Some(BodyPart::Line { at })))
    }
}

// Keeps so many bytes of trailers that were followed.
fn keep_trailers(
    pending: &mut Vec<u8>,
    bytes: &[u8],
    progress: HeadProgress,
) -> Result<(usize, Option<BodyPart>), FrameFault>
    requires fits { length pending.old.items + length bytes.now ≤ 16384 }
    requires some { 0 < length bytes.now }
    ensures { (framing : Framing) (body behind : List ℕ)
        → HoldsTrailers framing body behind pending.old.items
        → is_known progress ≡ true → FollowsTrailers (pending.old.items ++ bytes.now) progress
        → PartStepIs framing behind bytes.now body pending.new.items result }
{
    pending.extend_from_slice(bytes)?;
    if pending.len() == MOST_TRAILERS {
        return Err(FrameFault::BadChunk);
    }
    Ok((bytes.len(), Some(BodyPart::Trailers { progress })))
}

// Reads the trailers of which this much has come, and answers how many bytes behind those that were
// kept belong to them.
fn read_trailers(
    alloc: Global,
    kept: usize,
    pending: &mut Vec<u8>,
    headers: &mut Vec<HeaderSpan>,
) -> Result<(usize, Option<BodyPart>), FrameFault>
    requires fits { length pending.old.items ≤ 16384 }
    requires kept { kept < length pending.old.items }
    requires none { HasNoSection (take kept pending.old.items) }
    ensures { (framing : Framing) (body behind : List ℕ)
        → HoldsTrailers framing body behind (take kept pending.old.items)
        → PartStepIs framing behind (drop kept pending.old.items) body pending.new.items result }
{
    make_room(alloc, headers, pending.as_slice())?;
    match parse_headers(pending.as_slice(), headers.as_mut_slice()) {
        Ok(Status::Complete((len, _))) => {
            pending.clear();
            Ok((len - kept, None))
        }
        Ok(Status::Partial) => {
            let len = pending.len();
            if len == MOST_TRAILERS {
                return Err(FrameFault::BadChunk);
            }
            let progress = HeadProgress::Unknown;
            Ok((len - kept, Some(BodyPart::Trailers { progress })))
        }
        Err(Error::TooManyHeaders) => unreachable!(),
        Err(_) => Err(FrameFault::BadChunk),
    }
}

/// Reads on in the fields behind the last chunk.
pub fn step_trailers(
    alloc: Global,
    progress: HeadProgress,
    pending: &mut Vec<u8>,
    headers: &mut Vec<HeaderSpan>,
    piece: &[u8],
) -> Result<(usize, Option<BodyPart>), FrameFault>
    requires piece { 0 < length piece.now }
    requires open { AreOpenTrailers pending.old.items }
    requires follows { FollowsTrailers pending.old.items progress }
    ensures { (framing : Framing) (body behind : List ℕ)
        → HoldsTrailers framing body behind pending.old.items
        → PartStepIs framing behind piece.now body pending.new.items result }
{
    let kept = pending.len();
    let front = &piece[..piece.len().min(MOST_TRAILERS - kept)];
    // They are followed as the fields of a reply are.
    let (passed, progress) = follow(Kind::Replies, progress, front);
    if passed == front.len() {
        return keep_trailers(pending, front, progress);
    }
    let used = passed + line_len(&front[passed..]);
    pending.extend_from_slice(&front[..used])?;
    read_trailers(alloc, kept, pending, headers)
}
