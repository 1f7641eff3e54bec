//! The steps by which a message is read from pieces.
ghost use Rattle.std.specs.Prelude.{◌≡◌, ◌+◌, ◌<◌, ◌≤◌, ◌++◌, ◌∷◌, [], length};
ghost use Rattle.std.specs.Prelude.{take, drop, true, List, ℕ, IfOk, IsTrue, OnOk};
ghost use Rattle.http_heads.specs.Follow.{Follows, is_known};
ghost use Rattle.http_heads.specs.Heads.{HasNoHead};
ghost use Rattle.http_messages.specs.Stages.{HeadStepIs, HoldsPart, IsOpenHead, PartStepIs};
ghost use Rattle.http_heads.specs.declared.framing.Framing.{Framing};
ghost use Rattle.http_heads.specs.declared.message.Kind.{Kind as Kinds};

use crate::front::{Front, read_front};
use crate::line::LineAt;
use http_heads::{
    FrameFault, Framing, HeadProgress, Kind, Message, ends_in_reason, follow, is_head, make_room,
};
use httparse::spans::HeaderSpan;
use std::alloc::{AllocError, Global};

/// The most bytes of a head, with the replies of status 100 before it.
pub const MOST_HEAD: usize = 16_384;

/// What of a body comes next.
#[derive(Clone, Copy, Debug, PartialEq, Eq)]
pub enum BodyPart {
    /// So many bytes of a body of a known length.
    Sized { left: usize },
    /// The line before a chunk.
    Line { at: LineAt },
    /// So many bytes of a chunk's data.
    Content { left: usize },
    /// The line end behind a chunk's data.
    ContentEnd,
    /// The fields behind the last chunk.
    Trailers { progress: HeadProgress },
}

/// How a step in a head ends.
#[derive(Drop)]
pub enum HeadEnd {
    /// The head goes on.
    Open { progress: HeadProgress },
    /// It was a reply with status 100, and so many bytes are left to the next one.
    Interim { left: usize },
    /// It is whole: its message without a body yet, and how the body is framed.
    Whole { message: Message, framing: Framing },
}

/// How many bytes there are up to the first line feed and with it.
pub fn line_len(bytes: &[u8]) -> usize
    requires { 0 < length bytes.now }
    ensures some { 0 < result }
    ensures within { result ≤ length bytes.now }
{
    match bytes.iter().position(|byte| *byte == b'\n') {
        Some(end) => end + 1,
        None => bytes.len(),
    }
}

// Whether the text ends in a line feed.
fn ends_line(text: &[u8]) -> bool
    ensures { IsTrue result → (front : List ℕ) × (text.now ≡ front ++ 10 ∷ []) }
{
    match text {
        [.., b'\n'] => true,
        _ => false,
    }
}

// Where a head is that has come up to the middle of a line.
fn within_line(kind: Kind, text: &[u8]) -> HeadProgress
    ensures { Follows kind text.now result }
{
    match kind {
        Kind::Replies => {
            if ends_in_reason(text) {
                return HeadProgress::Reason;
            }
            HeadProgress::Unknown
        }
        Kind::Requests => HeadProgress::Unknown,
    }
}

// Where a head is of which this much has come.
fn find_progress(
    kind: Kind,
    pending: &mut Vec<u8>,
    headers: &mut [HeaderSpan],
) -> Result<HeadProgress, AllocError>
    ensures same { OnOk result (pending.new.items ≡ pending.old.items) }
    ensures follows { IfOk result (λ progress. Follows kind pending.old.items progress) }
{
    if !ends_line(pending.as_slice()) {
        return Ok(within_line(kind, pending.as_slice()));
    }
    // A field may begin where an empty line would make the text a head.
    pending.push(b'\n')?;
    let is_head = is_head(kind, pending.as_slice(), headers);
    pending.pop();
    if is_head {
        return Ok(HeadProgress::Line);
    }
    Ok(HeadProgress::Unknown)
}

// Reads the head of which this much has come, and answers how many bytes behind those that were
// kept belong to it.
fn read_pending(
    alloc: Global,
    kind: Kind,
    room: usize,
    kept: usize,
    pending: &mut Vec<u8>,
    headers: &mut Vec<HeaderSpan>,
) -> Result<(usize, HeadEnd), FrameFault>
    requires fits { length pending.old.items ≤ room }
    requires limit { room ≤ 16384 }
    requires kept { kept < length pending.old.items }
    requires none { HasNoHead kind (take kept pending.old.items) }
    ensures { HeadStepIs kind room (take kept pending.old.items) pending.new.items
        (drop kept pending.old.items) result }
{
    make_room(alloc, headers, pending.as_slice())?;
    match read_front(alloc, kind, pending.as_slice(), headers.as_mut_slice())? {
        Front::Open => {
            let len = pending.len();
            if len == room {
                return Err(FrameFault::HeadTooLong);
            }
            let progress = find_progress(kind, pending, headers.as_mut_slice())?;
            Ok((len - kept, HeadEnd::Open { progress }))
        }
        Front::Interim { len } => {
            pending.clear();
            Ok((len - kept, HeadEnd::Interim { left: room - len }))
        }
        Front::Whole {
            message,
            framing,
            len,
        } => {
            pending.clear();
            Ok((len - kept, HeadEnd::Whole { message, framing }))
        }
    }
}

// Keeps so many bytes that were followed.
fn keep_followed(
    room: usize,
    pending: &mut Vec<u8>,
    bytes: &[u8],
    progress: HeadProgress,
) -> Result<(usize, HeadEnd), FrameFault>
    requires fits { length pending.old.items + length bytes.now ≤ room }
    requires some { 0 < length bytes.now }
    ensures { (kind : Kinds) → is_known progress ≡ true
        → Follows kind (pending.old.items ++ bytes.now) progress
        → HeadStepIs kind room pending.old.items pending.new.items bytes.now result }
{
    pending.extend_from_slice(bytes)?;
    if pending.len() == room {
        return Err(FrameFault::HeadTooLong);
    }
    Ok((bytes.len(), HeadEnd::Open { progress }))
}

/// Reads on in a head that may have so many bytes, and answers how many bytes of the piece
/// belong to it.
pub fn step_head(
    alloc: Global,
    kind: Kind,
    room: usize,
    progress: HeadProgress,
    pending: &mut Vec<u8>,
    headers: &mut Vec<HeaderSpan>,
    piece: &[u8],
) -> Result<(usize, HeadEnd), FrameFault>
    requires open { IsOpenHead kind room pending.old.items }
    requires follows { Follows kind pending.old.items progress }
    requires limit { room ≤ 16384 }
    requires piece { 0 < length piece.now }
    ensures { HeadStepIs kind room pending.old.items pending.new.items piece.now result }
{
    let kept = pending.len();
    let front = &piece[..piece.len().min(room - kept)];
    let (passed, progress) = follow(kind, progress, front);
    if passed == front.len() {
        return keep_followed(room, pending, front, progress);
    }
    // What isn't followed is read line by line, so that the next line can be followed again.
    let used = passed + line_len(&front[passed..]);
    pending.extend_from_slice(&front[..used])?;
    read_pending(alloc, kind, room, kept, pending, headers)
}

/// Reads on in a body of a known length.
pub fn step_sized(
    body: &mut Vec<u8>,
    left: usize,
    piece: &[u8],
) -> Result<(usize, Option<BodyPart>), FrameFault>
    requires piece { 0 < length piece.now }
    ensures { (framing : Framing) (behind pending : List ℕ)
        → HoldsPart (BodyPart.Sized left) body.old.items pending framing behind
        → PartStepIs framing behind piece.now body.new.items pending result }
{
    let used = piece.len().min(left);
    body.extend_from_slice(&piece[..used])?;
    if used == left {
        return Ok((used, None));
    }
    Ok((used, Some(BodyPart::Sized { left: left - used })))
}
