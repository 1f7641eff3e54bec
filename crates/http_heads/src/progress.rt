//! How a head that comes in pieces is followed, so that none of its bytes is read again
//! with each piece.
//!
//! What is followed is open: it has no fault, and no head ends in it. What isn't followed is
//! left to `httparse`.
ghost use Rattle.std.specs.Prelude.{◌≡◌, ◌≤◌, ◌<◌, ◌++◌, ◌∷◌, [], ℕ, List, true, length, take};
ghost use Rattle.httparse.specs.Grammar.{is_token_byte};
ghost use Rattle.http_heads.specs.Follow.{Follows, is_known};
ghost use Rattle.http_heads.specs.Heads.{goes_on};
ghost use Rattle.http_heads.specs.declared.progress.HeadProgress.TheVariants as at;

use crate::heads::{goes_on, is_value_byte};
use crate::message::Kind;
use httparse::is_token;

/// Where a head that hasn't ended ends so far.
#[derive(Clone, Copy, Debug, PartialEq, Eq)]
pub enum HeadProgress {
    /// In the empty lines before it.
    Blank,
    /// In one of these, behind its carriage return.
    BlankEnd,
    Method,
    Target,
    /// In the reason phrase of a reply.
    Reason,
    /// Where a field may begin.
    Line,
    Name,
    Value,
    /// Behind the carriage return of a value.
    ValueEnd,
    /// Elsewhere.
    Unknown,
}

// Whether the byte may stand in a method or a field's name.
fn is_token_byte(byte: u8) -> bool
    ensures { result ≡ is_token_byte byte }
{
    is_token(&[byte])
}

fn after_blank(kind: Kind, byte: u8) -> HeadProgress
    ensures { (text : List ℕ) → Follows kind text at.Blank
        → Follows kind (text ++ byte ∷ []) result }
{
    if byte == b'\n' {
        return HeadProgress::Blank;
    }
    if byte == b'\r' {
        return HeadProgress::BlankEnd;
    }
    match kind {
        Kind::Requests => {
            if is_token_byte(byte) {
                return HeadProgress::Method;
            }
            HeadProgress::Unknown
        }
        Kind::Replies => HeadProgress::Unknown,
    }
}

fn after_blank_end(kind: Kind, byte: u8) -> HeadProgress
    ensures { (text : List ℕ) → Follows kind text at.BlankEnd
        → Follows kind (text ++ byte ∷ []) result }
{
    if byte == b'\n' {
        return HeadProgress::Blank;
    }
    HeadProgress::Unknown
}

fn after_method(kind: Kind, byte: u8) -> HeadProgress
    ensures { (text : List ℕ) → Follows kind text at.Method
        → Follows kind (text ++ byte ∷ []) result }
{
    if byte == b' ' {
        return HeadProgress::Target;
    }
    if is_token_byte(byte) {
        return HeadProgress::Method;
    }
    HeadProgress::Unknown
}

fn after_target(kind: Kind, byte: u8) -> HeadProgress
    ensures { (text : List ℕ) → Follows kind text at.Target
        → Follows kind (text ++ byte ∷ []) result }
{
    if goes_on(byte) {
        return HeadProgress::Target;
    }
    HeadProgress::Unknown
}

fn after_reason(kind: Kind, byte: u8) -> HeadProgress
    ensures { (text : List ℕ) → Follows kind text at.Reason
        → Follows kind (text ++ byte ∷ []) result }
{
    if is_value_byte(byte) {
        return HeadProgress::Reason;
    }
    HeadProgress::Unknown
}

fn after_line(kind: Kind, byte: u8) -> HeadProgress
    ensures { (text : List ℕ) → Follows kind text at.Line
        → Follows kind (text ++ byte ∷ []) result }
{
    if is_token_byte(byte) {
        return HeadProgress::Name;
    }
    HeadProgress::Unknown
}

fn after_name(kind: Kind, byte: u8) -> HeadProgress
    ensures { (text : List ℕ) → Follows kind text at.Name
        → Follows kind (text ++ byte ∷ []) result }
{
    if byte == b':' {
        return HeadProgress::Value;
    }
    if is_token_byte(byte) {
        return HeadProgress::Name;
    }
    HeadProgress::Unknown
}

fn after_value(kind: Kind, byte: u8) -> HeadProgress
    ensures { (text : List ℕ) → Follows kind text at.Value
        → Follows kind (text ++ byte ∷ []) result }
{
    if byte == b'\n' {
        return HeadProgress::Line;
    }
    if byte == b'\r' {
        return HeadProgress::ValueEnd;
    }
    if is_value_byte(byte) {
        return HeadProgress::Value;
    }
    HeadProgress::Unknown
}

fn after_value_end(kind: Kind, byte: u8) -> HeadProgress
    ensures { (text : List ℕ) → Follows kind text at.ValueEnd
        → Follows kind (text ++ byte ∷ []) result }
{
    if byte == b'\n' {
        return HeadProgress::Line;
    }
    HeadProgress::Unknown
}

fn after_byte(kind: Kind, progress: HeadProgress, byte: u8) -> HeadProgress
    ensures { (text : List ℕ) → Follows kind text progress
        → Follows kind (text ++ byte ∷ []) result }
{
    match progress {
        HeadProgress::Blank => after_blank(kind, byte),
        HeadProgress::BlankEnd => after_blank_end(kind, byte),
        HeadProgress::Method => after_method(kind, byte),
        HeadProgress::Target => after_target(kind, byte),
        HeadProgress::Reason => after_reason(kind, byte),
        HeadProgress::Line => after_line(kind, byte),
        HeadProgress::Name => after_name(kind, byte),
        HeadProgress::Value => after_value(kind, byte),
        HeadProgress::ValueEnd => after_value_end(kind, byte),
        HeadProgress::Unknown => HeadProgress::Unknown,
    }
}

fn is_known(progress: HeadProgress) -> bool
    ensures { result ≡ is_known progress }
{
    match progress {
        HeadProgress::Unknown => false,
        _ => true,
    }
}

/// Follows a head as far as it goes: how many bytes that is, and where it then is.
pub fn follow(kind: Kind, progress: HeadProgress, bytes: &[u8]) -> (usize, HeadProgress)
    ensures within { result.0 ≤ length bytes.now }
    ensures follows { (text : List ℕ) → Follows kind text progress
        → Follows kind (text ++ take result.0 bytes.now) result.1 }
    ensures known { 0 < result.0 → is_known result.1 ≡ true }
{
    let mut progress = progress;
    for (passed, byte) in bytes.iter().enumerate() {
        let next = after_byte(kind, progress, *byte);
        if !is_known(next) {
            return (passed, progress);
        }
        progress = next;
    }
    (bytes.len(), progress)
}
