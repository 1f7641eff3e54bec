//! Heads over `httparse`.

ghost use Rattle.std.specs.Prelude.{◌≡◌, ◌≢◌, ◌≤◌, ◌↔◌, ◌++◌, ◌∷◌, ℕ, List};
ghost use Rattle.std.specs.Prelude.{IfSome, All, IfNone, IsTrue, length, []};
ghost use Rattle.std.specs.List.{list_all};
ghost use Rattle.httparse.specs.Grammar.{LineEnd, is_value_byte, print_blank};
ghost use Rattle.httparse.specs.Grammar.{print_end, print_version};
ghost use Rattle.httparse.specs.Pieces.{Stops, is_newline};
ghost use Rattle.http_heads.specs.Follow.{EndsInReason, IsToReason};
ghost use Rattle.http_heads.specs.Heads.{EndsInTarget, Head, ReadsHead, goes_on};
ghost use Rattle.http_heads.specs.Room.{most_spans};
ghost use Rattle.http_heads.specs.Steps.{AnswersReply, AnswersRequest};
ghost use Rattle.http_heads.specs.declared.message.Kind.TheVariants as kinds;

use crate::fields::split_at_byte;
use crate::framing::are_digits;
use crate::message::Kind;
use httparse::spans::{HeaderSpan, RequestSpans, ResponseSpans, parse_request, parse_response};
use httparse::{Error, Status, is_token};

/// The most fields of a head.
pub const MOST_FIELDS: usize = 64;

/// What stands at the front of a text.
#[derive(Drop)]
pub enum HeadStep<S> {
    Whole(S),
    TooManyFields,
    BadHead,
    Open,
}

// What follows a line end, where the text begins with one.
fn after_line_end(text: &[u8]) -> Option<&[u8]>
    ensures some { IfSome result (λ rest. (end : LineEnd)
        × (text.now ≡ print_end end ++ rest.now)) }
    ensures none { IfNone result ((end : LineEnd) (rest : List ℕ)
        → text.now ≡ print_end end ++ rest → ⊥) }
{
    match text {
        [b'\n', rest @ ..] => Some(rest),
        [b'\r', b'\n', rest @ ..] => Some(rest),
        _ => None,
    }
}

// The text behind the empty lines at its front.
fn without_blank_lines(text: &[u8]) -> &[u8]
    ensures blank { (blank : List LineEnd) × (text.now ≡ print_blank blank ++ result.now) }
    ensures all { (blank : List LineEnd) (rest : List ℕ) → Stops is_newline rest
        → text.now ≡ print_blank blank ++ rest → result.now ≡ rest }
{
    let mut rest = text;
    while let Some(after) = after_line_end(rest) {
        rest = after;
    }
    rest
}

/// Whether the byte does not end a target.
pub fn goes_on(byte: u8) -> bool
    ensures { result ≡ goes_on byte }
{
    !(byte == b' ' || byte == b'\r' || byte == b'\n')
}

// Whether no byte ends the target.
fn all_go_on(bytes: &[u8]) -> bool
    ensures { result ≡ list_all goes_on bytes.now }
{
    bytes.iter().all(|byte| goes_on(*byte))
}

/// Whether the text ends in its target.
pub fn ends_in_target(text: &[u8]) -> bool
    ensures { IsTrue result ↔ EndsInTarget kinds.Requests text.now }
{
    match split_at_byte(without_blank_lines(text), b' ') {
        Some((method, target)) => is_token(method) && all_go_on(target),
        None => false,
    }
}

/// Whether the byte may stand in a field's value or in a reason phrase.
pub fn is_value_byte(byte: u8) -> bool
    ensures { result ≡ is_value_byte byte }
{
    byte == b'\t' || (byte >= b' ' && byte != 127)
}

// Whether each byte may.
fn are_value_bytes(bytes: &[u8]) -> bool
    ensures { result ≡ list_all is_value_byte bytes.now }
{
    bytes.iter().all(|byte| is_value_byte(*byte))
}

// What follows the version of a reply and a space.
fn after_version(line: &[u8]) -> Option<&[u8]>
    ensures { IfSome result (λ rest. (minor : ℕ) × (minor ≤ 1)
        × (line.now ≡ print_version minor ++ 32 ∷ rest.now)) }
{
    if line.starts_with(b"HTTP/1.1 ") {
        return Some(&line[9..]);
    }
    if line.starts_with(b"HTTP/1.0 ") {
        return Some(&line[9..]);
    }
    None
}

// Whether the line is a status line up to its reason phrase and some of that.
fn is_line_to_reason(line: &[u8]) -> bool
    ensures { IsTrue result → IsToReason line.now }
{
    let Some(rest) = after_version(line) else {
        return false;
    };
    if rest.len() < 4 || rest[3] != b' ' {
        return false;
    }
    are_digits(&rest[..3]) && are_value_bytes(&rest[4..])
}

/// Whether the text ends in the reason phrase of a reply.
pub fn ends_in_reason(text: &[u8]) -> bool
    ensures { IsTrue result → EndsInReason text.now }
{
    is_line_to_reason(without_blank_lines(text))
}

/// The head of a request at the front of a text of at most 16,384 bytes.
pub fn read_request_head(text: &[u8], headers: &mut [HeaderSpan]) -> HeadStep<RequestSpans>
    requires short { length text.now ≤ 16384 }
    requires room { most_spans text.now ≤ length headers.old }
    ensures { AnswersRequest text.now headers.new result }
{
    match parse_request(text, headers) {
        Ok(Status::Complete(head)) => {
            if head.headers > MOST_FIELDS {
                HeadStep::TooManyFields
            } else {
                HeadStep::Whole(head)
            }
        }
        Ok(Status::Partial) => HeadStep::Open,
        Err(Error::TooManyHeaders) => unreachable!(),
        Err(_) => {
            if ends_in_target(text) {
                HeadStep::Open
            } else {
                HeadStep::BadHead
            }
        }
    }
}

/// The head of a reply at the front of a text of at most 16,384 bytes.
pub fn read_reply_head(text: &[u8], headers: &mut [HeaderSpan]) -> HeadStep<ResponseSpans>
    requires short { length text.now ≤ 16384 }
    requires room { most_spans text.now ≤ length headers.old }
    ensures { AnswersReply text.now headers.new result }
{
    match parse_response(text, headers) {
        Ok(Status::Complete(head)) => {
            if head.headers > MOST_FIELDS {
                HeadStep::TooManyFields
            } else {
                HeadStep::Whole(head)
            }
        }
        Ok(Status::Partial) => HeadStep::Open,
        Err(Error::TooManyHeaders) => unreachable!(),
        Err(_) => HeadStep::BadHead,
    }
}

// Whether the text is the whole head of a request.
fn is_request_head(text: &[u8], headers: &mut [HeaderSpan]) -> bool
    ensures { IsTrue result → (head : Head) × ReadsHead kinds.Requests text.now head [] }
{
    match parse_request(text, headers) {
        Ok(Status::Complete(head)) => head.len == text.len(),
        _ => false,
    }
}

// Whether the text is the whole head of a reply.
fn is_reply_head(text: &[u8], headers: &mut [HeaderSpan]) -> bool
    ensures { IsTrue result → (head : Head) × ReadsHead kinds.Replies text.now head [] }
{
    match parse_response(text, headers) {
        Ok(Status::Complete(head)) => head.len == text.len(),
        _ => false,
    }
}

/// Whether the text is a whole head; of one with more fields than there is room for it says no.
pub fn is_head(kind: Kind, text: &[u8], headers: &mut [HeaderSpan]) -> bool
    ensures { IsTrue result → (head : Head) × ReadsHead kind text.now head [] }
{
    match kind {
        Kind::Requests => is_request_head(text, headers),
        Kind::Replies => is_reply_head(text, headers),
    }
}
