//! The head at the front of a text, with what it says of its body.
ghost use Rattle.std.specs.Prelude.{◌≡◌, ◌≤◌, ◌==◌, All, IfOk, length};
ghost use Rattle.std.specs.Prelude.{map, take, List, [], ℕ, Ok, Option};
ghost use Rattle.std.specs.Option.{option_copied, option_map};
ghost use Rattle.httparse.specs.Spans.{IsHeaderWithin, IsWithin, header_bytes};
ghost use Rattle.http_messages.specs.Front.{FrontIs, reply_at, request_at};
ghost use Rattle.http_heads.specs.Framing.{framing_of};
ghost use Rattle.http_messages.specs.Messages.{before_query, from_slash, path_of};
ghost use Rattle.http_heads.specs.Room.{most_spans};
ghost use Rattle.http_heads.specs.declared.message.Kind.TheVariants as kinds;

use delta_base::{Bytes, OutOfMemory};
use http_heads::{
    FrameFault, Framing, HeadStep, Kind, Message, RawReply, RawRequest, closes, expects,
    first_named, read_framing, read_reply_head, read_request_head,
};
use httparse::spans::{HeaderSpan, RequestSpans, ResponseSpans};
use std::alloc::Global;

/// What stands at the front of a text: a whole head, a reply with status 100, or the beginning
/// of a head.
#[derive(Drop)]
pub enum Front {
    Whole {
        message: Message,
        framing: Framing,
        len: usize,
    },
    Interim {
        len: usize,
    },
    Open,
}

// The target up to its query.
fn before_query(target: &[u8]) -> &[u8]
    ensures { result.now ≡ before_query target.now }
{
    for (end, byte) in target.iter().enumerate() {
        if *byte == b'?' {
            return &target[..end];
        }
    }
    target
}

// From the first slash on, or a slash where there is none.
fn from_slash(target: &[u8]) -> &[u8]
    ensures { result.now ≡ from_slash target.now }
{
    for (start, byte) in target.iter().enumerate() {
        if *byte == b'/' {
            return &target[start..];
        }
    }
    b"/"
}

// The target up to its query; of an absolute one what follows its authority.
fn path_of(target: &[u8]) -> &[u8]
    ensures { result.now ≡ path_of target.now }
{
    let whole = before_query(target);
    if whole.starts_with(b"http://") {
        return from_slash(&whole[7..]);
    }
    whole
}

// A copy of the bytes, where there are some.
fn copy_of(alloc: Global, bytes: Option<&[u8]>) -> Result<Option<Bytes>, OutOfMemory>
    ensures { IfOk result (λ copy. copy ≡ option_copied bytes.entry) }
{
    match bytes {
        Some(bytes) => Ok(Some(Bytes::from_slice(alloc, bytes)?)),
        None => Ok(None),
    }
}

// The request of a head, still without its body.
fn read_request(
    alloc: Global,
    text: &[u8],
    head: RequestSpans,
    headers: &[HeaderSpan],
    framing: Framing,
) -> Result<RawRequest, OutOfMemory>
    requires method { IsWithin (length text.now) head.method }
    requires path { IsWithin (length text.now) head.path }
    requires headers { All (IsHeaderWithin (length text.now)) headers.now }
    requires framing { framing_of kinds.Requests head.version
        (map (header_bytes text.now) headers.now) ≡ Ok framing }
    ensures { IfOk result (λ request.
        request ≡ request_at text.now head (map (header_bytes text.now) headers.now)) }
{
    let content_type = copy_of(alloc, first_named(text, headers, b"content-type"))?;
    let encoding = copy_of(alloc, first_named(text, headers, b"content-encoding"))?;
    Ok(RawRequest {
        method: Bytes::from_slice(alloc, head.method.of(text))?,
        path: Bytes::from_slice(alloc, path_of(head.path.of(text)))?,
        http10: head.version == 0,
        close: closes(text, head.version, headers),
        expects: expects(text, head.version, headers, framing),
        content_type,
        encoding,
        body: Bytes::from_vec(Vec::new(alloc)),
    })
}

// The reply of a head, still without its body.
fn read_reply(
    alloc: Global,
    text: &[u8],
    head: ResponseSpans,
    headers: &[HeaderSpan],
) -> Result<RawReply, OutOfMemory>
    requires headers { All (IsHeaderWithin (length text.now)) headers.now }
    ensures { IfOk result (λ reply.
        reply ≡ reply_at head (map (header_bytes text.now) headers.now)) }
{
    let content_type = copy_of(alloc, first_named(text, headers, b"content-type"))?;
    Ok(RawReply {
        status: head.code,
        close: closes(text, head.version, headers),
        content_type,
        body: Bytes::from_vec(Vec::new(alloc)),
    })
}

// The head of a request at the front of a text.
fn request_front(
    alloc: Global,
    text: &[u8],
    headers: &mut [HeaderSpan],
) -> Result<Front, FrameFault>
    requires short { length text.now ≤ 16384 }
    requires room { most_spans text.now ≤ length headers.old }
    ensures { (room : ℕ) → length text.now ≤ room → FrontIs kinds.Requests room text.now result }
{
    match read_request_head(text, headers) {
        HeadStep::Whole(head) => {
            let headers = &headers[..head.headers];
            let framing = read_framing(Kind::Requests, text, head.version, headers)?;
            let request = read_request(alloc, text, head, headers, framing)?;
            Ok(Front::Whole {
                message: Message::Request(request),
                framing,
                len: head.len,
            })
        }
        HeadStep::TooManyFields => Err(FrameFault::TooManyFields),
        HeadStep::BadHead => Err(FrameFault::BadHead),
        HeadStep::Open => Ok(Front::Open),
    }
}

// The head of a reply at the front of a text.
fn reply_front(alloc: Global, text: &[u8], headers: &mut [HeaderSpan]) -> Result<Front, FrameFault>
    requires short { length text.now ≤ 16384 }
    requires room { most_spans text.now ≤ length headers.old }
    ensures { (room : ℕ) → length text.now ≤ room → FrontIs kinds.Replies room text.now result }
{
    match read_reply_head(text, headers) {
        HeadStep::Whole(head) => {
            if head.code == 100 {
                return Ok(Front::Interim { len: head.len });
            }
            let headers = &headers[..head.headers];
            let framing = read_framing(Kind::Replies, text, head.version, headers)?;
            let reply = read_reply(alloc, text, head, headers)?;
            Ok(Front::Whole {
                message: Message::Reply(reply),
                framing,
                len: head.len,
            })
        }
        HeadStep::TooManyFields => Err(FrameFault::TooManyFields),
        HeadStep::BadHead => Err(FrameFault::BadHead),
        HeadStep::Open => Ok(Front::Open),
    }
}

/// The head at the front of a text of at most 16,384 bytes, with the message that it begins.
pub fn read_front(
    alloc: Global,
    kind: Kind,
    text: &[u8],
    headers: &mut [HeaderSpan],
) -> Result<Front, FrameFault>
    requires short { length text.now ≤ 16384 }
    requires room { most_spans text.now ≤ length headers.old }
    ensures { (room : ℕ) → length text.now ≤ room → FrontIs kind room text.now result }
{
    match kind {
        Kind::Requests => request_front(alloc, text, headers),
        Kind::Replies => reply_front(alloc, text, headers),
    }
}
