//! The requests that a client writes, and the replies of a server.
ghost use Rattle.std.specs.Prelude.{◌≡◌, ◌≤◌, ◌++◌, ◌∷◌, IfOk, OnOk, List, ℕ, drop, length};
ghost use Rattle.std.specs.List.{flat_map};
ghost use Rattle.std.specs.Option.{option_copied};
ghost use Rattle.httparse.specs.Ascii.{crlf_bytes};
ghost use Rattle.httparse.specs.Grammar.{print_field, print_request, print_response, print_version};
ghost use Rattle.http_text.specs.Print.{FitsReader, IsPrintable, IsPrintableReply, allow_fields};
ghost use Rattle.http_text.specs.Print.{body_fields, close_fields, field, head_for, phrase_of};
ghost use Rattle.http_text.specs.Print.{reply_head, reply_text, request_text, status_line};
ghost use Rattle.http_messages.specs.Messages.{IsMessage};
ghost use Rattle.http_heads.specs.declared.message.Kind.TheVariants as kinds;
ghost use Rattle.http_heads.specs.declared.message.Message.TheVariants as forms;

use delta_base::{Bytes, OutOfMemory, Text};
use http::StatusCode;
use http_heads::{RawReply, RawRequest};
use std::alloc::{AllocError, Global};

// Adds a request line.
fn push_line(text: &mut Vec<u8>, method: &[u8], path: &[u8]) -> Result<(), AllocError>
    ensures { OnOk result (text.new.items ≡ text.old.items
        ++ (method.now ++ 32 ∷ (path.now ++ 32 ∷ (print_version 1 ++ crlf_bytes)))) }
{
    text.extend_from_slice(method)?;
    text.extend_from_slice(b" ")?;
    text.extend_from_slice(path)?;
    text.extend_from_slice(b" HTTP/1.1\r\n")?;
    Ok(())
}

// Adds a field.
fn push_field(text: &mut Vec<u8>, name: &[u8], value: &[u8]) -> Result<(), AllocError>
    ensures { OnOk result (text.new.items
        ≡ text.old.items ++ print_field (field name.now value.now)) }
{
    text.extend_from_slice(name)?;
    text.extend_from_slice(b": ")?;
    text.extend_from_slice(value)?;
    text.extend_from_slice(b"\r\n")?;
    Ok(())
}

// The bytes, where there are some.
fn slice_of(bytes: &Option<Bytes>) -> Option<&[u8]>
    ensures { option_copied result ≡ bytes.now }
{
    match bytes {
        Some(bytes) => Some(bytes.as_slice()),
        None => None,
    }
}

// The bytes of a text, where there is one.
fn bytes_of(text: Option<&'static str>) -> Option<&'static [u8]>
    ensures { option_copied result ≡ option_copied text.entry }
{
    match text {
        Some(text) => Some(text.as_bytes()),
        None => None,
    }
}

// Adds the fields of a body.
fn push_body_fields(
    alloc: Global,
    text: &mut Vec<u8>,
    kind: Option<&[u8]>,
    size: usize,
) -> Result<(), AllocError>
    ensures { OnOk result (text.new.items
        ≡ text.old.items ++ flat_map print_field (body_fields (option_copied kind.entry) size)) }
{
    let Some(kind) = kind else {
        return Ok(());
    };
    let size = size.to_string(alloc)?;
    push_field(text, b"Content-Type", kind)?;
    push_field(text, b"Content-Length", size.as_bytes())?;
    Ok(())
}

/// The text of a request to a host. A reader takes the request from it again, whatever follows.
pub fn print_request(alloc: Global, request: &RawRequest, host: &Text) -> Result<Bytes, OutOfMemory>
    requires { IsPrintable request.now host.now }
    ensures text { IfOk result (λ text. text ≡ request_text request.now host.now) }
    ensures again { IfOk result (λ text.
        FitsReader (print_request (head_for request.now host.now)) request.now.body
        → IsMessage kinds.Requests text (forms.Request request.now)) }
{
    let kind = slice_of(&request.content_type);
    let mut text = Vec::new(alloc);
    push_line(
        &mut text,
        request.method.as_slice(),
        request.path.as_slice(),
    )?;
    push_field(&mut text, b"Host", host.as_bytes())?;
    push_body_fields(alloc, &mut text, kind, request.body.len())?;
    text.extend_from_slice(b"\r\n")?;
    text.extend_from_slice(request.body.as_slice())?;
    Ok(Bytes::from_vec(text))
}

// The phrase of a status, which the library knows.
fn phrase_of(status: StatusCode) -> &'static str
    ensures { result.now ≡ phrase_of status }
{
    match status.canonical_reason() {
        Some(phrase) => phrase,
        None => "",
    }
}

// Adds a status line.
fn push_status_line(text: &mut Vec<u8>, status: StatusCode) -> Result<(), AllocError>
    ensures { OnOk result (text.new.items ≡ text.old.items ++ status_line status) }
{
    text.extend_from_slice(b"HTTP/1.1 ")?;
    text.extend_from_slice(status.as_str().as_bytes())?;
    text.extend_from_slice(b" ")?;
    text.extend_from_slice(phrase_of(status).as_bytes())?;
    text.extend_from_slice(b"\r\n")?;
    Ok(())
}

// Adds Allow, where it is given.
fn push_allow(text: &mut Vec<u8>, allow: Option<&[u8]>) -> Result<(), AllocError>
    ensures { OnOk result (text.new.items
        ≡ text.old.items ++ flat_map print_field (allow_fields (option_copied allow.entry))) }
{
    if let Some(methods) = allow {
        push_field(text, b"Allow", methods)?;
    }
    Ok(())
}

// Adds Connection, where the session ends.
fn push_close(text: &mut Vec<u8>, close: bool) -> Result<(), AllocError>
    ensures { OnOk result (text.new.items
        ≡ text.old.items ++ flat_map print_field (close_fields close)) }
{
    if close {
        push_field(text, b"Connection", b"close")?;
    }
    Ok(())
}

/// How many bytes of a body are sent together with the head before it.
const FRONT: usize = 8_192;

/// The room that the head of a reply takes, but for one of many methods.
const HEAD_ROOM: usize = 192;

/// The front of a reply's text: its head with the first bytes of its body.
#[derive(Debug, Drop)]
pub struct ReplyFront {
    pub text: Bytes,
    /// How many bytes of the body it has. The others follow it.
    pub of_body: usize,
}

/// The front of the text of a reply, with the methods that are allowed where they are given. The
/// rest of the body is sent from where it stands. A reader takes the reply from the text again,
/// whatever follows.
pub fn print_reply(
    alloc: Global,
    reply: &RawReply,
    allow: Option<&'static str>,
) -> Result<ReplyFront, OutOfMemory>
    requires { IsPrintableReply reply.now (option_copied allow) }
    ensures text { IfOk result (λ front. front.text ++ drop front.of_body reply.now.body
        ≡ reply_text reply.now (option_copied allow.entry)) }
    ensures within { IfOk result (λ front. front.of_body ≤ length reply.now.body) }
    ensures again { IfOk result (λ front. FitsReader
        (print_response (reply_head reply.now (option_copied allow.entry))) reply.now.body
        → IsMessage kinds.Replies (front.text ++ drop front.of_body reply.now.body)
        (forms.Reply reply.now)) }
{
    let status = StatusCode::from_u16(reply.status).unwrap();
    let methods = bytes_of(allow);
    let kind = slice_of(&reply.content_type);
    let body = reply.body.as_slice();
    let of_body = body.len().min(FRONT);
    let mut text = Vec::with_capacity(alloc, HEAD_ROOM + of_body)?;
    push_status_line(&mut text, status)?;
    push_allow(&mut text, methods)?;
    push_close(&mut text, reply.close)?;
    push_body_fields(alloc, &mut text, kind, body.len())?;
    text.extend_from_slice(b"\r\n")?;
    text.extend_from_slice(&body[..of_body])?;
    Ok(ReplyFront {
        text: Bytes::from_vec(text),
        of_body,
    })
}
