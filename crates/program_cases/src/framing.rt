//! The text of a request, and of the reply to it.
use bstr::ByteSlice;
use case_scripts::Answer;
use std::alloc::Global;
use std::fmt::Write;

/// The text of a request with this first line and body.
pub(crate) fn request_of(alloc: Global, line: &[u8], body: &[u8]) -> Answer {
    let mut text = Answer::new(alloc);
    let length = body.len();
    text.push(line);
    let _ = write!(
        text,
        " HTTP/1.1\r\nHost: a\r\nContent-Length: {length}\r\n\r\n"
    );
    text.push(body);
    text
}

// The text of a reply with this status and body.
fn reply_of(alloc: Global, status: &[u8], body: &[u8]) -> Answer {
    let kind = if body.starts_with(b"{") {
        "json"
    } else {
        "rdf-patch"
    };
    let length = body.len();
    let mut text = Answer::new(alloc);
    text.push(b"HTTP/1.1 ");
    text.push(status);
    let _ = write!(
        text,
        "\r\nContent-Type: application/{kind}\r\nContent-Length: {length}\r\n\r\n"
    );
    text.push(body);
    text
}

// The status and the body of a reply.
fn parts_of(reply: &[u8]) -> Option<(&[u8], &[u8])> {
    let (head, body) = reply.split_once_str(b"\r\n\r\n")?;
    let (line, _fields) = head.split_once_str(b"\r\n")?;
    Some((line.strip_prefix(b"HTTP/1.1 ")?, body))
}

/// Writes the status and the body of a reply; where it isn't the whole text that these make, writes all of it.
pub(crate) fn tell_reply(alloc: Global, reply: &[u8], answer: &mut Answer) {
    if let Some((status, body)) = parts_of(reply)
        && reply_of(alloc, status, body).bytes() == reply
    {
        answer.push(status);
        answer.push(b" ");
        answer.push(body);
    } else {
        answer.push(reply);
    }
}
