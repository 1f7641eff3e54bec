//! A request and a reply that are printed.
use delta_base::{Bytes, OutOfMemory, Text};
use http_heads::{RawReply, RawRequest};
use http_text::{print_reply, print_request};
use std::alloc::Global;

// The text of a request for `/` to the host `a`.
fn printed_request(alloc: Global) -> Result<Bytes, OutOfMemory> {
    let host = Text::from_str(alloc, "a")?;
    let request = RawRequest {
        method: Bytes::from_slice(alloc, b"GET")?,
        path: Bytes::from_slice(alloc, b"/")?,
        http10: false,
        close: false,
        expects: false,
        content_type: None,
        encoding: None,
        body: Bytes::from_vec(Vec::new(alloc)),
    };
    let text = print_request(alloc, &request, &host);
    drop(request);
    text
}

// The text of a reply with status 404 and the body `{}` of type `a/b` that closes.
fn printed_reply(alloc: Global) -> Result<Bytes, OutOfMemory> {
    let content_type = Bytes::from_slice(alloc, b"a/b")?;
    let body = Bytes::from_slice(alloc, b"{}")?;
    let reply = RawReply {
        status: 404,
        close: true,
        content_type: Some(content_type),
        body,
    };
    let front = print_reply(alloc, &reply, None);
    drop(reply);
    Ok(front?.text)
}

/// `print request`, `print reply`: the text of the one request, and of the one reply.
pub(crate) fn told(alloc: Global, what: &[u8]) -> Result<Vec<u8>, OutOfMemory> {
    let text = match what {
        b"request" => printed_request(alloc)?,
        _ => printed_reply(alloc)?,
    };
    Ok(text.into_vec())
}
