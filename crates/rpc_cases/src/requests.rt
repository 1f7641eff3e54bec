//! Requests, and the calls that they are.
ghost use Rattle.std.specs.Prelude.{◌≡◌, true, IfOk};
ghost use Rattle.std.specs.List.{list_all};
ghost use Rattle.http_text.specs.Print.{is_visible};

use crate::calls::{tell_asked, tell_fault};
use crate::values::{bytes_of, tell_text};
use case_scripts::{Answer as Told, Words};
use delta_base::{Bytes, OutOfMemory, Text};
use http_heads::RawRequest;
use http_text::{RequestReader, print_request};
use rpc_calls::{Call, Surface, print_call, read_call};
use std::alloc::Global;

/// The host of all requests.
pub(crate) fn host(alloc: Global) -> Result<Text, OutOfMemory>
    ensures { IfOk result (λ host. list_all is_visible host ≡ true) }
{
    Text::from_str(alloc, "e:80")
}

// The word at a place, where there is one.
fn word(alloc: Global, words: &Words, place: usize) -> Option<Bytes> {
    if words.count() < place {
        None
    } else {
        Some(bytes_of(alloc, words.bytes(place)))
    }
}

// The request of these words: a method, a path, a body, and the type and the coding of the body.
fn request(alloc: Global, words: &Words) -> RawRequest {
    RawRequest {
        method: bytes_of(alloc, words.bytes(1)),
        path: bytes_of(alloc, words.bytes(2)),
        http10: false,
        close: false,
        expects: false,
        content_type: word(alloc, words, 4),
        encoding: word(alloc, words, 5),
        body: bytes_of(alloc, words.bytes(3)),
    }
}

/// `call METHOD PATH [BODY [TYPE [CODING]]]`, of a mirror `mirror ..`: what a request asks, or why it is no call.
pub(crate) fn call(alloc: Global, surface: Surface, words: &Words, told: &mut Told) {
    tell_asked(alloc, surface, request(alloc, words), told);
}

// The text of the request that a client sends for a call.
fn printed(alloc: Global, call: &Call) -> Result<Bytes, OutOfMemory> {
    let host = host(alloc)?;
    let request = print_call(alloc, call)?;
    let text = print_request(alloc, &request, &host);
    drop(request);
    text
}

// Tells the text of the request for the call that a request is, or why it is none.
fn tell_sent(alloc: Global, request: RawRequest, told: &mut Told) {
    match read_call(alloc, request) {
        Ok(call) => {
            let text = printed(alloc, &call);
            drop(call);
            tell_text(text, told);
        }
        Err(fault) => tell_fault(fault, told),
    }
}

// Tells what the text of a request asks.
fn tell_read(alloc: Global, text: &[u8], told: &mut Told) {
    let mut reader = RequestReader::new(alloc);
    if reader.feed(text).is_err() {
        told.push(b"not taken: ");
    }
    let request = reader.take();
    drop(reader);
    if let Some(request) = request {
        tell_asked(alloc, Surface::Hall, request, told);
    }
}

/// `sends METHOD PATH [BODY]`: the text that a client sends for the call that a request is. The text asks the same.
pub(crate) fn sends(alloc: Global, words: &Words, told: &mut Told) {
    tell_sent(alloc, request(alloc, words), told);
    let mut asked = Told::new(alloc);
    tell_asked(alloc, Surface::Hall, request(alloc, words), &mut asked);
    let mut again = Told::new(alloc);
    tell_read(alloc, told.bytes(), &mut again);
    if again.bytes() != asked.bytes() {
        told.push(b", a text that asks something else");
    }
}
