//! An answerer that says what it was told.
ghost use Rattle.std.specs.Prelude.{◌≡◌, Some, IfOk, codes};
ghost use Rattle.http_session.specs.Said.{IsPrintableSaid};

use delta_base::{Bytes, OutOfMemory};
use http_heads::{RawReply, RawRequest};
use http_session::{Answerer, Said};
use std::alloc::Global;
use std::sync::Wait;

/// Answers a POST with its body, a GET of `/$/ping` with one text, and any other request with 405. A POST to `/none`
/// finds no memory.
pub(crate) struct Echo;

// A reply in JSON.
fn reply(alloc: Global, status: u16, body: &[u8]) -> Result<RawReply, OutOfMemory>
    ensures status { IfOk result (λ r. r.status ≡ status) }
    ensures kind { IfOk result (λ r. r.content_type ≡ Some (codes "application/json")) }
{
    Ok(RawReply {
        status,
        close: false,
        content_type: Some(Bytes::from_slice(alloc, b"application/json")?),
        body: Bytes::from_slice(alloc, body)?,
    })
}

// Says a text.
fn done(alloc: Global, body: &[u8]) -> Said
    ensures { IsPrintableSaid result }
{
    match reply(alloc, 200, body) {
        Ok(reply) => Said::Reply { reply, allow: None },
        Err(_) => Said::OutOfMemory,
    }
}

// Says that the method is not allowed.
fn refused(alloc: Global) -> Said
    ensures { IsPrintableSaid result }
{
    match reply(alloc, 405, b"{\"error\":\"bad_method\"}") {
        Ok(reply) => Said::Reply {
            reply,
            allow: Some("POST"),
        },
        Err(_) => Said::OutOfMemory,
    }
}

// What is said to a request.
fn said(alloc: Global, request: &RawRequest) -> Said
    ensures { IsPrintableSaid result }
{
    match (request.method.as_slice(), request.path.as_slice()) {
        (b"POST", b"/none") => Said::OutOfMemory,
        (b"POST", _) => done(alloc, request.body.as_slice()),
        (b"GET", b"/$/ping") => done(alloc, b"{\"ping\":\"ok\"}"),
        _ => refused(alloc),
    }
}

impl Answerer for Echo {
    ghost use Rattle.std.specs.Prelude.{◌≡◌, ◌+◌, min, ◌^◌, ◌-◌};

    /// How many were answered.
    type State = u64;

    ghost ready = { λ e n. Unit {0} };

    ghost answers = { λ e n request said m. m ≡ min (n + 1) (2 ^ 64 - 1) };

    fn answer<R: Wait>(
        &self,
        _rt: &R,
        alloc: Global,
        state: &mut u64,
        request: RawRequest,
    ) -> Said {
        *state = state.saturating_add(1);
        let said = said(alloc, &request);
        drop(request);
        said
    }
}
