//! One connection from its first byte to its end.
ghost use Rattle.std.specs.Prelude.{◌≡◌, ◌+◌, ◌<◌, ◌≤◌, ◌++◌, ℕ, Bool, List, []};
ghost use Rattle.std.specs.Prelude.{false, None, Ok, Err, OnOk, IfErr};
ghost use Rattle.std.specs.Io.KnownBytes.{Appends, IsAtEnd};
ghost use Rattle.delta_base.specs.Outside.{Rose};
ghost use Rattle.http_text.specs.Readers.{fault_of, was_told};
ghost use Rattle.http_text.specs.Taken.{GaveRequests};
ghost use Rattle.http_heads.specs.declared.message.Message.{Message};
ghost use Rattle.http_session.specs.Said.{IsPrintableSaid, said_text};
ghost use Rattle.http_session.specs.Output.{most_requests};
ghost use Rattle.http_session.specs.Talks.{Conversed, Moment, moment_of};
ghost use Rattle.http_session.specs.Stands.{AnsweredAll, AnswersAs, Ended, RefusesAs};
ghost use Rattle.http_session.specs.Stands.{SessionStands, StopsSending, TellsAs, TookExpect};

use crate::answerer::{Answerer, Said};
use crate::texts::{continue_text, memory_text, refusal_text};
use delta_base::Link;
use http_heads::{FrameFault, RawRequest};
use http_text::{RequestReader, SessionEnd, print_reply};
use sink_writing::{send_all, send_both};
use std::alloc::Global;
use std::sync::Wait;

/// The most requests of a session.
pub const MOST_REQUESTS: u32 = 10_000;

/// How many bytes are read at once.
const PIECE: usize = 8_192;

// Sends a whole text, of which the rest stands elsewhere.
fn send<L: Link>(link: &mut L, front: &[u8], rest: &[u8]) -> Result<(), SessionEnd>
    ensures sent { OnOk result
        (Appends (L.sent link.old) (L.sent link.new) (front.now ++ rest.now)) }
    ensures stops { IfErr result (λ end.
        StopsSending (L.sent link.old) (L.sent link.new) (front.now ++ rest.now) end) }
    ensures keeps { L.left link.new ≡ L.left link.old }
    ensures failed { result ≡ Err SessionEnd.LinkFault
        → Rose (L.faults link.old) (L.faults link.new) }
    ensures never_falls { L.faults link.old ≤ L.faults link.new }
{
    match send_both(link, front, rest) {
        Ok(()) => Ok(()),
        Err(_) => Err(SessionEnd::LinkFault),
    }
}

// Tells the client to send a body, where the head at the front asks for that and wasn't told.
fn tell<L: Link>(link: &mut L, reader: &mut RequestReader) -> Result<(), SessionEnd>
    ensures tells { (asks : Bool) × TookExpect reader.old reader.new asks
        × TellsAs asks (L.sent link.old) (L.sent link.new) result }
    ensures keeps { L.left link.new ≡ L.left link.old }
    ensures failed { result ≡ Err SessionEnd.LinkFault
        → Rose (L.faults link.old) (L.faults link.new) }
    ensures never_falls { L.faults link.old ≤ L.faults link.new }
{
    if !reader.take_expect() {
        return Ok(());
    }
    match send_all(link, continue_text()) {
        Ok(()) => Ok(()),
        Err(_) => Err(SessionEnd::LinkFault),
    }
}

// Sends what was said to a request.
fn send_said<L: Link>(
    alloc: Global,
    link: &mut L,
    said: Said,
    close: bool,
) -> Result<(), SessionEnd>
    requires { IsPrintableSaid said }
    ensures sent { OnOk result
        (Appends (L.sent link.old) (L.sent link.new) (said_text said close)) }
    ensures stops { IfErr result (λ end.
        StopsSending (L.sent link.old) (L.sent link.new) (said_text said close) end) }
    ensures keeps { L.left link.new ≡ L.left link.old }
    ensures failed { result ≡ Err SessionEnd.LinkFault
        → Rose (L.faults link.old) (L.faults link.new) }
    ensures never_falls { L.faults link.old ≤ L.faults link.new }
{
    match said {
        Said::Reply { mut reply, allow } => {
            reply.close = close;
            match print_reply(alloc, &reply, allow) {
                Ok(front) => {
                    let rest = &reply.body.as_slice()[front.of_body..];
                    send(link, front.text.as_slice(), rest)
                }
                Err(_) => Err(SessionEnd::OutOfMemory),
            }
        }
        Said::OutOfMemory => send(link, memory_text(close), &[]),
    }
}

// Answers a request, before which so many were answered.
fn answer<R: Wait, A: Answerer, L: Link>(
    rt: &R,
    alloc: Global,
    answerer: &A,
    state: &mut A::State,
    link: &mut L,
    request: RawRequest,
    before: u32,
) -> Result<(), SessionEnd>
    requires ready { A.ready answerer.now state.old }
    requires few { before < most_requests }
    ensures answers { (said : _) × A.answers answerer.now state.old request said state.new
        × AnswersAs before request said (L.sent link.old) (L.sent link.new) result }
    ensures ready { A.ready answerer.now state.new }
    ensures keeps { L.left link.new ≡ L.left link.old }
    ensures failed { result ≡ Err SessionEnd.LinkFault
        → Rose (L.faults link.old) (L.faults link.new) }
    ensures never_falls { L.faults link.old ≤ L.faults link.new }
{
    let closes = request.close;
    let is_last = before + 1 == MOST_REQUESTS;
    let said = answerer.answer(rt, alloc, state, request);
    send_said(alloc, link, said, closes || is_last)?;
    if closes {
        return Err(SessionEnd::Asked);
    }
    if is_last {
        return Err(SessionEnd::Spent);
    }
    Ok(())
}

// Answers the requests that wait, and tells the one that is still to come to send its body,
// where it asks.
fn answer_waiting<R: Wait, A: Answerer, L: Link>(
    rt: &R,
    alloc: Global,
    answerer: &A,
    state: &mut A::State,
    link: &mut L,
    reader: &mut RequestReader,
    answered: &mut u32,
) -> Result<(), SessionEnd>
    requires ready { A.ready answerer.now state.old }
    requires few { answered.old < most_requests }
    ensures all { (from : Moment A.State) (read : List ℕ) (messages : List Message)
        → SessionStands (A.answers answerer.now) from
        (moment_of state.old (L.left link.old) (L.sent link.old) (L.faults link.old))
        read messages reader.old answered.old
        → AnsweredAll (A.answers answerer.now) from
        (moment_of state.new (L.left link.new) (L.sent link.new) (L.faults link.new))
        read messages reader.new answered.new result }
    ensures ready { A.ready answerer.now state.new }
    ensures few { OnOk result (answered.new < most_requests) }
    ensures fault { fault_of reader.new ≡ fault_of reader.old }
{
    loop {
        tell(link, reader)?;
        let Some(request) = reader.take() else {
            return Ok(());
        };
        answer(rt, alloc, answerer, state, link, request, *answered)?;
        *answered += 1;
    }
}

// Refuses what is no request.
fn refuse<L: Link>(link: &mut L, fault: FrameFault) -> SessionEnd
    ensures refuses { RefusesAs fault (L.sent link.old) (L.sent link.new) result }
    ensures keeps { L.left link.new ≡ L.left link.old }
    ensures failed { result ≡ SessionEnd.LinkFault → Rose (L.faults link.old) (L.faults link.new) }
    ensures never_falls { L.faults link.old ≤ L.faults link.new }
{
    if fault == FrameFault::OutOfMemory {
        return SessionEnd::OutOfMemory;
    }
    match send_all(link, refusal_text(fault)) {
        Ok(()) => SessionEnd::Refused {
            status: fault.status(),
        },
        Err(_) => SessionEnd::LinkFault,
    }
}

// Reads, answers and sends until the connection ends. The reader was given no bytes.
fn serve_link<R: Wait, A: Answerer, L: Link>(
    rt: &R,
    alloc: Global,
    answerer: &A,
    state: &mut A::State,
    link: &mut L,
    reader: &mut RequestReader,
) -> SessionEnd
    requires ready { A.ready answerer.now state.old }
    requires gave { GaveRequests [] [] reader.old }
    requires untold { was_told reader.old ≡ false }
    requires well { fault_of reader.old ≡ None }
    ensures ended { Ended (A.answers answerer.now)
        (moment_of state.old (L.left link.old) (L.sent link.old) (L.faults link.old))
        (moment_of state.new (L.left link.new) (L.sent link.new) (L.faults link.new)) result }
    ensures ready { A.ready answerer.now state.new }
{
    let mut piece = [0; PIECE];
    let mut answered = 0;
    let mut fed = Ok(());
    for _ in rt.forever() {
        if let Err(end) = answer_waiting(rt, alloc, answerer, state, link, reader, &mut answered) {
            return end;
        }
        if let Err(fault) = fed {
            return refuse(link, fault);
        }
        let Ok(count) = link.read(&mut piece) else {
            return SessionEnd::LinkFault;
        };
        if count == 0 {
            match reader.finish() {
                Ok(()) => return SessionEnd::Closed,
                Err(_) => return SessionEnd::CutShort,
            }
        }
        fed = reader.feed(&piece[..count]);
    }
    unreachable!()
}

/// Carries one connection: reads requests from the link in pieces, has each answered, and sends the
/// replies in their order, until the connection ends.
pub fn converse<R: Wait, A: Answerer, L: Link>(
    rt: &R,
    alloc: Global,
    answerer: &A,
    state: &mut A::State,
    link: &mut L,
) -> SessionEnd
    requires { A.ready answerer.now state.old }

    // What was read, what was written of it, and why it ended.
    ensures conversed { Conversed (A.answers answerer.now)
        (moment_of state.old (L.left link.old) (L.sent link.old) (L.faults link.old))
        (moment_of state.new (L.left link.new) (L.sent link.new) (L.faults link.new)) result }
    ensures ready { A.ready answerer.now state.new }
{
    let mut reader = RequestReader::new(alloc);
    let end = serve_link(rt, alloc, answerer, state, link, &mut reader);
    drop(reader);
    end
}
