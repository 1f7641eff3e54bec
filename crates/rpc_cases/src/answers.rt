//! Replies, and the answers that they are.
ghost use Rattle.rpc_answers.specs.Answers.{NamesItsFault};

use crate::values::bytes_of;
use case_scripts::{Answer as Told, Words};
use http_heads::RawReply;
use rpc_answers::{Answer, AnswerFault, print_answer, read_answer};
use std::alloc::Global;
use std::fmt::Write;

// The status at a place.
fn status(words: &Words) -> u16 {
    u16::try_from(words.number(1).unwrap_or(0)).unwrap_or(0)
}

// The reply of these words: a status, the type of the body, and the body.
fn reply(alloc: Global, words: &Words) -> RawReply {
    RawReply {
        status: status(words),
        close: false,
        content_type: Some(bytes_of(alloc, words.bytes(2))),
        body: bytes_of(alloc, words.bytes(3)),
    }
}

// Whether a reply has the status and the type of these words.
fn has_head(reply: &RawReply, words: &Words) -> bool {
    match &reply.content_type {
        Some(kind) => reply.status == status(words) && kind.as_slice() == words.bytes(2),
        None => false,
    }
}

// Tells the body of a reply that was printed.
fn tell_body(reply: &RawReply, words: &Words, told: &mut Told) {
    if !has_head(reply, words) {
        told.push(b"behind another head: ");
    }
    told.push(reply.body.as_slice());
}

// Tells the body of an answer's reply.
fn tell_printed(alloc: Global, answer: &Answer, words: &Words, told: &mut Told)
    requires { NamesItsFault answer.now }
{
    match print_answer(alloc, answer, false) {
        Ok(reply) => {
            tell_body(&reply, words, told);
            drop(reply);
        }
        Err(_) => told.push(b"out of memory"),
    }
}

/// `answer STATUS TYPE BODY`: the body as it is printed again of the answer that a reply is, behind the same status and
/// type, or where the reply isn't understood.
pub(crate) fn answer(alloc: Global, words: &Words, told: &mut Told) {
    let reply = reply(alloc, words);
    let read = read_answer(alloc, &reply);
    drop(reply);
    match read {
        Ok(answer) => {
            tell_printed(alloc, &answer, words, told);
            drop(answer);
        }
        Err(AnswerFault::NotUnderstood { at }) => {
            let _ = write!(told, "not understood at {at}");
        }
        Err(AnswerFault::OutOfMemory) => told.push(b"out of memory"),
    }
}
