//! One call and its answer.
ghost use Rattle.std.specs.Prelude.{◌≡◌, ◌≢◌, ◌≤◌, ◌++◌, ℕ, List, true};
ghost use Rattle.std.specs.Prelude.{OnOk, IfOk, IfErr, IsErrOf};
ghost use Rattle.std.specs.List.{list_all};
ghost use Rattle.std.specs.Io.KnownBytes.{Appends, Consumes};
ghost use Rattle.delta_base.specs.Outside.{Rose};
ghost use Rattle.http_heads.specs.declared.message.RawReply.{RawReply as Reply};
ghost use Rattle.http_text.specs.Taken.{GaveReplies};
ghost use Rattle.http_text.specs.Print.{is_visible};
ghost use Rattle.rpc_answers.specs.Answers.{NamesItsFault};
ghost use Rattle.sink_writing.specs.Writing.{AppendsFront};
ghost use Rattle.delta_client.specs.Kinds.{MayAnswer};
ghost use Rattle.delta_client.specs.Asking.{AnswerIs, SendsFirst, call_text};

use crate::fault::AskFault;
use crate::kind::takes;
use crate::reply::next_reply;
use delta_base::{Bytes, Link, OutOfMemory, Text};
use http_text::{ReplyReader, print_request};
use rpc_answers::{Answer, read_answer};
use rpc_calls::{Call, print_call};
use sink_writing::send_all;
use std::alloc::Global;

/// An answer, and whether the connection ends behind it.
#[derive(Drop)]
pub struct Asked {
    pub answer: Answer,
    pub close: bool,
}

/// Whether a text can stand as the host of a request: a space or a control in it would
/// end the line.
pub fn is_host(text: &Text) -> bool
    ensures { result ≡ list_all is_visible text.now }
{
    text.as_bytes().iter().all(|byte| (33..=126).contains(byte))
}

// The text of a call's request.
fn request_of(alloc: Global, host: &Text, call: &Call) -> Result<Bytes, OutOfMemory>
    requires { list_all is_visible host.now ≡ true }
    ensures { IfOk result (λ text. text ≡ call_text host.now call.now) }
{
    let request = print_call(alloc, call)?;
    print_request(alloc, &request, host)
}

// What the next reply says to a call.
fn hear<L: Link>(
    alloc: Global,
    link: &mut L,
    reader: &mut ReplyReader,
    call: &Call,
) -> Result<Asked, AskFault>
    ensures answer { (given : List ℕ) (taken : List Reply) → GaveReplies given taken reader.old
        → (read : List ℕ) × Consumes (L.left link.old) (L.left link.new) read
        × AnswerIs call.now (given ++ read) taken (L.left link.new) reader.new result }
    ensures named { IfOk result (λ asked. NamesItsFault asked.answer) }
    ensures takes { IfOk result (λ asked. MayAnswer call.now asked.answer) }
    ensures sent { L.sent link.new ≡ L.sent link.old }
    ensures cause { IsErrOf result AskFault.LinkFault
        → Rose (L.faults link.old) (L.faults link.new) }
    ensures never_falls { L.faults link.old ≤ L.faults link.new }
{
    match next_reply(link, reader) {
        Ok(reply) => {
            let close = reply.close;
            match read_answer(alloc, &reply) {
                Ok(answer) => {
                    if takes(call, &answer) {
                        Ok(Asked { answer, close })
                    } else {
                        drop(answer);
                        Err(AskFault::NotUnderstood { at: 0 })
                    }
                }
                Err(fault) => Err(AskFault::from(fault)),
            }
        }
        Err(fault) => Err(fault),
    }
}

/// Sends a call's request, and answers what the next reply says. An answer of another kind than
/// the call takes is not understood. The reader keeps the bytes behind that reply.
pub fn ask<L: Link>(
    alloc: Global,
    link: &mut L,
    reader: &mut ReplyReader,
    host: &Text,
    call: &Call,
) -> Result<Asked, AskFault>
    requires { list_all is_visible host.now ≡ true }
    ensures answer { (given : List ℕ) (taken : List Reply) → GaveReplies given taken reader.old
        → (read : List ℕ) × Consumes (L.left link.old) (L.left link.new) read
        × AnswerIs call.now (given ++ read) taken (L.left link.new) reader.new result }
    ensures named { IfOk result (λ asked. NamesItsFault asked.answer) }
    ensures takes { IfOk result (λ asked. MayAnswer call.now asked.answer) }

    // The request is sent whole, unless the link fails or memory runs out, and nothing is read
    // before that.
    ensures sent { OnOk result
        (Appends (L.sent link.old) (L.sent link.new) (call_text host.now call.now)) }
    ensures whole { IfErr result (λ fault. fault ≢ AskFault.LinkFault
        → fault ≢ AskFault.OutOfMemory
        → Appends (L.sent link.old) (L.sent link.new) (call_text host.now call.now)) }
    ensures first { SendsFirst (L.left link.old) (L.left link.new)
        (L.sent link.old) (L.sent link.new) (call_text host.now call.now) }
    ensures front { AppendsFront (L.sent link.old) (L.sent link.new)
        (call_text host.now call.now) }
    ensures cause { IsErrOf result AskFault.LinkFault
        → Rose (L.faults link.old) (L.faults link.new) }
    ensures never_falls { L.faults link.old ≤ L.faults link.new }
{
    let text = match request_of(alloc, host, call) {
        Ok(text) => text,
        Err(_) => return Err(AskFault::OutOfMemory),
    };
    match send_all(link, text.as_slice()) {
        Ok(()) => hear(alloc, link, reader, call),
        Err(_) => Err(AskFault::LinkFault),
    }
}
