//! What is printed of an answer.
ghost use Rattle.std.specs.Prelude.{◌≡◌, ◌++◌, ◌∷◌, [], true, false, IfOk};
ghost use Rattle.rpc_answers.specs.Answers.{NamesItsFault, body_of};
ghost use Rattle.rpc_answers.specs.Prints.{compact};
ghost use Rattle.client_commands.specs.Answers.{EndsAnswered, printed};

use crate::fault::ClientFault;
use delta_base::{Bytes, OutOfMemory};
use rpc_answers::{Answer, into_reply};
use std::alloc::Global;

// The text and a line feed.
fn with_line_feed(text: Bytes) -> Result<Bytes, OutOfMemory>
    ensures { IfOk result (λ line. line ≡ text ++ 10 ∷ []) }
{
    let mut line = text.into_vec();
    line.push(b'\n')?;
    Ok(Bytes::from_vec(line))
}

// Whether an answer's text is printed as it is. A patch's is; behind JSON there is a line feed.
fn is_patch(answer: &Answer) -> bool
    ensures yes { result ≡ true → printed answer.now ≡ compact (body_of answer.now) }
    ensures no { result ≡ false → printed answer.now ≡ compact (body_of answer.now) ++ 10 ∷ [] }
{
    match answer {
        Answer::Patch { .. } => true,
        _ => false,
    }
}

/// The end of a call that was answered.
pub(crate) fn end_of(alloc: Global, answer: Answer) -> Result<Bytes, ClientFault>
    requires { NamesItsFault answer }
    ensures { EndsAnswered answer result }
{
    let is_patch = is_patch(&answer);
    let reply = match into_reply(alloc, answer, false) {
        Ok(reply) => reply,
        Err(_) => return Err(ClientFault::OutOfMemory),
    };
    let status = reply.status;
    let body = reply.body;
    if status != 200 {
        return Err(ClientFault::Refused { status, body });
    }
    if is_patch {
        return Ok(body);
    }
    match with_line_feed(body) {
        Ok(line) => Ok(line),
        Err(_) => Err(ClientFault::OutOfMemory),
    }
}
