//! Answers as replies.
ghost use Rattle.std.specs.Prelude.{◌≡◌, List, ℕ, Option, IfOk, unwrap_or};
ghost use Rattle.http_text.specs.Print.{IsAllow, IsPrintableReply};
ghost use Rattle.rpc_answers.specs.Answers.{status_beside, status_of, body_of};
ghost use Rattle.rpc_answers.specs.Answers.{media_type, CanStand, NamesItsFault};
ghost use Rattle.rpc_answers.specs.Prints.{IsBodyText, compact, IsPrintOf, IsCompactPrintOf};

use crate::answer::Answer;
use crate::bodies::answer_value;
use delta_base::{Bytes, OutOfMemory};
use http_heads::RawReply;
use std::alloc::Global;

/// The status beside the name of a fault of framing.
pub fn status_beside(kind: &str) -> Option<u16>
    ensures { result ≡ status_beside kind.now }
{
    match kind {
        "BadHead" => Some(400),
        "TooManyFields" => Some(431),
        "HeadTooLong" => Some(431),
        "BadHost" => Some(400),
        "TwoLengths" => Some(400),
        "BadLength" => Some(400),
        "BodyTooLong" => Some(413),
        "BadChunk" => Some(400),
        _ => None,
    }
}

// The status of an answer.
fn status_of(answer: &Answer) -> u16
    ensures { result ≡ status_of answer.now }
{
    match answer {
        Answer::Pong | Answer::Sources(_) | Answer::Source(_) | Answer::Info { .. } => 200,
        Answer::Version { .. } | Answer::Run { .. } | Answer::Patch { .. } => 200,
        Answer::NoRoute | Answer::NoSource | Answer::NoPatch { .. } => 404,
        Answer::BadMethod => 405,
        Answer::Media => 415,
        Answer::BadJson | Answer::BadCall { .. } | Answer::BadPatch { .. } => 400,
        Answer::BadRun { .. } | Answer::BadName { .. } | Answer::BadUri { .. } => 400,
        Answer::Known { .. } | Answer::Conflict { .. } => 409,
        Answer::NameTaken { .. } | Answer::IdTaken { .. } => 409,
        Answer::Full { .. } => 507,
        Answer::DiskFault => 500,
        Answer::OutOfMemory => 503,
        Answer::BadRequest { kind } => status_beside(kind.as_str()).unwrap_or(0),
    }
}

// The type of an answer's body.
fn media_type(answer: &Answer) -> &'static [u8]
    ensures { result.now ≡ media_type (body_of answer.now) }
{
    match answer {
        Answer::Patch { .. } => b"application/rdf-patch",
        _ => b"application/json",
    }
}

// The body of an answer.
fn body_text(alloc: Global, answer: &Answer) -> Result<Bytes, OutOfMemory>
    requires { NamesItsFault answer.now }
    ensures stands { IfOk result (λ _. CanStand answer.now) }
    ensures compact { IfOk result (λ text. text ≡ compact (body_of answer.now)) }
    ensures reads { IfOk result (λ text. IsBodyText text (body_of answer.now)) }
{
    if let Answer::Patch { text } = answer {
        return text.copy();
    }
    let value = answer_value(alloc, answer)?;
    let text = value.to_vec(alloc);
    drop(value);
    Ok(Bytes::from_vec(text?))
}

/// The reply that prints an answer: the body in compact form, byte for byte. It may be written as
/// it is, with any methods allowed.
pub fn print_answer(alloc: Global, answer: &Answer, close: bool) -> Result<RawReply, OutOfMemory>
    requires { NamesItsFault answer.now }
    ensures exact { IfOk result (λ reply. IsCompactPrintOf reply answer.now close) }
    ensures print { IfOk result (λ reply. IsPrintOf reply answer.now) }
    ensures printable { IfOk result (λ reply. (allow : Option (List ℕ)) → IsAllow allow
        → IsPrintableReply reply allow) }
{
    let status = status_of(answer);
    let content_type = Bytes::from_slice(alloc, media_type(answer))?;
    let body = body_text(alloc, answer)?;
    Ok(RawReply {
        status,
        close,
        content_type: Some(content_type),
        body,
    })
}

// The reply that prints a patch, whose text is moved.
fn patch_reply(alloc: Global, text: Bytes, close: bool) -> Result<RawReply, OutOfMemory>
    ensures exact { IfOk result (λ reply. IsCompactPrintOf reply (Answer.Patch text) close) }
    ensures print { IfOk result (λ reply. IsPrintOf reply (Answer.Patch text)) }
    ensures printable { IfOk result (λ reply. (allow : Option (List ℕ)) → IsAllow allow
        → IsPrintableReply reply allow) }
{
    let content_type = Bytes::from_slice(alloc, b"application/rdf-patch")?;
    Ok(RawReply {
        status: 200,
        close,
        content_type: Some(content_type),
        body: text,
    })
}

/// The same of an answer that is given up: a patch isn't copied.
pub fn into_reply(alloc: Global, answer: Answer, close: bool) -> Result<RawReply, OutOfMemory>
    requires { NamesItsFault answer }
    ensures exact { IfOk result (λ reply. IsCompactPrintOf reply answer close) }
    ensures print { IfOk result (λ reply. IsPrintOf reply answer) }
    ensures printable { IfOk result (λ reply. (allow : Option (List ℕ)) → IsAllow allow
        → IsPrintableReply reply allow) }
{
    match answer {
        Answer::Patch { text } => patch_reply(alloc, text, close),
        other => {
            let reply = print_answer(alloc, &other, close);
            drop(other);
            reply
        }
    }
}
