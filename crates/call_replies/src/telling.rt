//! Replies of a log as answers, and answers as what is said.
ghost use Rattle.std.specs.Prelude.{◌≡◌, None, IfOk, IsErr};
ghost use Rattle.http_session.specs.Said.{IsPrintableSaid};
ghost use Rattle.rpc_answers.specs.Answers.{NamesItsFault};
ghost use Rattle.shared_log.specs.Replies.{reply_fetched};
ghost use Rattle.call_replies.specs.Says.{Says};
ghost use Rattle.call_replies.specs.Telling.{append_answer, log_answer, version_within};

use chain_core::LogAnswer;
use delta_base::OutOfMemory;
use http_session::Said;
use rpc_answers::{Answer, into_reply};
use shared_log::Fetched;
use std::alloc::Global;

/// The version, or 0 past 32 bits, since no log has either.
pub fn version_within(version: u64) -> u32
    ensures { result ≡ version_within version }
{
    u32::try_from(version).unwrap_or(0)
}

/// The answer to an append.
pub fn append_answer(answer: LogAnswer) -> Answer
    ensures { result ≡ append_answer answer }
{
    match answer {
        LogAnswer::Accepted { version } => Answer::Version { version },
        LogAnswer::AcceptedRun { first, version } => Answer::Run { first, version },
        LogAnswer::Known { version, same } => Answer::Known { version, same },
        LogAnswer::Conflict {
            version,
            head,
            prev_version,
        } => Answer::Conflict {
            version,
            head,
            prev_version,
        },
        LogAnswer::Full { what, have, limit } => Answer::Full { what, have, limit },
        LogAnswer::DiskFault => Answer::DiskFault,
        LogAnswer::OutOfMemory => Answer::OutOfMemory,
    }
}

/// Says an answer.
pub fn say(alloc: Global, answer: Answer) -> Said
    requires { NamesItsFault answer }
    ensures says { Says answer None result }
    ensures printable { IsPrintableSaid result }
{
    match into_reply(alloc, answer, false) {
        Ok(reply) => Said::Reply { reply, allow: None },
        Err(_) => Said::OutOfMemory,
    }
}

/// Says the patch that was found.
pub fn say_fetched(alloc: Global, fetched: Result<Fetched, OutOfMemory>) -> Said
    ensures says { IfOk fetched (λ reply. Says (log_answer (reply_fetched reply)) None result) }
    ensures want { IsErr fetched → result ≡ Said.OutOfMemory }
    ensures printable { IsPrintableSaid result }
{
    match fetched {
        Ok(Fetched::Found { patch }) => say(alloc, Answer::Patch { text: patch.text }),
        Ok(Fetched::Missing { version }) => say(alloc, Answer::NoPatch { version }),
        Err(_) => Said::OutOfMemory,
    }
}
