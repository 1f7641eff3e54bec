//! What is said to requests that are no call, and to texts that are no patch or no run.
ghost use Rattle.std.specs.Prelude.{◌≡◌, None, Some};
ghost use Rattle.http_session.specs.Said.{IsPrintableSaid};
ghost use Rattle.http_text.specs.Print.{IsAllow};
ghost use Rattle.patch_log.specs.declared.run.RunFault.TheVariants as run;
ghost use Rattle.patch_meaning.specs.declared.fault.PatchFault.TheVariants as patch;
ghost use Rattle.rpc_calls.specs.Outcomes.{IsFaultOf, CallOutcome, TellsMethods};
ghost use Rattle.call_replies.specs.Says.{Says, SaysRefusal};
ghost use Rattle.call_replies.specs.Telling.{patch_answer, run_answer};

use crate::telling::say;
use delta_base::Text;
use http_session::Said;
use patch_log::RunFault;
use patch_meaning::PatchFault;
use rpc_answers::{Answer, into_reply};
use rpc_calls::CallFault;
use std::alloc::Global;

// Says that a patch is refused, at this place and for this reason.
fn say_place(alloc: Global, at: u64, kind: &'static str) -> Said
    ensures says { Says (Answer.BadPatch at kind.now) None result }
    ensures printable { IsPrintableSaid result }
{
    match Text::from_str(alloc, kind) {
        Ok(kind) => say(alloc, Answer::BadPatch { at, kind }),
        Err(_) => Said::OutOfMemory,
    }
}

/// Says the first fault of a text that is no patch.
pub fn say_fault(alloc: Global, fault: PatchFault) -> Said
    ensures says { Says (patch_answer fault) None result }
    ensures want { fault ≡ patch.OutOfMemory → result ≡ Said.OutOfMemory }
    ensures printable { IsPrintableSaid result }
{
    match fault {
        PatchFault::At { at, .. } => say_place(alloc, at, fault.name()),
        PatchFault::TooLong { length, .. } => say_place(alloc, length, fault.name()),
        PatchFault::OutOfMemory => Said::OutOfMemory,
    }
}

/// Says the first fault of a text that is no run of patches.
pub fn say_run_fault(alloc: Global, fault: RunFault) -> Said
    ensures says { Says (run_answer fault) None result }
    ensures want { fault ≡ run.OutOfMemory → result ≡ Said.OutOfMemory }
    ensures printable { IsPrintableSaid result }
{
    match fault {
        RunFault::TooLong { length, limit } => {
            say_fault(alloc, PatchFault::TooLong { length, limit })
        }
        RunFault::Patch(fault) => say_fault(alloc, fault),
        RunFault::BadRun { at } => say(alloc, Answer::BadRun { at }),
        RunFault::OutOfMemory => Said::OutOfMemory,
    }
}

// Says that a method isn't allowed, and which are.
fn say_methods(alloc: Global, allow: &'static str) -> Said
    requires { IsAllow (Some allow.now) }
    ensures says { Says Answer.BadMethod (Some allow.now) result }
    ensures printable { IsPrintableSaid result }
{
    match into_reply(alloc, Answer::BadMethod, false) {
        Ok(reply) => Said::Reply {
            reply,
            allow: Some(allow),
        },
        Err(_) => Said::OutOfMemory,
    }
}

// Says which member of a call is wrong.
fn say_member(alloc: Global, member: &'static str) -> Said
    ensures says { Says (Answer.BadCall member.now) None result }
    ensures printable { IsPrintableSaid result }
{
    match Text::from_str(alloc, member) {
        Ok(member) => say(alloc, Answer::BadCall { member }),
        Err(_) => Said::OutOfMemory,
    }
}

/// Says why a request is no call, or that memory ran out before that was known.
pub fn refuse(alloc: Global, fault: CallFault) -> Said
    requires { TellsMethods fault }
    ensures says { (outcome : CallOutcome) → IsFaultOf fault outcome → SaysRefusal outcome result }
    ensures printable { IsPrintableSaid result }
{
    match fault {
        CallFault::NoRoute => say(alloc, Answer::NoRoute),
        CallFault::BadMethod { allow } => say_methods(alloc, allow),
        CallFault::Media => say(alloc, Answer::Media),
        CallFault::BadJson => say(alloc, Answer::BadJson),
        CallFault::BadCall { member } => say_member(alloc, member),
        CallFault::OutOfMemory => Said::OutOfMemory,
    }
}
