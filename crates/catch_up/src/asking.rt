//! Asking a log's server.
ghost use Rattle.std.specs.Prelude.{◌≡◌, ◌≢◌, ◌≤◌, ◌+◌, ℕ, true, List, IfOk, IsErrOf, map};
ghost use Rattle.std.specs.List.{list_all};
ghost use Rattle.delta_base.specs.Outside.{Rose};
ghost use Rattle.http_text.specs.Print.{is_visible};
ghost use Rattle.rpc_answers.specs.Answers.{NamesItsFault, status_of};
ghost use Rattle.delta_client.specs.Exchanges.{AsksAll, WasSaid, dial_view};
ghost use Rattle.delta_client.specs.Kinds.{MayAnswer};
ghost use Rattle.delta_client.specs.Lines.{opens};
ghost use Rattle.catch_up.specs.Ends.{IsRefusal, LogSays, LogTold};

use crate::end::{RunEnd, of_fault};
use delta_base::{Id, OutOfMemory, Text};
use delta_client::{Dial, Line, ask_again};
use rpc_answers::{Answer, into_reply};
use rpc_calls::Call;
use std::alloc::Global;

/// The end by a refusal.
pub(crate) fn refused<E>(alloc: Global, answer: Answer) -> RunEnd<E>
    requires named { NamesItsFault answer }
    requires refuses { status_of answer ≢ 200 }
    ensures { IsRefusal answer result }
{
    match into_reply(alloc, answer, false) {
        Ok(reply) => RunEnd::PeerRefused {
            status: reply.status,
            body: reply.body,
        },
        Err(_) => RunEnd::OutOfMemory,
    }
}

// The version and the head that an answer to the call for a log tells.
fn log_told<E>(alloc: Global, answer: Answer) -> Result<(u32, Option<Id>), RunEnd<E>>
    requires named { NamesItsFault answer }
    requires takes { (name : List ℕ) × MayAnswer (Call.Log name) answer }
    ensures { LogTold answer result }
{
    match answer {
        Answer::Info { version, head } => Ok((version, head)),
        Answer::NoSource => Err(RunEnd::NoSuchName),
        other => Err(refused(alloc, other)),
    }
}

// The call for a log.
fn log_call(name: &Text) -> Result<Call, OutOfMemory>
    ensures { IfOk result (λ call. call ≡ Call.Log name.now) }
{
    let name = name.copy()?;
    Ok(Call::Log { name })
}

/// The version and the head of the peer's log.
pub(crate) fn ask_log<E, N: Dial>(
    alloc: Global,
    net: &mut N,
    line: &mut Line<N::L>,
    address: &Text,
    name: &Text,
) -> Result<(u32, Option<Id>), RunEnd<E>>
    requires visible { list_all is_visible address.now ≡ true }
    requires count { opens line.old.open ≤ N.held net.old }
    ensures asked { (said : List WasSaid) × LogSays said result
        × (N.tells → AsksAll N.L.left N.L.sent address.now
        (map (λ one. Call.Log name.now) said) said
        line.old.open (dial_view N.Dial net.old) (dial_view N.Dial net.new) line.new.open) }
    ensures count { N.held net.new + opens line.old.open ≡ N.held net.old + opens line.new.open }
    ensures link { IsErrOf result RunEnd.LinkFault → Rose (N.faults net.old) (N.faults net.new) }
    ensures never_falls { N.faults net.old ≤ N.faults net.new }
{
    let call = match log_call(name) {
        Ok(call) => call,
        Err(_) => return Err(RunEnd::OutOfMemory),
    };
    let said = ask_again(alloc, net, line, address, &call);
    drop(call);
    match said {
        Ok(answer) => log_told(alloc, answer),
        Err(fault) => Err(of_fault(fault)),
    }
}
