//! Catching up with a log of a server.
ghost use Rattle.std.specs.Prelude.{◌≡◌, ◌≤◌, ◌+◌, ◌++◌, ◌∷◌, [], List, ℕ, Ok, Err, true};
ghost use Rattle.std.specs.Prelude.{IfOk, IfErr, IfNone, IfSome, IsErrOf, None, map};
ghost use Rattle.std.specs.List.{list_all};
ghost use Rattle.delta_base.specs.Outside.{Rose};
ghost use Rattle.http_text.specs.Print.{is_visible};
ghost use Rattle.rpc_answers.specs.Answers.{NamesItsFault};
ghost use Rattle.rpc_answers.specs.declared.answer.Answer.TheVariants as given;
ghost use Rattle.delta_client.specs.Exchanges.{AsksAll, Exchanged, WasSaid, dial_view};
ghost use Rattle.delta_client.specs.Kinds.{MayAnswer};
ghost use Rattle.delta_client.specs.Lines.{opens};
ghost use Rattle.catch_up.specs.Ends.{Compares, GoesBefore};
ghost use Rattle.catch_up.specs.Runs.{FetchEnds, IsRunTo, RestIs, Run, TakenText};
ghost use Rattle.catch_up.specs.Runs.{calls_in, fetches_in, said_in, step_texts, texts_said};

use crate::asking::{ask_log, refused};
use crate::end::{RunEnd, of_fault};
use crate::replica::{Replica, Standing};
use delta_base::{Id, OutOfMemory, Text};
use delta_client::{Dial, Line, ask_again};
use rpc_answers::Answer;
use rpc_calls::Call;
use std::alloc::Global;

// The call for the patch of a version.
fn fetch_call(name: &Text, version: u32) -> Result<Call, OutOfMemory>
    ensures { IfOk result (λ call. call ≡ Call.FetchVersion name.now version) }
{
    let name = name.copy()?;
    Ok(Call::FetchVersion {
        name,
        version: u64::from(version),
    })
}

// Hands over what was answered to the fetch of the next version.
fn take_answer<T: Replica>(
    alloc: Global,
    replica: &T,
    state: &mut T::State,
    answer: Answer,
    version: u32,
) -> Result<u32, RunEnd<T::Refusal>>
    requires named { NamesItsFault answer }
    requires takes { (name : List ℕ) × (at : ℕ)
        × MayAnswer (Call.FetchVersion name at) answer }
    requires ready { T.ready replica.now state.old }
    requires next { (from : ℕ) × T.goes_on replica.now state.old from × (version ≡ from + 1) }
    ensures ok { IfOk result (λ reached. (text : List ℕ) × (answer ≡ given.Patch text)
        × T.takes replica.now state.old version text (Ok reached) state.new) }
    ensures err { IfErr result (λ end. FetchEnds (T.takes replica.now) version state.old
        (Ok answer ∷ []) end state.new) }
    ensures ready { T.ready replica.now state.new }
    ensures goes_on { IfOk result (λ reached. T.goes_on replica.now state.new reached) }
    ensures further { IfOk result (λ reached. version ≤ reached) }
    ensures link { IsErrOf result RunEnd.LinkFault → ⊥ }
{
    match answer {
        Answer::Patch { text } => {
            let taken = replica.take(alloc, state, text.as_slice(), version);
            drop(text);
            match taken {
                Ok(reached) => Ok(reached),
                Err(refusal) => Err(RunEnd::Refused(refusal)),
            }
        }
        Answer::NoSource => Err(RunEnd::NoSuchName),
        Answer::NoPatch { version: _ } => Err(RunEnd::NoPatch { version }),
        other => Err(refused(alloc, other)),
    }
}

// Fetches the text of the next version, and hands it over.
fn take_one<N: Dial, T: Replica>(
    alloc: Global,
    net: &mut N,
    line: &mut Line<N::L>,
    address: &Text,
    name: &Text,
    replica: &T,
    state: &mut T::State,
    version: u32,
) -> Result<u32, RunEnd<T::Refusal>>
    requires visible { list_all is_visible address.now ≡ true }
    requires count { opens line.old.open ≤ N.held net.old }
    requires ready { T.ready replica.now state.old }
    requires next { (from : ℕ) × T.goes_on replica.now state.old from × (version ≡ from + 1) }
    ensures ok { IfOk result (λ reached. (text : List ℕ)
        × T.takes replica.now state.old version text (Ok reached) state.new
        × (N.tells → AsksAll N.L.left N.L.sent address.now
        (Call.FetchVersion name.now version ∷ []) (Ok (given.Patch text) ∷ [])
        line.old.open (dial_view N.Dial net.old) (dial_view N.Dial net.new) line.new.open)) }
    ensures err { IfErr result (λ end. (said : List WasSaid)
        × FetchEnds (T.takes replica.now) version state.old said end state.new
        × (N.tells → AsksAll N.L.left N.L.sent address.now
        (map (λ one. Call.FetchVersion name.now version) said) said
        line.old.open (dial_view N.Dial net.old) (dial_view N.Dial net.new) line.new.open)) }
    ensures ready { T.ready replica.now state.new }
    ensures goes_on { IfOk result (λ reached. T.goes_on replica.now state.new reached) }
    ensures further { IfOk result (λ reached. version ≤ reached) }
    ensures count { N.held net.new + opens line.old.open ≡ N.held net.old + opens line.new.open }
    ensures link { IsErrOf result RunEnd.LinkFault → Rose (N.faults net.old) (N.faults net.new) }
    ensures never_falls { N.faults net.old ≤ N.faults net.new }
{
    let call = match fetch_call(name, version) {
        Ok(call) => call,
        Err(_) => return Err(RunEnd::OutOfMemory),
    };
    let said = ask_again(alloc, net, line, address, &call);
    drop(call);
    match said {
        Ok(answer) => take_answer(alloc, replica, state, answer, version),
        Err(fault) => Err(of_fault(fault)),
    }
}

// Fetches the text of each version behind this one, up to the peer's, and hands it over.
fn take_rest<N: Dial, T: Replica>(
    alloc: Global,
    net: &mut N,
    line: &mut Line<N::L>,
    address: &Text,
    name: &Text,
    replica: &T,
    state: &mut T::State,
    from: u32,
    theirs: u32,
) -> RunEnd<T::Refusal>
    requires visible { list_all is_visible address.now ≡ true }
    requires count { opens line.old.open ≤ N.held net.old }
    requires ready { T.ready replica.now state.old }
    requires goes_on { T.goes_on replica.now state.old from }
    ensures rest { (steps : List TakenText) × (last : List WasSaid)
        × RestIs (T.takes replica.now) theirs from state.old steps last result state.new
        × (N.tells → AsksAll N.L.left N.L.sent address.now
        (fetches_in name.now from steps last) (texts_said (step_texts steps) ++ last)
        line.old.open (dial_view N.Dial net.old) (dial_view N.Dial net.new) line.new.open) }
    ensures ready { T.ready replica.now state.new }
    ensures count { N.held net.new + opens line.old.open ≡ N.held net.old + opens line.new.open }
    ensures link { result ≡ RunEnd.LinkFault → Rose (N.faults net.old) (N.faults net.new) }
    ensures never_falls { N.faults net.old ≤ N.faults net.new }
{
    let mut reached = from;
    while reached < theirs {
        match take_one(alloc, net, line, address, name, replica, state, reached + 1) {
            Ok(further) => reached = further,
            Err(end) => return end,
        }
    }
    RunEnd::CaughtUp { version: theirs }
}

// The end by a log's version and head, where what is had doesn't go before it.
fn compared<E>(mine: u32, have: Option<Id>, theirs: u32, head: Option<Id>) -> Option<RunEnd<E>>
    ensures ends { IfSome result (Compares mine have theirs head) }
    ensures before { IfNone result (GoesBefore mine have theirs head) }
{
    if theirs < mine {
        return Some(RunEnd::PeerBehind { mine, theirs });
    }
    if theirs == mine && head != have {
        return Some(RunEnd::HeadsDiffer {
            version: mine,
            have,
            theirs: head,
        });
    }
    None
}

// Catches up over a line on which nothing is open.
fn catch_up_over<N: Dial, T: Replica>(
    alloc: Global,
    net: &mut N,
    line: &mut Line<N::L>,
    address: &Text,
    name: &Text,
    replica: &T,
    state: &mut T::State,
) -> RunEnd<T::Refusal>
    requires visible { list_all is_visible address.now ≡ true }
    requires count { opens line.old.open ≤ N.held net.old }
    requires ready { T.ready replica.now state.old }
    ensures run { (run : Run)
        × IsRunTo (T.takes replica.now) (T.shows replica.now) state.old run result state.new
        × (N.tells → AsksAll N.L.left N.L.sent address.now (calls_in name.now run) (said_in run)
        line.old.open (dial_view N.Dial net.old) (dial_view N.Dial net.new) line.new.open) }
    ensures ready { T.ready replica.now state.new }
    ensures count { N.held net.new + opens line.old.open ≡ N.held net.old + opens line.new.open }
    ensures link { result ≡ RunEnd.LinkFault → Rose (N.faults net.old) (N.faults net.new) }
    ensures never_falls { N.faults net.old ≤ N.faults net.new }
{
    let Standing { version, head } = replica.standing(state);
    match ask_log(alloc, net, line, address, name) {
        Ok((theirs, named)) => match compared(version, head, theirs, named) {
            Some(end) => end,
            None => take_rest(
                alloc, net, line, address, name, replica, state, version, theirs,
            ),
        },
        Err(end) => end,
    }
}

/// Asks the replica what it has and the peer for its log, and then fetches the text of each version
/// behind the replica's up to the version answered, and hands it over. Connections are made to the
/// address, and all are hung up.
pub fn catch_up<N: Dial, T: Replica>(
    alloc: Global,
    net: &mut N,
    address: &Text,
    name: &Text,
    replica: &T,
    state: &mut T::State,
) -> RunEnd<T::Refusal>
    requires visible { list_all is_visible address.now ≡ true }
    requires ready { T.ready replica.now state.old }

    // What the replica took is what the peer answered, and it ended by that. These calls were made
    // and no other.
    ensures run { (run : Run)
        × IsRunTo (T.takes replica.now) (T.shows replica.now) state.old run result state.new
        × (N.tells → Exchanged N.L.left N.L.sent address.now (calls_in name.now run) (said_in run)
        None (dial_view N.Dial net.old) (dial_view N.Dial net.new)) }
    ensures ready { T.ready replica.now state.new }
    ensures held { N.held net.new ≡ N.held net.old }
    ensures link { result ≡ RunEnd.LinkFault → Rose (N.faults net.old) (N.faults net.new) }
    ensures never_falls { N.faults net.old ≤ N.faults net.new }
{
    let mut line = Line::new();
    let end = catch_up_over(alloc, net, &mut line, address, name, replica, state);
    line.end(net);
    end
}
