//! Calls one after another, and the connections that they go over.
ghost use Rattle.std.specs.Prelude.{◌≡◌, ◌≤◌, ◌+◌, true};
ghost use Rattle.std.specs.List.{list_all};
ghost use Rattle.http_text.specs.Print.{is_visible};
ghost use Rattle.delta_client.specs.Lines.{opens};

use crate::asking::{WHOLE, link_of, tell_fault, tell_version, version_call};
use crate::changes::Changes;
use crate::requests;
use crate::values::calls;
use case_scripts::{Answer as Told, Words};
use delta_base::{MemLink, OutOfMemory, Text};
use delta_client::{AskFault, Dial, Line, MemDial, ask_again};
use rpc_answers::Answer;
use rpc_calls::Call;
use std::alloc::Global;
use std::fmt::Write;

/// What stands between the things that are told.
const BREAK: &[u8] = b" | ";

/// Connections that give texts in turn.
#[derive(Clone, Copy)]
struct Plan<'a> {
    /// The texts are the words from this place on.
    words: &'a Words,
    place: usize,
    /// How many bytes a read gives at most.
    piece: usize,
    /// The call of the dial that fails, and that of the first connection.
    dial: Option<u64>,
    link: Option<u64>,
}

// Adds the connections of a plan.
fn add_links(alloc: Global, links: &mut Vec<MemLink>, plan: Plan<'_>) -> Result<(), OutOfMemory> {
    for place in plan.place..=plan.words.count() {
        let number = if place == plan.place { plan.link } else { None };
        links.push(link_of(alloc, plan.words.bytes(place), plan.piece, number))?;
    }
    Ok(())
}

// The dial of a plan.
fn dial_of(alloc: Global, plan: Plan<'_>) -> Result<MemDial<MemLink>, OutOfMemory> {
    let mut links = Vec::new(alloc);
    match add_links(alloc, &mut links, plan) {
        Ok(()) => MemDial::new(alloc, links, calls(alloc, plan.dial)),
        Err(fault) => {
            drop(links);
            Err(fault)
        }
    }
}

// Tells what is answered.
fn tell_answer(answer: Result<Answer, AskFault>, told: &mut Told) {
    match answer {
        Ok(answer) => {
            tell_version(&answer, told);
            drop(answer);
        }
        Err(fault) => tell_fault(fault, told),
    }
    told.push(BREAK);
}

// Asks a host once more, and tells what is answered.
fn tell_asked<N: Dial>(
    alloc: Global,
    net: &mut N,
    line: &mut Line<N::L>,
    host: &Text,
    call: &Call,
    told: &mut Told,
)
    requires visible { list_all is_visible host.now ≡ true }
    requires count { opens line.old.open ≤ N.held net.old }
    ensures { N.held net.new + opens line.old.open ≡ N.held net.old + opens line.new.open }
{
    tell_answer(ask_again(alloc, net, line, host, call), told);
}

// Asks twice, and hangs up what is open then.
fn tell_both(
    alloc: Global,
    net: &mut MemDial<MemLink>,
    told: &mut Told,
) -> Result<(), OutOfMemory> {
    let host = requests::host(alloc)?;
    let call = version_call(alloc)?;
    let mut line = Line::new();
    tell_asked(alloc, net, &mut line, &host, &call, told);
    tell_asked(alloc, net, &mut line, &host, &call, told);
    line.hang_up(net);
    drop(line);
    drop(call);
    Ok(())
}

// Tells how often a connection was tried for, how many calls failed, and of each connection that was hung up what was
// sent on it.
fn tell_net(net: &MemDial<MemLink>, told: &mut Told) {
    let _ = write!(told, "{} tries, {} faults", net.tries(), net.faults());
    if net.addresses().len() != net.back().len() {
        told.push(b", not all hung up");
    }
    for (address, link) in net.addresses().iter().zip(net.back()) {
        told.push(BREAK);
        told.push(address.as_bytes());
        told.push(b": ");
        told.push(link.sent());
    }
}

// Tells what comes of two calls over the connections of a plan.
fn tell_plan(alloc: Global, plan: Plan<'_>, told: &mut Told) {
    let Ok(mut net) = dial_of(alloc, plan) else {
        return told.push(b"out of memory");
    };
    if tell_both(alloc, &mut net, told).is_err() {
        told.push(b"out of memory");
    }
    tell_net(&net, told);
    drop(net);
}

/// `twice NUMBER TEXT ..`: what is answered to two calls over connections that give these texts, how often a connection
/// was tried for and a call failed, and what was sent on each connection. The dial's call of that number fails.
pub(crate) fn twice(alloc: Global, words: &Words, told: &mut Told) {
    let plan = Plan {
        words,
        place: 2,
        piece: WHOLE,
        dial: words.number(1),
        link: None,
    };
    tell_plan(alloc, plan, told);
}

/// `breaks TEXT TEXT`: the same where the call of each number of the first connection fails in turn, as far as each one
/// gives a byte of its text, from the numbers on where something else comes of it.
pub(crate) fn breaks(alloc: Global, words: &Words, told: &mut Told) {
    let mut changes = Changes::new(alloc, b" ; ", told);
    for number in 0..=words.bytes(1).len() as u64 {
        let plan = Plan {
            words,
            place: 1,
            piece: 1,
            dial: None,
            link: Some(number),
        };
        let mut next = Told::new(alloc);
        tell_plan(alloc, plan, &mut next);
        changes.add(number, next);
    }
}
