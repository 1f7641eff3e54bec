//! Calls over a connection of their own.
ghost use Rattle.std.specs.Prelude.{◌≡◌, ◌≤◌, ◌+◌, None, true, IsNone, IfOk, IsErrOf};
ghost use Rattle.std.specs.List.{list_all};
ghost use Rattle.delta_base.specs.Memory.{CountsCall};
ghost use Rattle.delta_base.specs.Outside.{Rose};
ghost use Rattle.http_text.specs.Print.{is_visible};
ghost use Rattle.delta_client.specs.Exchanges.{dial_view};
ghost use Rattle.delta_client.specs.Lines.{opens};
ghost use Rattle.client_commands.specs.Asks.{AsksBoth, AsksOnce, AsksOver, AsksTwo, Joins};

use crate::fault::ClientFault;
use crate::printed::end_of;
use delta_base::{Bytes, OutOfMemory, Text};
use delta_client::{Dial, Line, ask_again};
use rpc_calls::Call;
use std::alloc::Global;

// The calls that describe a log: for its source, and for the log itself.
#[derive(Drop)]
struct TwoCalls {
    source: Call,
    log: Call,
}

impl TwoCalls {
    fn of_name(name: &Text) -> Result<TwoCalls, OutOfMemory>
        ensures source { IfOk result (λ calls. calls.source ≡ Call.Source name.now) }
        ensures log { IfOk result (λ calls. calls.log ≡ Call.Log name.now) }
    {
        let one = name.copy()?;
        let other = name.copy()?;
        Ok(TwoCalls {
            source: Call::Source { name: one },
            log: Call::Log { name: other },
        })
    }
}

// Asks over what is open, or over a new connection.
fn ask_over<N: Dial>(
    alloc: Global,
    net: &mut N,
    line: &mut Line<N::L>,
    address: &Text,
    call: &Call,
) -> Result<Bytes, ClientFault>
    requires visible { list_all is_visible address.now ≡ true }
    requires count { opens line.old.open ≤ N.held net.old }
    ensures asks { N.tells → AsksOver N.L.left N.L.sent address.now call.now line.old.open
        (dial_view N.Dial net.old) (dial_view N.Dial net.new) line.new.open result }
    ensures count { N.held net.new + opens line.old.open ≡ N.held net.old + opens line.new.open }
    ensures tried { IsNone line.old.open → CountsCall (N.tries net.old) (N.tries net.new) }
    ensures tries { N.tries net.new ≤ N.tries net.old + 1 }
    ensures cause { IsErrOf result ClientFault.LinkFailed
        → Rose (N.faults net.old) (N.faults net.new) }
    ensures never_falls { N.faults net.old ≤ N.faults net.new }
{
    match ask_again(alloc, net, line, address, call) {
        Ok(answer) => end_of(alloc, answer),
        Err(fault) => Err(ClientFault::of_ask(fault)),
    }
}

/// Asks one call over a new connection, which is hung up, and gives what is printed: the answer's
/// JSON and a line feed, or a patch's bytes.
pub fn ask_once<N: Dial>(
    alloc: Global,
    net: &mut N,
    address: &Text,
    call: &Call,
) -> Result<Bytes, ClientFault>
    requires { list_all is_visible address.now ≡ true }
    ensures asks { N.tells → AsksOnce N.L.left N.L.sent address.now call.now
        (dial_view N.Dial net.old) (dial_view N.Dial net.new) result }
    ensures tries { CountsCall (N.tries net.old) (N.tries net.new) }
    ensures cause { IsErrOf result ClientFault.LinkFailed
        → Rose (N.faults net.old) (N.faults net.new) }
    ensures never_falls { N.faults net.old ≤ N.faults net.new }
{
    let mut line = Line::new();
    let ended = ask_over(alloc, net, &mut line, address, call);
    line.end(net);
    ended
}

// Asks for a source, and where it was answered, for its log.
fn ask_two<N: Dial>(
    alloc: Global,
    net: &mut N,
    line: &mut Line<N::L>,
    address: &Text,
    name: &Text,
) -> Result<Bytes, ClientFault>
    requires visible { list_all is_visible address.now ≡ true }
    requires none { line.old.open ≡ None }
    ensures asks { N.tells → AsksTwo N.L.left N.L.sent address.now name.now line.old.open
        (dial_view N.Dial net.old) (dial_view N.Dial net.new) line.new.open result }
    ensures count { N.held net.new + opens line.old.open ≡ N.held net.old + opens line.new.open }
    ensures tries { N.tries net.new ≤ N.tries net.old + 2 }
    ensures cause { IsErrOf result ClientFault.LinkFailed
        → Rose (N.faults net.old) (N.faults net.new) }
    ensures never_falls { N.faults net.old ≤ N.faults net.new }
{
    let calls = match TwoCalls::of_name(name) {
        Ok(calls) => calls,
        Err(_) => return Err(ClientFault::OutOfMemory),
    };
    match ask_over(alloc, net, line, address, &calls.source) {
        Ok(first) => {
            let second = ask_over(alloc, net, line, address, &calls.log);
            join(first, second)
        }
        Err(fault) => Err(fault),
    }
}

// The one text behind the other.
fn join(first: Bytes, second: Result<Bytes, ClientFault>) -> Result<Bytes, ClientFault>
    ensures { Joins first second result }
{
    match second {
        Ok(second) => {
            let mut text = first.into_vec();
            match text.extend_from_slice(second.as_slice()) {
                Ok(()) => Ok(Bytes::from_vec(text)),
                Err(_) => Err(ClientFault::OutOfMemory),
            }
        }
        Err(fault) => Err(fault),
    }
}

/// Asks for a source, and then, only where it was answered, for its log, and gives the JSON of
/// both, a line each.
pub fn describe<N: Dial>(
    alloc: Global,
    net: &mut N,
    address: &Text,
    name: &Text,
) -> Result<Bytes, ClientFault>
    requires { list_all is_visible address.now ≡ true }
    ensures asks { N.tells → AsksBoth N.L.left N.L.sent address.now name.now
        (dial_view N.Dial net.old) (dial_view N.Dial net.new) result }

    // Where the dial tells nothing, a connection is tried for twice at most.
    ensures tries { N.tries net.new ≤ N.tries net.old + 2 }
    ensures cause { IsErrOf result ClientFault.LinkFailed
        → Rose (N.faults net.old) (N.faults net.new) }
    ensures never_falls { N.faults net.old ≤ N.faults net.new }
{
    let mut line = Line::new();
    let ended = ask_two(alloc, net, &mut line, address, name);
    line.end(net);
    ended
}
