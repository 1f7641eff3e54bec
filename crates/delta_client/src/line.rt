//! Calls to one address one after another. A connection is kept until a reply closes it.
ghost use Rattle.std.specs.Prelude.{◌≡◌, ◌⊎◌, ◌<◌, ◌≤◌, ◌+◌, ◌++◌, ℕ, List, Option};
ghost use Rattle.std.specs.Prelude.{Some, None, true, IfOk, IfErr, IfSome};
ghost use Rattle.std.specs.Prelude.{IfNone, IsErrOf, IsNone, IsSome, OnErr, OnOk};
ghost use Rattle.std.specs.List.{list_all};
ghost use Rattle.delta_base.specs.Memory.{CountsCall};
ghost use Rattle.delta_base.specs.Outside.{Rose};
ghost use Rattle.http_text.specs.Print.{is_visible};
ghost use Rattle.rpc_answers.specs.Answers.{NamesItsFault};
ghost use Rattle.delta_client.specs.Exchanges.{EndsExchanges, dial_view};
ghost use Rattle.delta_client.specs.Kinds.{MayAnswer};
ghost use Rattle.delta_client.specs.Lines.{AnswersOver, Connection, IsBegun};
ghost use Rattle.delta_client.specs.Lines.{IsOpen, Over, links_in, opens, told_of};

use crate::asking::ask;
use crate::dial::{Dial, DialFault};
use crate::fault::AskFault;
use delta_base::{Link, Text};
use http_text::ReplyReader;
use rpc_answers::Answer;
use rpc_calls::Call;
use std::alloc::Global;

/// A connection, with the reader that was given its bytes.
#[derive(Drop)]
pub struct Open<L> {
    pub link: L,
    pub reader: ReplyReader,
}

/// The connection that is open. There is none before the first call, behind a reply that closes,
/// and behind a fault.
#[derive(Drop)]
pub struct Line<L> {
    pub open: Option<Open<L>>,
}

impl<L: Link> Line<L> {
    /// Before the first call.
    pub fn new() -> Line<L>
        ensures { result.open ≡ None }
    {
        Line { open: None }
    }

    /// Hangs up what is open.
    pub fn hang_up<N: Dial<L = L>>(&mut self, net: &mut N)
        requires { opens self.old.open ≤ N.held net.old }
        ensures ended { self.new.open ≡ None }
        ensures count { N.held net.new + opens self.old.open ≡ N.held net.old }
        ensures back { N.tells → N.back net.new ≡ N.back net.old ++ links_in self.old.open }
        ensures to_come { N.tells → N.to_come net.new ≡ N.to_come net.old }
        ensures addresses { N.tells → N.addresses net.new ≡ N.addresses net.old }
        ensures tries { N.tries net.new ≡ N.tries net.old }
        ensures never_falls { N.faults net.old ≤ N.faults net.new }
        ensures rises { IfSome self.old.open (λ talk. 0 < L.faults talk.link
            → Rose (N.faults net.old) (N.faults net.new)) }
        ensures one { IfSome self.old.open (λ talk. 0 < L.faults talk.link
            → CountsCall (N.faults net.old) (N.faults net.new)) }
        ensures stays { IfSome self.old.open (λ talk. L.faults talk.link ≡ 0
            → N.faults net.new ≡ N.faults net.old) }
        ensures none { IfNone self.old.open (net.new ≡ net.old) }
    {
        match self.open.take() {
            Some(talk) => {
                let Open { link, reader } = talk;
                drop(reader);
                net.hang_up(link);
            }
            None => {}
        }
    }

    /// Hangs up what is open, behind the last call.
    pub fn end<N: Dial<L = L>>(self, net: &mut N)
        requires { opens self.open ≤ N.held net.old }
        ensures count { N.held net.new + opens self.open ≡ N.held net.old }
        ensures exchanged { N.tells → (address : List ℕ) → EndsExchanges L.left L.sent address
            self.open (dial_view N.Dial net.old) (dial_view N.Dial net.new) }
        ensures tries { N.tries net.new ≡ N.tries net.old }
        ensures never_falls { N.faults net.old ≤ N.faults net.new }
    {
        let mut line = self;
        line.hang_up(net);
        let Line { open } = line;
        match open {
            None => {}
            Some(_) => unreachable!(),
        }
    }
}

// Makes a connection, which is open then.
fn begin<N: Dial>(
    alloc: Global,
    net: &mut N,
    line: &mut Line<N::L>,
    address: &Text,
) -> Result<(), AskFault>
    requires { line.old.open ≡ None }
    ensures made { N.tells → OnOk result
        (IsBegun N.L.left address.now
        (told_of (N.to_come net.old) (N.addresses net.old) (N.back net.old))
        (told_of (N.to_come net.new) (N.addresses net.new) (N.back net.new)) line.new.open) }
    ensures open { OnOk result (IsSome line.new.open) }
    ensures count { N.held net.new + opens line.old.open ≡ N.held net.old + opens line.new.open }
    ensures refused { N.tells → OnErr result
        (told_of (N.to_come net.new) (N.addresses net.new) (N.back net.new)
        ≡ told_of (N.to_come net.old) (N.addresses net.old) (N.back net.old)) }
    ensures closed { OnErr result (line.new.open ≡ None) }
    ensures fault { IfErr result
        (λ fault. (fault ≡ AskFault.LinkFault) ⊎ (fault ≡ AskFault.OutOfMemory)) }
    ensures tries { CountsCall (N.tries net.old) (N.tries net.new) }
    ensures quiet { IsSome line.new.open → N.faults net.new ≡ N.faults net.old }
    ensures cause { IsErrOf result AskFault.LinkFault
        → Rose (N.faults net.old) (N.faults net.new) }
    ensures never_falls { N.faults net.old ≤ N.faults net.new }
{
    match net.connect(address) {
        Ok(link) => {
            let reader = ReplyReader::new(alloc);
            match line.open.replace(Open { link, reader }) {
                None => Ok(()),
                Some(_) => unreachable!(),
            }
        }
        Err(DialFault::Failed) => Err(AskFault::LinkFault),
        Err(DialFault::OutOfMemory) => Err(AskFault::OutOfMemory),
    }
}

// Asks over the connection that is open, and hangs up where the reply closes or there is no answer.
fn ask_open<N: Dial>(
    alloc: Global,
    net: &mut N,
    line: &mut Line<N::L>,
    address: &Text,
    call: &Call,
) -> Result<Answer, AskFault>
    requires visible { list_all is_visible address.now ≡ true }
    requires open { IsSome line.old.open }
    requires count { opens line.old.open ≤ N.held net.old }
    ensures over { N.tells → (over : Connection N.L) → IsOpen N.L.left (Some over) line.old.open
        → (link : N.L) × AnswersOver N.L.left N.L.sent address.now call.now over link
        (told_of (N.to_come net.old) (N.addresses net.old) (N.back net.old))
        (told_of (N.to_come net.new) (N.addresses net.new) (N.back net.new))
        line.new.open result }
    ensures count { N.held net.new + opens line.old.open ≡ N.held net.old + opens line.new.open }
    ensures named { IfOk result (λ answer. NamesItsFault answer) }
    ensures takes { IfOk result (λ answer. MayAnswer call.now answer) }
    ensures tries { N.tries net.new ≡ N.tries net.old }
    ensures quiet { IsSome line.new.open → N.faults net.new ≡ N.faults net.old }
    ensures cause { IsErrOf result AskFault.LinkFault
        → Rose (N.faults net.old) (N.faults net.new) }
    ensures never_falls { N.faults net.old ≤ N.faults net.new }
{
    let Some(talk) = &mut line.open else {
        unreachable!()
    };
    match ask(alloc, &mut talk.link, &mut talk.reader, address, call) {
        Ok(asked) => {
            if asked.close {
                line.hang_up(net);
            }
            Ok(asked.answer)
        }
        Err(fault) => {
            line.hang_up(net);
            Err(fault)
        }
    }
}

/// Asks over the connection that is open, or over a new one, which stays open unless the reply
/// closes it. Behind a fault nothing is open.
pub fn ask_again<N: Dial>(
    alloc: Global,
    net: &mut N,
    line: &mut Line<N::L>,
    address: &Text,
    call: &Call,
) -> Result<Answer, AskFault>
    requires visible { list_all is_visible address.now ≡ true }
    requires count { opens line.old.open ≤ N.held net.old }
    ensures over { N.tells → (standing : Option (Connection N.L))
        → IsOpen N.L.left standing line.old.open
        → Over N.L.left N.L.sent address.now call.now standing
        (told_of (N.to_come net.old) (N.addresses net.old) (N.back net.old))
        (told_of (N.to_come net.new) (N.addresses net.new) (N.back net.new))
        line.new.open result }
    ensures count { N.held net.new + opens line.old.open ≡ N.held net.old + opens line.new.open }
    ensures named { IfOk result (λ answer. NamesItsFault answer) }
    ensures takes { IfOk result (λ answer. MayAnswer call.now answer) }

    // A connection is tried for exactly where none is open.
    ensures kept { IsSome line.old.open → N.tries net.new ≡ N.tries net.old }
    ensures tried { IsNone line.old.open → CountsCall (N.tries net.old) (N.tries net.new) }

    // While a connection stays open, no fault is counted.
    ensures quiet { IsSome line.new.open → N.faults net.new ≡ N.faults net.old }
    ensures cause { IsErrOf result AskFault.LinkFault
        → Rose (N.faults net.old) (N.faults net.new) }
    ensures never_falls { N.faults net.old ≤ N.faults net.new }
{
    if line.open.is_some() {
        return ask_open(alloc, net, line, address, call);
    }
    match begin(alloc, net, line, address) {
        Ok(()) => ask_open(alloc, net, line, address, call),
        Err(fault) => Err(fault),
    }
}
