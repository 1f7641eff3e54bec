//! A mirror answers requests.
ghost use Rattle.std.specs.Prelude.{◌≡◌, true};
ghost use Rattle.std.specs.List.{list_all};
ghost use Rattle.http_session.specs.Said.{IsPrintableSaid};
ghost use Rattle.http_text.specs.Print.{is_visible};
ghost use Rattle.rpc_calls.specs.Surfaces.{IsMirrorCall};
ghost use Rattle.turn_cell.specs.Sharing.{IsPassOf};
ghost use Rattle.shared_log.specs.History.{shared_log};
ghost use Rattle.mirror_session.specs.Asking.{IsTaken};
ghost use Rattle.mirror_session.specs.Answered.{ByCall, Serves};
ghost use Rattle.mirror_session.specs.declared.asking.MirrorAsked.TheVariants.{Pull};

use crate::asking::{MirrorAsked, read_asked};
use crate::logs::{LogAsk, say_by_name};
use crate::telling::say_pull;
use call_replies::{refuse, say};
use delta_base::Text;
use delta_client::Dial;
use disk_model::Disk;
use gate_crews::Seat;
use http_heads::RawRequest;
use http_session::{Answerer, Said};
use mirror::pull;
use rpc_answers::Answer;
use rpc_calls::Call;
use shared_log::{LogPass, SharedLog};
use std::alloc::Global;
use std::marker::PhantomData;
use std::sync::Wait;

/// A log, and where its origin is, for passes with nets of one kind.
#[derive(Drop)]
pub(crate) struct Answering<'a, N: Dial, D: Disk> {
    pub(crate) log: &'a SharedLog<D>,
    pub(crate) address: &'a Text,
    pub(crate) name: &'a Text,
    pub(crate) net: PhantomData<N>,
}

impl<'a, N: Dial, D: Disk> Answering<'a, N, D> {
    // Has the log catch up with its origin, and says how that ended.
    fn catch_up<R: Wait>(&self, rt: &R, alloc: Global, seat: &mut Seat<LogPass<D>, N>) -> Said
        requires visible { list_all is_visible self.now.address.now ≡ true }
        requires of { IsPassOf (shared_log D.Disk) self.now.log.now seat.old.pass }
        ensures of { IsPassOf (shared_log D.Disk) self.now.log.now seat.new.pass }
        ensures pulls { Serves D.Disk N.Dial N.L.left N.L.sent self.now.log.now.origin
            self.now.address.now self.now.name.now Pull seat.old result seat.new }
        ensures printable { IsPrintableSaid result }
    {
        let Seat { pass, net } = seat;
        let end = pull(rt, alloc, self.log, pass, net, self.address, self.name);
        say_pull(alloc, end)
    }

    // What is said to a call.
    fn call<R: Wait>(&self, rt: &R, alloc: Global, pass: &mut LogPass<D>, call: Call) -> Said
        requires taken { IsMirrorCall call }
        requires of { IsPassOf (shared_log D.Disk) self.now.log.now pass.old }
        ensures of { IsPassOf (shared_log D.Disk) self.now.log.now pass.new }
        ensures by_call { ByCall D.Disk self.now.log.now.origin self.now.name.now call pass.old
            result pass.new }
        ensures printable { IsPrintableSaid result }
    {
        let (source, asked) = match call {
            Call::Ping => return say(alloc, Answer::Pong),
            Call::Log { name } => (name, LogAsk::Describe),
            Call::Version { name } => (name, LogAsk::Version),
            Call::FetchVersion { name, version } => (name, LogAsk::FetchVersion(version)),
            Call::FetchId { name, id } => (name, LogAsk::FetchId(id)),
            _ => unreachable!(),
        };
        say_by_name(rt, alloc, self.log, self.name, pass, source, asked)
    }

    // What is said to what is asked.
    fn serve<R: Wait>(
        &self,
        rt: &R,
        alloc: Global,
        seat: &mut Seat<LogPass<D>, N>,
        asked: MirrorAsked,
    ) -> Said
        requires visible { list_all is_visible self.now.address.now ≡ true }
        requires taken { IsTaken asked }
        requires of { IsPassOf (shared_log D.Disk) self.now.log.now seat.old.pass }
        ensures of { IsPassOf (shared_log D.Disk) self.now.log.now seat.new.pass }
        ensures serves { Serves D.Disk N.Dial N.L.left N.L.sent self.now.log.now.origin
            self.now.address.now self.now.name.now asked seat.old result seat.new }
        ensures printable { IsPrintableSaid result }
    {
        match asked {
            MirrorAsked::Ask(call) => self.call(rt, alloc, &mut seat.pass, call),
            MirrorAsked::Pull => self.catch_up(rt, alloc, seat),
        }
    }
}

impl<'a, N: Dial, D: Disk> Answerer for Answering<'a, N, D> {
    ghost use Rattle.std.specs.Prelude.{◌≡◌, true};
    ghost use Rattle.std.specs.List.{list_all};
    ghost use Rattle.http_text.specs.Print.{is_visible};
    ghost use Rattle.turn_cell.specs.Sharing.{IsPassOf};
    ghost use Rattle.shared_log.specs.History.{shared_log};
    ghost use Rattle.mirror_session.specs.Answered.{MirrorAnswered};

    type State = Seat<LogPass<D>, N>;

    ghost ready = { λ a seat. IsPassOf (shared_log D.Disk) a.log.now seat.pass
        × (list_all is_visible a.address.now ≡ true) };

    ghost answers = { λ a. MirrorAnswered D.Disk N.Dial N.L.left N.L.sent a.log.now.origin
        a.address.now a.name.now };

    fn answer<R: Wait>(
        &self,
        rt: &R,
        alloc: Global,
        state: &mut Seat<LogPass<D>, N>,
        request: RawRequest,
    ) -> Said {
        match read_asked(alloc, request) {
            Ok(asked) => self.serve(rt, alloc, state, asked),
            Err(fault) => refuse(alloc, fault),
        }
    }
}
