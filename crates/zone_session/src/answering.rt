//! A zone answers requests.
ghost use Rattle.std.specs.Prelude.{◌≡◌, true};
ghost use Rattle.std.specs.List.{list_all};
ghost use Rattle.serde_json.specs.View.{view};
ghost use Rattle.http_session.specs.Said.{IsPrintableSaid};
ghost use Rattle.http_text.specs.Print.{is_visible};
ghost use Rattle.turn_cell.specs.Sharing.{IsPassOf};
ghost use Rattle.shared_zone.specs.History.{shared_zone};
ghost use Rattle.zone_session.specs.Asking.{asked_by_call, asks_sync};
ghost use Rattle.zone_session.specs.Answered.{DescribesZone, SaysMatches, Serves, ShowsMatches};

use crate::asking::{ZoneCall, read_asked};
use crate::matching::{read_pattern, say_shown};
use crate::telling::say_sync;
use call_replies::{refuse, say};
use dataset_tx::Pattern;
use delta_base::Text;
use delta_client::Dial;
use disk_model::Disk;
use gate_crews::Seat;
use http_heads::RawRequest;
use http_session::{Answerer, Said};
use log_base::LogInfo;
use rpc_answers::Answer;
use serde_json::Value;
use shared_zone::{ZoneHall, ZonePass};
use std::alloc::Global;
use std::marker::PhantomData;
use std::sync::Wait;
use zone_follower::follow;

/// A zone, and where its log is, for passes with nets of one kind.
#[derive(Drop)]
pub(crate) struct Answering<'a, N: Dial, D: Disk> {
    pub(crate) hall: &'a ZoneHall<D>,
    pub(crate) address: &'a Text,
    pub(crate) name: &'a Text,
    pub(crate) net: PhantomData<N>,
}

// Says how many patches the zone has taken, and the id of the last one.
fn say_version<R: Wait, D: Disk>(
    rt: &R,
    alloc: Global,
    hall: &ZoneHall<D>,
    pass: &mut ZonePass<D>,
) -> Said
    requires of { IsPassOf (shared_zone D.Disk) hall.now pass.old }
    ensures of { IsPassOf (shared_zone D.Disk) hall.now pass.new }
    ensures describes { DescribesZone D.Disk hall.now.origin pass.old result pass.new }
    ensures printable { IsPrintableSaid result }
{
    let LogInfo { version, head } = hall.describe(rt, pass);
    say(alloc, Answer::Info { version, head })
}

// Says the lines that match, with their version.
fn say_matching<R: Wait, D: Disk>(
    rt: &R,
    alloc: Global,
    hall: &ZoneHall<D>,
    pass: &mut ZonePass<D>,
    pattern: &Pattern,
) -> Said
    requires of { IsPassOf (shared_zone D.Disk) hall.now pass.old }
    ensures of { IsPassOf (shared_zone D.Disk) hall.now pass.new }
    ensures shows { SaysMatches D.Disk hall.now.origin pattern.now pass.old result pass.new }
    ensures printable { IsPrintableSaid result }
{
    match hall.read(rt, pass, pattern) {
        Ok(shown) => say_shown(alloc, shown),
        Err(_) => Said::OutOfMemory,
    }
}

// Says the lines that match the pattern of an object, or its first wrong member.
fn say_match<R: Wait, D: Disk>(
    rt: &R,
    alloc: Global,
    hall: &ZoneHall<D>,
    pass: &mut ZonePass<D>,
    value: Value,
) -> Said
    requires of { IsPassOf (shared_zone D.Disk) hall.now pass.old }
    ensures of { IsPassOf (shared_zone D.Disk) hall.now pass.new }
    ensures shows { ShowsMatches D.Disk hall.now.origin (view value) pass.old result pass.new }
    ensures printable { IsPrintableSaid result }
{
    let asked = read_pattern(alloc, &value);
    drop(value);
    match asked {
        Ok(pattern) => say_matching(rt, alloc, hall, pass, &pattern),
        Err(fault) => refuse(alloc, fault),
    }
}

impl<'a, N: Dial, D: Disk> Answering<'a, N, D> {
    // Has the zone catch up with its log, and says how that ended.
    fn catch_up<R: Wait>(&self, rt: &R, alloc: Global, seat: &mut Seat<ZonePass<D>, N>) -> Said
        requires visible { list_all is_visible self.now.address.now ≡ true }
        requires of { IsPassOf (shared_zone D.Disk) self.now.hall.now seat.old.pass }
        ensures of { IsPassOf (shared_zone D.Disk) self.now.hall.now seat.new.pass }
        ensures syncs { Serves D.Disk N.Dial N.L.left N.L.sent self.now.hall.now.origin
            self.now.address.now self.now.name.now asks_sync seat.old result seat.new }
        ensures printable { IsPrintableSaid result }
    {
        let Seat { pass, net } = seat;
        let end = follow(rt, alloc, self.hall, pass, net, self.address, self.name);
        say_sync(alloc, end)
    }

    // What is said to what is asked.
    fn serve<R: Wait>(
        &self,
        rt: &R,
        alloc: Global,
        seat: &mut Seat<ZonePass<D>, N>,
        call: ZoneCall,
    ) -> Said
        requires visible { list_all is_visible self.now.address.now ≡ true }
        requires of { IsPassOf (shared_zone D.Disk) self.now.hall.now seat.old.pass }
        ensures of { IsPassOf (shared_zone D.Disk) self.now.hall.now seat.new.pass }
        ensures serves { Serves D.Disk N.Dial N.L.left N.L.sent self.now.hall.now.origin
            self.now.address.now self.now.name.now (asked_by_call call) seat.old result seat.new }
        ensures printable { IsPrintableSaid result }
    {
        match call {
            ZoneCall::Version => say_version(rt, alloc, self.hall, &mut seat.pass),
            ZoneCall::Match(value) => say_match(rt, alloc, self.hall, &mut seat.pass, value),
            ZoneCall::Sync => self.catch_up(rt, alloc, seat),
        }
    }
}

impl<'a, N: Dial, D: Disk> Answerer for Answering<'a, N, D> {
    ghost use Rattle.std.specs.Prelude.{◌≡◌, true};
    ghost use Rattle.std.specs.List.{list_all};
    ghost use Rattle.http_text.specs.Print.{is_visible};
    ghost use Rattle.turn_cell.specs.Sharing.{IsPassOf};
    ghost use Rattle.shared_zone.specs.History.{shared_zone};
    ghost use Rattle.zone_session.specs.Answered.{ZoneAnswered};

    type State = Seat<ZonePass<D>, N>;

    ghost ready = { λ a seat. IsPassOf (shared_zone D.Disk) a.hall.now seat.pass
        × (list_all is_visible a.address.now ≡ true) };

    ghost answers = { λ a. ZoneAnswered D.Disk N.Dial N.L.left N.L.sent a.hall.now.origin
        a.address.now a.name.now };

    fn answer<R: Wait>(
        &self,
        rt: &R,
        alloc: Global,
        state: &mut Seat<ZonePass<D>, N>,
        request: RawRequest,
    ) -> Said {
        let asked = read_asked(alloc, &request);
        drop(request);
        match asked {
            Ok(call) => self.serve(rt, alloc, state, call),
            Err(fault) => refuse(alloc, fault),
        }
    }
}
