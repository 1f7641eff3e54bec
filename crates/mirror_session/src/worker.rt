//! A worker of a mirror, who serves one connection at a time.
use crate::session::serve_mirror_session;
use delta_base::{Link, Text};
use delta_client::Dial;
use disk_model::Disk;
use gate_crews::Seat;
use shared_log::{LogPass, SharedLog};
use std::alloc::Global;
use std::marker::Model;
use std::sync::Wait;
use worker_pool::Worker;

/// One pass of a log, by which connections are served, and the net over which the log catches up
/// when one of them asks for that.
#[derive(Drop)]
pub struct MirrorWorker<'a, N: Dial + Drop, D: Disk> {
    alloc: Global,
    log: &'a SharedLog<D>,
    address: &'a Text,
    name: &'a Text,
    seat: Seat<LogPass<D>, N>,
}

impl<'a, N: Dial + Drop, D: Disk> Model for MirrorWorker<'a, N, D> {
    ghost use Rattle.std.specs.Prelude.{◌≡◌, true};
    ghost use Rattle.std.specs.List.{list_all};
    ghost use Rattle.http_text.specs.Print.{is_visible};
    ghost use Rattle.turn_cell.specs.Sharing.{IsPassOf};
    ghost use Rattle.shared_log.specs.History.{shared_log};
    ghost use Rattle.mirror_session.specs.Sessions.{WorkerView};

    ghost Value = { WorkerView D N };

    ghost view = { λ w. record {
      log = w.log.now;
      address = w.address.now;
      name = w.name.now;
      seat = w.seat;
    } };

    ghost invariant = { λ w. IsPassOf (shared_log D.Disk) w.log.now w.seat.pass
        × (list_all is_visible w.address.now ≡ true) };
}

impl<'a, N: Dial + Drop, D: Disk> MirrorWorker<'a, N, D> {
    ghost use Rattle.std.specs.Prelude.{◌≡◌, true};
    ghost use Rattle.std.specs.List.{list_all};
    ghost use Rattle.http_text.specs.Print.{is_visible};
    ghost use Rattle.turn_cell.specs.Sharing.{IsPassOf};
    ghost use Rattle.shared_log.specs.History.{shared_log};

    /// A worker with a pass of the log and a net.
    pub fn new(
        alloc: Global,
        log: &'a SharedLog<D>,
        address: &'a Text,
        name: &'a Text,
        seat: Seat<LogPass<D>, N>,
    ) -> MirrorWorker<'a, N, D>
        requires visible { list_all is_visible address.now ≡ true }
        requires ready { IsPassOf (shared_log D.Disk) log.now seat.pass }
        ensures log { (result.log ≡ log.now) × (result.address ≡ address.now)
            × (result.name ≡ name.now) }
        ensures seat { result.seat ≡ seat }
    {
        MirrorWorker {
            alloc,
            log,
            address,
            name,
            seat,
        }
    }

    /// Its pass, as it is handed back. Its net is let go.
    pub fn into_pass(self) -> LogPass<D>
        ensures pass { result ≡ self.entry.seat.pass }
        ensures ready { IsPassOf (shared_log D.Disk) self.entry.log result }
    {
        let MirrorWorker { seat, .. } = self;
        let Seat { pass, net } = seat;
        drop(net);
        pass
    }
}

impl<'a, N: Dial + Drop, D: Disk, L: Link> Worker<L> for MirrorWorker<'a, N, D> {
    ghost use Rattle.mirror_session.specs.Sessions.{WorksSession};

    ghost works = { λ before link dice after left. WorksSession D.Disk N.Dial N.L.left N.L.sent
        L.Link before link dice after left };

    fn work<R: Wait>(&mut self, rt: &R, link: &mut L, _dice: u128) {
        serve_mirror_session(
            rt,
            self.alloc,
            self.log,
            &mut self.seat,
            self.address,
            self.name,
            link,
        );
    }
}
