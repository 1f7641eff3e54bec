//! A worker of a zone, who serves one connection at a time.
use crate::session::serve_zone_session;
use delta_base::{Link, Text};
use delta_client::Dial;
use disk_model::Disk;
use gate_crews::Seat;
use shared_zone::{ZoneHall, ZonePass};
use std::alloc::Global;
use std::marker::Model;
use std::sync::Wait;
use worker_pool::Worker;

/// One pass of a zone, by which connections are served, and the net over which the zone catches up
/// when one of them asks for that.
#[derive(Drop)]
pub struct ZoneWorker<'a, N, D: Disk> {
    alloc: Global,
    hall: &'a ZoneHall<D>,
    address: &'a Text,
    name: &'a Text,
    seat: Seat<ZonePass<D>, N>,
}

impl<'a, N, D: Disk> Model for ZoneWorker<'a, N, D> {
    ghost use Rattle.std.specs.Prelude.{◌≡◌, true};
    ghost use Rattle.std.specs.List.{list_all};
    ghost use Rattle.http_text.specs.Print.{is_visible};
    ghost use Rattle.turn_cell.specs.Sharing.{IsPassOf};
    ghost use Rattle.shared_zone.specs.History.{shared_zone};
    ghost use Rattle.zone_session.specs.Sessions.{WorkerView};

    ghost Value = { WorkerView D N };

    ghost view = { λ w. record {
      hall = w.hall.now;
      address = w.address.now;
      name = w.name.now;
      seat = w.seat;
    } };

    ghost invariant = { λ w. IsPassOf (shared_zone D.Disk) w.hall.now w.seat.pass
        × (list_all is_visible w.address.now ≡ true) };
}

impl<'a, N, D: Disk> ZoneWorker<'a, N, D> {
    ghost use Rattle.std.specs.Prelude.{◌≡◌, true};
    ghost use Rattle.std.specs.List.{list_all};
    ghost use Rattle.http_text.specs.Print.{is_visible};
    ghost use Rattle.turn_cell.specs.Sharing.{IsPassOf};
    ghost use Rattle.shared_zone.specs.History.{shared_zone};

    /// A worker with a pass of the zone and a net.
    pub fn new(
        alloc: Global,
        hall: &'a ZoneHall<D>,
        address: &'a Text,
        name: &'a Text,
        seat: Seat<ZonePass<D>, N>,
    ) -> ZoneWorker<'a, N, D>
        requires visible { list_all is_visible address.now ≡ true }
        requires ready { IsPassOf (shared_zone D.Disk) hall.now seat.pass }
        ensures zone { (result.hall ≡ hall.now) × (result.address ≡ address.now)
            × (result.name ≡ name.now) }
        ensures seat { result.seat ≡ seat }
    {
        ZoneWorker {
            alloc,
            hall,
            address,
            name,
            seat,
        }
    }

    /// Its pass and its net, as they are handed back.
    pub fn into_seat(self) -> Seat<ZonePass<D>, N>
        ensures seat { result ≡ self.entry.seat }
        ensures ready { IsPassOf (shared_zone D.Disk) self.entry.hall result.pass }
    {
        let ZoneWorker { seat, .. } = self;
        seat
    }
}

impl<'a, N: Dial, D: Disk, L: Link> Worker<L> for ZoneWorker<'a, N, D> {
    ghost use Rattle.zone_session.specs.Sessions.{WorksSession};

    ghost works = { λ before link dice after left. WorksSession D.Disk N.Dial N.L.left N.L.sent
        L.Link before link dice after left };

    fn work<R: Wait>(&mut self, rt: &R, link: &mut L, _dice: u128) {
        serve_zone_session(
            rt,
            self.alloc,
            self.hall,
            &mut self.seat,
            self.address,
            self.name,
            link,
        );
    }
}
