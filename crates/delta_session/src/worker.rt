//! A worker of a hall, who serves one connection at a time.
use crate::hall::Hall;
use crate::pass::HallPass;
use crate::session::serve_session;
use delta_base::Link;
use disk_model::Disk;
use std::alloc::Global;
use std::marker::Model;
use std::sync::Wait;
use worker_pool::Worker;

/// One pass of a hall, by which connections are served.
#[derive(Drop)]
pub struct HallWorker<'a, D: Disk> {
    alloc: Global,
    hall: &'a Hall<D>,
    pass: HallPass<D>,
}

impl<'a, D: Disk> Model for HallWorker<'a, D> {
    ghost use Rattle.delta_session.specs.Halls.{IsHallPass};
    ghost use Rattle.delta_session.specs.Sessions.{WorkerView};

    ghost Value = { WorkerView D };

    ghost view = { λ w. record { hall = w.hall.now; pass = w.pass } };

    ghost invariant = { λ w. IsHallPass D.Disk w.hall.now w.pass.lists };
}

impl<'a, D: Disk> HallWorker<'a, D> {
    ghost use Rattle.std.specs.Prelude.{◌≡◌};
    ghost use Rattle.delta_session.specs.Halls.{IsHallPass};

    /// A worker with a pass of the hall.
    pub fn new(alloc: Global, hall: &'a Hall<D>, pass: HallPass<D>) -> HallWorker<'a, D>
        requires ready { IsHallPass D.Disk hall.now pass.lists }
        ensures worker { (result.hall ≡ hall.now) × (result.pass ≡ pass) }
    {
        HallWorker { alloc, hall, pass }
    }

    /// Its pass, as it is handed back.
    pub fn into_pass(self) -> HallPass<D>
        ensures pass { result ≡ self.entry.pass }
        ensures ready { IsHallPass D.Disk self.entry.hall result.lists }
    {
        let HallWorker { pass, .. } = self;
        pass
    }
}

impl<'a, D: Disk, L: Link> Worker<L> for HallWorker<'a, D> {
    ghost use Rattle.delta_session.specs.Sessions.{WorksSession};

    ghost works = { λ before link dice after left. WorksSession D.Disk L.Link before
        link dice after left };

    fn work<R: Wait>(&mut self, rt: &R, link: &mut L, dice: u128) {
        serve_session(rt, self.alloc, self.hall, &mut self.pass, link, dice);
    }
}
