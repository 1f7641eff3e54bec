//! A hall that two passes share.
ghost use Rattle.std.specs.Prelude.{◌<◌, vec_len};

use delta_base::Link;
use delta_session::{Hall, HallPasses, HallRefusal, open_hall, serve_session};
use disk_model::Disk;
use http_text::SessionEnd;
use std::alloc::Global;
use std::marker::Model;
use std::sync::Wait;

/// A hall with its two passes, so that it can be closed at any moment.
#[derive(Drop)]
pub(crate) struct Opened<D: Disk> {
    alloc: Global,
    hall: Hall<D>,
    passes: HallPasses<D>,
}

impl<D: Disk> Model for Opened<D> {
    ghost use Rattle.std.specs.Prelude.{◌≡◌};
    ghost use Rattle.delta_session.specs.Ends.{HasHallRoom};
    ghost use Rattle.delta_session.specs.Halls.{AreHallPasses};
    ghost use Rattle.delta_session.specs.Steps.{HallView};

    ghost Value = { HallView D };

    ghost view = { λ o. o.hall };

    ghost invariant = { λ o. AreHallPasses D.Disk o.hall o.passes.passes.items
        × HasHallRoom o.hall o.passes.room × (o.hall.logs.seats ≡ 2) };
}

impl<D: Disk> Opened<D> {
    pub(crate) fn new(alloc: Global, disks: Vec<D>) -> Result<Opened<D>, HallRefusal<D>>
        requires { 0 < vec_len disks }
    {
        let (hall, passes) = open_hall(alloc, disks, 2)?;
        Ok(Opened {
            alloc,
            hall,
            passes,
        })
    }

    /// A connection is served by one of the two passes, with 7 for its first id.
    pub(crate) fn serve<R: Wait, L: Link>(
        &mut self,
        rt: &R,
        place: usize,
        link: &mut L,
    ) -> SessionEnd
        requires { place < 2 }
    {
        let pass = &mut self.passes.passes[place];
        serve_session(rt, self.alloc, &self.hall, pass, link, 7)
    }

    pub(crate) fn own_faults(&self, place: usize) -> u64
        requires { place < 2 }
    {
        self.passes.passes[place].own_faults()
    }

    pub(crate) fn number(&self, place: usize) -> u32
        requires { place < 2 }
    {
        self.passes.passes[place].number()
    }

    /// Its disks.
    pub(crate) fn close(self) -> Vec<D>
        ensures { 0 < vec_len result }
    {
        let Opened { hall, passes, .. } = self;
        hall.close(passes)
    }
}
