//! The passes of a hall serve connections side by side.
ghost use Rattle.std.specs.Prelude.{◌≡◌, ◌≤◌, [], map, length, IfOk, IfErr, vec_len, vec_capacity};
ghost use Rattle.turn_cell.specs.Turns.{AllOf};
ghost use Rattle.delta_session.specs.Ends.{HasHallRoom, IsEnded};
ghost use Rattle.delta_session.specs.Halls.{AreHallPasses, IsHallPass};
ghost use Rattle.delta_session.specs.Working.{HasWorked, HaveServed, workers_of};

use crate::hall::Hall;
use crate::pass::{HallPass, HallPasses};
use crate::worker::HallWorker;
use delta_base::Link;
use disk_model::Disk;
use gate_crews::{Crew, serve_crew};
use std::alloc::Global;
use std::sync::Wait;
use std::thread::Threads;
use worker_pool::Gate;

/// What is left once no gate gives a connection more: the disks in the order of their files, and
/// the gates in theirs.
#[derive(Drop)]
pub struct Worked<D: Disk, G> {
    pub disks: Vec<D>,
    pub gates: Vec<G>,
}

// Makes a worker of each pass.
fn engage<'a, D: Disk>(
    alloc: Global,
    hall: &'a Hall<D>,
    passes: &mut Vec<HallPass<D>>,
    workers: &mut Vec<HallWorker<'a, D>>,
)
    requires of { AllOf (λ pass. IsHallPass D.Disk hall.now pass.lists) passes.old.items }
    requires room { (workers.old.items ≡ []) × (vec_len passes.old ≤ vec_capacity workers.old) }
    ensures workers { workers.new.items ≡ workers_of hall.now passes.old.items }
    ensures none { passes.new.items ≡ [] }
    ensures room { vec_capacity passes.new ≡ vec_capacity passes.old }
{
    while let Some(pass) = passes.pop() {
        workers.push_reserved(HallWorker::new(alloc, hall, pass));
    }
    workers.reverse();
}

// Takes the passes back.
fn dismiss<'a, D: Disk>(workers: Vec<HallWorker<'a, D>>, passes: &mut Vec<HallPass<D>>)
    requires room { (passes.old.items ≡ []) × (vec_len workers ≤ vec_capacity passes.old) }
    ensures passes { passes.new.items ≡ map (λ worker. worker.pass) workers.entry.items }
{
    let mut workers = workers;
    while let Some(worker) = workers.pop() {
        passes.push_reserved(worker.into_pass());
    }
    workers.destroy_empty();
    passes.reverse();
}

// Has each pass serve the connections of its own gate.
fn serve_passes<R: Threads + Wait + Sync, D: Disk + Send, G: Gate + Send>(
    rt: &R,
    alloc: Global,
    hall: &Hall<D>,
    passes: &mut Vec<HallPass<D>>,
    gates: Vec<G>,
) -> Result<Vec<G>, Vec<G>>
where
    G::L: Link + Send,
    requires passes { AreHallPasses D.Disk hall.now passes.old.items }
    requires gates { length gates.items ≡ hall.now.logs.seats }
    ensures served { IfOk result (λ after. HaveServed D.Disk G.L.Link G.tells G.arrivals G.back
        G.faults hall.now passes.old.items gates.items after.items passes.new.items) }
    ensures want { IfErr result (λ left. (left.items ≡ gates.items)
        × (passes.new.items ≡ passes.old.items)) }
    ensures stay { AreHallPasses D.Disk hall.now passes.new.items }
{
    let Ok(mut workers) = Vec::with_capacity(alloc, passes.len()) else {
        return Err(gates);
    };
    engage(alloc, hall, passes, &mut workers);
    match serve_crew(rt, alloc, Crew { workers, gates }) {
        Ok(Crew { workers, gates }) => {
            dismiss(workers, passes);
            Ok(gates)
        }
        Err(Crew { workers, gates }) => {
            dismiss(workers, passes);
            Err(gates)
        }
    }
}

/// Has each pass serve the connections of its own gate until no gate gives one more, and closes the
/// hall. Where memory for that runs out, the hall is closed with no connection served.
pub fn serve_gates<R: Threads + Wait + Sync, D: Disk + Send, G: Gate + Send>(
    rt: &R,
    alloc: Global,
    hall: Hall<D>,
    passes: HallPasses<D>,
    gates: Vec<G>,
) -> Result<Worked<D, G>, Worked<D, G>>
where
    G::L: Link + Send,
    requires passes { AreHallPasses D.Disk hall passes.passes.items }
    requires room { HasHallRoom hall passes.room }
    requires gates { length gates.items ≡ hall.logs.seats }
    ensures worked { IfOk result (λ worked. HasWorked D.Disk G.L.Link G.tells G.arrivals G.back
        G.faults hall passes.passes.items gates.items worked.gates.items worked.disks.items) }
    ensures want { IfErr result (λ left. (left.gates.items ≡ gates.items)
        × IsEnded D.Disk hall passes.passes.items left.disks.items) }
{
    let HallPasses { mut passes, room } = passes;
    let served = serve_passes(rt, alloc, &hall, &mut passes, gates);
    let disks = hall.close(HallPasses { passes, room });
    match served {
        Ok(gates) => Ok(Worked { disks, gates }),
        Err(gates) => Err(Worked { disks, gates }),
    }
}
