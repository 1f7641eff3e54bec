//! The passes of a zone serve connections side by side.
ghost use Rattle.std.specs.Prelude.{◌≡◌, ◌≤◌, [], map, length, true, IfOk, IfErr};
ghost use Rattle.std.specs.Prelude.{vec_len, vec_capacity};
ghost use Rattle.std.specs.List.{list_all};
ghost use Rattle.http_text.specs.Print.{is_visible};
ghost use Rattle.turn_cell.specs.Turns.{AllOf};
ghost use Rattle.turn_cell.specs.Sharing.{AreAllPassesOf, IsPassOf};
ghost use Rattle.shared_zone.specs.History.{shared_zone};
ghost use Rattle.zone_session.specs.Working.{HasWorked, HaveServed, IsZoneOf, workers_of};

use crate::laws::sessions_are_served;
use crate::worker::ZoneWorker;
use delta_base::{Link, Text};
use delta_client::Dial;
use disk_model::Disk;
use gate_crews::{Crew, Seat, serve_crew};
use paired_zone::PairedZone;
use shared_zone::{ZoneHall, ZonePass};
use std::alloc::Global;
use std::sync::Wait;
use std::thread::Threads;
use worker_pool::Gate;

/// What is left once no gate gives a connection more: the zone, and the gates in their order.
#[derive(Drop)]
pub struct Worked<D: Disk, G> {
    pub zone: PairedZone<D>,
    pub gates: Vec<G>,
}

// Makes a worker of each pass and a net.
fn engage<'a, N, D: Disk>(
    alloc: Global,
    hall: &'a ZoneHall<D>,
    address: &'a Text,
    name: &'a Text,
    passes: &mut Vec<ZonePass<D>>,
    nets: Vec<N>,
    workers: &mut Vec<ZoneWorker<'a, N, D>>,
)
    requires visible { list_all is_visible address.now ≡ true }
    requires of { AllOf (IsPassOf (shared_zone D.Disk) hall.now) passes.old.items }
    requires nets { length nets.items ≡ length passes.old.items }
    requires room { (workers.old.items ≡ []) × (vec_len passes.old ≤ vec_capacity workers.old) }
    ensures workers { workers.new.items
        ≡ workers_of hall.now address.now name.now passes.old.items nets.items }
    ensures none { passes.new.items ≡ [] }
    ensures room { vec_capacity passes.new ≡ vec_capacity passes.old }
{
    let mut nets = nets;
    while let Some(pass) = passes.pop() {
        let Some(net) = nets.pop() else {
            unreachable!()
        };
        let seat = Seat { pass, net };
        workers.push_reserved(ZoneWorker::new(alloc, hall, address, name, seat));
    }
    nets.destroy_empty();
    workers.reverse();
}

// Takes the passes back, and lets the nets go.
fn dismiss<'a, N: Drop, D: Disk>(workers: Vec<ZoneWorker<'a, N, D>>, passes: &mut Vec<ZonePass<D>>)
    requires room { (passes.old.items ≡ []) × (vec_len workers ≤ vec_capacity passes.old) }
    ensures passes { passes.new.items ≡ map (λ worker. worker.seat.pass) workers.entry.items }
{
    let mut workers = workers;
    while let Some(worker) = workers.pop() {
        let Seat { pass, net } = worker.into_seat();
        drop(net);
        passes.push_reserved(pass);
    }
    workers.destroy_empty();
    passes.reverse();
}

// Has each pass serve the connections of its own gate.
fn serve_passes<R, N, D, G>(
    rt: &R,
    alloc: Global,
    hall: &ZoneHall<D>,
    passes: &mut Vec<ZonePass<D>>,
    nets: Vec<N>,
    address: &Text,
    name: &Text,
    gates: Vec<G>,
) -> Result<Vec<G>, Vec<G>>
where
    R: Threads + Wait + Sync,
    N: Dial + Send + Drop,
    N::L: Send,
    D: Disk + Send,
    G: Gate + Send,
    G::L: Link + Send,
    requires visible { list_all is_visible address.now ≡ true }
    requires passes { AreAllPassesOf (shared_zone D.Disk) hall.now passes.old.items }
    requires nets { length nets.items ≡ length passes.old.items }
    requires gates { length gates.items ≡ length passes.old.items }
    ensures served { IfOk result (λ after. HaveServed D.Disk N.Dial N.L.left N.L.sent G.L.Link
        G.tells G.arrivals G.back G.faults
        (workers_of hall.now address.now name.now passes.old.items nets.items)
        gates.items after.items passes.new.items) }
    ensures want { IfErr result (λ left. (left.items ≡ gates.items)
        × (passes.new.items ≡ passes.old.items)) }
    ensures stay { AreAllPassesOf (shared_zone D.Disk) hall.now passes.new.items }
{
    sessions_are_served::<N, D>();
    let Ok(mut workers) = Vec::with_capacity(alloc, passes.len()) else {
        drop(nets);
        return Err(gates);
    };
    engage(alloc, hall, address, name, passes, nets, &mut workers);
    match serve_crew(rt, alloc, Crew { workers, gates }) {
        Ok(Crew { workers, gates }) => {
            dismiss(workers, passes);
            Ok(gates)
        }
        Err(Crew { workers, gates }) => {
            dismiss(workers, passes);
            Err(gates)
        }
    }
}

/// Has each pass serve the connections of its own gate, with a net of its own, until no gate gives
/// one more, and closes the zone. Where memory for that runs out, the zone is closed with no
/// connection served.
pub fn serve_zone<R, N, D, G>(
    rt: &R,
    alloc: Global,
    hall: ZoneHall<D>,
    passes: Vec<ZonePass<D>>,
    nets: Vec<N>,
    address: &Text,
    name: &Text,
    gates: Vec<G>,
) -> Result<Worked<D, G>, Worked<D, G>>
where
    R: Threads + Wait + Sync,
    N: Dial + Send + Drop,
    N::L: Send,
    D: Disk + Send,
    G: Gate + Send,
    G::L: Link + Send,
    requires visible { list_all is_visible address.now ≡ true }
    requires passes { AreAllPassesOf (shared_zone D.Disk) hall passes.items }
    requires nets { length nets.items ≡ length passes.items }
    requires gates { length gates.items ≡ length passes.items }
    ensures worked { IfOk result (λ worked. HasWorked D.Disk N.Dial N.L.left N.L.sent G.L.Link
        G.tells G.arrivals G.back G.faults hall
        (workers_of hall address.now name.now passes.items nets.items)
        gates.items worked.gates.items worked.zone) }
    ensures want { IfErr result (λ left. (left.gates.items ≡ gates.items)
        × IsZoneOf D.Disk hall passes.items left.zone) }
{
    let mut passes = passes;
    let served = serve_passes(rt, alloc, &hall, &mut passes, nets, address, name, gates);
    let zone = hall.close(passes);
    match served {
        Ok(gates) => Ok(Worked { zone, gates }),
        Err(gates) => Err(Worked { zone, gates }),
    }
}
