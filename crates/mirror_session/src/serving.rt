//! The passes of a mirror serve connections side by side.
ghost use Rattle.std.specs.Prelude.{◌≡◌, ◌≤◌, [], map, length, true, IfOk, IfErr};
ghost use Rattle.std.specs.Prelude.{vec_len, vec_capacity};
ghost use Rattle.std.specs.List.{list_all};
ghost use Rattle.http_text.specs.Print.{is_visible};
ghost use Rattle.turn_cell.specs.Turns.{AllOf};
ghost use Rattle.turn_cell.specs.Sharing.{AreAllPassesOf, IsClosedOf, IsPassOf};
ghost use Rattle.shared_log.specs.History.{shared_log};
ghost use Rattle.mirror_session.specs.Working.{HasWorked, HaveServed, workers_of};

use crate::laws::sessions_are_served;
use crate::worker::MirrorWorker;
use delta_base::{Link, Text};
use delta_client::Dial;
use disk_model::Disk;
use gate_crews::{Crew, Seat, serve_crew};
use patch_log::LogState;
use shared_log::{LogPass, SharedLog, calls_compose};
use std::alloc::Global;
use std::sync::Wait;
use std::thread::Threads;
use worker_pool::Gate;

/// What is left once no gate gives a connection more: the log, and the gates in their order.
#[derive(Drop)]
pub struct Worked<D: Disk, G> {
    pub log: LogState<D>,
    pub gates: Vec<G>,
}

// Makes a worker of each pass and a net.
fn engage<'a, N: Dial + Drop, D: Disk>(
    alloc: Global,
    log: &'a SharedLog<D>,
    address: &'a Text,
    name: &'a Text,
    passes: &mut Vec<LogPass<D>>,
    nets: Vec<N>,
    workers: &mut Vec<MirrorWorker<'a, N, D>>,
)
    requires visible { list_all is_visible address.now ≡ true }
    requires of { AllOf (IsPassOf (shared_log D.Disk) log.now) passes.old.items }
    requires nets { length nets.items ≡ length passes.old.items }
    requires room { (workers.old.items ≡ []) × (vec_len passes.old ≤ vec_capacity workers.old) }
    ensures workers { workers.new.items
        ≡ workers_of log.now address.now name.now passes.old.items nets.items }
    ensures none { passes.new.items ≡ [] }
    ensures room { vec_capacity passes.new ≡ vec_capacity passes.old }
{
    let mut nets = nets;
    while let Some(pass) = passes.pop() {
        let Some(net) = nets.pop() else {
            unreachable!()
        };
        let seat = Seat { pass, net };
        workers.push_reserved(MirrorWorker::new(alloc, log, address, name, seat));
    }
    nets.destroy_empty();
    workers.reverse();
}

// Takes the passes back, and lets the nets go.
fn dismiss<'a, N: Dial + Drop, D: Disk>(
    workers: Vec<MirrorWorker<'a, N, D>>,
    passes: &mut Vec<LogPass<D>>,
)
    requires room { (passes.old.items ≡ []) × (vec_len workers ≤ vec_capacity passes.old) }
    ensures passes { passes.new.items ≡ map (λ worker. worker.seat.pass) workers.entry.items }
{
    let mut workers = workers;
    while let Some(worker) = workers.pop() {
        passes.push_reserved(worker.into_pass());
    }
    workers.destroy_empty();
    passes.reverse();
}

// Has each pass serve the connections of its own gate.
fn serve_passes<R, N, D, G>(
    rt: &R,
    alloc: Global,
    log: &SharedLog<D>,
    passes: &mut Vec<LogPass<D>>,
    nets: Vec<N>,
    address: &Text,
    name: &Text,
    gates: Vec<G>,
) -> Result<Vec<G>, Vec<G>>
where
    R: Threads + Wait + Sync,
    N: Dial + Send + Drop,
    N::L: Send,
    D: Disk + Send,
    G: Gate + Send,
    G::L: Link + Send,
    requires visible { list_all is_visible address.now ≡ true }
    requires passes { AreAllPassesOf (shared_log D.Disk) log.now passes.old.items }
    requires nets { length nets.items ≡ length passes.old.items }
    requires gates { length gates.items ≡ length passes.old.items }
    ensures served { IfOk result (λ after. HaveServed D.Disk N.Dial N.L.left N.L.sent G.L.Link
        G.tells G.arrivals G.back G.faults
        (workers_of log.now address.now name.now passes.old.items nets.items)
        gates.items after.items passes.new.items) }
    ensures want { IfErr result (λ left. (left.items ≡ gates.items)
        × (passes.new.items ≡ passes.old.items)) }
    ensures stay { AreAllPassesOf (shared_log D.Disk) log.now passes.new.items }
{
    sessions_are_served::<N, D>();
    calls_compose::<D>();
    let Ok(mut workers) = Vec::with_capacity(alloc, passes.len()) else {
        drop(nets);
        return Err(gates);
    };
    engage(alloc, log, address, name, passes, nets, &mut workers);
    match serve_crew(rt, alloc, Crew { workers, gates }) {
        Ok(Crew { workers, gates }) => {
            dismiss(workers, passes);
            Ok(gates)
        }
        Err(Crew { workers, gates }) => {
            dismiss(workers, passes);
            Err(gates)
        }
    }
}

/// Has each pass serve the connections of its own gate, with a net of its own, until no gate gives
/// one more, and closes the log. Where memory for that runs out, the log is closed with no
/// connection served.
pub fn serve_mirror<R, N, D, G>(
    rt: &R,
    alloc: Global,
    log: SharedLog<D>,
    passes: Vec<LogPass<D>>,
    nets: Vec<N>,
    address: &Text,
    name: &Text,
    gates: Vec<G>,
) -> Result<Worked<D, G>, Worked<D, G>>
where
    R: Threads + Wait + Sync,
    N: Dial + Send + Drop,
    N::L: Send,
    D: Disk + Send,
    G: Gate + Send,
    G::L: Link + Send,
    requires visible { list_all is_visible address.now ≡ true }
    requires passes { AreAllPassesOf (shared_log D.Disk) log passes.items }
    requires nets { length nets.items ≡ length passes.items }
    requires gates { length gates.items ≡ length passes.items }
    ensures worked { IfOk result (λ worked. HasWorked D.Disk N.Dial N.L.left N.L.sent G.L.Link
        G.tells G.arrivals G.back G.faults log
        (workers_of log address.now name.now passes.items nets.items)
        gates.items worked.gates.items worked.log) }
    ensures want { IfErr result (λ left. (left.gates.items ≡ gates.items)
        × IsClosedOf (shared_log D.Disk) log passes.items left.log) }
{
    let mut passes = passes;
    let served = serve_passes(rt, alloc, &log, &mut passes, nets, address, name, gates);
    let log = log.close(passes);
    match served {
        Ok(gates) => Ok(Worked { log, gates }),
        Err(gates) => Err(Worked { log, gates }),
    }
}
