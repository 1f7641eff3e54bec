//! The top call of the server.
ghost use Rattle.std.specs.Prelude.{◌≡◌, ◌⊎◌, ◌≤◌, IfErr, IsErr, OnOk, length, take};
ghost use Rattle.slot_checks.specs.declared.marker.TheConstants.{FILES_MARKER};
ghost use Rattle.command_tables.specs.Markers.{StopsAtMark, Unmarked};
ghost use Rattle.command_tables.specs.Channels.{words_of};
ghost use Rattle.gate_crews.specs.Gates.{HaveFailed};
ghost use Rattle.delta_server.specs.Ends.{AnswersServe, FailsServe, StopsServe};
ghost use Rattle.delta_server.specs.Serving.{HasServed};
ghost use Rattle.command_tables.specs.Views.{output_view, shelf_view};

use crate::files::put_back;
use crate::opening::open;
use crate::words::{MOST_WORKERS, Serve, read_serve};
use command_tables::{Refusal, report};
use delta_base::{Link, Sink};
use delta_session::serve_gates;
use disk_model::Shelf;
use gate_crews::{counts, gather, have_failed, lay_aside};
use slot_checks::{FILES_MARKER, check_marker};
use std::alloc::Global;
use std::sync::Wait;
use std::thread::Threads;
use worker_pool::Gate;

/// What is left of a server that ended: its status, and the gates in their order.
#[derive(Drop)]
pub struct Served<G> {
    pub status: u8,
    pub gates: Vec<G>,
}

/// Serves what the words ask for: opens the hall of a directory's files, and has each worker serve
/// the connections of its own gate until that gives no more. Where the status isn't 0, a line
/// stands on `err`.
pub fn run_server<R: Threads + Wait + Sync, H: Shelf, G: Gate + Send, E: Sink>(
    rt: &R,
    alloc: Global,
    words: &[String],
    shelf: &mut H,
    gates: Vec<G>,
    err: &mut E,
) -> Served<G>
where
    H::D: Send,
    G::L: Link + Send,
    requires gates { length gates.items ≡ 16 }
    ensures { AnswersServe H.D.Disk H.Shelf G.L.Link G.Gate (words_of words.now)
        (shelf_view H.Shelf shelf.old) (shelf_view H.Shelf shelf.new) gates.items result.gates.items
        (output_view E.Sink err.old) (output_view E.Sink err.new) result.status }
{
    let serve = match read_serve(alloc, words) {
        Ok(serve) => serve,
        Err(refusal) => {
            let status = report(alloc, refusal, err);
            return Served { status, gates };
        }
    };
    let (gates, answer) = serve_unmarked(rt, alloc, &serve, shelf, gates);
    let status = match answer {
        Ok(()) => 0,
        Err(refusal) => report(alloc, refusal, err),
    };
    Served { status, gates }
}

// Serves the files of a directory where no upgrade of them was broken off.
fn serve_unmarked<R: Threads + Wait + Sync, H: Shelf, G: Gate + Send>(
    rt: &R,
    alloc: Global,
    serve: &Serve,
    shelf: &mut H,
    gates: Vec<G>,
) -> (Vec<G>, Result<(), Refusal>)
where
    H::D: Send,
    G::L: Link + Send,
    requires gates { length gates.items ≡ 16 }
    requires workers { (1 ≤ serve.now.workers) × (serve.now.workers ≤ 16) }
    ensures served { OnOk result.1 (Unmarked serve.now.dir FILES_MARKER H.tells (λ seen.
        HasServed H.D.Disk H.Shelf G.L.Link G.Gate serve.now.dir serve.now.workers seen.files
        (H.files shelf.new) gates.items result.0.items) (shelf_view H.Shelf shelf.old)) }
    ensures well { OnOk result.1 (HaveFailed G.faults (take serve.now.workers gates.items)
        (take serve.now.workers result.0.items) → ⊥) }
    ensures failed { IfErr result.1 (λ refusal.
        (StopsAtMark serve.now.dir FILES_MARKER H.tells
        (shelf_view H.Shelf shelf.old) (shelf_view H.Shelf shelf.new) refusal
        × (result.0.items ≡ gates.items))
        ⊎ Unmarked serve.now.dir FILES_MARKER H.tells (λ seen.
        FailsServe H.D.Disk H.Shelf G.L.Link G.Gate serve.now.dir serve.now.workers seen
        (shelf_view H.Shelf shelf.new) gates.items result.0.items refusal)
        (shelf_view H.Shelf shelf.old)) }
{
    match check_marker(alloc, shelf, &serve.dir, FILES_MARKER) {
        Ok(()) => serve_files(rt, alloc, serve, shelf, gates),
        Err(fault) => (gates, Err(Refusal::of_check(fault))),
    }
}

// Serves the files of a directory, and tells whether a gate of a worker has failed.
fn serve_files<R: Threads + Wait + Sync, H: Shelf, G: Gate + Send>(
    rt: &R,
    alloc: Global,
    serve: &Serve,
    shelf: &mut H,
    gates: Vec<G>,
) -> (Vec<G>, Result<(), Refusal>)
where
    H::D: Send,
    G::L: Link + Send,
    requires gates { length gates.items ≡ 16 }
    requires workers { (1 ≤ serve.now.workers) × (serve.now.workers ≤ 16) }
    ensures served { OnOk result.1 (HasServed H.D.Disk H.Shelf G.L.Link G.Gate serve.now.dir
        serve.now.workers (H.files shelf.old) (H.files shelf.new) gates.items result.0.items) }
    ensures well { OnOk result.1 (HaveFailed G.faults (take serve.now.workers gates.items)
        (take serve.now.workers result.0.items) → ⊥) }
    ensures failed { IfErr result.1 (FailsServe H.D.Disk H.Shelf G.L.Link G.Gate serve.now.dir
        serve.now.workers (shelf_view H.Shelf shelf.old) (shelf_view H.Shelf shelf.new)
        gates.items result.0.items) }
{
    let workers = serve.workers as usize;
    let Ok(before) = counts(alloc, &gates[..workers]) else {
        return (gates, Err(Refusal::OutOfMemory));
    };
    let (gates, answer) = serve_hall(rt, alloc, serve, shelf, gates);
    match answer {
        Ok(()) => {
            if have_failed(&before, &gates[..workers]) {
                (gates, Err(Refusal::LinkFailed))
            } else {
                (gates, Ok(()))
            }
        }
        Err(refusal) => (gates, Err(refusal)),
    }
}

// Opens the hall of a directory, and has its workers serve. The gates come back in their order.
fn serve_hall<R: Threads + Wait + Sync, H: Shelf, G: Gate + Send>(
    rt: &R,
    alloc: Global,
    serve: &Serve,
    shelf: &mut H,
    gates: Vec<G>,
) -> (Vec<G>, Result<(), Refusal>)
where
    H::D: Send,
    G::L: Link + Send,
    requires gates { length gates.items ≡ 16 }
    requires workers { (1 ≤ serve.now.workers) × (serve.now.workers ≤ 16) }
    ensures served { OnOk result.1 (HasServed H.D.Disk H.Shelf G.L.Link G.Gate serve.now.dir
        serve.now.workers (H.files shelf.old) (H.files shelf.new) gates.items result.0.items) }
    ensures stopped { IfErr result.1 (StopsServe H.D.Disk H.Shelf serve.now.dir serve.now.workers
        (shelf_view H.Shelf shelf.old) (shelf_view H.Shelf shelf.new)) }
    ensures same { IsErr result.1 → result.0.items ≡ gates.items }
{
    let mut gates = gates;
    let Ok(mut idle) = Vec::with_capacity(alloc, MOST_WORKERS as usize) else {
        return (gates, Err(Refusal::OutOfMemory));
    };
    let (hall, passes) = match open(alloc, shelf, &serve.dir, serve.workers) {
        Ok(opened) => opened,
        Err(refusal) => {
            idle.destroy_empty();
            return (gates, Err(refusal));
        }
    };
    lay_aside(&mut gates, serve.workers as usize, &mut idle);
    match serve_gates(rt, alloc, hall, passes, gates) {
        Ok(worked) => {
            put_back(shelf, worked.disks);
            (gather(worked.gates, idle), Ok(()))
        }
        Err(left) => {
            put_back(shelf, left.disks);
            (gather(left.gates, idle), Err(Refusal::OutOfMemory))
        }
    }
}
