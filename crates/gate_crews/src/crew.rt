//! Workers at their gates.
ghost use Rattle.std.specs.Prelude.{◌≡◌, ◌≤◌, [], IfOk, IfErr, length, vec_len, vec_capacity};
ghost use Rattle.gate_crews.specs.Crews.{CrewServed, gates_at, posts_of, workers_at};

use std::alloc::Global;
use std::sync::Wait;
use std::thread::Threads;
use worker_pool::{Gate, Post, Worker, serve_all};

/// Workers and gates, one for one.
#[derive(Drop)]
pub struct Crew<W, G> {
    pub workers: Vec<W>,
    pub gates: Vec<G>,
}

// Puts each worker at its gate.
fn post<W, G>(workers: &mut Vec<W>, gates: &mut Vec<G>, posts: &mut Vec<Post<G, W>>)
    requires count { vec_len workers.old ≡ vec_len gates.old }
    requires room { (posts.old.items ≡ []) × (vec_len workers.old ≤ vec_capacity posts.old) }
    ensures posts { posts.new.items ≡ posts_of workers.old.items gates.old.items }
    ensures none { (workers.new.items ≡ []) × (gates.new.items ≡ []) }
    ensures room { (vec_capacity workers.new ≡ vec_capacity workers.old)
        × (vec_capacity gates.new ≡ vec_capacity gates.old) }
{
    while let Some(worker) = workers.pop() {
        let Some(gate) = gates.pop() else {
            unreachable!()
        };
        posts.push_reserved(Post { gate, worker });
    }
    posts.reverse();
}

// Takes workers and gates back.
fn relieve<W, G>(posts: Vec<Post<G, W>>, workers: &mut Vec<W>, gates: &mut Vec<G>)
    requires workers { (workers.old.items ≡ []) × (vec_len posts ≤ vec_capacity workers.old) }
    requires gates { (gates.old.items ≡ []) × (vec_len posts ≤ vec_capacity gates.old) }
    ensures workers { workers.new.items ≡ workers_at posts.items }
    ensures gates { gates.new.items ≡ gates_at posts.items }
{
    let mut posts = posts;
    while let Some(post) = posts.pop() {
        let Post { gate, worker } = post;
        workers.push_reserved(worker);
        gates.push_reserved(gate);
    }
    posts.destroy_empty();
    workers.reverse();
    gates.reverse();
}

/// Has each worker serve the connections of its own gate until no gate gives one more. Where memory
/// for that runs out, all come back with no connection served.
pub fn serve_crew<R: Threads + Wait + Sync, G: Gate + Send, W: Worker<G::L> + Send>(
    rt: &R,
    alloc: Global,
    crew: Crew<W, G>,
) -> Result<Crew<W, G>, Crew<W, G>>
    requires count { length crew.workers.items ≡ length crew.gates.items }
    ensures served { IfOk result (λ left. CrewServed G.tells G.arrivals G.back G.faults W.works
        crew.workers.items crew.gates.items left.workers.items left.gates.items) }
    ensures count { IfOk result (λ left. (length left.workers.items ≡ length crew.workers.items)
        × (length left.gates.items ≡ length crew.gates.items)) }
    ensures want { IfErr result (λ left. (left.workers.items ≡ crew.workers.items)
        × (left.gates.items ≡ crew.gates.items)) }
{
    let Crew {
        mut workers,
        mut gates,
    } = crew;
    let Ok(mut posts) = Vec::with_capacity(alloc, workers.len()) else {
        return Err(Crew { workers, gates });
    };
    post(&mut workers, &mut gates, &mut posts);
    relieve(serve_all(rt, posts), &mut workers, &mut gates);
    Ok(Crew { workers, gates })
}
