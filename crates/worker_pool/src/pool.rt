//! Workers side by side, each at its gate.
ghost use Rattle.worker_pool.specs.Works.{AllServed, Served};

use crate::gate::Gate;
use crate::worker::Worker;
use std::sync::Wait;
use std::thread;
use std::thread::Threads;

/// A worker at its gate.
#[derive(Debug, Drop)]
pub struct Post<G, W> {
    pub gate: G,
    pub worker: W,
}

/// Has each worker serve the arrivals of its own gate, on a thread where one can be made, until its
/// gate gives no more. Takes no memory.
pub fn serve_all<R: Threads + Wait + Sync, G: Gate + Send, W: Worker<G::L> + Send>(
    rt: &R,
    posts: Vec<Post<G, W>>,
) -> Vec<Post<G, W>>
    ensures { AllServed G.tells G.arrivals G.back G.faults W.works posts.items result.items }
{
    let mut posts = posts;
    let threads = posts.len().max(1);
    thread::for_each_mut(
        rt,
        &mut posts,
        threads,
        &|_place: usize, post: &mut Post<G, W>|
            ensures { Served G.tells G.arrivals G.back G.faults W.works post.old post.new }
        { serve(rt, post) },
    );
    posts
}

// Serves the arrivals of one gate, one after another.
fn serve<R: Wait, G: Gate, W: Worker<G::L>>(rt: &R, post: &mut Post<G, W>)
    ensures { Served G.tells G.arrivals G.back G.faults W.works post.old post.new }
{
    for _ in rt.forever() {
        let Some(mut arrival) = post.gate.next() else {
            return;
        };
        post.worker.work(rt, &mut arrival.link, arrival.dice);
        post.gate.put_back(arrival.link);
    }
}
