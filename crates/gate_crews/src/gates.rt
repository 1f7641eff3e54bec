//! The gates of workers and those that are idle.
ghost use Rattle.std.specs.Prelude.{◌≡◌, ◌↔◌, ◌+◌, ◌≤◌, ◌++◌, [], List, IfOk, IsTrue, map};
ghost use Rattle.std.specs.Prelude.{length, take, drop, reverse, vec_len, vec_capacity};
ghost use Rattle.delta_base.specs.Outside.{Rose};
ghost use Rattle.gate_crews.specs.Gates.{HaveFailed};

use delta_base::OutOfMemory;
use std::alloc::Global;
use worker_pool::Gate;

/// The counts of gates.
pub fn counts<G: Gate>(alloc: Global, gates: &[G]) -> Result<Vec<u64>, OutOfMemory>
    ensures { IfOk result (λ counts. counts.items ≡ map (λ gate. G.faults gate) gates.now) }
{
    let mut counts = Vec::new(alloc);
    for gate in gates {
        counts.push(gate.faults())?;
    }
    Ok(counts)
}

// Whether a count rose, or stands at its last value.
fn rose(before: u64, after: u64) -> bool
    ensures { IsTrue result ↔ Rose before after }
{
    before < after || after == u64::MAX
}

/// Whether one of the gates has another count than it had, or one at its last value.
pub fn have_failed<G: Gate>(counts: &[u64], gates: &[G]) -> bool
    requires { length counts.now ≡ length gates.now }
    ensures { (before : List G) → counts.now ≡ map (λ gate. G.faults gate) before
        → (IsTrue result ↔ HaveFailed (λ gate. G.faults gate) before gates.now) }
{
    for place in 0..counts.len() {
        if rose(counts[place], gates[place].faults()) {
            return true;
        }
    }
    false
}

/// Moves the gates behind those of so many workers to the idle ones, the last one first.
pub fn lay_aside<G>(gates: &mut Vec<G>, workers: usize, idle: &mut Vec<G>)
    requires some { workers ≤ vec_len gates.old }
    requires none { idle.old.items ≡ [] }
    requires room { vec_len gates.old ≤ vec_capacity idle.old }
    ensures gates { gates.new.items ≡ take workers gates.old.items }
    ensures idle { idle.new.items ≡ reverse (drop workers gates.old.items) }
    ensures room { vec_capacity idle.new ≡ vec_capacity idle.old }
{
    while gates.len() > workers {
        let Some(gate) = gates.pop() else {
            unreachable!()
        };
        idle.push_reserved(gate);
    }
}

/// The gates of workers, and behind them the idle ones, which came the last one first.
pub fn gather<G>(worked: Vec<G>, idle: Vec<G>) -> Vec<G>
    requires room { vec_len worked + vec_len idle ≤ vec_capacity idle }
    ensures { result.items ≡ worked.items ++ reverse idle.items }
{
    let mut worked = worked;
    let mut all = idle;
    while let Some(gate) = worked.pop() {
        all.push_reserved(gate);
    }
    worked.destroy_empty();
    all.reverse();
    all
}
