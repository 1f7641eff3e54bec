//! A gate in memory.
ghost use Rattle.std.specs.Prelude.{◌≡◌, [], IfOk};

use crate::gate::{Arrival, Gate};
use delta_base::{CallCount, Calls, OutOfMemory};
use std::alloc::Global;
use std::marker::Model;

/// Links in memory that arrive one after another.
#[derive(Debug, Drop)]
pub struct MemGate<L> {
    /// The links left, the first one last.
    left: Vec<L>,
    /// How many have arrived.
    given: u64,
    /// The links put back; there is room for all that were left.
    back: Vec<L>,
    count: CallCount,
}

impl<L> Model for MemGate<L> {
    ghost use Rattle.std.specs.Prelude.{◌+◌, ◌-◌, ◌^◌, ◌<◌, ◌≤◌, vec_len, vec_capacity, reverse};
    ghost use Rattle.worker_pool.specs.Memory.{GateState, arrivals_from};

    ghost Value = { GateState L };

    ghost view = { λ g. record {
      arrivals = arrivals_from g.given (reverse g.left.items);
      back = g.back.items;
      room = vec_capacity g.back - vec_len g.back;
      failing = g.count.failing.items;
      calls = g.count.calls;
      faults = g.count.faults;
    } };

    ghost invariant = { λ g.
        (vec_len g.left ≤ vec_capacity g.back - vec_len g.back)
        × (g.given + vec_len g.left < 2 ^ 64) };
}

impl<L> MemGate<L> {
    ghost use Rattle.worker_pool.specs.Memory.{arrivals_from};

    /// The links arrive in their order, with the dice 0, 1, 2 and so on. The calls of `next` of the
    /// numbers in `failing`, from 0, fail.
    pub fn new(alloc: Global, links: Vec<L>, failing: Calls) -> Result<MemGate<L>, OutOfMemory>
    where
        L: Drop,
        ensures arrivals { IfOk result (λ gate. gate.arrivals ≡ arrivals_from 0 links.items) }
        ensures back { IfOk result (λ gate. gate.back ≡ []) }
        ensures failing { IfOk result (λ gate. gate.failing ≡ failing.items) }
        ensures calls { IfOk result (λ gate. (gate.calls ≡ 0) × (gate.faults ≡ 0)) }
    {
        let back = Vec::with_capacity(alloc, links.len())?;
        let mut left = links;
        left.reverse();
        Ok(MemGate {
            left,
            given: 0,
            back,
            count: CallCount::new(failing),
        })
    }

    /// The links put back, in their order.
    pub fn back(&self) -> &[L]
        ensures { result.now ≡ self.now.back }
    {
        &self.back
    }
}

impl<L> Gate for MemGate<L> {
    ghost use Rattle.std.specs.Prelude.{◌⊎◌, ◌<◌, ◌≤◌, ◌++◌, ◌∷◌, length};
    ghost use Rattle.std.specs.Prelude.{None, IfSome, IfNone, Contains};
    ghost use Rattle.delta_base.specs.Outside.{Rose};
    ghost use Rattle.worker_pool.specs.Memory.{CountsOnGate};

    type L = L;

    ghost tells = { Unit {0} };

    ghost arrivals = { λ g. g.arrivals };

    ghost back = { λ g. g.back };

    ghost awaits = { λ g. length g.arrivals < g.room };

    ghost faults = { λ g. g.faults };

    fn faults(&self) -> u64 {
        self.count.faults
    }

    fn next(&mut self) -> Option<Arrival<L>>
        ensures some { IfSome result (λ a. self.old.arrivals ≡ a ∷ self.new.arrivals) }
        ensures awaits { IfSome result (λ _. length self.new.arrivals < self.new.room) }
        ensures none { IfNone result (self.new.arrivals ≡ self.old.arrivals) }
        ensures cause { IfNone result
            ((Unit {0} × (self.new.arrivals ≡ [])) ⊎ Rose self.old.faults self.new.faults) }
        ensures back { self.new.back ≡ self.old.back }
        ensures never_falls { self.old.faults ≤ self.new.faults }

        // Exactly the listed calls fail.
        ensures listed { Contains self.old.failing self.old.calls → result ≡ None }
        ensures fails { IfNone result
            ((self.old.arrivals ≡ []) ⊎ Contains self.old.failing self.old.calls) }
        ensures faults { (self.new.faults ≡ self.old.faults)
            ⊎ Contains self.old.failing self.old.calls }
        ensures next { CountsOnGate self.old self.new }
    {
        if self.count.start().is_err() {
            return None;
        }
        let link = self.left.pop()?;
        let dice = u128::from(self.given);
        self.given += 1;
        Some(Arrival { link, dice })
    }

    fn put_back(&mut self, link: L)
        requires { length self.old.arrivals < self.old.room }
        ensures back { self.new.back ≡ self.old.back ++ link ∷ [] }
        ensures arrivals { self.new.arrivals ≡ self.old.arrivals }
        ensures faults { self.new.faults ≡ self.old.faults }
        ensures calls { self.new.calls ≡ self.old.calls }
        ensures failing { self.new.failing ≡ self.old.failing }
    {
        self.back.push_reserved(link);
    }
}
