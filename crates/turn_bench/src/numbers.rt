//! The smallest value that a turn takes: numbers, each with the pass that added it.
ghost use Rattle.std.specs.Prelude.{◌≡◌, ◌≤◌, ◌++◌, ◌∷◌, [], ◌⊎◌, IfOk, length, filter, ◌==◌};
ghost use Rattle.std.specs.Prelude.{vec_len, vec_capacity};
ghost use Rattle.turn_bench.specs.Added.{HasAdded, LacksRoom};

use delta_base::OutOfMemory;
use std::alloc::Global;
use turn_cell::{Chained, Known};

#[derive(Drop)]
pub struct Numbers {
    pub entries: Vec<Known<u64>>,
    pub faults: u64,
}

impl Numbers {
    /// No numbers, and room for so many.
    pub fn with_room(alloc: Global, room: usize) -> Result<Numbers, OutOfMemory>
        ensures { IfOk result (λ n. (n.entries.items ≡ []) × (room ≤ vec_capacity n.entries)
            × (n.faults ≡ 0)) }
    {
        Ok(Numbers {
            entries: Vec::with_capacity(alloc, room)?,
            faults: 0,
        })
    }

    pub fn len(&self) -> usize
        ensures { result ≡ vec_len self.now.entries }
    {
        self.entries.len()
    }

    /// Adds a number, or counts a fault where there is no room.
    pub fn add(&mut self, number: u64, by: u32)
        ensures added { HasAdded number by self.old self.new ⊎ LacksRoom self.old self.new }
        ensures faults { self.old.faults ≤ self.new.faults }
    {
        let entry = Known {
            content: number,
            by,
        };
        if self.entries.push(entry).is_err() {
            self.faults = self.faults.saturating_add(1);
        }
    }

    /// How many were added by the pass of this number.
    pub fn count_by(&self, number: u32) -> usize
        ensures { result ≡ length (filter (λ entry. entry.by == number) self.now.entries.items) }
    {
        self.entries.iter().filter(|e| e.by == number).count()
    }
}

impl Chained for Numbers {
    ghost use Rattle.std.specs.Prelude.{None};
    ghost use Rattle.turn_bench.specs.Added.{nothing_apart};

    type Content = u64;

    type Doubt = ();

    type Fixed = ();

    ghost entries = { λ n. n.entries.items };

    ghost fault_count = { λ n. n.faults };

    ghost doubt = { λ n. None };

    ghost fixed = { λ n. tt };

    ghost fits = { λ f es. Unit {0} };

    ghost stands = { λ n. Unit {0} };

    ghost tells_apart = { nothing_apart };

    fn count(&self) -> u64 {
        self.entries.len() as u64
    }

    fn faults(&self) -> u64 {
        self.faults
    }

    fn standing(&self) {}
}
