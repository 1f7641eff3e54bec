//! The smallest pair that two turns take: numbers, and a tally of them.
ghost use Rattle.std.specs.Prelude.{◌≡◌, ◌<◌, ◌≤◌, ◌+◌, ◌++◌, ◌∷◌, [], IfOk};
ghost use Rattle.std.specs.Prelude.{vec_len, vec_capacity};
ghost use Rattle.twin_tests.specs.Numbers.{spare_of_numbers};

use delta_base::OutOfMemory;
use std::alloc::Global;
use turn_cell::Known;
use twin_cell::{Backed, Listed};

#[derive(Drop)]
pub struct Numbers {
    pub entries: Vec<Known<u64>>,
}

impl Numbers {
    pub fn new(alloc: Global) -> Numbers
        ensures { result.entries.items ≡ [] }
    {
        Numbers {
            entries: Vec::new(alloc),
        }
    }

    /// Room for one number more.
    pub fn reserve(&mut self) -> Result<(), OutOfMemory>
        ensures same { self.new.entries.items ≡ self.old.entries.items }
        ensures room { IfOk result (λ u. 1 ≤ spare_of_numbers self.new) }
    {
        self.entries.reserve(1)?;
        Ok(())
    }

    /// Puts a number behind the others, where there is room.
    pub fn push(&mut self, content: u64, by: u32)
        requires { 1 ≤ spare_of_numbers self.old }
        ensures { self.new.entries.items
            ≡ self.old.entries.items ++ record { content = content; by = by } ∷ [] }
    {
        self.entries.push_reserved(Known { content, by });
    }
}

impl Listed for Numbers {
    ghost use Rattle.twin_tests.specs.Numbers.{spare_of_numbers};

    type Content = u64;

    ghost entries = { λ n. n.entries.items };

    ghost spare = { spare_of_numbers };

    ghost fits = { λ es. Unit {0} };

    fn count(&self) -> u64 {
        self.entries.len() as u64
    }
}

/// How many numbers there are.
#[derive(Drop)]
pub struct Tally {
    pub total: u64,
    pub faults: u64,
}

impl Backed<Numbers> for Tally {
    ghost use Rattle.std.specs.Prelude.{◌≡◌, None, length};
    ghost use Rattle.twin_tests.specs.Numbers.{nothing_apart};

    type Doubt = ();

    type Fixed = ();

    ghost stands = { λ w es. w.total ≡ length es };

    ghost fault_count = { λ w. w.faults };

    ghost doubt = { λ w. None };

    ghost fixed = { λ w. tt };

    ghost tells_apart = { nothing_apart };

    fn faults(&self) -> u64 {
        self.faults
    }
}
