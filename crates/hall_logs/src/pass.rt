//! What a thread knows of all logs.
ghost use Rattle.std.specs.Prelude.{◌≡◌, ◌-◌, ◌<◌, ◌≤◌, ◌++◌, ◌∷◌, [], length, IfOk};
ghost use Rattle.std.specs.Prelude.{Some, slice_get};
ghost use Rattle.std.specs.Borrow.{sem};
ghost use Rattle.hall_logs.specs.Slots.{all_faults};

use delta_base::OutOfMemory;
use disk_model::Disk;
use shared_log::LogPass;
use std::alloc::Global;
use std::marker::Model;

/// How many logs there may be.
pub(crate) const MOST_LOGS: usize = 16;

/// What a thread knows of the logs, a part of each. Contracts see it as the list of its parts.
pub struct LogsPass<D: Disk> {
    pub(crate) parts: Vec<LogPass<D>>,
}

impl<D: Disk> Model for LogsPass<D> {
    ghost use Rattle.std.specs.Prelude.{◌≤◌, List, vec_capacity};
    ghost use Rattle.shared_log.specs.History.{LogSight};

    ghost Value = { List LogSight };

    ghost view = { λ p. p.parts.items };

    ghost invariant = { λ p. 16 ≤ vec_capacity p.parts };
}

/// A pass that is let go leaves its views in the cells of the logs, which then can't be closed.
impl<D: Disk> Drop for LogsPass<D> {
    fn drop(self) {
        let Self { parts: _ } = self;
    }
}

impl<D: Disk> LogsPass<D> {
    ghost use Rattle.hall_logs.specs.Lent.{LendsPart};

    /// The own faults of all parts together, or the last value of u64 where the sum passes that.
    pub fn own_faults(&self) -> u64
        ensures { result ≡ all_faults self.now }
    {
        let mut sum = 0u64;
        for part in &self.parts {
            sum = sum.saturating_add(part.own_faults());
        }
        sum
    }

    // A pass without a part, with room for each.
    pub(crate) fn empty(alloc: Global) -> Result<LogsPass<D>, OutOfMemory>
        ensures { IfOk result (λ pass. pass ≡ []) }
    {
        Ok(LogsPass {
            parts: Vec::with_capacity(alloc, MOST_LOGS)?,
        })
    }

    // The part of the log of a slot.
    pub(crate) fn part_mut(&mut self, slot: u32) -> &mut LogPass<D>
        requires { (0 < slot) × (slot ≤ length self.old) }
        ensures* writes_back { sem 𝓛 (LendsPart D.row D.Disk self.entry slot result) }
        ensures value { slice_get self.old (slot - 1) ≡ Some result.now }
    {
        &mut self.parts[slot as usize - 1]
    }

    pub(crate) fn add(&mut self, part: LogPass<D>)
        requires { length self.old < 16 }
        ensures { self.new ≡ self.old ++ part ∷ [] }
    {
        self.parts.push_reserved(part);
    }

    pub(crate) fn take_last(&mut self) -> LogPass<D>
        requires { 0 < length self.old }
        ensures { self.old ≡ self.new ++ result ∷ [] }
    {
        let Some(part) = self.parts.pop() else {
            unreachable!()
        };
        part
    }
}
