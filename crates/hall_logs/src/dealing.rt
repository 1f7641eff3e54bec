//! The parts of a log go to the passes, and come back.
ghost use Rattle.std.specs.Prelude.{◌≡◌, ◌<◌, ◌≤◌, [], length, vec_len, vec_capacity};
ghost use Rattle.turn_cell.specs.Turns.{AllOf};
ghost use Rattle.hall_logs.specs.Dealt.{with_items};

use crate::pass::LogsPass;
use disk_model::Disk;
use shared_log::LogPass;

// Gives each pass its part of one more log.
pub(crate) fn deal<D: Disk>(parts: &mut Vec<LogPass<D>>, passes: &mut Vec<LogsPass<D>>)
    requires count { vec_len parts.old ≡ vec_len passes.old }
    requires room { AllOf (λ parts. length parts < 16) passes.old.items }
    ensures dealt { passes.new.items ≡ with_items passes.old.items parts.old.items }
    ensures none { parts.new.items ≡ [] }
    ensures room { vec_capacity parts.new ≡ vec_capacity parts.old }
    ensures count { vec_len passes.new ≡ vec_len passes.old }
{
    let mut place = passes.len();
    while let Some(part) = parts.pop() {
        place -= 1;
        passes[place].add(part);
    }
}

// Takes the last part of each pass.
pub(crate) fn gather<D: Disk>(passes: &mut Vec<LogsPass<D>>, parts: &mut Vec<LogPass<D>>)
    requires some { AllOf (λ parts. 0 < length parts) passes.old.items }
    requires room { (parts.old.items ≡ []) × (vec_len passes.old ≤ vec_capacity parts.old) }
    ensures gathered { passes.old.items ≡ with_items passes.new.items parts.new.items }
    ensures passes { vec_len passes.new ≡ vec_len passes.old }
    ensures parts { vec_len parts.new ≡ vec_len passes.old }
{
    for place in 0..passes.len() {
        parts.push_reserved(passes[place].take_last());
    }
}
