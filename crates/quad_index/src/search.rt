//! The search for the keys that match a pattern.
ghost use Rattle.std.specs.Prelude.{◌≡◌, ◌+◌, ◌≤◌, IsTrue, IfOk, length};
ghost use Rattle.std.specs.List.{filter};
ghost use Rattle.std.specs.List.Sorted.{IsStrictlySortedBy};
ghost use Rattle.quad_index.specs.Key.{matches_key};
ghost use Rattle.quad_index.specs.Order.{placed_cmp, binds_front};
ghost use Rattle.quad_index.specs.Ordered.{keys_of};

use crate::key::{KeyPattern, QuadKey, matches};
use crate::order::{lowest, restored};
use crate::ordered::Ordered;
use crate::steps::Steps;
use delta_base::OutOfMemory;
use std::alloc::Global;
use std::sync::ledger::Ledger;

/// The keys that match, from the lowest that may on up to the first that doesn't.
pub(crate) fn search<L: Ledger>(
    alloc: Global,
    kept: &Ordered,
    pattern: &KeyPattern,
    steps: &mut Steps<L>,
) -> Result<Vec<QuadKey>, OutOfMemory>
    requires { IsTrue (binds_front kept.now.order pattern.now) }
    ensures found { IfOk result (λ found.
        found.items ≡ filter (matches_key pattern.now) (keys_of kept.now)) }
    ensures cost { IfOk result (λ found. steps.new ≤ steps.old + length found.items + 1) }
    ensures counted { IfOk result (λ found. steps.old + length found.items ≤ steps.new) }
    ensures sorted { IsStrictlySortedBy placed_cmp kept.now.keys }
{
    let mut found = Vec::new(alloc);
    let order = kept.order();
    let mut walk = kept.walk(&lowest(pattern));
    'walk: while let Some(placed) = walk.next(steps) {
        let key = restored(order, &placed);
        if !matches(pattern, &key) {
            break;
        }
        found.push(key)?;
    }
    Ok(found)
}
