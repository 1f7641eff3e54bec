//! Ids, a line each.
ghost use Rattle.std.specs.Prelude.{◌≡◌, ◌∷◌, ℕ, List, IfOk, IfSome, IfNone, IsErrOf};
ghost use Rattle.delta_base.specs.declared.id.Id.{Id as IdNumber};
ghost use Rattle.checkpoint_text.specs.Text.{line_of_id, IsIdValue};
ghost use Rattle.checkpoint_reading.specs.Front.{IsInFront, NoneInFront, AreInFront};

use crate::fault::CheckpointFault;
use delta_base::{Id, Listing, exact_id};
use std::alloc::Global;

// What stands behind a line feed.
fn behind_feed(text: &[u8]) -> Option<&[u8]>
    ensures some { IfSome result (λ rest. text.now ≡ 10 ∷ rest.now) }
    ensures none { IfNone result ((rest : List ℕ) → text.now ≡ 10 ∷ rest → ⊥) }
{
    match text {
        [b'\n', rest @ ..] => Some(rest),
        _ => None,
    }
}

// The id whose line stands in front, and what stands behind it.
fn read_id(text: &[u8]) -> Option<(Id, &[u8])>
    ensures some { IfSome result (λ found.
        IsInFront line_of_id IsIdValue text.now found.0 found.1.now) }
    ensures none { IfNone result (NoneInFront line_of_id IsIdValue text.now) }
{
    if text.len() < 36 {
        return None;
    }
    let (digits, behind) = text.split_at(36);
    let Some(id) = exact_id(digits) else {
        return None;
    };
    let Some(rest) = behind_feed(behind) else {
        return None;
    };
    Some((id, rest))
}

/// So many ids whose lines stand in front, and what stands behind them.
pub fn read_ids(
    alloc: Global,
    text: &[u8],
    count: u64,
) -> Result<(Listing<Id>, &[u8]), CheckpointFault>
    ensures ok { IfOk result (λ found.
        AreInFront line_of_id IsIdValue count text.now found.0.items found.1.now) }
    ensures broken { IsErrOf result CheckpointFault.Broken
        → (ids : List IdNumber) (rest : List ℕ)
        → AreInFront line_of_id IsIdValue count text.now ids rest → ⊥ }
{
    let mut ids = Listing::new(alloc);
    let mut rest = text;
    for _place in 0..count {
        let Some((id, behind)) = read_id(rest) else {
            return Err(CheckpointFault::Broken);
        };
        ids.push(id)?;
        rest = behind;
    }
    Ok((ids, rest))
}
