//! How the calls of a disk are made to come to a fate.
ghost use Rattle.std.specs.Prelude.{◌≡◌, ℕ, List, Option, is_none};
ghost use Rattle.chain_core.specs.Stay.{fate_by_plan};
ghost use Rattle.world_core.specs.Parts.{run_as, stop_for};

use chain_core::Fate;
use log_base::Phase;

/// The sync that is to fail for an append to come to this fate, counted from 0. A phase that isn't
/// run fails nothing.
pub(crate) fn failing_sync(settled: bool, fate: Fate) -> Option<u64>
    ensures { (doubt : Option (List ℕ)) → settled ≡ is_none doubt
        → fate_by_plan doubt result ≡ run_as doubt fate }
{
    let phase = match fate {
        Fate::Done => return None,
        Fate::Fails(phase) => phase,
        Fate::Stops { phase, .. } => phase,
    };
    let before = if settled { 0 } else { 1 };
    match phase {
        Phase::Settling => { if settled { None } else { Some(0) } }
        Phase::Body => Some(before),
        Phase::Gate => Some(before + 1),
    }
}

/// How the gate is to stand where what was run as a failure is stopped.
pub(crate) fn stop_of(fate: Fate) -> Option<bool>
    ensures { result ≡ stop_for fate }
{
    match fate {
        Fate::Stops { opened, .. } => Some(opened),
        Fate::Done | Fate::Fails(_) => None,
    }
}
