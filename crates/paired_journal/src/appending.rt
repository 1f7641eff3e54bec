//! Appends to the current file of two.
ghost use Rattle.std.specs.Prelude.{◌≡◌, ℕ, ◌+◌, ◌-◌, ◌^◌, ◌<◌, ◌≤◌, List, Option, None};
ghost use Rattle.std.specs.Prelude.{length, IsErr, OnOk, OnErr};
ghost use Rattle.log_base.specs.declared.limits.TheConstants.{PAYLOAD_FRAME};
ghost use Rattle.disk_model.specs.Past.{LeavesOnly};
ghost use Rattle.log_journal.specs.Payload.{payload_of};
ghost use Rattle.log_journal.specs.StandsFor.{length_of, limit_of, count_of, disk_of};
ghost use Rattle.log_journal.specs.Writing.{StandsWith, HoldsDuring, payloads_left};
ghost use Rattle.log_journal.specs.Writing.{doubt_left, failing, longer_by};
ghost use Rattle.zone_beside.specs.Beside.{MayHoldBeside};
ghost use Rattle.zone_beside.specs.StandsBehind.{StandsBehind};
ghost use Rattle.paired_journal.specs.Pair.{IsLeft, DisksWent};

use disk_model::Disk;
use log_base::Phase;
use log_journal::{Block, Journal, write};
use zone_beside::Beside;

/// Settles both files, and appends to the current one. Says which phase failed.
pub fn append<D: Disk>(
    current: &mut Journal<D>,
    beside: Beside<D>,
    block: &Block,
) -> (Beside<D>, Result<(), Phase>)
    requires room { (length_of current.old) + PAYLOAD_FRAME + length (payload_of block.now)
        ≤ (limit_of current.old) }
    requires few { (count_of current.old) < 2 ^ 32 - 1 }
    requires beside { (doubt : Option (List ℕ)) × StandsBehind beside doubt }

    // By the phase that failed: what the current file stands for.
    ensures stands { (number : ℕ) (payloads : List (List ℕ)) (doubt : Option (List ℕ))
        → StandsWith current.old number payloads doubt
        → StandsWith current.new number
        (payloads_left (failing result.1) payloads (payload_of block.now))
        (doubt_left (failing result.1) doubt (payload_of block.now)) }

    // A crash at any moment leaves the current file with the payload in doubt, with the new one,
    // or as it is; and the other one as it is or empty.
    ensures on_current { D.tells
        → (number : ℕ) (payloads : List (List ℕ)) (doubt : Option (List ℕ))
        → StandsWith current.old number payloads doubt
        → LeavesOnly (HoldsDuring number payloads doubt (payload_of block.now))
        (D.past (disk_of current.old)) (D.past (disk_of current.new)) }
    ensures on_other { D.tells → (doubt : Option (List ℕ)) → StandsBehind beside doubt
        → LeavesOnly (MayHoldBeside beside.on_second beside.generation doubt)
        (D.past beside.disk) (D.past result.0.disk) }

    // Once the payload is written, no image of the other file is current beside it.
    ensures ok { OnOk result.1 (StandsBehind result.0 None) }
    ensures err { (doubt : Option (List ℕ)) → StandsBehind beside doubt → OnErr result.1
        ((left : Option (List ℕ)) × IsLeft doubt left × StandsBehind result.0 left) }
    ensures second { result.0.on_second ≡ beside.on_second }
    ensures generation { result.0.generation ≡ beside.generation }
    ensures went { DisksWent D.Disk (IsErr result.1) (disk_of current.old) (disk_of current.new)
        beside.disk result.0.disk }
    ensures length { (length_of current.new) ≡ (length_of current.old)
        + longer_by (failing result.1) (length (payload_of block.now)) }
    ensures limit { (limit_of current.new) ≡ (limit_of current.old) }
{
    let (beside, settled) = beside.settle();
    match settled {
        Ok(()) => {
            let written = write(current, block);
            (beside, written)
        }
        Err(_) => (beside, Err(Phase::Settling)),
    }
}
