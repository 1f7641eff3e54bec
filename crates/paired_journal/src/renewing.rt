//! Begins the journal of two files anew in the other file.
ghost use Rattle.std.specs.Prelude.{◌≡◌, ℕ, ◌+◌, ◌-◌, ◌^◌, ◌<◌, ◌≤◌, List, Option, Some, None};
ghost use Rattle.std.specs.Prelude.{length, is_ok, if◌then◌else◌, OnOk, OnErr, IsErrOf};
ghost use Rattle.log_base.specs.declared.limits.TheConstants.{EMPTY_JOURNAL, PAYLOAD_FRAME};
ghost use Rattle.log_base.specs.declared.limits.TheConstants.{ZONE_FILE_LIMIT};
ghost use Rattle.disk_model.specs.Past.{LeavesOnly};
ghost use Rattle.log_journal.specs.StandsFor.{StandsFor, length_of, limit_of, disk_of};
ghost use Rattle.log_journal.specs.Writing.{StandsWith};
ghost use Rattle.log_journal.specs.Written.{DiskWent};
ghost use Rattle.zone_files.specs.Generation.{number_of, PayloadsShow};
ghost use Rattle.zone_beside.specs.Beside.{MayHoldWriting, IsLeftBehind};
ghost use Rattle.zone_beside.specs.StandsBehind.{StandsBehind};
ghost use Rattle.paired_journal.specs.Pair.{HoldsWith, IsLeft, IsRenewed, DisksWent};

use disk_model::Disk;
use log_journal::Journal;
use std::mem;
use zone_beside::{Beside, OnePayload, WriteFault};

/// Settles both files, empties the other one, and writes a payload there: it is current then, and
/// the file that was stands beside it.
pub fn renew<D: Disk>(
    current: &mut Journal<D>,
    beside: Beside<D>,
    payload: &OnePayload,
) -> (Beside<D>, Result<(), WriteFault>)
    requires room { EMPTY_JOURNAL + PAYLOAD_FRAME + length payload.now ≤ ZONE_FILE_LIMIT }
    requires next { beside.generation < 2 ^ 64 - 1 }
    requires beside { (doubt : Option (List ℕ)) × StandsBehind beside doubt }
    ensures done { (payloads : List (List ℕ)) (doubt : Option (List ℕ))
        → StandsWith current.old (number_of beside.on_second) payloads doubt
        → PayloadsShow beside.on_second payloads (Some beside.generation)
        → OnOk result.1 (IsRenewed beside result.0 current.new payload.now) }
    ensures length { OnOk result.1
        ((length_of current.new) ≡ EMPTY_JOURNAL + PAYLOAD_FRAME + length payload.now) }
    ensures limit { OnOk result.1 ((limit_of current.new) ≡ ZONE_FILE_LIMIT) }

    // After a failure the same file is current, with its payloads.
    ensures stands { (number : ℕ) (payloads : List (List ℕ)) (doubt : Option (List ℕ))
        → StandsWith current.old number payloads doubt → OnErr result.1
        ((left : Option (List ℕ)) × IsLeft doubt left
        × StandsWith current.new number payloads left) }
    ensures beside { (doubt : Option (List ℕ)) → StandsBehind beside doubt → OnErr result.1
        ((left : Option (List ℕ)) × IsLeftBehind doubt payload.now left
        × StandsBehind result.0 left) }
    ensures second { OnErr result.1 (result.0.on_second ≡ beside.on_second) }
    ensures generation { OnErr result.1 (result.0.generation ≡ beside.generation) }
    ensures same_length { OnErr result.1 ((length_of current.new) ≡ (length_of current.old)) }
    ensures same_limit { OnErr result.1 ((limit_of current.new) ≡ (limit_of current.old)) }

    // A crash at any moment leaves the payloads of the file that was current, with the one in
    // doubt or without; and the other file as it is, empty, or with the new payload alone.
    ensures on_current { D.tells
        → (number : ℕ) (payloads : List (List ℕ)) (doubt : Option (List ℕ))
        → StandsWith current.old number payloads doubt
        → LeavesOnly (HoldsWith number payloads doubt) (D.past (disk_of current.old))
        (D.past (if is_ok result.1 then result.0.disk else disk_of current.new)) }
    ensures on_other { D.tells → (doubt : Option (List ℕ)) → StandsBehind beside doubt
        → LeavesOnly (MayHoldWriting beside.on_second beside.generation doubt payload.now)
        (D.past beside.disk)
        (D.past (if is_ok result.1 then disk_of current.new else result.0.disk)) }
    ensures went { DisksWent D.Disk (IsErrOf result.1 WriteFault.Failed) (disk_of current.old)
        (if is_ok result.1 then result.0.disk else disk_of current.new)
        beside.disk (if is_ok result.1 then disk_of current.new else result.0.disk) }
{
    match current.settle() {
        Ok(()) => begin_anew(current, beside, payload),
        Err(_) => (beside, Err(WriteFault::Failed)),
    }
}

// Empties the other file and writes a payload there, where the current one isn't in doubt.
fn begin_anew<D: Disk>(
    current: &mut Journal<D>,
    beside: Beside<D>,
    payload: &OnePayload,
) -> (Beside<D>, Result<(), WriteFault>)
    requires room { EMPTY_JOURNAL + PAYLOAD_FRAME + length payload.now ≤ ZONE_FILE_LIMIT }
    requires next { beside.generation < 2 ^ 64 - 1 }
    requires beside { (doubt : Option (List ℕ)) × StandsBehind beside doubt }
    ensures done { (payloads : List (List ℕ))
        → StandsFor current.old (number_of beside.on_second) payloads
        → PayloadsShow beside.on_second payloads (Some beside.generation)
        → OnOk result.1 (IsRenewed beside result.0 current.new payload.now) }
    ensures length { OnOk result.1
        ((length_of current.new) ≡ EMPTY_JOURNAL + PAYLOAD_FRAME + length payload.now) }
    ensures limit { OnOk result.1 ((limit_of current.new) ≡ ZONE_FILE_LIMIT) }
    ensures old_disk { OnOk result.1 (result.0.disk ≡ disk_of current.old) }
    ensures same { OnErr result.1 (current.new ≡ current.old) }
    ensures beside { (doubt : Option (List ℕ)) → StandsBehind beside doubt → OnErr result.1
        ((left : Option (List ℕ)) × IsLeftBehind doubt payload.now left
        × StandsBehind result.0 left) }
    ensures second { OnErr result.1 (result.0.on_second ≡ beside.on_second) }
    ensures generation { OnErr result.1 (result.0.generation ≡ beside.generation) }
    ensures on_other { D.tells → (doubt : Option (List ℕ)) → StandsBehind beside doubt
        → LeavesOnly (MayHoldWriting beside.on_second beside.generation doubt payload.now)
        (D.past beside.disk)
        (D.past (if is_ok result.1 then disk_of current.new else result.0.disk)) }
    ensures went { DiskWent D.Disk (IsErrOf result.1 WriteFault.Failed) beside.disk
        (if is_ok result.1 then disk_of current.new else result.0.disk) }
{
    let on_second = beside.on_second;
    let generation = beside.generation;
    match beside.write(payload) {
        Ok(next) => {
            let old = mem::replace(current, next);
            (Beside::left_by(old, !on_second, generation + 1), Ok(()))
        }
        Err(refusal) => (refusal.beside, Err(refusal.fault)),
    }
}
