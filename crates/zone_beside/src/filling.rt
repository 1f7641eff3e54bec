//! Writes the next payload into the file beside the current one.
ghost use Rattle.std.specs.Prelude.{◌≡◌, ◌+◌, ◌≤◌, Some, [], ◌∷◌};
ghost use Rattle.std.specs.Prelude.{not, true, length, IfOk, IfErr};
ghost use Rattle.log_base.specs.declared.limits.TheConstants.{EMPTY_JOURNAL, PAYLOAD_FRAME};
ghost use Rattle.log_base.specs.declared.limits.TheConstants.{ZONE_FILE_LIMIT};
ghost use Rattle.disk_model.specs.Past.{LeavesOnly};
ghost use Rattle.log_journal.specs.StandsFor.{StandsFor, length_of, limit_of, disk_of};
ghost use Rattle.log_journal.specs.Written.{DiskWent};
ghost use Rattle.zone_files.specs.Generation.{number_of};
ghost use Rattle.zone_files.specs.Pair.{MayBeOther};
ghost use Rattle.zone_beside.specs.StandsBehind.{StandsBehind};

use crate::beside::{Beside, WriteRefusal};
use crate::fault::WriteFault;
use crate::one_payload::OnePayload;
use disk_model::Disk;
use log_journal::Journal;

/// Writes a payload into the empty file beside the current one.
pub fn fill<D: Disk>(
    journal: Journal<D>,
    payload: &OnePayload,
    on_second: bool,
    generation: u64,
) -> Result<Journal<D>, WriteRefusal<D>>
    requires later { on_second ≡ true → 1 ≤ generation }
    requires stands { StandsFor journal (number_of (not on_second)) [] }
    requires starts { (length_of journal) ≡ EMPTY_JOURNAL }
    requires limit { (limit_of journal) ≡ ZONE_FILE_LIMIT }
    requires room { EMPTY_JOURNAL + PAYLOAD_FRAME + length payload.now ≤ ZONE_FILE_LIMIT }
    ensures ok { IfOk result (λ filled.
        StandsFor filled (number_of (not on_second)) (payload.now ∷ [])) }
    ensures second { IfErr result (λ refusal. refusal.beside.on_second ≡ on_second) }
    ensures generation { IfErr result (λ refusal. refusal.beside.generation ≡ generation) }
    ensures err { IfErr result (λ refusal. StandsBehind refusal.beside (Some payload.now)) }
    ensures any_moment { D.tells → IfOk result (λ filled.
        LeavesOnly (MayBeOther on_second generation payload.now) (D.past (disk_of journal))
        (D.past (disk_of filled))) }
    ensures any_moment_refused { D.tells → IfErr result (λ refusal.
        LeavesOnly (MayBeOther on_second generation payload.now) (D.past (disk_of journal))
        (D.past refusal.beside.disk)) }
    ensures length { IfOk result (λ filled.
        (length_of filled) ≡ EMPTY_JOURNAL + PAYLOAD_FRAME + length payload.now) }
    ensures limit { IfOk result (λ filled. (limit_of filled) ≡ ZONE_FILE_LIMIT) }
    ensures went { IfOk result (λ filled.
        DiskWent D.Disk ⊥ (disk_of journal) (disk_of filled)) }
    ensures went_refused { IfErr result (λ refusal. DiskWent D.Disk
        (refusal.fault ≡ WriteFault.Failed) (disk_of journal) refusal.beside.disk) }
{
    let mut journal = journal;
    match journal.fill(payload.payloads()) {
        Ok(()) => Ok(journal),
        Err(fault) => Err(WriteRefusal {
            beside: Beside {
                on_second,
                generation,
                disk: journal.close(),
                doubtful: true,
            },
            fault: WriteFault::from(fault),
        }),
    }
}
