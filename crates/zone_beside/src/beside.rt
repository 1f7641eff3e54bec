//! The file beside the current one of a zone on two disks.
ghost use Rattle.std.specs.Prelude.{◌≡◌, ◌⊎◌, ◌+◌, ◌<◌, ◌≤◌, ◌^◌, List, ℕ, Option, None, Some, [], ◌∷◌};
ghost use Rattle.std.specs.Prelude.{not, true, false, length, IfOk, IfErr, OnOk, OnErr, IsErr};
ghost use Rattle.log_base.specs.declared.limits.TheConstants.{EMPTY_JOURNAL, PAYLOAD_FRAME};
ghost use Rattle.log_base.specs.declared.limits.TheConstants.{ZONE_FILE_LIMIT};
ghost use Rattle.disk_model.specs.Past.{EveryImage, LeavesOnly};
ghost use Rattle.log_journal.specs.StandsFor.{StandsFor, length_of, limit_of, disk_of};
ghost use Rattle.log_journal.specs.Written.{DiskWent};
ghost use Rattle.zone_files.specs.Generation.{number_of, PayloadsShow};
ghost use Rattle.zone_files.specs.Pair.{IsEarlier};
ghost use Rattle.zone_beside.specs.Beside.{MayHoldBeside, MayHoldWriting, IsLeftBehind};

use crate::fault::WriteFault;
use crate::filling::fill;
use crate::one_payload::OnePayload;
use delta_base::Failed;
use disk_model::Disk;
use log_base::ZONE_FILE_LIMIT;
use log_journal::{Journal, OpenRefusal};
use zone_files::{SECOND_NUMBER, ZONE_NUMBER};

/// The number of the second file, or of the first.
pub fn file_number(second: bool) -> u32
    ensures { result ≡ number_of second }
{
    if second { SECOND_NUMBER } else { ZONE_NUMBER }
}

/// The disk of the file beside the current one, and which is current, in which generation.
#[derive(Drop)]
pub struct Beside<D: Disk> {
    pub on_second: bool,
    pub generation: u64,
    pub disk: D,
    /// The next payload may stand in it.
    pub doubtful: bool,
    // A file without a payload isn't current beside the current one.
    ghost later: { on_second ≡ true → 1 ≤ generation },
}

/// The file beside the current one, in which a payload wasn't written.
#[derive(Drop)]
pub struct WriteRefusal<D: Disk> {
    pub beside: Beside<D>,
    pub fault: WriteFault,
}

impl<D: Disk> Beside<D> {
    ghost use Rattle.zone_beside.specs.StandsBehind.{StandsBehind};

    /// Beside the file that is current now stands the one that was it before, whose journal this
    /// is.
    pub fn left_by(journal: Journal<D>, on_second: bool, generation: u64) -> Beside<D>
        requires later { on_second ≡ true → 1 ≤ generation }
        ensures second { result.on_second ≡ on_second }
        ensures generation { result.generation ≡ generation }
        ensures disk { result.disk ≡ disk_of journal }
        ensures stands { (payloads : List (List ℕ)) (shown : Option ℕ)
            → PayloadsShow (not on_second) payloads shown → IsEarlier on_second generation shown
            → StandsFor journal (number_of (not on_second)) payloads → StandsBehind result None }
    {
        Beside {
            on_second,
            generation,
            disk: journal.close(),
            doubtful: false,
        }
    }

    /// Leaves nothing in the file where the next payload may stand in it. The file is handed back.
    pub fn settle(self) -> (Beside<D>, Result<(), Failed>)
        requires stands { (doubt : Option (List ℕ)) × StandsBehind self doubt }
        ensures second { result.0.on_second ≡ self.on_second }
        ensures generation { result.0.generation ≡ self.generation }
        ensures ok { OnOk result.1 (StandsBehind result.0 None) }
        ensures err { (doubt : Option (List ℕ)) → StandsBehind self doubt
            → OnErr result.1 (StandsBehind result.0 doubt) }

        // A crash at any moment leaves the current file as it is, or the payload that might stand
        // beside it.
        ensures any_moment { D.tells → (doubt : Option (List ℕ)) → StandsBehind self doubt
            → LeavesOnly (MayHoldBeside self.on_second self.generation doubt)
            (D.past self.disk) (D.past result.0.disk) }
        ensures nothing_to_do { self.doubtful ≡ false
            → (result.0.disk ≡ self.disk) × (result.0.doubtful ≡ false) }
        ensures went { DiskWent D.Disk (IsErr result.1) self.disk result.0.disk }
    {
        if !self.doubtful {
            return (self, Ok(()));
        }
        let Beside {
            on_second,
            generation,
            disk,
            doubtful: _,
        } = self;
        match Journal::restart(disk, file_number(!on_second), ZONE_FILE_LIMIT) {
            Ok(journal) => (Beside::left_by(journal, on_second, generation), Ok(())),
            Err(OpenRefusal { disk, fault: _ }) => (
                Beside {
                    on_second,
                    generation,
                    disk,
                    doubtful: true,
                },
                Err(Failed),
            ),
        }
    }

    /// Empties the file, and writes a payload there. The journal that has it is handed back, or
    /// the file beside the current one.
    pub fn write(self, payload: &OnePayload) -> Result<Journal<D>, WriteRefusal<D>>
        requires stands { (doubt : Option (List ℕ)) × StandsBehind self doubt }
        requires room { EMPTY_JOURNAL + PAYLOAD_FRAME + length payload.now ≤ ZONE_FILE_LIMIT }
        ensures ok { IfOk result (λ journal.
            StandsFor journal (number_of (not self.on_second)) (payload.now ∷ [])) }
        ensures second { IfErr result (λ refusal. refusal.beside.on_second ≡ self.on_second) }
        ensures generation { IfErr result (λ refusal.
            refusal.beside.generation ≡ self.generation) }
        ensures err { (doubt : Option (List ℕ)) → StandsBehind self doubt
            → IfErr result (λ refusal. (left : Option (List ℕ))
            × IsLeftBehind doubt payload.now left × StandsBehind refusal.beside left) }

        // A crash at any moment leaves the current file as it is, or the payload that might stand
        // beside it, or the new one.
        ensures any_moment { D.tells → (doubt : Option (List ℕ)) → StandsBehind self doubt
            → IfOk result (λ journal. LeavesOnly
            (MayHoldWriting self.on_second self.generation doubt payload.now)
            (D.past self.disk) (D.past (disk_of journal))) }
        ensures any_moment_refused { D.tells → (doubt : Option (List ℕ)) → StandsBehind self doubt
            → IfErr result (λ refusal. LeavesOnly
            (MayHoldWriting self.on_second self.generation doubt payload.now)
            (D.past self.disk) (D.past refusal.beside.disk)) }
        ensures length { IfOk result (λ journal.
            (length_of journal) ≡ EMPTY_JOURNAL + PAYLOAD_FRAME + length payload.now) }
        ensures limit { IfOk result (λ journal. (limit_of journal) ≡ ZONE_FILE_LIMIT) }
        ensures went { IfOk result (λ journal. DiskWent D.Disk ⊥ self.disk (disk_of journal)) }
        ensures went_refused { IfErr result (λ refusal. DiskWent D.Disk
            (refusal.fault ≡ WriteFault.Failed) self.disk refusal.beside.disk) }
    {
        let Beside {
            on_second,
            generation,
            disk,
            doubtful,
        } = self;
        match Journal::restart(disk, file_number(!on_second), ZONE_FILE_LIMIT) {
            Ok(journal) => fill(journal, payload, on_second, generation),
            Err(OpenRefusal { disk, fault: _ }) => Err(WriteRefusal {
                beside: Beside {
                    on_second,
                    generation,
                    disk,
                    doubtful,
                },
                fault: WriteFault::Failed,
            }),
        }
    }
}
