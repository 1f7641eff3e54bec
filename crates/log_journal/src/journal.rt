//! A file of payloads behind gates. A gate is opened only once what stands behind it is
//! on the disk.
ghost use Rattle.std.specs.Prelude.{◌≡◌, ◌≢◌, None, false, ◌⊎◌, ℕ, ◌+◌, ◌-◌, ◌*◌, ◌^◌, ◌<◌, ◌≤◌};
ghost use Rattle.std.specs.Prelude.{◌↔◌, ◌++◌, [], ◌∷◌, List, length, IsTrue, not, OnOk, OnErr};
ghost use Rattle.std.specs.Prelude.{IsErr, IsErrOf, IfOk, IfErr, IsOk, is_ok, if◌then◌else◌, min};
ghost use Rattle.log_base.specs.declared.limits.TheConstants.{EMPTY_JOURNAL, PAYLOAD_FRAME};
ghost use Rattle.log_base.specs.Journals.{payloads_length};
ghost use Rattle.disk_model.specs.Past.{reads, ok_syncs, synced_bytes, filled};
ghost use Rattle.disk_model.specs.Past.{EveryImage, LeavesOnly};
ghost use Rattle.disk_model.specs.Calls.{WroteSome};
ghost use Rattle.log_journal.specs.File.{Holds, AreSized, file_of};
ghost use Rattle.log_journal.specs.Filling.{HoldsNoneOrAll};
ghost use Rattle.log_journal.specs.Front.{HasFront, LeftOrNothing};
ghost use Rattle.log_journal.specs.Journal.{HoldsWithOrWithout};
ghost use Rattle.log_journal.specs.Reading.{HasFault};

use crate::block::Block;
use crate::fault::{FormatFault, JournalFault};
use crate::filling::{FillFault, fill_behind, filled_length};
use crate::open::{Payloads, format, read_journal};
use crate::receiver::Receiver;
use crate::restarting::{empty, write_empty};
use crate::synced_writes::{write_numbered, write_synced};
use delta_base::{Failed, Listing};
use disk_model::{Disk, Planned};
use log_base::{EMPTY_JOURNAL, PAYLOAD_FRAME};
use std::alloc::Global;

#[derive(Clone, Copy, Debug, PartialEq, Eq)]
pub enum AppendFault {
    Full { length: u64, limit: u64 },
    Failed,
}

impl From<Failed> for AppendFault {
    ghost use Rattle.log_journal.specs.declared.journal.AppendFault.TheVariants.{
      Failed as NotWritten,
    };

    ghost from_gives = { λ _ e. e ≡ NotWritten };

    fn from(_: Failed) -> AppendFault {
        AppendFault::Failed
    }
}

#[derive(Drop)]
pub struct Journal<D: Disk> {
    disk: D,
    /// How long it is, up to the gate behind the last payload and with it.
    end: u64,
    /// How many payloads it has.
    count: u32,
    limit: u64,
    settled: bool,
    ghost gate_within: { D.tells → end ≤ length (reads (D.past disk)) },
    ghost gate_behind: { EMPTY_JOURNAL + PAYLOAD_FRAME * count ≤ end },
    ghost within_limit: { end ≤ limit },
}

/// A journal that couldn't be opened, with its disk.
#[derive(Drop)]
pub struct OpenRefusal<D: Disk> {
    pub disk: D,
    pub fault: JournalFault,
}

/// A journal that couldn't be started, with its disk.
#[derive(Drop)]
pub struct StartRefusal<D: Disk> {
    pub disk: D,
    pub fault: FormatFault,
}

impl<D: Disk> Journal<D> {
    ghost use Rattle.log_journal.specs.StandsFor.{StandsFor, StandsInDoubt, Leaves};
    ghost use Rattle.log_journal.specs.StandsFor.{length_of, limit_of, count_of, is_settled};
    ghost use Rattle.log_journal.specs.StandsFor.{disk_of};
    ghost use Rattle.log_journal.specs.Payload.{payload_of};
    ghost use Rattle.log_journal.specs.Append.{syncs_of, DoneByPlan};
    ghost use Rattle.log_journal.specs.Written.{DiskWent, Reopened, RefusedOpening};

    /// Opens a file that a crash may have left. A refusal hands the disk back.
    pub fn open_on(
        alloc: Global,
        disk: D,
        number: u32,
        limit: u64,
    ) -> Result<(Journal<D>, Payloads), OpenRefusal<D>>
        // The payloads are those of all the bytes that the disk reads.
        ensures payloads { D.tells
            → IfOk result (λ opened. Holds (reads (D.past disk)) number (opened.1.items)) }
        ensures stands { IfOk result (λ opened. StandsFor opened.0 number (opened.1.items)) }
        ensures fault { IfErr result (λ refusal. D.tells
            → HasFault (reads (D.past disk)) number limit refusal.fault) }

        // What becomes of its disk.
        ensures reopened { IfOk result (λ opened.
            Reopened D.Disk disk (disk_of opened.0) (length_of opened.0)) }
        ensures refused { IfErr result (λ refusal.
            RefusedOpening D.Disk (refusal.fault ≡ JournalFault.Failed) disk refusal.disk) }
        ensures length { IfOk result
            (λ opened. (length_of opened.0) ≡ payloads_length opened.1.items) }
        ensures limit { IfOk result (λ opened. (limit_of opened.0) ≡ limit) }
        ensures within { IfOk result (λ opened. (length_of opened.0) ≤ limit) }
    {
        let mut payloads = Listing::new(alloc);
        match Journal::open_with(alloc, disk, number, limit, &mut payloads) {
            Ok(journal) => Ok((journal, payloads)),
            Err(refusal) => Err(refusal),
        }
    }

    /// Opens a file that a crash may have left, and hands its payloads on one by one. A refusal
    /// hands the disk back.
    pub fn open_with<R: Receiver>(
        alloc: Global,
        disk: D,
        number: u32,
        limit: u64,
        receiver: &mut R,
    ) -> Result<Journal<D>, OpenRefusal<D>>
        requires { R.received receiver.old [] receiver.old }

        // The payloads received are those of all the bytes that the disk reads.
        ensures received { IfOk result (λ journal. (payloads : List (List ℕ))
            × R.received receiver.old payloads receiver.new × StandsFor journal number payloads
            × ((length_of journal) ≡ payloads_length payloads)
            × (D.tells → Holds (reads (D.past disk)) number payloads)) }
        ensures fault { IfErr result (λ refusal. D.tells
            → HasFault (reads (D.past disk)) number limit refusal.fault) }

        // What becomes of its disk.
        ensures reopened { IfOk result (λ journal.
            Reopened D.Disk disk (disk_of journal) (length_of journal)) }
        ensures refused { IfErr result (λ refusal.
            RefusedOpening D.Disk (refusal.fault ≡ JournalFault.Failed) disk refusal.disk) }
        ensures limit { IfOk result (λ journal. (limit_of journal) ≡ limit) }
        ensures within { IfOk result (λ journal. (length_of journal) ≤ limit) }
    {
        let mut disk = disk;
        match read_journal(alloc, &mut disk, number, limit, receiver) {
            Ok(extent) => Ok(Journal {
                disk,
                end: extent.length,
                count: extent.count as u32,
                limit,
                settled: true,
            }),
            Err(fault) => Err(OpenRefusal { disk, fault }),
        }
    }

    /// Writes an empty journal over whatever a disk has. The disk is handed back where it fails.
    pub fn overwrite(disk: D, number: u32, limit: u64) -> Result<Journal<D>, OpenRefusal<D>>
        requires { EMPTY_JOURNAL ≤ limit }
        ensures stands { IfOk result (λ journal. StandsFor journal number []) }
        ensures length { IfOk result (λ journal. (length_of journal) ≡ EMPTY_JOURNAL) }
        ensures limit { IfOk result (λ journal. (limit_of journal) ≡ limit) }
        ensures failed { IfErr result (λ refusal. refusal.fault ≡ JournalFault.Failed) }
        ensures went { IfOk result (λ journal. DiskWent D.Disk ⊥ disk (disk_of journal)) }
        ensures went_refused { IfErr result (λ refusal.
            DiskWent D.Disk (refusal.fault ≡ JournalFault.Failed) disk refusal.disk) }
    {
        let mut disk = disk;
        match write_empty(&mut disk, number) {
            Ok(()) => Ok(Journal {
                disk,
                end: EMPTY_JOURNAL,
                count: 0,
                limit,
                settled: true,
            }),
            Err(Failed) => Err(OpenRefusal {
                disk,
                fault: JournalFault::Failed,
            }),
        }
    }

    /// Makes what is on a disk an empty journal. The disk is handed back where it fails.
    pub fn restart(disk: D, number: u32, limit: u64) -> Result<Journal<D>, OpenRefusal<D>>
        requires room { EMPTY_JOURNAL ≤ limit }

        // The front of every image has no fault.
        requires sound { D.tells → EveryImage (D.past disk) (λ image. HasFront image number) }
        ensures stands { IfOk result (λ journal. StandsFor journal number []) }

        // A crash at any moment leaves what it might have left before, or a file that holds
        // nothing.
        ensures any_moment { IfOk result (λ journal. D.tells
            → LeavesOnly (LeftOrNothing (D.past disk) number) (D.past disk)
            (D.past (disk_of journal))) }
        ensures any_moment_refused { IfErr result (λ refusal. D.tells
            → LeavesOnly (LeftOrNothing (D.past disk) number) (D.past disk)
            (D.past refusal.disk)) }
        ensures failed { IfErr result (λ refusal. refusal.fault ≡ JournalFault.Failed) }
        ensures length { IfOk result (λ journal. (length_of journal) ≡ EMPTY_JOURNAL) }
        ensures limit { IfOk result (λ journal. (limit_of journal) ≡ limit) }
        ensures syncs { D.tells → IfOk result (λ journal.
            ok_syncs (D.past (disk_of journal)) ≡ ok_syncs (D.past disk) + 1) }
        ensures syncs_refused { D.tells → IfErr result (λ refusal.
            ok_syncs (D.past refusal.disk) ≡ ok_syncs (D.past disk)) }
        ensures few { D.tells → IfOk result (λ journal.
            D.read_bytes (disk_of journal) ≤ D.read_bytes disk + 1) }
        ensures went { IfOk result (λ journal. DiskWent D.Disk ⊥ disk (disk_of journal)) }
        ensures went_refused { IfErr result (λ refusal.
            DiskWent D.Disk (refusal.fault ≡ JournalFault.Failed) disk refusal.disk) }
        ensures long { D.plans → IfOk result (λ journal. D.short (disk_of journal) ≡ D.short disk) }
        ensures planned { D.plans → IfErr result (λ refusal. D.next_failure disk ≡ None
            → IsTrue (D.short refusal.disk)) }
    {
        let mut disk = disk;
        match empty(&mut disk, number) {
            Ok(()) => Ok(Journal {
                disk,
                end: EMPTY_JOURNAL,
                count: 0,
                limit,
                settled: true,
            }),
            Err(Failed) => Err(OpenRefusal {
                disk,
                fault: JournalFault::Failed,
            }),
        }
    }

    /// Writes an empty journal into an empty file, and opens it. A refusal hands the disk back.
    pub fn start_on(disk: D, number: u32, limit: u64) -> Result<Journal<D>, StartRefusal<D>>
        requires { EMPTY_JOURNAL ≤ limit }
        ensures stands { IfOk result (λ journal. StandsFor journal number []) }
        ensures file { D.tells
            → IfOk result (λ journal. reads (D.past (disk_of journal)) ≡ file_of number []) }
        ensures was_empty { D.tells → OnOk result (reads (D.past disk) ≡ []) }
        ensures length { IfOk result (λ journal. (length_of journal) ≡ EMPTY_JOURNAL) }
        ensures limit { IfOk result (λ journal. (limit_of journal) ≡ limit) }

        // A file that isn't empty is left as it is.
        ensures not_empty { D.tells
            → IfErr result (λ refusal. (found : ℕ) → refusal.fault ≡ FormatFault.NotEmpty found
            → (0 < found) × (found ≡ length (reads (D.past disk)))) }
        ensures kept { D.tells
            → IfErr result (λ refusal. 0 < length (reads (D.past disk))
            → D.past refusal.disk ≡ D.past disk) }

        // After a failure some of its bytes may be written, and nothing more is synced.
        ensures err { D.tells
            → IfErr result (λ refusal.
            WroteSome 0 EMPTY_JOURNAL (D.past disk) (D.past refusal.disk)) }
        ensures went { IfErr result (λ refusal.
            DiskWent D.Disk (refusal.fault ≡ FormatFault.Failed) disk refusal.disk) }
        ensures faults { IfOk result (λ journal. D.faults (disk_of journal) ≡ D.faults disk) }
        ensures long { D.plans → IfOk result (λ journal. D.short (disk_of journal) ≡ D.short disk) }
        ensures planned { D.plans → IfErr result (λ refusal. refusal.fault ≡ FormatFault.Failed
            → D.next_failure disk ≡ None → IsTrue (D.short refusal.disk)) }
        ensures mark { IfOk result (λ journal. D.mark (disk_of journal) ≡ D.mark disk) }
    {
        let mut disk = disk;
        match format(&mut disk, number) {
            Ok(()) => Ok(Journal {
                disk,
                end: EMPTY_JOURNAL,
                count: 0,
                limit,
                settled: true,
            }),
            Err(fault) => Err(StartRefusal { disk, fault }),
        }
    }

    /// How long it is in its file, up to the gate behind the last payload.
    pub fn length(&self) -> u64
        ensures { result ≡ length_of self.now }
    {
        self.end
    }

    pub fn room_for(&self, payload: u64) -> bool
        ensures { IsTrue result
            ↔ ((length_of self.now) + PAYLOAD_FRAME + payload ≤ (limit_of self.now)) }
    {
        let room = self.limit - self.end;
        room >= PAYLOAD_FRAME && room - PAYLOAD_FRAME >= payload
    }

    /// How many payloads it has.
    pub fn count(&self) -> u32
        ensures is { result ≡ (count_of self.now) }
        ensures few { EMPTY_JOURNAL + PAYLOAD_FRAME * result ≤ (limit_of self.now) }
    {
        self.count
    }

    pub fn is_settled(&self) -> bool
        ensures { result ≡ is_settled self.now }
    {
        self.settled
    }

    pub fn faults(&self) -> u64
        ensures { result ≡ D.faults (disk_of self.now) }
    {
        self.disk.faults()
    }

    pub fn close(self) -> D
        ensures { result ≡ disk_of self }
    {
        let Journal {
            disk,
            end: _,
            count: _,
            limit: _,
            settled: _,
        } = self;
        disk
    }

    /// Adds a payload. After a failure the payloads are as before.
    pub fn append(&mut self, block: &Block) -> Result<(), AppendFault>
        requires settled { IsTrue (is_settled self.old) }
        requires few { (count_of self.old) < 2 ^ 32 - 1 }

        // A crash at any moment of the call leaves the payloads, with the new one or without.
        ensures any_moment { (number : ℕ) (payloads : List (List ℕ))
            → StandsFor self.old number payloads
            → Leaves (HoldsWithOrWithout number payloads (payload_of block.now)) self.old self.new }
        ensures ok { (number : ℕ) (payloads : List (List ℕ)) → StandsFor self.old number payloads
            → OnOk result (StandsFor self.new number (payloads ++ payload_of block.now ∷ [])) }
        ensures ends { D.tells → (number : ℕ) (payloads : List (List ℕ))
            → StandsFor self.old number payloads
            → reads (D.past (disk_of self.old)) ≡ file_of number payloads
            → OnOk result (reads (D.past (disk_of self.new))
            ≡ file_of number (payloads ++ payload_of block.now ∷ [])) }
        ensures failed { (number : ℕ) (payloads : List (List ℕ))
            → StandsFor self.old number payloads
            → IsErrOf result AppendFault.Failed
            → StandsFor self.new number payloads
            ⊎ StandsInDoubt self.new number payloads (payload_of block.now) }

        // It is settled unless it failed once its first sync was done.
        ensures settled { OnOk result (IsTrue (is_settled self.new)) }
        ensures syncs { D.tells → ok_syncs (D.past (disk_of self.new))
            ≡ ok_syncs (D.past (disk_of self.old)) + syncs_of result (is_settled self.new) }

        // Both syncs are done, or those before the one that is planned to fail.
        ensures planned { D.plans → IsTrue (not (D.short (disk_of self.new)))
            → IsOk result ⊎ IsErrOf result AppendFault.Failed
            → DoneByPlan 2 (syncs_of result (is_settled self.new))
            (D.next_failure (disk_of self.old)) (D.next_failure (disk_of self.new)) }

        // After a planned failure what was synced has no new payload, and the gate is open where
        // what wasn't synced is 1.
        ensures images { D.plans → D.tells → IsTrue (not (D.short (disk_of self.new)))
            → IsErrOf result AppendFault.Failed → (is_settled self.new) ≡ false
            → (number : ℕ) (payloads : List (List ℕ)) → StandsFor self.old number payloads
            → Holds (synced_bytes (D.past (disk_of self.new))) number payloads
            × Holds (filled 1 (D.past (disk_of self.new))) number
            (payloads ++ payload_of block.now ∷ []) }

        ensures full { IsErrOf result (AppendFault.Full (length_of self.old) (limit_of self.old))
            ↔ ((limit_of self.old)
            < (length_of self.old) + PAYLOAD_FRAME + length (payload_of block.now)) }
        ensures full_shows { (length limit : ℕ) → IsErrOf result (AppendFault.Full length limit)
            → (length ≡ (length_of self.old)) × (limit ≡ (limit_of self.old))
            × (self.new ≡ self.old) }
        ensures went { DiskWent D.Disk (IsErrOf result AppendFault.Failed) (disk_of self.old)
            (disk_of self.new) }
        ensures long { D.plans → OnOk result
            (D.short (disk_of self.new) ≡ D.short (disk_of self.old)) }
        ensures longer { OnOk result
            ((length_of self.new)
            ≡ (length_of self.old) + PAYLOAD_FRAME + length (payload_of block.now)) }
        ensures more { OnOk result ((count_of self.new) ≡ (count_of self.old) + 1) }
        ensures same_count { OnErr result ((count_of self.new) ≡ (count_of self.old)) }
        ensures same_length { OnErr result ((length_of self.new) ≡ (length_of self.old)) }
        ensures limit { (limit_of self.new) ≡ (limit_of self.old) }
    {
        let size = block.bytes.len() as u64 + 4;
        if self.limit - self.end < size {
            return Err(AppendFault::Full {
                length: self.end,
                limit: self.limit,
            });
        }
        let number = self.count + 1;
        write_numbered(&mut self.disk, self.end, number, &block.bytes)?;
        self.settled = false;
        write_synced(&mut self.disk, self.end - 1, &[1])?;
        self.end += size;
        self.count = number;
        self.settled = true;
        Ok(())
    }

    /// Adds payloads to an empty journal, all at once. After a failure there are none, or their
    /// gate is doubtful.
    pub fn fill(&mut self, payloads: &Payloads) -> Result<(), FillFault>
        requires settled { IsTrue (is_settled self.old) }
        requires empty { (count_of self.old) ≡ 0 }
        requires starts { (length_of self.old) ≡ EMPTY_JOURNAL }
        requires bounded { (limit_of self.old) < 2 ^ 64 - 1 }
        requires few { length payloads.now.items < 2 ^ 32 }
        requires sized { AreSized payloads.now.items }

        // A crash at any moment of the call leaves none of the payloads or all.
        ensures any_moment { (number : ℕ) → StandsFor self.old number []
            → Leaves (HoldsNoneOrAll number payloads.now.items) self.old self.new }
        ensures ok { (number : ℕ) → StandsFor self.old number []
            → OnOk result (StandsFor self.new number payloads.now.items) }
        ensures none { payloads.now.items ≡ []
            → IsOk result × (self.new ≡ self.old) }
        ensures full { (shown limit : ℕ) → IsErrOf result (FillFault.Full shown limit)
            → (shown ≡ min (payloads_length payloads.now.items) (2 ^ 64 - 1))
            × (limit ≡ (limit_of self.old)) × (self.new ≡ self.old) }
        ensures fits { IsOk result ⊎ IsErrOf result FillFault.Failed
            → payloads_length payloads.now.items ≤ (limit_of self.old) }
        ensures longer { OnOk result
            ((length_of self.new) ≡ payloads_length payloads.now.items) }
        ensures syncs { D.tells → OnOk result (payloads.now.items ≢ []
            → ok_syncs (D.past (disk_of self.new)) ≡ ok_syncs (D.past (disk_of self.old)) + 2) }
        ensures went { DiskWent D.Disk (IsErrOf result FillFault.Failed) (disk_of self.old)
            (disk_of self.new) }
        ensures long { D.plans → OnOk result
            (D.short (disk_of self.new) ≡ D.short (disk_of self.old)) }
        ensures limit { (limit_of self.new) ≡ (limit_of self.old) }
    {
        let length = filled_length(payloads.as_slice());
        if self.limit < length {
            return Err(FillFault::Full {
                length,
                limit: self.limit,
            });
        }
        if payloads.is_empty() {
            return Ok(());
        }
        self.settled = false;
        fill_behind(&mut self.disk, payloads.as_slice())?;
        self.end = length;
        self.count = payloads.len() as u32;
        self.settled = true;
        Ok(())
    }

    /// Closes a doubtful gate. After a failure it is still doubtful.
    pub fn settle(&mut self) -> Result<(), Failed>
        // A crash at any moment of the call leaves the payloads, with the doubtful one or without.
        ensures any_moment { (number : ℕ) (payloads : List (List ℕ)) (doubt : List ℕ)
            → StandsInDoubt self.old number payloads doubt
            → Leaves (HoldsWithOrWithout number payloads doubt) self.old self.new }
        ensures ok { (number : ℕ) (payloads : List (List ℕ)) (doubt : List ℕ)
            → StandsInDoubt self.old number payloads doubt
            → OnOk result (StandsFor self.new number payloads) }
        ensures failed { (number : ℕ) (payloads : List (List ℕ)) (doubt : List ℕ)
            → StandsInDoubt self.old number payloads doubt
            → OnErr result (StandsInDoubt self.new number payloads doubt) }

        ensures settled { IsOk result ↔ IsTrue (is_settled self.new) }
        ensures nothing_to_do { IsTrue (is_settled self.old) → self.new ≡ self.old }
        ensures syncs { D.tells → ok_syncs (D.past (disk_of self.new))
            ≡ ok_syncs (D.past (disk_of self.old))
            + (if is_ok result then (if (is_settled self.old) then 0 else 1) else 0) }

        // Where it isn't settled, its one sync is done, or is the one that is planned to fail.
        ensures planned { D.plans → IsTrue (not (D.short (disk_of self.new)))
            → (is_settled self.old) ≡ false
            → DoneByPlan 1 (if is_ok result then 1 else 0)
            (D.next_failure (disk_of self.old)) (D.next_failure (disk_of self.new)) }

        // After a planned failure what was synced is as it was, and the gate that was open where
        // what wasn't synced is 1 is still open there.
        ensures images { D.plans → D.tells → IsTrue (not (D.short (disk_of self.new)))
            → is_ok result ≡ false
            → (number : ℕ) (payloads : List (List ℕ)) (doubt : List ℕ)
            → StandsInDoubt self.old number payloads doubt
            → (synced_bytes (D.past (disk_of self.new)) ≡ synced_bytes (D.past (disk_of self.old)))
            × (Holds (filled 1 (D.past (disk_of self.old))) number (payloads ++ doubt ∷ [])
            → Holds (filled 1 (D.past (disk_of self.new))) number (payloads ++ doubt ∷ [])) }

        ensures went { DiskWent D.Disk (IsErr result) (disk_of self.old) (disk_of self.new) }
        ensures long { D.plans → OnOk result
            (D.short (disk_of self.new) ≡ D.short (disk_of self.old)) }
        ensures same_count { (count_of self.new) ≡ (count_of self.old) }
        ensures same_length { (length_of self.new) ≡ (length_of self.old) }
        ensures limit { (limit_of self.new) ≡ (limit_of self.old) }
    {
        if self.settled {
            return Ok(());
        }
        write_synced(&mut self.disk, self.end - 1, &[0])?;
        self.settled = true;
        Ok(())
    }
}

impl<D: Planned> Journal<D> {
    ghost use Rattle.std.specs.Prelude.{Option};
    ghost use Rattle.log_journal.specs.StandsFor.{length_of, limit_of, count_of, disk_of};
    ghost use Rattle.log_journal.specs.Writing.{StandsWith};

    /// Plans which sync of its disk fails, and changes nothing else.
    pub fn plan(&mut self, next: Option<u64>)
        ensures stands { (number : ℕ) (payloads : List (List ℕ)) (doubt : Option (List ℕ))
            → StandsWith self.old number payloads doubt
            → StandsWith self.new number payloads doubt }
        ensures count { (count_of self.new) ≡ (count_of self.old) }
        ensures length { (length_of self.new) ≡ (length_of self.old) }
        ensures limit { (limit_of self.new) ≡ (limit_of self.old) }
        ensures next { D.next_failure (disk_of self.new) ≡ next }
        ensures past { D.past (disk_of self.new) ≡ D.past (disk_of self.old) }
        ensures short { D.short (disk_of self.new) ≡ D.short (disk_of self.old) }
        ensures faults { D.faults (disk_of self.new) ≡ D.faults (disk_of self.old) }
        ensures mark { D.mark (disk_of self.new) ≡ D.mark (disk_of self.old) }
    {
        self.disk.plan(next);
    }

    /// Whether a call of its disk has failed for want of memory.
    pub fn is_short(&self) -> bool
        ensures { result ≡ D.short (disk_of self.now) }
    {
        self.disk.is_short()
    }
}
