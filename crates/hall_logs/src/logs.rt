//! Logs by their slots.
ghost use Rattle.std.specs.Prelude.{◌≡◌, ◌<◌, ◌≤◌, ℕ, [], ◌∷◌, length, IfOk, OnErr};
ghost use Rattle.chain_core.specs.Replies as asked;
ghost use Rattle.chain_core.specs.declared.answer.LogAnswer.TheVariants as answers;
ghost use Rattle.chain_core.specs.declared.chain.Patch.{Patch};
ghost use Rattle.turn_cell.specs.Knowing.{Wants};
ghost use Rattle.shared_log.specs.History.{SeesWhole};
ghost use Rattle.shared_log.specs.Replies.{reply_fetched, reply_described};
ghost use Rattle.shared_log.specs.Stays.{CalledOnLog};
ghost use Rattle.hall_logs.specs.Slots.{ArePartsOf, EachHasItsSeats, HasPart, OnSlot};

use crate::pass::LogsPass;
use chain_core::LogAnswer;
use delta_base::{Id, OutOfMemory};
use disk_model::Disk;
use log_base::LogInfo;
use patch_log::Run;
use shared_log::{Fetched, SharedLog};
use std::marker::Model;
use std::sync::Wait;

/// Logs that passes share, in the order of their slots, which are counted from 1.
#[derive(Drop)]
pub struct HallLogs<D: Disk> {
    pub(crate) logs: Vec<SharedLog<D>>,
    pub(crate) seats: u32,
}

impl<D: Disk> Model for HallLogs<D> {
    ghost use Rattle.std.specs.Prelude.{◌≡◌, ◌<◌, ◌≤◌, vec_capacity};
    ghost use Rattle.hall_logs.specs.Slots.{EachHasItsSeats, LogsOfHall};

    ghost Value = { LogsOfHall D };

    ghost view = { λ h. record { logs = h.logs.items; seats = h.seats } };

    ghost invariant = { λ h. EachHasItsSeats (record { logs = h.logs.items; seats = h.seats })
        × (16 ≤ vec_capacity h.logs) × (0 < h.seats) × (h.seats ≤ 16) };
}

impl<D: Disk> HallLogs<D> {
    /// Among how many passes each log is shared.
    pub fn seats(&self) -> u32
        ensures seats { result ≡ self.now.seats }
        ensures each { EachHasItsSeats self.now }
    {
        self.seats
    }

    // The log of a slot, of which the pass has a part.
    fn log_of(&self, pass: &LogsPass<D>, slot: u32) -> &SharedLog<D>
        requires of { ArePartsOf D.Disk self.now.logs pass.now }
        requires slot { (0 < slot) × (slot ≤ length self.now.logs) }
        ensures { HasPart D.Disk self.now.logs pass.now slot result.now }
    {
        &self.logs[slot as usize - 1]
    }

    /// Adds a run to the log of a slot, or says why not: Known, Conflict, Full, want of memory and
    /// a disk fault, in this order. All its patches are added or none. That it is accepted is told
    /// with the version of its last patch.
    pub fn append<R: Wait>(&self, rt: &R, pass: &mut LogsPass<D>, slot: u32, run: Run) -> LogAnswer
        requires of { ArePartsOf D.Disk self.now.logs pass.old }
        requires slot { (0 < slot) × (slot ≤ length self.now.logs) }
        ensures of { ArePartsOf D.Disk self.now.logs pass.new }
        ensures whole { OnSlot slot (λ log p q. SeesWhole q) self.now.logs pass.old pass.new }
        ensures called { OnSlot slot (λ log p q. CalledOnLog D.Disk log.origin p
            (asked.append_run run) (asked.answered (asked.as_run (length run) result)) q)
            self.now.logs pass.old pass.new }
        ensures alone { (patch : Patch) → run ≡ patch ∷ []
            → OnSlot slot (λ log p q. CalledOnLog D.Disk log.origin p
            (asked.append patch) (asked.answered result) q) self.now.logs pass.old pass.new }

        // So the answer can be told as one to a run.
        ensures counted { (version : ℕ) → result ≡ answers.Accepted version
            → length run ≤ version }
    {
        let log = self.log_of(pass, slot);
        log.append(rt, pass.part_mut(slot), run)
    }

    /// The patch of a version of the log of a slot.
    pub fn fetch_version<R: Wait>(
        &self,
        rt: &R,
        pass: &mut LogsPass<D>,
        slot: u32,
        version: u32,
    ) -> Result<Fetched, OutOfMemory>
        requires of { ArePartsOf D.Disk self.now.logs pass.old }
        requires slot { (0 < slot) × (slot ≤ length self.now.logs) }
        ensures of { ArePartsOf D.Disk self.now.logs pass.new }
        ensures whole { OnSlot slot (λ log p q. SeesWhole q) self.now.logs pass.old pass.new }
        ensures called { IfOk result
            (λ fetched. OnSlot slot (λ log p q. CalledOnLog D.Disk log.origin p
            (asked.fetch_version version) (reply_fetched fetched) q)
            self.now.logs pass.old pass.new) }
        ensures want { OnErr result (OnSlot slot (λ log p q. Wants p q)
            self.now.logs pass.old pass.new) }
    {
        let log = self.log_of(pass, slot);
        log.fetch_version(rt, pass.part_mut(slot), version)
    }

    /// The patch with an id in the log of a slot.
    pub fn fetch_id<R: Wait>(
        &self,
        rt: &R,
        pass: &mut LogsPass<D>,
        slot: u32,
        id: Id,
    ) -> Result<Fetched, OutOfMemory>
        requires of { ArePartsOf D.Disk self.now.logs pass.old }
        requires slot { (0 < slot) × (slot ≤ length self.now.logs) }
        ensures of { ArePartsOf D.Disk self.now.logs pass.new }
        ensures whole { OnSlot slot (λ log p q. SeesWhole q) self.now.logs pass.old pass.new }
        ensures called { IfOk result
            (λ fetched. OnSlot slot (λ log p q. CalledOnLog D.Disk log.origin p
            (asked.fetch_id id) (reply_fetched fetched) q)
            self.now.logs pass.old pass.new) }
        ensures want { OnErr result (OnSlot slot (λ log p q. Wants p q)
            self.now.logs pass.old pass.new) }
    {
        let log = self.log_of(pass, slot);
        log.fetch_id(rt, pass.part_mut(slot), id)
    }

    /// How long the log of a slot is, and the id of its last patch.
    pub fn describe<R: Wait>(&self, rt: &R, pass: &mut LogsPass<D>, slot: u32) -> LogInfo
        requires of { ArePartsOf D.Disk self.now.logs pass.old }
        requires slot { (0 < slot) × (slot ≤ length self.now.logs) }
        ensures of { ArePartsOf D.Disk self.now.logs pass.new }
        ensures whole { OnSlot slot (λ log p q. SeesWhole q) self.now.logs pass.old pass.new }
        ensures called { OnSlot slot (λ log p q. CalledOnLog D.Disk log.origin p
            asked.describe (reply_described result) q) self.now.logs pass.old pass.new }
    {
        let log = self.log_of(pass, slot);
        log.describe(rt, pass.part_mut(slot))
    }

    /// How long the log of a slot is. It waits for nobody.
    pub fn version(&self, pass: &mut LogsPass<D>, slot: u32) -> u32
        requires of { ArePartsOf D.Disk self.now.logs pass.old }
        requires slot { (0 < slot) × (slot ≤ length self.now.logs) }
        ensures of { ArePartsOf D.Disk self.now.logs pass.new }
        ensures whole { OnSlot slot (λ log p q. SeesWhole q) self.now.logs pass.old pass.new }
        ensures called { OnSlot slot (λ log p q. CalledOnLog D.Disk log.origin p
            asked.version (asked.counted result) q) self.now.logs pass.old pass.new }
    {
        let log = self.log_of(pass, slot);
        log.version(pass.part_mut(slot))
    }
}
