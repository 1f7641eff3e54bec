//! What a hall says to the calls that ask one of its logs.
ghost use Rattle.std.specs.Prelude.{◌≡◌, ◌<◌, ◌≤◌, length};
ghost use Rattle.http_session.specs.Said.{IsPrintableSaid};
ghost use Rattle.delta_session.specs.Answered.{ByPatch, ByRun, BySlot, BySource, TakesNoNumber};
ghost use Rattle.delta_session.specs.Halls.{IsHallPass};

use crate::hall::Hall;
use crate::pass::HallPass;
use call_replies::{append_answer, say, say_fault, say_fetched, say_run_fault, version_within};
use delta_base::{Bytes, Id, Text};
use disk_model::Disk;
use http_session::Said;
use log_base::LogInfo;
use patch_log::{read_patch, read_run};
use rpc_answers::Answer;
use std::alloc::Global;
use std::sync::Wait;

/// What is asked of the log of a slot.
#[derive(Drop)]
pub enum SlotCall {
    /// How long it is, and the id of its last patch.
    Describe,
    /// How long it is.
    Version,
    /// The patch of a version.
    FetchVersion(u64),
    /// The patch with an id.
    FetchId(Id),
    /// To take the patch that a text is.
    Append(Bytes),
    /// To take the run of patches that a text is, all or none.
    AppendRun(Bytes),
}

impl<D: Disk> Hall<D> {
    // Appends the patch that a text is to the log of a slot.
    fn append_to<R: Wait>(
        &self,
        rt: &R,
        alloc: Global,
        pass: &mut HallPass<D>,
        slot: u32,
        text: Bytes,
    ) -> Said
        requires ready { IsHallPass D.Disk self.now pass.old.lists }
        requires slot { (0 < slot) × (slot ≤ length self.now.logs.logs) }
        ensures takes { TakesNoNumber D.Disk self.now (ByPatch text slot) pass.old
            result pass.new }
        ensures printable { IsPrintableSaid result }
        ensures ready { IsHallPass D.Disk self.now pass.new.lists }
    {
        match read_patch(alloc, text) {
            Ok(run) => {
                let answer = self.logs.append(rt, &mut pass.logs, slot, run);
                say(alloc, append_answer(answer))
            }
            Err(fault) => say_fault(alloc, fault),
        }
    }

    // Appends the run of patches that a text is likewise.
    fn append_run_to<R: Wait>(
        &self,
        rt: &R,
        alloc: Global,
        pass: &mut HallPass<D>,
        slot: u32,
        text: Bytes,
    ) -> Said
        requires ready { IsHallPass D.Disk self.now pass.old.lists }
        requires slot { (0 < slot) × (slot ≤ length self.now.logs.logs) }
        ensures takes { TakesNoNumber D.Disk self.now (ByRun text slot) pass.old
            result pass.new }
        ensures printable { IsPrintableSaid result }
        ensures ready { IsHallPass D.Disk self.now pass.new.lists }
    {
        match read_run(alloc, text) {
            Ok(run) => {
                let count = run.count();
                let answer = self.logs.append(rt, &mut pass.logs, slot, run);
                say(alloc, append_answer(answer.as_run(count)))
            }
            Err(fault) => say_run_fault(alloc, fault),
        }
    }

    // What is said of the log of a slot.
    fn ask_at<R: Wait>(
        &self,
        rt: &R,
        alloc: Global,
        pass: &mut HallPass<D>,
        slot: u32,
        call: SlotCall,
    ) -> Said
        requires ready { IsHallPass D.Disk self.now pass.old.lists }
        requires slot { (0 < slot) × (slot ≤ length self.now.logs.logs) }
        ensures takes { TakesNoNumber D.Disk self.now (BySlot call slot) pass.old result pass.new }
        ensures printable { IsPrintableSaid result }
        ensures ready { IsHallPass D.Disk self.now pass.new.lists }
    {
        let logs = &self.logs;
        match call {
            SlotCall::Describe => {
                let LogInfo { version, head } = logs.describe(rt, &mut pass.logs, slot);
                say(alloc, Answer::Info { version, head })
            }
            SlotCall::Version => {
                let version = logs.version(&mut pass.logs, slot);
                say(alloc, Answer::Version { version })
            }
            SlotCall::FetchVersion(version) => say_fetched(
                alloc,
                logs.fetch_version(rt, &mut pass.logs, slot, version_within(version)),
            ),
            SlotCall::FetchId(id) => {
                say_fetched(alloc, logs.fetch_id(rt, &mut pass.logs, slot, id))
            }
            SlotCall::Append(text) => self.append_to(rt, alloc, pass, slot, text),
            SlotCall::AppendRun(text) => self.append_run_to(rt, alloc, pass, slot, text),
        }
    }

    /// What is said of the log of the source with a name.
    pub(crate) fn ask_slot<R: Wait>(
        &self,
        rt: &R,
        alloc: Global,
        pass: &mut HallPass<D>,
        name: Text,
        call: SlotCall,
    ) -> Said
        requires ready { IsHallPass D.Disk self.now pass.old.lists }
        ensures takes { TakesNoNumber D.Disk self.now (BySource name (BySlot call))
            pass.old result pass.new }
        ensures printable { IsPrintableSaid result }
        ensures ready { IsHallPass D.Disk self.now pass.new.lists }
    {
        match self.slot_of(rt, alloc, pass, name) {
            Ok(slot) => self.ask_at(rt, alloc, pass, slot, call),
            Err(said) => {
                drop(call);
                said
            }
        }
    }
}
