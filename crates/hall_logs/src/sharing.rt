//! Logs that were opened are shared among passes.
ghost use Rattle.std.specs.Prelude.{
  ◌≡◌,
  ◌<◌,
  ◌≤◌,
  ◌+◌,
  ◌++◌,
  [],
  length,
  map,
  reverse,
  IfOk,
  IfErr,
  OnOk,
  vec_len,
  vec_capacity,
};
ghost use Rattle.std.specs.List.{AllZip};
ghost use Rattle.turn_cell.specs.Turns.{AllOf};
ghost use Rattle.hall_logs.specs.Files.{IsFresh, IsDiskOf};
ghost use Rattle.hall_logs.specs.Rooms.{HasRoom};
ghost use Rattle.hall_logs.specs.Slots.{AreNew, EachHasItsSeats, IsShared};

use crate::dealing::deal;
use crate::logs::HallLogs;
use crate::pass::LogsPass;
use crate::refusal::LogsRefusal;
use crate::rooms::{Lists, Rooms};
use delta_base::Back;
use disk_model::Disk;
use patch_log::{LogFault, LogState};
use shared_log::SharedLog;
use std::alloc::Global;

impl<D: Disk> HallLogs<D> {
    // Shares one log more.
    fn add(
        &mut self,
        alloc: Global,
        log: LogState<D>,
        passes: &mut Vec<LogsPass<D>>,
        lists: &mut Lists<D>,
    ) -> Result<(), Back<LogState<D>>>
        requires few { length self.old.logs < 16 }
        requires fresh { IsFresh D.Disk log }
        requires count { vec_len passes.old ≡ self.old.seats }
        requires parts { AllOf (λ parts. length parts ≡ length self.old.logs) passes.old.items }
        requires lists { (lists.old.count ≡ length self.old.logs)
            × (lists.old.width ≡ self.old.seats) }
        ensures ok { OnOk result (IsShared D.Disk log self.old passes.old.items
            self.new passes.new.items) }
        ensures err { IfErr result (λ back. (back.item ≡ log) × (self.new ≡ self.old)
            × (passes.new.items ≡ passes.old.items)) }
        ensures count { vec_len passes.new ≡ vec_len passes.old }
        ensures lists { (lists.new.count ≡ length self.new.logs)
            × (lists.new.width ≡ lists.old.width) }
    {
        match SharedLog::new(alloc, log, self.seats) {
            Ok((log, mut parts)) => {
                deal(&mut parts, passes);
                lists.put(parts);
                self.logs.push_reserved(log);
                Ok(())
            }
            Err(back) => Err(back),
        }
    }

    // Closes the logs that are shared, and then the others, which stand in reverse.
    fn give_up(
        self,
        passes: Vec<LogsPass<D>>,
        rooms: Rooms<D>,
        opened: Vec<LogState<D>>,
    ) -> LogsRefusal<D>
        requires room { length self.logs + vec_len opened ≤ rooms.disks }
        requires few { length self.logs < 16 }
        requires passes { AreNew D.Disk self.logs 1 passes.items
            × (vec_len passes ≡ self.seats) }
        requires rooms { HasRoom self rooms }
        ensures still { AllZip (IsDiskOf D.Disk)
            (map (λ log. log.origin) self.logs ++ reverse opened.items) result.disks.items }
        ensures told { result.fault ≡ LogFault.OutOfMemory }
        ensures room { vec_capacity result.disks ≡ rooms.disks }
    {
        let mut opened = opened;
        let file = self.logs.len() as u32 + 1;
        let mut disks = self.close(passes, rooms);
        while let Some(log) = opened.pop() {
            disks.push_reserved(log.close());
        }
        opened.destroy_empty();
        LogsRefusal {
            disks,
            file,
            fault: LogFault::OutOfMemory,
        }
    }

    // Shares the logs, which stand in reverse.
    pub(crate) fn share(
        self,
        alloc: Global,
        opened: Vec<LogState<D>>,
        passes: Vec<LogsPass<D>>,
        rooms: Rooms<D>,
    ) -> Result<(HallLogs<D>, Vec<LogsPass<D>>, Rooms<D>), LogsRefusal<D>>
        requires none { self.logs ≡ [] }
        requires room { (vec_len opened ≤ rooms.disks) × (vec_len opened ≤ 16) }
        requires fresh { AllOf (IsFresh D.Disk) opened.items }
        requires passes { (vec_len passes ≡ self.seats) × AllOf (λ parts. parts ≡ []) passes.items }
        requires rooms { (rooms.lists.count ≡ 0) × (rooms.lists.width ≡ self.seats) }
        ensures logs { IfOk result (λ r.
            map (λ log. log.origin) r.0.logs ≡ reverse opened.items) }
        ensures seats { IfOk result (λ r. r.0.seats ≡ self.seats) }
        ensures each { IfOk result (λ r. EachHasItsSeats r.0) }
        ensures new { IfOk result (λ r. (vec_len r.1 ≡ self.seats)
            × AreNew D.Disk r.0.logs 1 r.1.items) }
        ensures rooms { IfOk result (λ r. HasRoom r.0 r.2 × (r.2.disks ≡ rooms.disks)) }
        ensures still { IfErr result (λ refusal. AllZip (IsDiskOf D.Disk) (reverse opened.items)
            refusal.disks.items) }
        ensures told { IfErr result (λ refusal. refusal.fault ≡ LogFault.OutOfMemory) }
        ensures room { IfErr result (λ refusal. vec_capacity refusal.disks ≡ rooms.disks) }
    {
        let mut hall = self;
        let mut opened = opened;
        let mut passes = passes;
        let Rooms { mut lists, disks } = rooms;
        while let Some(log) = opened.pop() {
            match hall.add(alloc, log, &mut passes, &mut lists) {
                Ok(()) => {}
                Err(Back { item }) => {
                    opened.push_reserved(item);
                    return Err(hall.give_up(passes, Rooms { lists, disks }, opened));
                }
            }
        }
        opened.destroy_empty();
        let _seats = hall.seats();
        Ok((hall, passes, Rooms { lists, disks }))
    }
}
