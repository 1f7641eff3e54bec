//! Logs give their disks back.
ghost use Rattle.std.specs.Prelude.{◌≡◌, map, vec_capacity};
ghost use Rattle.std.specs.List.{AllZip};
ghost use Rattle.hall_logs.specs.Files.{IsDiskOf};
ghost use Rattle.hall_logs.specs.Slots.{AreAllHallPasses, AreNew};
ghost use Rattle.hall_logs.specs.Rooms.{HasRoom};
ghost use Rattle.hall_logs.specs.Ends.{AreEnded};

use crate::dealing::gather;
use crate::logs::HallLogs;
use crate::pass::LogsPass;
use crate::rooms::Rooms;
use disk_model::Disk;

impl<D: Disk> HallLogs<D> {
    /// The disks in the order of the slots, once all passes are back. It takes no memory.
    pub fn close(self, passes: Vec<LogsPass<D>>, rooms: Rooms<D>) -> Vec<D>
        requires passes { AreAllHallPasses D.Disk self.logs self.seats passes.items }
        requires rooms { HasRoom self rooms }
        ensures ends { AreEnded D.Disk 0 self.logs passes.items result.items }
        ensures room { vec_capacity result ≡ rooms.disks }

        // Where no pass made a call, each disk is that of its log as it was shared.
        ensures idle { AreNew D.Disk self.logs 1 passes.items
            → AllZip (IsDiskOf D.Disk) (map (λ log. log.origin) self.logs) result.items }
    {
        let mut passes = passes;
        let HallLogs { mut logs, seats: _ } = self;
        let Rooms {
            mut lists,
            mut disks,
        } = rooms;
        while let Some(log) = logs.pop() {
            let mut parts = lists.take();
            gather(&mut passes, &mut parts);
            disks.push_reserved(log.close(parts).close());
        }
        logs.destroy_empty();
        disks.reverse();
        disks
    }
}
