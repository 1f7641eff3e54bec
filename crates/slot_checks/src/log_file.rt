//! The file of a log.
ghost use Rattle.std.specs.Prelude.{◌≡◌, ℕ, IfOk, IfErr, IsErrOf};
ghost use Rattle.delta_base.specs.Outside.{Rose};
ghost use Rattle.disk_model.specs.Past.{reads};
ghost use Rattle.slot_checks.specs.Sound.{IsLogLine};
ghost use Rattle.slot_checks.specs.Faults.{HasFileFault};

use crate::fault::CheckFault;
use crate::lines::FileLine;
use disk_model::Disk;
use log_base::LOG_LIMITS;
use patch_log::{LogRefusal, LogState};
use std::alloc::Global;

/// The line of a log's file, which is read as it is opened, and its disk.
pub fn read_log_file<D: Disk>(
    alloc: Global,
    disk: D,
    number: u32,
) -> (D, Result<FileLine, CheckFault>)
    ensures ok { D.tells → IfOk result.1 (IsLogLine (reads (D.past disk)) number) }
    ensures fault { D.tells → IfErr result.1 (HasFileFault (reads (D.past disk)) number) }
    ensures kept { D.tells → reads (D.past result.0) ≡ reads (D.past disk) }
    ensures cause { IsErrOf result.1 CheckFault.Failed → Rose (D.faults disk) (D.faults result.0) }
    ensures mark { D.mark result.0 ≡ D.mark disk }
{
    match LogState::open_on(alloc, disk, number, LOG_LIMITS) {
        Ok(log) => {
            let line = FileLine::Log {
                number,
                patches: log.chain().version(),
                head: log.chain().head(),
            };
            (log.close(), Ok(line))
        }
        Err(LogRefusal { disk, fault }) => (disk, Err(CheckFault::of_log(number, fault))),
    }
}
