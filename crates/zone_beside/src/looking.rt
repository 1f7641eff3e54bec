//! Looks at the fronts of two files.
ghost use Rattle.std.specs.Prelude.{◌≡◌, Some, true, false, IfOk, IfErr, OnOk};
ghost use Rattle.disk_model.specs.Past.{reads, synced};
ghost use Rattle.log_journal.specs.Written.{Reopened, RefusedOpening};
ghost use Rattle.zone_files.specs.Generation.{IsInGeneration};
ghost use Rattle.zone_beside.specs.Finding.{HasFindFault};

use crate::fault::FindFault;
use disk_model::Disk;
use log_journal::{FrontFault, front};
use std::alloc::Global;
use zone_files::{SECOND_NUMBER, ZONE_NUMBER, generation_of};

/// In which generations the files are.
pub fn generations<D: Disk>(
    alloc: Global,
    first: &mut D,
    second: &mut D,
) -> Result<(u64, Option<u64>), FindFault>
    ensures found { D.tells → IfOk result (λ of.
        IsInGeneration (reads (D.past first.old)) false (Some of.0)
        × IsInGeneration (reads (D.past second.old)) true of.1) }
    ensures synced { D.tells → OnOk result ((D.past first.new ≡ synced (D.past first.old))
        × (D.past second.new ≡ synced (D.past second.old))) }
    ensures fault { D.tells → IfErr result
        (HasFindFault (reads (D.past first.old)) (reads (D.past second.old))) }
    ensures first { OnOk result (Reopened D.Disk first.old first.new 81) }
    ensures second { OnOk result (Reopened D.Disk second.old second.new 81) }
    ensures first_refused { IfErr result (λ fault. RefusedOpening D.Disk
        (fault ≡ FindFault.AtFront false FrontFault.Failed) first.old first.new) }
    ensures second_refused { IfErr result (λ fault. RefusedOpening D.Disk
        (fault ≡ FindFault.AtFront true FrontFault.Failed) second.old second.new) }
{
    let at_first = match front(alloc, first, ZONE_NUMBER) {
        Ok(at_first) => at_first,
        Err(fault) => {
            return Err(FindFault::AtFront {
                second: false,
                fault,
            });
        }
    };
    let at_second = match front(alloc, second, SECOND_NUMBER) {
        Ok(at_second) => at_second,
        Err(fault) => {
            return Err(FindFault::AtFront {
                second: true,
                fault,
            });
        }
    };
    let Ok(Some(of_first)) = generation_of(false, &at_first) else {
        return Err(FindFault::BrokenCheckpoint { second: false });
    };
    let Ok(of_second) = generation_of(true, &at_second) else {
        return Err(FindFault::BrokenCheckpoint { second: true });
    };
    Ok((of_first, of_second))
}
