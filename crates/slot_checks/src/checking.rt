//! All files of a registry and of its logs.
ghost use Rattle.std.specs.Prelude.{
  ◌≡◌,
  ℕ,
  ◌+◌,
  ◌≤◌,
  ◌++◌,
  ◌∷◌,
  [],
  length,
  IfOk,
  IfErr,
  OnOk,
  IsErrOf,
  Some,
};
ghost use Rattle.delta_base.specs.Outside.{Rose};
ghost use Rattle.log_base.specs.declared.limits.TheConstants.{MOST_SLOTS};
ghost use Rattle.disk_model.specs.Shelf.{SameOthers};
ghost use Rattle.slot_files.specs.Files.{IsKept, bytes_at};
ghost use Rattle.slot_checks.specs.Checks.{HasFileLines, IsReport, CheckStops, StopsInLogs};
ghost use Rattle.slot_checks.specs.Checks.{AreKept};
ghost use Rattle.slot_checks.specs.Faults.{HasFileFault};
ghost use Rattle.slot_checks.specs.Sound.{IsLogLine};

use crate::fault::CheckFault;
use crate::lines::{FileLine, Report};
use crate::registry_file::RegistryFile;
use crate::visiting::{check_log, check_registry};
use delta_base::{Listing, Text};
use disk_model::Shelf;
use std::alloc::Global;

// Adds the line of a log's file.
fn add_log<H: Shelf>(
    alloc: Global,
    shelf: &mut H,
    dir: &Text,
    number: u32,
    report: &mut Report,
) -> Result<(), CheckFault>
    ensures ok { H.tells → OnOk result ((line : _)
        × IsLogLine (bytes_at (H.files shelf.old) dir.now number) number line
        × (report.new.items ≡ report.old.items ++ line ∷ [])) }
    ensures fault { H.tells → IfErr result
        (HasFileFault (bytes_at (H.files shelf.old) dir.now number) number) }
    ensures kept { H.tells → IsKept (H.files shelf.old dir.now number)
        (H.files shelf.new dir.now number) }
    ensures others { H.tells → SameOthers (Some (dir.now, number))
        (H.files shelf.old) (H.files shelf.new) }
    ensures cause { IsErrOf result CheckFault.Failed
        → Rose (H.faults shelf.old) (H.faults shelf.new) }
    ensures faults { H.faults shelf.old ≤ H.faults shelf.new }
{
    let line = check_log(alloc, shelf, dir, number)?;
    report.push(line)?;
    Ok(())
}

// Adds the lines of the logs' files to that of the registry.
fn add_logs<H: Shelf>(
    alloc: Global,
    shelf: &mut H,
    dir: &Text,
    registry: RegistryFile,
    report: &mut Report,
) -> Result<(), CheckFault>
    requires few { registry.slots ≤ MOST_SLOTS }
    requires first { report.old.items ≡ FileLine.Registry registry.records ∷ [] }
    ensures ok { H.tells → OnOk result (HasFileLines (H.files shelf.old) dir.now
        registry.records (registry.slots + 1) report.new.items) }
    ensures kept { H.tells → OnOk result
        (AreKept dir.now (registry.slots + 1) (H.files shelf.old) (H.files shelf.new)) }
    ensures fault { H.tells → IfErr result
        (StopsInLogs dir.now registry.slots (H.files shelf.old) (H.files shelf.new)) }
    ensures cause { IsErrOf result CheckFault.Failed
        → Rose (H.faults shelf.old) (H.faults shelf.new) }
    ensures faults { H.faults shelf.old ≤ H.faults shelf.new }
{
    for number in 1..=registry.slots {
        add_log(alloc, shelf, dir, number, report)?;
    }
    Ok(())
}

/// Opens the registry's file and then those of its logs, and tells what each holds, or the first
/// fault. Each of their disks is put back.
pub fn check_files<H: Shelf>(alloc: Global, shelf: &mut H, dir: &Text) -> Result<Report, CheckFault>
    ensures ok { H.tells → IfOk result (λ report.
        IsReport (H.files shelf.old) dir.now report.items) }

    // Each file that has a line is left as it was, and no other was asked for. One that didn't
    // exist is empty.
    ensures kept { H.tells → IfOk result (λ report.
        AreKept dir.now (length report.items) (H.files shelf.old) (H.files shelf.new)) }

    // So is each file up to the one with the fault.
    ensures fault { H.tells → IfErr result
        (CheckStops dir.now (H.files shelf.old) (H.files shelf.new)) }
    ensures cause { IsErrOf result CheckFault.Failed
        → Rose (H.faults shelf.old) (H.faults shelf.new) }
    ensures faults { H.faults shelf.old ≤ H.faults shelf.new }
{
    let registry = check_registry(alloc, shelf, dir)?;
    let mut report = Listing::new(alloc);
    report.push(FileLine::Registry {
        records: registry.records,
    })?;
    add_logs(alloc, shelf, dir, registry, &mut report)?;
    Ok(report)
}
