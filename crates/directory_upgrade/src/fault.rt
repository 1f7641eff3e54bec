//! The faults of an upgrade, told as those of files.
ghost use Rattle.std.specs.Prelude.{◌≡◌};
ghost use Rattle.directory_upgrade.specs.Faults.{check_fault_of_upgrade};

use journal_upgrade::UpgradeFault;
use slot_checks::CheckFault;

/// The fault of a file, a spare or the marker.
pub fn check_fault(fault: UpgradeFault) -> CheckFault
    ensures { result ≡ check_fault_of_upgrade fault }
{
    match fault {
        UpgradeFault::Failed => CheckFault::Failed,
        UpgradeFault::Damaged { file, at } => CheckFault::Damaged { file, at },
        UpgradeFault::WrongNumber { file, found } => CheckFault::WrongNumber { file, found },
        UpgradeFault::OverLimit {
            file,
            length,
            limit,
        } => CheckFault::OverLimit {
            file,
            length,
            limit,
        },
        UpgradeFault::OutOfMemory => CheckFault::OutOfMemory,
    }
}
