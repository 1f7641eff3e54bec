//! Why a hall can't be opened.
ghost use Rattle.std.specs.Prelude.{◌≡◌};
ghost use Rattle.delta_session.specs.Opening.{hall_fault_of_registry, hall_fault_of_log};

use disk_model::Disk;
use log_registry::RegistryFault;
use patch_log::LogFault;

/// The first fault of a hall's files, or want of memory.
#[derive(Clone, Copy, Debug, PartialEq, Eq)]
pub enum HallFault {
    DiskFault,
    Damaged { file: u32, at: u64 },
    /// The file is of the form before this one.
    OldFormat { file: u32 },
    WrongNumber { file: u32, found: u32 },
    OverLimit { file: u32, length: u64, limit: u64 },
    BrokenChain { file: u32, version: u64 },
    BrokenEvent { place: u64 },
    /// There is another count of disks than one for file 0 and one for each slot.
    WrongCount { disks: u64, slots: u32 },
    OutOfMemory,
}

/// A hall that couldn't be opened, with its disks in their order.
#[derive(Drop)]
pub struct HallRefusal<D: Disk> {
    pub disks: Vec<D>,
    pub fault: HallFault,
}

impl HallFault {
    // A fault of file 0.
    pub(crate) fn of_registry(fault: RegistryFault) -> HallFault
        ensures { result ≡ hall_fault_of_registry fault }
    {
        match fault {
            RegistryFault::Failed => HallFault::DiskFault,
            RegistryFault::Damaged { at } => HallFault::Damaged { file: 0, at },
            RegistryFault::OldFormat => HallFault::OldFormat { file: 0 },
            RegistryFault::WrongNumber { found } => HallFault::WrongNumber { file: 0, found },
            RegistryFault::OverLimit { length, limit } => HallFault::OverLimit {
                file: 0,
                length,
                limit,
            },
            RegistryFault::BrokenEvent { place } => HallFault::BrokenEvent { place },
            RegistryFault::OutOfMemory => HallFault::OutOfMemory,
        }
    }

    // A fault of a file behind it.
    pub(crate) fn of_log(file: u32, fault: LogFault) -> HallFault
        ensures { result ≡ hall_fault_of_log file fault }
    {
        match fault {
            LogFault::Failed => HallFault::DiskFault,
            LogFault::Damaged { at } => HallFault::Damaged { file, at },
            LogFault::OldFormat => HallFault::OldFormat { file },
            LogFault::WrongNumber { found } => HallFault::WrongNumber { file, found },
            LogFault::OverLimit { length, limit } => HallFault::OverLimit {
                file,
                length,
                limit,
            },
            LogFault::BrokenChain { version } => HallFault::BrokenChain { file, version },
            LogFault::OutOfMemory => HallFault::OutOfMemory,
        }
    }
}
