//! Why a file isn't in its form.
use delta_base::Back;
use disk_model::ShelfFault;
use log_journal::FrontFault;
use log_registry::RegistryFault;
use patch_log::LogFault;

/// The first file that isn't in its form, and why.
#[derive(Clone, Copy, Debug, PartialEq, Eq)]
pub enum CheckFault {
    Damaged { file: u32, at: u64 },
    /// The file is of the form before this one.
    OldFormat { file: u32 },
    WrongNumber { file: u32, found: u32 },
    /// The file's length passes its limit; or that of a log would with a payload for each patch.
    OverLimit { file: u32, length: u64, limit: u64 },
    /// A payload is no run of patches that continues the chain. The version is the one that its
    /// first patch would have.
    BrokenChain { file: u32, version: u64 },
    /// The payload of the registry at this place, counted from 0, isn't one that may stand there.
    BrokenEvent { place: u64 },
    /// The marker of an upgrade has a payload: the upgrade was broken off, and is to be finished.
    UpgradePending { file: u32 },
    Failed,
    OutOfMemory,
}

impl CheckFault {
    ghost use Rattle.std.specs.Prelude.{◌≡◌};
    ghost use Rattle.slot_checks.specs.Faults.{check_fault_of_registry, check_fault_of_log};
    ghost use Rattle.slot_checks.specs.Faults.{check_fault_of_front};

    /// A fault of the registry, whose file has the number 0.
    pub fn of_registry(fault: RegistryFault) -> CheckFault
        ensures { result ≡ check_fault_of_registry fault }
    {
        match fault {
            RegistryFault::Failed => CheckFault::Failed,
            RegistryFault::Damaged { at } => CheckFault::Damaged { file: 0, at },
            RegistryFault::OldFormat => CheckFault::OldFormat { file: 0 },
            RegistryFault::WrongNumber { found } => CheckFault::WrongNumber { file: 0, found },
            RegistryFault::OverLimit { length, limit } => CheckFault::OverLimit {
                file: 0,
                length,
                limit,
            },
            RegistryFault::BrokenEvent { place } => CheckFault::BrokenEvent { place },
            RegistryFault::OutOfMemory => CheckFault::OutOfMemory,
        }
    }

    /// A fault of a log, with its file.
    pub fn of_log(file: u32, fault: LogFault) -> CheckFault
        ensures { result ≡ check_fault_of_log file fault }
    {
        match fault {
            LogFault::Failed => CheckFault::Failed,
            LogFault::Damaged { at } => CheckFault::Damaged { file, at },
            LogFault::OldFormat => CheckFault::OldFormat { file },
            LogFault::WrongNumber { found } => CheckFault::WrongNumber { file, found },
            LogFault::OverLimit { length, limit } => CheckFault::OverLimit {
                file,
                length,
                limit,
            },
            LogFault::OutOfMemory => CheckFault::OutOfMemory,
            LogFault::BrokenChain { version } => CheckFault::BrokenChain { file, version },
        }
    }

    /// A fault of the front of a journal, with its file.
    pub fn of_front(file: u32, fault: FrontFault) -> CheckFault
        ensures { result ≡ check_fault_of_front file fault }
    {
        match fault {
            FrontFault::Failed => CheckFault::Failed,
            FrontFault::Damaged { at } => CheckFault::Damaged { file, at },
            FrontFault::OldFormat => CheckFault::OldFormat { file },
            FrontFault::WrongNumber { found } => CheckFault::WrongNumber { file, found },
            FrontFault::OutOfMemory => CheckFault::OutOfMemory,
        }
    }
}

impl From<ShelfFault> for CheckFault {
    ghost use Rattle.std.specs.Prelude.{◌≡◌};
    ghost use Rattle.slot_checks.specs.Faults.{of_shelf};

    ghost from_gives = { λ fault e. e ≡ of_shelf fault };

    fn from(fault: ShelfFault) -> CheckFault {
        match fault {
            ShelfFault::Failed => CheckFault::Failed,
            ShelfFault::OutOfMemory => CheckFault::OutOfMemory,
        }
    }
}

impl<T: Drop> From<Back<T>> for CheckFault {
    ghost use Rattle.std.specs.Prelude.{◌≡◌};
    ghost use Rattle.slot_checks.specs.declared.fault.CheckFault.TheVariants as check;

    ghost from_gives = { λ _ e. e ≡ check.OutOfMemory };

    fn from(_back: Back<T>) -> CheckFault {
        CheckFault::OutOfMemory
    }
}
