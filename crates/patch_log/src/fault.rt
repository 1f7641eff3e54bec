//! Why a log can't be opened.
use delta_base::OutOfMemory;
use disk_model::Disk;
use log_journal::JournalFault;

#[derive(Clone, Copy, Debug, PartialEq, Eq)]
pub enum LogFault {
    Failed,
    Damaged { at: u64 },
    /// The file is of the form before this one.
    OldFormat,
    WrongNumber { found: u32 },
    /// The journal is longer than it may be, or would be with a payload for each patch.
    OverLimit { length: u64, limit: u64 },
    OutOfMemory,
    /// A payload is no run that goes behind those before it, or there are more patches than there
    /// may be. Its first patch would have this version.
    BrokenChain { version: u64 },
}

/// A log that couldn't be opened, with its disk.
#[derive(Drop)]
pub struct LogRefusal<D: Disk> {
    pub disk: D,
    pub fault: LogFault,
}

impl From<JournalFault> for LogFault {
    ghost use Rattle.std.specs.Prelude.{◌≡◌, Some};
    ghost use Rattle.patch_log.specs.Fault.{journal_part};

    ghost from_gives = { λ fault e. journal_part e ≡ Some fault };

    fn from(fault: JournalFault) -> LogFault {
        match fault {
            JournalFault::Failed => LogFault::Failed,
            JournalFault::Damaged { at } => LogFault::Damaged { at },
            JournalFault::OldFormat => LogFault::OldFormat,
            JournalFault::WrongNumber { found } => LogFault::WrongNumber { found },
            JournalFault::OverLimit { length, limit } => LogFault::OverLimit { length, limit },
            JournalFault::OutOfMemory => LogFault::OutOfMemory,
        }
    }
}

impl From<OutOfMemory> for LogFault {
    ghost use Rattle.std.specs.Prelude.{◌≡◌};
    ghost use Rattle.patch_log.specs.declared.fault.LogFault.TheVariants as log;

    ghost from_gives = { λ _ e. e ≡ log.OutOfMemory };

    fn from(_error: OutOfMemory) -> LogFault {
        LogFault::OutOfMemory
    }
}
