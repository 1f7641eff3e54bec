//! Why a payload isn't written beside the current file, and why none is found.
ghost use Rattle.std.specs.Prelude.{◌≡◌};

use log_journal::{FillFault, FrontFault};

/// Why a payload isn't written beside the current file.
#[derive(Clone, Copy, Debug, PartialEq, Eq)]
pub enum WriteFault {
    Failed,
    OutOfMemory,
}

impl From<FillFault> for WriteFault {
    ghost use Rattle.std.specs.Prelude.{◌↔◌};
    ghost use Rattle.log_journal.specs.declared.filling.FillFault.TheVariants as fill;
    ghost use Rattle.zone_beside.specs.declared.fault.WriteFault.TheVariants as write;

    ghost from_gives = { λ fault e. (e ≡ write.Failed) ↔ (fault ≡ fill.Failed) };

    // There is room: what is no failure of the disk is told as want of memory.
    fn from(fault: FillFault) -> WriteFault {
        match fault {
            FillFault::Failed => WriteFault::Failed,
            FillFault::Full { .. } | FillFault::OutOfMemory => WriteFault::OutOfMemory,
        }
    }
}

/// Why of two files none is found to be current.
#[derive(Clone, Copy, Debug, PartialEq, Eq)]
pub enum FindFault {
    /// What stands at the front of a file can't be read.
    AtFront { second: bool, fault: FrontFault },
    /// A file begins as a checkpoint, and not with the first line of one.
    BrokenCheckpoint { second: bool },
}
