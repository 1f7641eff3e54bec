//! Why files aren't upgraded.
ghost use Rattle.std.specs.Prelude.{◌≡◌};

use delta_base::{Failed, OutOfMemory};

/// The first fault of the files, with the number in the file's header; or a disk failed, or memory
/// ran out.
#[derive(Clone, Copy, Debug, PartialEq, Eq)]
pub enum UpgradeFault {
    Failed,
    Damaged { file: u32, at: u64 },
    WrongNumber { file: u32, found: u32 },
    OverLimit { file: u32, length: u64, limit: u64 },
    OutOfMemory,
}

impl From<Failed> for UpgradeFault {
    ghost use Rattle.journal_upgrade.specs.declared.fault.UpgradeFault.TheVariants.{
      Failed as NotDone,
    };

    ghost from_gives = { λ _ e. e ≡ NotDone };

    fn from(_: Failed) -> UpgradeFault {
        UpgradeFault::Failed
    }
}

impl From<OutOfMemory> for UpgradeFault {
    ghost use Rattle.journal_upgrade.specs.declared.fault.UpgradeFault.TheVariants as upgrade;

    ghost from_gives = { λ _ e. e ≡ upgrade.OutOfMemory };

    fn from(_: OutOfMemory) -> UpgradeFault {
        UpgradeFault::OutOfMemory
    }
}
