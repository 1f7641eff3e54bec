//! Why a text isn't read as a checkpoint.
ghost use Rattle.std.specs.Prelude.{◌≡◌};

use delta_base::{Back, OutOfMemory};

#[derive(Clone, Copy, Debug, PartialEq, Eq)]
pub enum CheckpointFault {
    /// It is the checkpoint of no generation and no brief.
    Broken,
    OutOfMemory,
}

impl From<OutOfMemory> for CheckpointFault {
    ghost use Rattle.checkpoint_reading.specs.declared.fault.CheckpointFault.TheVariants as fault;

    ghost from_gives = { λ _ e. e ≡ fault.OutOfMemory };

    fn from(_error: OutOfMemory) -> CheckpointFault {
        CheckpointFault::OutOfMemory
    }
}

impl<T: Drop> From<Back<T>> for CheckpointFault {
    ghost use Rattle.checkpoint_reading.specs.declared.fault.CheckpointFault.TheVariants as fault;

    ghost from_gives = { λ _ e. e ≡ fault.OutOfMemory };

    fn from(_back: Back<T>) -> CheckpointFault {
        CheckpointFault::OutOfMemory
    }
}
