//! Why a payload doesn't go behind a chain.
ghost use Rattle.std.specs.Prelude.{◌≡◌};
ghost use Rattle.patch_log.specs.declared.next_fault.NextFault.TheVariants as faults;

use delta_base::OutOfMemory;
use std::alloc::AllocFailed;

/// Why a payload doesn't go behind a chain.
#[derive(Clone, Copy, Debug, PartialEq, Eq)]
pub enum NextFault {
    Broken,
    OutOfMemory,
}

impl From<OutOfMemory> for NextFault {
    ghost from_gives = { λ _ e. e ≡ faults.OutOfMemory };

    fn from(_error: OutOfMemory) -> NextFault {
        NextFault::OutOfMemory
    }
}

impl<T: Drop> From<AllocFailed<T>> for NextFault {
    ghost from_gives = { λ _ e. e ≡ faults.OutOfMemory };

    fn from(_error: AllocFailed<T>) -> NextFault {
        NextFault::OutOfMemory
    }
}
