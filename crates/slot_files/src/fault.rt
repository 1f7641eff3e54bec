//! Why the files couldn't be made.
ghost use Rattle.std.specs.Prelude.{◌≡◌};
ghost use Rattle.slot_files.specs.declared.fault.InitFault.TheVariants as initial;

use delta_base::OutOfMemory;
use disk_model::ShelfFault;

#[derive(Clone, Copy, Debug, PartialEq, Eq)]
pub enum InitFault {
    /// A file has bytes already.
    NotEmpty { number: u32, length: u64 },
    Failed,
    OutOfMemory,
}

impl From<OutOfMemory> for InitFault {
    ghost from_gives = { λ _ e. e ≡ initial.OutOfMemory };

    fn from(_error: OutOfMemory) -> InitFault {
        InitFault::OutOfMemory
    }
}
