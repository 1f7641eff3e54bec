//! Why an input has no replay.
ghost use Rattle.std.specs.Prelude.{◌≡◌};
ghost use Rattle.stream_replay.specs.declared.fault.ReplayFault.TheVariants as ends;

use chain_core::ChainFault;
use delta_base::OutOfMemory;
use patch_meaning::PatchKind;

/// Why an input has no replay.
#[derive(Clone, Copy, Debug, PartialEq, Eq)]
pub enum ReplayFault {
    /// The text is no stream: what is wrong at the place of its first fault, and the place's line,
    /// counted from 1.
    Stream { line: u64, at: u64, kind: PatchKind },
    /// The text is no stream: its first fault is that a patch has more bytes than it may have.
    LongPatch { length: u64, limit: u64 },
    /// The text is a stream, and its patches are no chain.
    Chain(ChainFault),
    /// The input has more bytes than a stream may have.
    TooLong,
    /// A call of the input failed.
    Failed,
    OutOfMemory,
}

impl From<OutOfMemory> for ReplayFault {
    ghost from_gives = { λ _ e. e ≡ ends.OutOfMemory };

    fn from(_: OutOfMemory) -> ReplayFault {
        ReplayFault::OutOfMemory
    }
}
