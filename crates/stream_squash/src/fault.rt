//! Why a stream isn't squashed.
ghost use Rattle.std.specs.Prelude.{◌≡◌};
ghost use Rattle.stream_squash.specs.declared.fault.SquashFault.TheVariants as ends;
ghost use Rattle.stream_squash.specs.Faults.{net_refused};

use chain_core::ChainFault;
use delta_base::OutOfMemory;
use patch_algebra::NetFault;
use patch_meaning::PatchKind;
use std::alloc::AllocError;

/// Why a stream has no net patch or no inverse.
#[derive(Clone, Copy, Debug, PartialEq, Eq)]
pub enum SquashFault {
    /// The text is no stream: what is wrong at the place of its first fault, and the place's line,
    /// counted from 1.
    Stream { line: u64, at: u64, kind: PatchKind },
    /// The text is no stream: its first fault is that a patch has more bytes than it may have.
    LongPatch { length: u64, limit: u64 },
    /// The text is a stream, and its patches are no chain; or the inverse has an id of one of them.
    Chain(ChainFault),
    /// There is no patch of this version.
    NoPatch { version: u32 },
    /// The net patch or the inverse has more bytes than a patch may have.
    NetTooLong { length: u64, limit: u64 },
    OutOfMemory,
}

impl From<OutOfMemory> for SquashFault {
    ghost from_gives = { λ _ e. e ≡ ends.OutOfMemory };

    fn from(_: OutOfMemory) -> SquashFault {
        SquashFault::OutOfMemory
    }
}

impl From<AllocError> for SquashFault {
    ghost from_gives = { λ _ e. e ≡ ends.OutOfMemory };

    fn from(_: AllocError) -> SquashFault {
        SquashFault::OutOfMemory
    }
}

impl From<NetFault> for SquashFault {
    ghost from_gives = { λ e f. f ≡ net_refused e };

    fn from(e: NetFault) -> SquashFault {
        match e {
            NetFault::TooLong { length, limit } => SquashFault::NetTooLong { length, limit },
            NetFault::OutOfMemory => SquashFault::OutOfMemory,
        }
    }
}
