//! Why a row could not be read.

ghost use Rattle.std.specs.Prelude.{◌≡◌};
ghost use Rattle.patch_rows.specs.Fault.{row_fault};
ghost use Rattle.patch_rows.specs.Names.{row_kind_name};
ghost use Rattle.patch_rows.specs.declared.fault.RowFault.TheVariants as faults;

use delta_base::OutOfMemory;
use nquads_text::{ReadFault, TextKind};
use std::alloc::AllocError;

/// What is wrong with a row.
#[derive(Clone, Copy, Debug, PartialEq, Eq)]
pub enum RowKind {
    /// As in N-Quads.
    Common(TextKind),
    /// The letters in front of the row are no code.
    UnknownCode,
    /// The dot comes too early, or a term too many.
    WrongCount,
    /// The row passes 4,194,304 bytes.
    TooLong,
}

impl RowKind {
    /// Its name, as lines and replies print it.
    pub fn name(self) -> &'static str
        ensures { result.now ≡ row_kind_name self }
    {
        match self {
            RowKind::Common(kind) => kind.name(),
            RowKind::UnknownCode => "UnknownCode",
            RowKind::WrongCount => "WrongCount",
            RowKind::TooLong => "TooLong",
        }
    }
}

/// The first fault of a row and its place, or want of memory.
#[derive(Clone, Copy, Debug, PartialEq, Eq)]
pub enum RowFault {
    At { at: u64, kind: RowKind },
    OutOfMemory,
}

impl RowFault {
    /// The fault at a place.
    pub fn at(at: usize, kind: RowKind) -> RowFault
        ensures { result ≡ faults.At at kind }
    {
        RowFault::At {
            at: at as u64,
            kind,
        }
    }
}

impl From<OutOfMemory> for RowFault {
    ghost from_gives = { λ _ e. e ≡ faults.OutOfMemory };

    fn from(_e: OutOfMemory) -> RowFault {
        RowFault::OutOfMemory
    }
}

impl From<AllocError> for RowFault {
    ghost from_gives = { λ _ e. e ≡ faults.OutOfMemory };

    fn from(_e: AllocError) -> RowFault {
        RowFault::OutOfMemory
    }
}

impl From<ReadFault> for RowFault {
    ghost from_gives = { λ e f. f ≡ row_fault e };

    fn from(e: ReadFault) -> RowFault {
        match e {
            ReadFault::At { at, kind } => RowFault::at(at, RowKind::Common(kind)),
            ReadFault::OutOfMemory => RowFault::OutOfMemory,
        }
    }
}
