//! Why a text is no patch.

ghost use Rattle.std.specs.Prelude.{◌≡◌};
ghost use Rattle.patch_meaning.specs.Names.{fault_name, patch_kind_name};
ghost use Rattle.patch_meaning.specs.Patch.{place_of, row_refused};
ghost use Rattle.patch_meaning.specs.declared.fault.PatchFault.TheVariants as faults;

use delta_base::OutOfMemory;
use patch_rows::{RowFault, RowKind};

/// What is wrong at a place of a text.
#[derive(Clone, Copy, Debug, PartialEq, Eq)]
pub enum PatchKind {
    /// No row stands there.
    Row(RowKind),
    /// No row names the patch's id.
    NoId,
    /// The row names an id a second time.
    TwoIds,
    /// The row names the patch before a second time.
    TwoPrevs,
    /// The value of the row is no id.
    BadId,
    /// A header behind a change.
    LateHeader,
    /// TX inside a block.
    Nested,
    /// TC or TA outside a block.
    NotInBlock,
    /// The text ends inside a block.
    OpenBlock,
}

/// The first fault of a text, or want of memory.
#[derive(Clone, Copy, Debug, PartialEq, Eq)]
pub enum PatchFault {
    /// With its place in bytes from the text's front.
    At { at: u64, kind: PatchKind },
    /// A patch has more bytes than it may have.
    TooLong { length: u64, limit: u64 },
    OutOfMemory,
}

impl PatchKind {
    /// The name of what is wrong where no row stands, else the kind's own, as lines and replies
    /// print it.
    pub fn name(self) -> &'static str
        ensures { result.now ≡ patch_kind_name self }
    {
        match self {
            PatchKind::Row(kind) => kind.name(),
            PatchKind::NoId => "NoId",
            PatchKind::TwoIds => "TwoIds",
            PatchKind::TwoPrevs => "TwoPrevs",
            PatchKind::BadId => "BadId",
            PatchKind::LateHeader => "LateHeader",
            PatchKind::Nested => "Nested",
            PatchKind::NotInBlock => "NotInBlock",
            PatchKind::OpenBlock => "OpenBlock",
        }
    }
}

impl PatchFault {
    /// The name of what is wrong at a place, else the fault's own, as lines and replies print it.
    pub fn name(self) -> &'static str
        ensures { result.now ≡ fault_name self }
    {
        match self {
            PatchFault::At { kind, .. } => kind.name(),
            PatchFault::TooLong { .. } => "TooLong",
            PatchFault::OutOfMemory => "OutOfMemory",
        }
    }

    /// Its place in bytes from the text's front. That a text is too long has none.
    pub fn place(&self) -> Option<u64>
        ensures { result ≡ place_of self.now }
    {
        match *self {
            PatchFault::At { at, .. } => Some(at),
            PatchFault::TooLong { .. } | PatchFault::OutOfMemory => None,
        }
    }
}

impl From<OutOfMemory> for PatchFault {
    ghost from_gives = { λ _ e. e ≡ faults.OutOfMemory };

    fn from(_: OutOfMemory) -> PatchFault {
        PatchFault::OutOfMemory
    }
}

impl From<RowFault> for PatchFault {
    ghost from_gives = { λ e f. f ≡ row_refused e };

    fn from(e: RowFault) -> PatchFault {
        match e {
            RowFault::At { at, kind } => PatchFault::At {
                at,
                kind: PatchKind::Row(kind),
            },
            RowFault::OutOfMemory => PatchFault::OutOfMemory,
        }
    }
}
