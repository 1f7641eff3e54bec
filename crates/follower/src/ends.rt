//! How catching up ends.
use delta_base::{Bytes, Id};
use log_base::FullKind;
use patch_meaning::PatchFault;

#[derive(Drop)]
pub enum SyncEnd {
    CaughtUp {
        version: u32,
    },
    NoSuchName,
    /// The peer's log is shorter than the zone.
    PeerBehind {
        mine: u32,
        theirs: u32,
    },
    /// The peer answered that it has no patch of this version.
    NoPatch {
        version: u32,
    },
    /// Another answer whose status isn't 200, with its body.
    PeerRefused {
        status: u16,
        body: Bytes,
    },
    /// Behind so many patches, of which the last has the id `have`, the peer has another one.
    Diverged {
        version: u32,
        have: Option<Id>,
        theirs: Option<Id>,
    },
    /// The next patch has the id of this version.
    Repeated {
        version: u32,
        id: Id,
    },
    /// The text that the peer answered for this version is no patch.
    BadPatch {
        version: u32,
        fault: PatchFault,
    },
    LinkFault,
    CutShort,
    NotUnderstood {
        at: u64,
    },
    Full {
        what: FullKind,
        have: u64,
        limit: u64,
    },
    TermsFull,
    DiskFault,
    OutOfMemory,
}

/// Why a zone doesn't take the text of the next version.
#[derive(Drop)]
pub enum TextRefusal {
    /// It is no patch.
    BadPatch {
        version: u32,
        fault: PatchFault,
    },
    /// It names another patch than the zone's last one, which has this version and the id `have`.
    Diverged {
        version: u32,
        have: Option<Id>,
        theirs: Option<Id>,
    },
    /// It has the id of this version.
    Repeated {
        version: u32,
        id: Id,
    },
    Full {
        what: FullKind,
        have: u64,
        limit: u64,
    },
    TermsFull,
    DiskFault,
    OutOfMemory,
}
