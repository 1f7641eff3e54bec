//! How pulling ends.
ghost use Rattle.std.specs.Prelude.{◌≡◌};
ghost use Rattle.mirror.specs.Ends.{end_of_pull, end_of_refused};

use catch_up::RunEnd;
use delta_base::{Bytes, Id};
use log_base::FullKind;
use patch_meaning::PatchFault;

/// Why the text of a version isn't taken.
#[derive(Clone, Copy, Debug, PartialEq, Eq)]
pub enum PullRefusal {
    /// The text is no patch.
    BadPatch {
        version: u32,
        fault: PatchFault,
    },
    /// The log has this version and head, and the patch with the other id doesn't go behind it.
    Diverged {
        version: u32,
        head: Option<Id>,
        theirs: Option<Id>,
    },
    Full {
        what: FullKind,
        have: u64,
        limit: u64,
    },
    DiskFault,
    OutOfMemory,
}

/// How a pull ended: by what the origin said, or because the log didn't take a text.
#[derive(Drop)]
pub enum PullEnd {
    /// The log has what the origin's had, which was this version.
    CaughtUp {
        version: u32,
    },
    NoSuchName,
    /// The origin's log is shorter than this one was before it was asked.
    PeerBehind {
        mine: u32,
        theirs: u32,
    },
    /// The origin answered that it has no patch of this version.
    NoPatch {
        version: u32,
    },
    /// Another answer whose status isn't 200, with its body.
    PeerRefused {
        status: u16,
        body: Bytes,
    },
    /// The log has this version and head, and the origin has the other id there or behind it.
    Diverged {
        version: u32,
        head: Option<Id>,
        theirs: Option<Id>,
    },
    /// The text that the origin answered for this version is no patch.
    BadPatch {
        version: u32,
        fault: PatchFault,
    },
    LinkFault,
    CutShort,
    NotUnderstood {
        at: u64,
    },
    Full {
        what: FullKind,
        have: u64,
        limit: u64,
    },
    DiskFault,
    OutOfMemory,
}

// A text that isn't taken, as the end.
fn end_of_refusal(refusal: PullRefusal) -> PullEnd
    ensures { result ≡ end_of_refused refusal }
{
    match refusal {
        PullRefusal::BadPatch { version, fault } => PullEnd::BadPatch { version, fault },
        PullRefusal::Diverged {
            version,
            head,
            theirs,
        } => PullEnd::Diverged {
            version,
            head,
            theirs,
        },
        PullRefusal::Full { what, have, limit } => PullEnd::Full { what, have, limit },
        PullRefusal::DiskFault => PullEnd::DiskFault,
        PullRefusal::OutOfMemory => PullEnd::OutOfMemory,
    }
}

/// The end of a run, as that of a pull.
pub(crate) fn end_of(end: RunEnd<PullRefusal>) -> PullEnd
    ensures { result ≡ end_of_pull end }
{
    match end {
        RunEnd::CaughtUp { version } => PullEnd::CaughtUp { version },
        RunEnd::NoSuchName => PullEnd::NoSuchName,
        RunEnd::PeerBehind { mine, theirs } => PullEnd::PeerBehind { mine, theirs },
        RunEnd::HeadsDiffer {
            version,
            have,
            theirs,
        } => PullEnd::Diverged {
            version,
            head: have,
            theirs,
        },
        RunEnd::NoPatch { version } => PullEnd::NoPatch { version },
        RunEnd::PeerRefused { status, body } => PullEnd::PeerRefused { status, body },
        RunEnd::LinkFault => PullEnd::LinkFault,
        RunEnd::CutShort => PullEnd::CutShort,
        RunEnd::NotUnderstood { at } => PullEnd::NotUnderstood { at },
        RunEnd::OutOfMemory => PullEnd::OutOfMemory,
        RunEnd::Refused(refusal) => end_of_refusal(refusal),
    }
}
