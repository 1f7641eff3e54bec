//! How catching up ends.
ghost use Rattle.std.specs.Prelude.{◌≡◌};
ghost use Rattle.catch_up.specs.Ends.{end_of_fault};

use delta_base::{Bytes, Id};
use delta_client::AskFault;

/// How a run ended: by what the peer said, or because the replica refused a text.
#[derive(Drop)]
pub enum RunEnd<E> {
    /// The replica has what the peer's log had, which was this version.
    CaughtUp {
        version: u32,
    },
    NoSuchName,
    /// The peer's log is shorter than the replica was.
    PeerBehind {
        mine: u32,
        theirs: u32,
    },
    /// Both are at this version, and the last ids differ.
    HeadsDiffer {
        version: u32,
        have: Option<Id>,
        theirs: Option<Id>,
    },
    /// The peer answered that it has no patch of this version.
    NoPatch {
        version: u32,
    },
    /// Another answer whose status isn't 200, with its body.
    PeerRefused {
        status: u16,
        body: Bytes,
    },
    LinkFault,
    CutShort,
    NotUnderstood {
        at: u64,
    },
    OutOfMemory,
    /// The replica refused the text of the next version.
    Refused(E),
}

/// A call without an answer, as an end.
pub(crate) fn of_fault<E>(fault: AskFault) -> RunEnd<E>
    ensures { result ≡ end_of_fault fault }
{
    match fault {
        AskFault::LinkFault => RunEnd::LinkFault,
        AskFault::CutShort => RunEnd::CutShort,
        AskFault::NotUnderstood { at } => RunEnd::NotUnderstood { at },
        AskFault::OutOfMemory => RunEnd::OutOfMemory,
    }
}
