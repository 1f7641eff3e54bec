//! What is said of the end of a pull.
ghost use Rattle.http_session.specs.Said.{IsPrintableSaid};
ghost use Rattle.call_replies.specs.Ends.{NamesEnd};
ghost use Rattle.mirror_session.specs.Telling.{SaysPull, TellsPull};

use call_replies::{EndTold, say_end};
use http_session::Said;
use mirror::PullEnd;
use std::alloc::Global;

// How an end is told.
fn end_told(end: PullEnd) -> EndTold
    ensures tells { TellsPull end result }
    ensures names { NamesEnd result }
{
    match end {
        PullEnd::CaughtUp { version } => EndTold::CaughtUp { version },
        PullEnd::NoSuchName => EndTold::Named("NoSuchName"),
        PullEnd::PeerBehind { .. } => EndTold::Named("PeerBehind"),
        PullEnd::NoPatch { .. } => EndTold::Named("NoPatch"),
        PullEnd::PeerRefused { .. } => EndTold::Named("PeerRefused"),
        PullEnd::Diverged { .. } => EndTold::Named("Diverged"),
        PullEnd::BadPatch { .. } => EndTold::Named("BadPatch"),
        PullEnd::LinkFault => EndTold::Named("LinkFault"),
        PullEnd::CutShort => EndTold::Named("CutShort"),
        PullEnd::NotUnderstood { .. } => EndTold::Named("NotUnderstood"),
        PullEnd::Full { .. } => EndTold::Named("Full"),
        PullEnd::DiskFault => EndTold::DiskFault,
        PullEnd::OutOfMemory => EndTold::OutOfMemory,
    }
}

/// Says how a pull ended.
pub(crate) fn say_pull(alloc: Global, end: PullEnd) -> Said
    ensures says { SaysPull end result }
    ensures printable { IsPrintableSaid result }
{
    say_end(alloc, end_told(end))
}
