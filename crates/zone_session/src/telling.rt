//! What is said of the end of catching up.
ghost use Rattle.http_session.specs.Said.{IsPrintableSaid};
ghost use Rattle.call_replies.specs.Ends.{NamesEnd};
ghost use Rattle.zone_session.specs.Telling.{SaysSync, TellsSync};

use call_replies::{EndTold, say_end};
use follower::SyncEnd;
use http_session::Said;
use std::alloc::Global;

// How an end is told.
fn end_told(end: SyncEnd) -> EndTold
    ensures tells { TellsSync end result }
    ensures names { NamesEnd result }
{
    match end {
        SyncEnd::CaughtUp { version } => EndTold::CaughtUp { version },
        SyncEnd::NoSuchName => EndTold::Named("NoSuchName"),
        SyncEnd::PeerBehind { .. } => EndTold::Named("PeerBehind"),
        SyncEnd::NoPatch { .. } => EndTold::Named("NoPatch"),
        SyncEnd::PeerRefused { .. } => EndTold::Named("PeerRefused"),
        SyncEnd::Diverged { .. } => EndTold::Named("Diverged"),
        SyncEnd::Repeated { .. } => EndTold::Named("Repeated"),
        SyncEnd::BadPatch { .. } => EndTold::Named("BadPatch"),
        SyncEnd::LinkFault => EndTold::Named("LinkFault"),
        SyncEnd::CutShort => EndTold::Named("CutShort"),
        SyncEnd::NotUnderstood { .. } => EndTold::Named("NotUnderstood"),
        SyncEnd::Full { .. } => EndTold::Named("Full"),
        SyncEnd::TermsFull => EndTold::Named("TermsFull"),
        SyncEnd::DiskFault => EndTold::DiskFault,
        SyncEnd::OutOfMemory => EndTold::OutOfMemory,
    }
}

/// Says how catching up ended.
pub(crate) fn say_sync(alloc: Global, end: SyncEnd) -> Said
    ensures says { SaysSync end result }
    ensures printable { IsPrintableSaid result }
{
    say_end(alloc, end_told(end))
}
