//! What may happen.
use chain_core::Fate;
use delta_base::Listing;
use patch_log::Run;

/// An event. One that doesn't fit the world changes nothing.
#[derive(Drop)]
pub enum WorldEvent {
    /// A client appends a run, and the device calls come to this fate.
    Append { run: Run, fate: Fate },
    /// A client asks for the patch of a version.
    Serve { version: u32 },
    /// A client asks how long the log is.
    Describe,
    /// The log stops between two calls; a gate in doubt stands open or shut.
    Stop { opened: bool },
    /// The log is opened again.
    Open,
    /// A zone is made, and runs.
    NewZone,
    /// A message that was sent reaches a zone, whose device calls come to this fate. Messages and
    /// zones are numbered from 0.
    Deliver { message: u32, zone: u32, fate: Fate },
    /// A zone stops between two calls.
    ZoneStop { zone: u32, opened: bool },
    /// A zone is opened again.
    ZoneOpen { zone: u32 },
}

pub type WorldEvents = Listing<WorldEvent>;
