//! What a server answers.
use delta_base::{Bytes, Id, Text};
use log_base::{FullKind, SourceInfo, Sources};

/// An answer to a call.
#[derive(Debug, Drop)]
pub enum Answer {
    Pong,
    Sources(Sources),
    Source(SourceInfo),
    /// The version and the head of a log.
    Info {
        version: u32,
        head: Option<Id>,
    },
    Version {
        version: u32,
    },
    /// The versions of a run's first and last patch.
    Run {
        first: u32,
        version: u32,
    },
    /// A patch, as it was sent.
    Patch {
        text: Bytes,
    },
    NoRoute,
    NoSource,
    /// The log has this version, and no such patch.
    NoPatch {
        version: u32,
    },
    BadMethod,
    Media,
    BadJson,
    /// The first member of a call that is missing, of another kind, or an unknown operation.
    BadCall {
        member: Text,
    },
    /// The place of a patch's first fault, and its name.
    BadPatch {
        at: u64,
        kind: Text,
    },
    /// Which patch, counted from 1, doesn't go on from those before it; 0 where there is none.
    BadRun {
        at: u64,
    },
    BadName {
        at: u64,
    },
    BadUri {
        at: u64,
    },
    /// The log has the patch as this version, or another one of its id.
    Known {
        version: u32,
        same: bool,
    },
    /// The patch names another one than the head.
    Conflict {
        version: u32,
        head: Option<Id>,
        prev_version: Option<u32>,
    },
    /// This source has the name.
    NameTaken {
        id: Id,
    },
    /// The source of this name has the id.
    IdTaken {
        name: Text,
    },
    Full {
        what: FullKind,
        have: u64,
        limit: u64,
    },
    DiskFault,
    OutOfMemory,
    /// The name of a fault of framing.
    BadRequest {
        kind: Text,
    },
}
