//! What the calls that change a registry answer.
use delta_base::{Id, Text};
use log_base::{FullKind, SourceInfo};

/// What a creation answers.
#[derive(Debug, Drop)]
pub enum CreateAnswer {
    Made(SourceInfo),
    BadName {
        at: u64,
    },
    BadUri {
        at: u64,
    },
    NameTaken {
        id: Id,
    },
    IdTaken {
        name: Text,
    },
    Full {
        what: FullKind,
        have: u64,
        limit: u64,
    },
    OutOfMemory,
    DiskFault,
}

/// What a renaming and a removal answer.
#[derive(Debug, Drop)]
pub enum ChangeAnswer {
    Done(SourceInfo),
    NoSuchName,
    BadName {
        at: u64,
    },
    NameTaken {
        id: Id,
    },
    Full {
        what: FullKind,
        have: u64,
        limit: u64,
    },
    OutOfMemory,
    DiskFault,
}
