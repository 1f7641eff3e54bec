//! What taking a patch answers.
use delta_base::Id;
use log_base::FullKind;

#[derive(Clone, Copy, Debug, PartialEq, Eq)]
pub enum TakeAnswer {
    Applied {
        version: u32,
    },
    /// The zone's last id, and the one that the patch names as the one before it.
    Diverged {
        have: Option<Id>,
        prev: Option<Id>,
    },
    /// The patch of this version has the id already.
    Repeated {
        version: u32,
    },
    Full {
        what: FullKind,
        have: u64,
        limit: u64,
    },
    /// There are not numbers enough for the terms.
    TermsFull,
    OutOfMemory,
    DiskFault,
}
