//! Why the payloads of a file are none of a zone.

#[derive(Clone, Copy, Debug, PartialEq, Eq)]
pub enum PayloadsFault {
    /// The first one begins as a checkpoint, and is none or too long for one.
    BrokenCheckpoint,
    /// So many first patches are no chain, or more than there may be, and fewer are one. Those of
    /// the checkpoint count.
    BrokenChain { version: u64 },
    /// A journal of all the patches would be this long, or longer than numbers of 64 bits tell.
    OverLimit { length: u64, limit: u64 },
    /// There are not numbers enough for the terms.
    TermsFull,
}
