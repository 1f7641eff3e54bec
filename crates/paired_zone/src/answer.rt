//! What making a checkpoint answers.

#[derive(Clone, Copy, Debug, PartialEq, Eq)]
pub enum CheckEnd {
    /// It is of so many patches. The other file holds it alone, and is current now.
    Done { version: u32 },
    /// So long would a file be that holds it alone, and no longer it may be; the length is the last
    /// number of 64 bits where that is less. Where there is no later generation both are the last
    /// one.
    TooLarge { length: u64, limit: u64 },
    DiskFault,
    OutOfMemory,
}
