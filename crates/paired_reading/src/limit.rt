//! How long a file may be that holds a checkpoint alone.

/// The most bytes of such a file. With all patches that may come behind the checkpoint it is no
/// longer than a zone's file may be.
pub const CHECKPOINT_FILE_LIMIT: u64 = 536_870_912;
