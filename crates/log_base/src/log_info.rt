//! What a log tells of itself.
use delta_base::Id;

/// How long a log is, and the id of its last patch.
#[derive(Clone, Copy, Debug, PartialEq, Eq)]
pub struct LogInfo {
    pub version: u32,
    pub head: Option<Id>,
}
