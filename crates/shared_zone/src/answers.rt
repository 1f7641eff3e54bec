//! What the calls on a zone answer.
use line_log::MadeLines;
use zone_state::TakeAnswer;

/// The lines of the quads that match a pattern, in the order of their bytes, and how many patches
/// they come of.
#[derive(Drop)]
pub struct Shown {
    pub version: u32,
    pub lines: MadeLines,
}

/// What a stay with the patch of a version comes to.
#[derive(Clone, Copy, Debug, PartialEq, Eq)]
pub enum Stayed {
    /// The zone has that version already: it has so many patches.
    Ahead { found: u32 },
    /// The zone had so many patches before, and answered this.
    Asked { had: u32, answer: TakeAnswer },
}
