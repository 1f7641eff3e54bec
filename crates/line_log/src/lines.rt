//! The lines that edits make.
ghost use Rattle.std.specs.Prelude.{◌≡◌, ◌<◌, ◌↔◌, [], length, IsTrue, slice_index_or};

use crate::log::LineLog;
use std::marker::Model;

/// Lines in the order of their bytes, which contracts see as a list. They stand where the log
/// holds them.
#[derive(Drop)]
pub struct MadeLines {
    pub(crate) log: LineLog,
    /// The number of each line's edit.
    pub(crate) order: Vec<u32>,
}

impl Model for MadeLines {
    ghost use Rattle.std.specs.Prelude.{ℕ, List, ◌<◌, length};
    ghost use Rattle.std.specs.List.{AllByRecursion};
    ghost use Rattle.line_log.specs.Sorting.{lines_at};

    ghost Value = { List (List ℕ) };

    ghost view = { λ m. lines_at m.log m.order.items };

    ghost invariant = { λ m. AllByRecursion (λ n. n < length m.log) m.order.items };
}

impl MadeLines {
    /// How many lines there are.
    pub fn len(&self) -> usize
        ensures { result ≡ length self.now }
    {
        self.order.len()
    }

    pub fn is_empty(&self) -> bool
        ensures { IsTrue result ↔ (self.now ≡ []) }
    {
        self.order.is_empty()
    }

    /// The line at a place.
    #[inline]
    pub fn line(&self, at: usize) -> &[u8]
        requires { at < length self.now }
        ensures { result.now ≡ slice_index_or self.now at [] }
    {
        self.log.line(self.order[at] as usize)
    }
}
