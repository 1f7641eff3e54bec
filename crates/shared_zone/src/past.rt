//! What a zone has taken since it was shared. Only proofs read it.
ghost use Rattle.std.specs.Prelude.{◌≡◌, List, [], ◌∷◌, ◌++◌};
ghost use Rattle.std.specs.Borrow.{ftrue};
ghost use Rattle.patch_meaning.specs.Checked.{CheckedPatch};
ghost use Rattle.turn_cell.specs.declared.view.Known.{Known};

use patch_meaning::Checked;
use std::marker::Model;
use zone_state::TakeAnswer;

/// The patches taken, each with the number of the pass that took it. It has no bytes, and its
/// functions do nothing when they run.
#[derive(Drop)]
pub struct TakenSince {
    pub ghost history: { List (Known CheckedPatch) },
}

impl Model for TakenSince {
    ghost also_owns = { λ _. ftrue };
}

// A struct with `also_owns` has neither by itself. This one owns nothing.
unsafe impl Send for TakenSince {}

unsafe impl Sync for TakenSince {}

impl TakenSince {
    ghost use Rattle.shared_zone.specs.History.{history_then, taken_entry};

    pub fn nothing() -> TakenSince
        ensures { result.history ≡ [] }
    {
        TakenSince {}
    }

    /// A patch more was taken, by the pass of this number.
    pub fn push(&mut self, _patch: &Checked, _by: u32)
        ensures { self.new.history ≡ self.old.history ++ taken_entry _patch.now _by ∷ [] }
    {}

    /// Follows an answer to a patch, which the pass of this number had.
    pub fn follow(&mut self, answer: TakeAnswer, patch: &Checked, by: u32)
        ensures { self.new.history ≡ history_then answer self.old.history patch.now by }
    {
        match answer {
            TakeAnswer::Applied { version: _ } => self.push(patch, by),
            TakeAnswer::Diverged { .. }
            | TakeAnswer::Repeated { version: _ }
            | TakeAnswer::Full { .. }
            | TakeAnswer::TermsFull
            | TakeAnswer::OutOfMemory
            | TakeAnswer::DiskFault => {}
        }
    }
}
