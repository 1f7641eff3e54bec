//! What was fed to a reader and what was taken from it. Only proofs read it.

ghost use Rattle.std.specs.Prelude.{◌≡◌, ℕ, List, [], ◌∷◌, ◌++◌};
ghost use Rattle.std.specs.Borrow.{ftrue};
ghost use Rattle.patch_reader.specs.declared.placed.PlacedRow.{PlacedRow as Placed};

use crate::placed::PlacedRow;
use std::marker::Model;

/// The text that was fed. It has no bytes, and its functions do nothing when they run.
#[derive(Drop)]
pub struct Fed {
    pub ghost text: { List ℕ },
}

impl Model for Fed {
    ghost also_owns = { λ _. ftrue };
}

// A struct with `also_owns` has neither by itself. This one owns nothing.
unsafe impl Send for Fed {}

unsafe impl Sync for Fed {}

impl Fed {
    pub fn new() -> Fed
        ensures { result.text ≡ [] }
    {
        Fed {}
    }

    /// A piece more was fed.
    pub fn feed(&mut self, _piece: &[u8])
        ensures { self.new.text ≡ self.old.text ++ _piece.now }
    {}
}

/// The rows that were taken, likewise.
#[derive(Drop)]
pub struct Taken {
    pub ghost rows: { List Placed },
}

impl Model for Taken {
    ghost also_owns = { λ _. ftrue };
}

unsafe impl Send for Taken {}

unsafe impl Sync for Taken {}

impl Taken {
    pub fn new() -> Taken
        ensures { result.rows ≡ [] }
    {
        Taken {}
    }

    /// A row more was taken.
    pub fn take(&mut self, _row: &PlacedRow)
        ensures { self.new.rows ≡ self.old.rows ++ _row.now ∷ [] }
    {}
}
