//! The patch whose gate may stand open. Only proofs read it.
ghost use Rattle.std.specs.Prelude.{◌≡◌, Option, Some, None};
ghost use Rattle.std.specs.Borrow.{ftrue};
ghost use Rattle.log_journal.specs.Writing.{doubt_left, failing};
ghost use Rattle.patch_meaning.specs.Checked.{CheckedPatch};

use log_base::Phase;
use patch_meaning::Checked;
use std::marker::Model;

/// That patch, if there is one. It has no bytes, and its functions do nothing when they run.
#[derive(Drop)]
pub struct Doubtful {
    pub ghost patch: { Option CheckedPatch },
}

impl Model for Doubtful {
    ghost also_owns = { λ _. ftrue };
}

// A struct with `also_owns` has neither by itself. This one owns nothing.
unsafe impl Send for Doubtful {}

unsafe impl Sync for Doubtful {}

impl Doubtful {
    pub fn none() -> Doubtful
        ensures { result.patch ≡ None }
    {
        Doubtful {}
    }

    /// No gate stands open any more.
    pub fn settle(&mut self)
        ensures { self.new.patch ≡ None }
    {}

    /// The gate of this one may stand open.
    pub fn leave(&mut self, _patch: &Checked)
        ensures { self.new.patch ≡ Some _patch.now }
    {}

    /// Follows a write of this one, by the part of it that failed, if one did.
    pub fn follow(&mut self, written: Result<(), Phase>, patch: &Checked)
        ensures { self.new.patch ≡ doubt_left (failing written) self.old.patch patch.now }
    {
        match written {
            Ok(()) | Err(Phase::Body) => self.settle(),
            Err(Phase::Settling) => {}
            Err(Phase::Gate) => self.leave(patch),
        }
    }
}
