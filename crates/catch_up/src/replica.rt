//! Who takes the patches of a log.
ghost use Rattle.std.specs.Prelude.{◌≡◌, ◌+◌, ◌≤◌, ℕ, List, Option, Result, IfOk};
ghost use Rattle.delta_base.specs.declared.id.Id.{Id as PatchId};

use delta_base::Id;
use std::alloc::Global;

/// How many patches there are, and the id of the last one.
#[derive(Clone, Copy, Debug, PartialEq, Eq)]
pub struct Standing {
    pub version: u32,
    pub head: Option<Id>,
}

/// A copy of a log, which takes the texts of its patches one after another. What changes from one
/// taking to the next is its state.
pub trait Replica {
    type State;

    /// Why a text isn't taken.
    type Refusal;

    /// It may be asked in this state.
    ghost ready: { Self → Self.State → Type 0 };

    /// In this state the text of the version behind this one may be handed to it.
    ghost goes_on: { Self → Self.State → ℕ → Type 0 };

    /// In the first state it shows that it has so many patches and this head, which leaves the
    /// second state.
    ghost shows: { Self → Self.State → ℕ → Option PatchId → Self.State → Type 0 };

    /// The text of a version is taken, and up to which version there are patches then; or it is
    /// refused.
    ghost takes: { Self → Self.State → ℕ → List ℕ → Result ℕ Self.Refusal → Self.State → Type 0 };

    fn standing(&self, state: &mut Self::State) -> Standing
        requires { ready self.now state.old }
        ensures shows { shows self.now state.old result.version result.head state.new }
        ensures ready { ready self.now state.new }
        ensures goes_on { goes_on self.now state.new result.version };

    /// Takes the text of the version behind the last one, and says up to which version there are
    /// patches then.
    fn take(
        &self,
        alloc: Global,
        state: &mut Self::State,
        text: &[u8],
        version: u32,
    ) -> Result<u32, Self::Refusal>
        requires ready { ready self.now state.old }
        requires next { (from : ℕ) × goes_on self.now state.old from × (version ≡ from + 1) }
        ensures takes { takes self.now state.old version text.now result state.new }
        ensures ready { ready self.now state.new }
        ensures goes_on { IfOk result (λ reached. goes_on self.now state.new reached) }
        ensures further { IfOk result (λ reached. version ≤ reached) };
}
