//! Runs of patches, and why a text is none.
ghost use Rattle.std.specs.Prelude.{◌≡◌, ◌≤◌, ◌<◌, [], ◌∷◌, length, IfOk};
ghost use Rattle.log_base.specs.declared.limits.TheConstants.{PATCH_LIMIT};
ghost use Rattle.patch_log.specs.Log.{bare, IsSoundRun};

use chain_core::Patch;
use delta_base::{Listing, OutOfMemory};
use patch_meaning::{Checked, PatchFault};
use std::alloc::Global;
use std::marker::Model;

/// Patches that are appended all or none, one at least. Each is the one that its text is, and their
/// texts are a stream of them.
#[derive(Drop)]
pub struct Run {
    pub(crate) patches: Listing<Patch>,
}

impl Model for Run {
    ghost use Rattle.std.specs.Prelude.{List};
    ghost use Rattle.chain_core.specs.declared.chain.Patch.{Patch};
    ghost use Rattle.patch_log.specs.Log.{IsSoundRun};

    ghost Value = { List Patch };

    ghost view = { λ r. r.patches.items };

    ghost invariant = { λ r. IsSoundRun r.patches.items };
}

/// Why a text is no run.
#[derive(Clone, Copy, Debug, PartialEq, Eq)]
pub enum RunFault {
    TooLong { length: u64, limit: u64 },
    Patch(PatchFault),
    /// 0 where there is no patch, else the place of the first one, counted from 1, that doesn't
    /// name the one before it or whose id stands earlier in the run.
    BadRun { at: u64 },
    OutOfMemory,
}

impl From<OutOfMemory> for RunFault {
    ghost use Rattle.patch_log.specs.declared.run.RunFault.TheVariants as faults;

    ghost from_gives = { λ _ e. e ≡ faults.OutOfMemory };

    fn from(_error: OutOfMemory) -> RunFault {
        RunFault::OutOfMemory
    }
}

impl Run {
    /// The run of one patch, as a copy without its changes.
    pub fn of(alloc: Global, patch: &Checked) -> Result<Run, OutOfMemory>
        ensures { IfOk result (λ run. run ≡ bare patch.now ∷ []) }
    {
        let text = patch.text().copy()?;
        let mut patches = Listing::new(alloc);
        patches.push(Patch {
            id: patch.id(),
            prev: patch.prev(),
            text,
        })?;
        Ok(Run { patches })
    }

    /// Its patches, one at least.
    pub fn patches(&self) -> &Listing<Patch>
        ensures patches { result.now.items ≡ self.now }
        ensures sound { IsSoundRun self.now }
    {
        &self.patches
    }

    /// How many patches it has.
    pub fn count(&self) -> u32
        ensures count { result ≡ length self.now }
        ensures some { 0 < length self.now }
        ensures few { length self.now ≤ PATCH_LIMIT }
    {
        self.patches.len() as u32
    }

    /// An equal run.
    pub fn copy(&self) -> Result<Run, OutOfMemory>
        ensures { IfOk result (λ run. run ≡ self.now) }
    {
        let mut patches = Listing::new(self.patches.alloc());
        for patch in self.patches.as_slice() {
            patches.push(patch.copy()?)?;
        }
        Ok(Run { patches })
    }
}
