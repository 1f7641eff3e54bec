//! Chains whose patches are found by their ids.
ghost use Rattle.std.specs.Prelude.{◌≡◌, List};
ghost use Rattle.chain_core.specs.declared.chain.Entry.{Entry};
ghost use Rattle.chain_core.specs.Patches.{patches_of, version_of};

use crate::chain::Chain;
use delta_base::Id;

/// A chain that is looked up by ids.
pub trait Lookup {
    /// Its entries.
    ghost entries: { Self → List Entry };

    fn chain(&self) -> &Chain
        ensures { result.now.items ≡ entries self.now };

    /// The version of the patch with an id.
    fn version_of(&self, id: Id) -> Option<u32>
        ensures { result ≡ version_of (patches_of (entries self.now)) id };
}
