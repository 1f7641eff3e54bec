//! Net patches and inverses.
ghost use Rattle.std.specs.Prelude.{◌≡◌, None, Some, IfOk, IfErr};
ghost use Rattle.patch_meaning.specs.Checked.{meanings};
ghost use Rattle.patch_algebra.specs.Patches.{FollowEachOther, RefusesNet, RefusesWritten};
ghost use Rattle.patch_algebra.specs.Patches.{inverse_of, net_patch_of};

use crate::fault::NetFault;
use crate::gathering::{Direction, Gathering};
use dataset_tx::Dataset;
use delta_base::Id;
use patch_meaning::Checked;
use std::alloc::Global;

/// The patch that does what a run of patches does to a dataset, by the fewest changes. It has the
/// id of the last one, and names what the first one names.
pub fn net_patch(alloc: Global, base: &Dataset, run: &[Checked]) -> Result<Checked, NetFault>
    requires staged { base.now.staged ≡ None }
    requires run { FollowEachOther (meanings run.now) }
    ensures patch { IfOk result (λ patch.
        Some patch ≡ net_patch_of base.now.contents (meanings run.now)) }
    ensures fault { IfErr result
        (RefusesNet (net_patch_of base.now.contents (meanings run.now))) }
{
    let (Some((first, _behind)), Some((last, _before))) = (run.split_first(), run.split_last())
    else {
        unreachable!();
    };
    let mut gathering = Gathering::new(alloc, Direction::Forth);
    let mut rest = run;
    while let Some((patch, before)) = rest.split_last() {
        rest = before;
        gathering.take(base, patch)?;
    }
    gathering.patch(alloc, last.id(), first.prev())
}

/// The patch of an id that undoes what a patch does to a dataset, and comes behind it.
pub fn inverse(alloc: Global, base: &Dataset, patch: &Checked, id: Id) -> Result<Checked, NetFault>
    requires { base.now.staged ≡ None }
    ensures patch { IfOk result (λ other.
        other ≡ inverse_of base.now.contents patch.now.meaning id) }
    ensures fault { IfErr result
        (RefusesWritten (inverse_of base.now.contents patch.now.meaning id)) }
{
    let mut gathering = Gathering::new(alloc, Direction::Back);
    gathering.take(base, patch)?;
    gathering.patch(alloc, id, Some(patch.id()))
}
