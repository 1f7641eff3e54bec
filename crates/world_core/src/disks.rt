//! Disks whose syncs fail as planned: new ones, and what a stop leaves.
ghost use Rattle.std.specs.Prelude.{◌≡◌, ℕ, [], List, Option, IfOk, if◌then◌else◌};
ghost use Rattle.log_base.specs.OneMore.{with_one_more};
ghost use Rattle.world_core.specs.Parts.{CarriesPart, KeepsPayloads};

use delta_base::{Bytes, OutOfMemory};
use disk_model::PlanDisk;
use log_journal::{FormatFault, format};
use std::alloc::Global;

/// A new disk with an empty journal.
pub(crate) fn new_disk(alloc: Global, number: u32) -> Result<PlanDisk, OutOfMemory>
    ensures { IfOk result (λ disk. KeepsPayloads number disk []) }
{
    let mut disk = PlanDisk::new(alloc, Bytes::from_slice(alloc, &[])?)?;
    match format(&mut disk, number) {
        Ok(()) => Ok(disk),
        Err(FormatFault::Failed) => Err(OutOfMemory),
        Err(FormatFault::NotEmpty { .. }) => unreachable!(),
    }
}

// The image that a stop leaves: in the one each byte that isn't synced is 1, and the other has
// what was synced.
fn image_left(opened: bool) -> u64
    ensures { result ≡ (if opened then 257 else 0) }
{
    if opened { 257 } else { 0 }
}

/// A disk as a stop leaves it: a gate in doubt stands open, or it is shut.
pub(crate) fn stopped_disk(
    alloc: Global,
    disk: PlanDisk,
    opened: bool,
) -> Result<PlanDisk, OutOfMemory>
    ensures { IfOk result (λ left. (number : ℕ) (payloads : List (List ℕ))
        (doubt : Option (List ℕ)) → CarriesPart number disk payloads doubt
        → KeepsPayloads number left (if opened then with_one_more payloads doubt else payloads)) }
{
    let image = disk.image(image_left(opened))?;
    PlanDisk::new(alloc, image)
}
