//! Writes the files from their spares.
ghost use Rattle.std.specs.Prelude.{◌≡◌, ◌⊎◌, List, IfErr, OnOk, IsErrOf};
ghost use Rattle.disk_model.specs.Past.{EveryImage};
ghost use Rattle.log_journal.specs.declared.form.Form.{Form as FormOf};
ghost use Rattle.journal_upgrade.specs.Numbers.{IsSet};
ghost use Rattle.journal_upgrade.specs.Copies.{AreKept, AreRestored, AreBrought};
ghost use Rattle.journal_upgrade.specs.Copies.{OneRose, SameFaults, SameMarks};
ghost use Rattle.journal_upgrade.specs.Faults.{IsUpgradeFault};
ghost use Rattle.journal_upgrade.specs.Marker.{IsMarked};

use crate::copying::copy_all;
use crate::fault::UpgradeFault;
use crate::set::UpgradeSet;
use delta_base::Listing;
use disk_model::Disk;
use std::alloc::Global;

/// Writes each file anew from its spare.
pub fn overwrite_files<D: Disk>(
    alloc: Global,
    set: UpgradeSet<D>,
) -> (UpgradeSet<D>, Result<(), UpgradeFault>)
    requires set { IsSet set.files.items set.spares.items set.numbers.items }

    // Under the marker a crash that leaves a file half written leaves its spare.
    requires marked { D.tells
        → EveryImage (D.past set.marker) (λ image. IsMarked image set.marker_number) }
    ensures same { (result.0.marker ≡ set.marker) × (result.0.numbers ≡ set.numbers)
        × (result.0.marker_number ≡ set.marker_number) }
    ensures set { IsSet result.0.files.items result.0.spares.items result.0.numbers.items }
    ensures spares { D.tells → AreKept D.past set.spares.items result.0.spares.items }
    ensures ok { D.tells → OnOk result.1
        (AreRestored D.past set.numbers.items result.0.files.items result.0.spares.items) }
    ensures brought { D.tells → OnOk result.1 ((forms : List FormOf)
        × AreBrought D.past 2000 0 set.numbers.items set.spares.items forms
        result.0.files.items) }
    ensures fault { D.tells → IfErr result.1
        (IsUpgradeFault D.past 2000 set.numbers.items set.spares.items) }
    ensures cause { IsErrOf result.1 UpgradeFault.Failed
        → OneRose D.faults set.files.items result.0.files.items
        ⊎ OneRose D.faults set.spares.items result.0.spares.items }
    ensures faults { OnOk result.1 (SameFaults D.faults set.files.items result.0.files.items
        × SameFaults D.faults set.spares.items result.0.spares.items) }
    ensures marks { SameMarks D.mark set.files.items result.0.files.items
        × SameMarks D.mark set.spares.items result.0.spares.items }
{
    let UpgradeSet {
        files,
        spares,
        marker,
        marker_number,
        numbers,
    } = set;
    let mut files = files.into_vec();
    let mut spares = spares.into_vec();
    let answer = copy_all(alloc, &mut spares, 2000, &mut files, 0, numbers.as_slice());
    let set = UpgradeSet {
        files: Listing::from_vec(files),
        spares: Listing::from_vec(spares),
        marker,
        marker_number,
        numbers,
    };
    (set, answer)
}
