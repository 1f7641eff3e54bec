//! Fills the spares.
ghost use Rattle.std.specs.Prelude.{◌≡◌, ◌≢◌, ◌⊎◌, ◌-◌, ◌^◌, min, List, length, All};
ghost use Rattle.std.specs.Prelude.{IfOk, IfErr, OnOk, IsErrOf};
ghost use Rattle.disk_model.specs.Past.{EveryImage};
ghost use Rattle.log_journal.specs.declared.form.Form.{Form as FormOf};
ghost use Rattle.journal_upgrade.specs.Numbers.{IsFileNumber, IsSet};
ghost use Rattle.journal_upgrade.specs.Copies.{AreKept, AreCopied, AreWell, AreBrought, AreSynced};
ghost use Rattle.journal_upgrade.specs.Copies.{count_old, OneRose, SameFaults, SameMarks};
ghost use Rattle.journal_upgrade.specs.Faults.{IsUpgradeFault};
ghost use Rattle.journal_upgrade.specs.Marker.{IsUnmarked};

use crate::copying::{copy_all, count_old_files};
use crate::fault::UpgradeFault;
use crate::set::UpgradeSet;
use delta_base::Listing;
use disk_model::Disk;
use std::alloc::Global;

// Copies the files to their spares, unless each has the new form already. Answers how many are of
// the old form.
fn copy_unless_new<D: Disk>(
    alloc: Global,
    files: &mut [D],
    spares: &mut [D],
    numbers: &[u64],
) -> Result<u32, UpgradeFault>
    requires as_many { (length files.old ≡ length numbers.now)
        × (length spares.old ≡ length numbers.now) }
    requires known { All IsFileNumber numbers.now }
    ensures as_many { (length files.new ≡ length files.old)
        × (length spares.new ≡ length spares.old) }
    ensures kept { D.tells → AreKept D.past files.old files.new }
    ensures ok { D.tells → IfOk result (λ count. count ≢ 0
        → AreCopied D.past numbers.now files.new spares.new) }
    ensures counted { D.tells → IfOk result (λ count. (forms : List FormOf)
        × AreWell D.past 0 numbers.now files.old forms
        × (count ≡ min (count_old forms) (2 ^ 32 - 1))
        × (count ≢ 0 → AreBrought D.past 0 2000 numbers.now files.old forms spares.new)) }
    ensures none { IfOk result (λ count. count ≡ 0 → spares.new ≡ spares.old) }
    ensures synced { D.tells → IfOk result (λ count. count ≡ 0 → AreSynced D.past files.new) }
    ensures fault { D.tells → IfErr result (IsUpgradeFault D.past 0 numbers.now files.old) }
    ensures cause { IsErrOf result UpgradeFault.Failed
        → OneRose D.faults files.old files.new ⊎ OneRose D.faults spares.old spares.new }
    ensures faults { OnOk result (SameFaults D.faults files.old files.new
        × SameFaults D.faults spares.old spares.new) }
    ensures marks { SameMarks D.mark files.old files.new × SameMarks D.mark spares.old spares.new }
{
    let count = count_old_files(alloc, files, numbers)?;
    if count == 0 {
        return Ok(0);
    }
    copy_all(alloc, files, 0, spares, 2000, numbers)?;
    Ok(count)
}

/// Copies the files to their spares in the new form, unless each has that form already. Answers
/// how many files are of the old form.
pub fn fill_spares<D: Disk>(
    alloc: Global,
    set: UpgradeSet<D>,
) -> (UpgradeSet<D>, Result<u32, UpgradeFault>)
    requires set { IsSet set.files.items set.spares.items set.numbers.items }

    // What stands under a marker isn't written over.
    requires unmarked { D.tells
        → EveryImage (D.past set.marker) (λ image. IsUnmarked image set.marker_number) }
    ensures same { (result.0.marker ≡ set.marker) × (result.0.numbers ≡ set.numbers)
        × (result.0.marker_number ≡ set.marker_number) }
    ensures set { IsSet result.0.files.items result.0.spares.items result.0.numbers.items }
    ensures files { D.tells → AreKept D.past set.files.items result.0.files.items }

    // Each spare has the payloads of its file, or nothing was written.
    ensures ok { D.tells → IfOk result.1 (λ count. count ≢ 0
        → AreCopied D.past set.numbers.items result.0.files.items result.0.spares.items) }
    ensures counted { D.tells → IfOk result.1 (λ count. (forms : List FormOf)
        × AreWell D.past 0 set.numbers.items set.files.items forms
        × (count ≡ min (count_old forms) (2 ^ 32 - 1))
        × (count ≢ 0 → AreBrought D.past 0 2000 set.numbers.items set.files.items forms
        result.0.spares.items)) }
    ensures none { IfOk result.1 (λ count. count ≡ 0
        → result.0.spares.items ≡ set.spares.items) }
    ensures synced { D.tells → IfOk result.1 (λ count. count ≡ 0
        → AreSynced D.past result.0.files.items) }
    ensures fault { D.tells → IfErr result.1
        (IsUpgradeFault D.past 0 set.numbers.items set.files.items) }
    ensures cause { IsErrOf result.1 UpgradeFault.Failed
        → OneRose D.faults set.files.items result.0.files.items
        ⊎ OneRose D.faults set.spares.items result.0.spares.items }
    ensures faults { OnOk result.1 (SameFaults D.faults set.files.items result.0.files.items
        × SameFaults D.faults set.spares.items result.0.spares.items) }
    ensures marks { SameMarks D.mark set.files.items result.0.files.items
        × SameMarks D.mark set.spares.items result.0.spares.items }
{
    let UpgradeSet {
        files,
        spares,
        marker,
        marker_number,
        numbers,
    } = set;
    let mut files = files.into_vec();
    let mut spares = spares.into_vec();
    let answer = copy_unless_new(alloc, &mut files, &mut spares, numbers.as_slice());
    let set = UpgradeSet {
        files: Listing::from_vec(files),
        spares: Listing::from_vec(spares),
        marker,
        marker_number,
        numbers,
    };
    (set, answer)
}
