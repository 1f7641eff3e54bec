//! Brings files of the old form to the new one.
ghost use Rattle.std.specs.Prelude.{◌≡◌, ◌↔◌, ◌⊎◌, List, ℕ, Err, IfOk, IfErr, OnOk, IsErrOf};
ghost use Rattle.delta_base.specs.Outside.{Rose};
ghost use Rattle.disk_model.specs.Past.{reads, EveryImage, Keeps};
ghost use Rattle.log_journal.specs.Front.{HoldsNothing, IsFront};
ghost use Rattle.log_journal.specs.declared.form.Form.{Form as FormOf};
ghost use Rattle.journal_upgrade.specs.Numbers.{IsSet};
ghost use Rattle.journal_upgrade.specs.Copies.{AreKept, AreCopied, AreBrought, OneRose, SameMarks};
ghost use Rattle.journal_upgrade.specs.Faults.{IsUpgradeFault};
ghost use Rattle.journal_upgrade.specs.Marker.{IsMarked};
ghost use Rattle.journal_upgrade.specs.Safe.{AreHeld, AreSafe};
ghost use Rattle.journal_upgrade.specs.Upgraded.{IsUpgraded, IsFoundBy, IsMarkerFault, IsSetFault};

use crate::fault::UpgradeFault;
use crate::filling::fill_spares;
use crate::marking::{mark, unmark};
use crate::restoring::overwrite_files;
use crate::set::UpgradeSet;
use disk_model::Disk;
use log_journal::{Front, FrontFault, front};
use std::alloc::Global;

/// What an upgrade did.
#[derive(Clone, Copy, Debug, PartialEq, Eq)]
pub enum Upgraded {
    /// So many files were of the old form.
    Files(u32),
    /// The marker stood, and the files were written from their spares.
    Finished,
}

// The fault of a marker's front. No marker was ever written in the old form, so that one in it is
// told as damaged from its start.
fn marker_fault(fault: FrontFault, file: u32) -> UpgradeFault
    ensures failed { (result ≡ UpgradeFault.Failed) ↔ (fault ≡ FrontFault.Failed) }
    ensures told { (image : List ℕ) → IsFront image file (Err fault)
        → IsMarkerFault image file result }
{
    match fault {
        FrontFault::Failed => UpgradeFault::Failed,
        FrontFault::Damaged { at } => UpgradeFault::Damaged { file, at },
        FrontFault::OldFormat => UpgradeFault::Damaged { file, at: 0 },
        FrontFault::WrongNumber { found } => UpgradeFault::WrongNumber { file, found },
        FrontFault::OutOfMemory => UpgradeFault::OutOfMemory,
    }
}

// The last two calls.
fn finish<D: Disk>(
    alloc: Global,
    set: UpgradeSet<D>,
    done: Upgraded,
) -> (UpgradeSet<D>, Result<Upgraded, UpgradeFault>)
    requires set { IsSet set.files.items set.spares.items set.numbers.items }
    requires marked { D.tells
        → EveryImage (D.past set.marker) (λ image. IsMarked image set.marker_number) }
    ensures same { (result.0.numbers ≡ set.numbers)
        × (result.0.marker_number ≡ set.marker_number) }
    ensures set { IsSet result.0.files.items result.0.spares.items result.0.numbers.items }
    ensures done { IfOk result.1 (λ told. told ≡ done) }
    ensures brought { D.tells → OnOk result.1 ((forms : List FormOf)
        × AreBrought D.past 2000 0 set.numbers.items set.spares.items forms
        result.0.files.items) }
    ensures nothing { D.tells → OnOk result.1 (EveryImage (D.past result.0.marker)
        (λ image. HoldsNothing image set.marker_number)) }
    ensures safe { D.tells → (payloads : ℕ → List (List ℕ))
        → AreHeld D.past 2000 set.numbers.items set.spares.items payloads
        → AreSafe D.past set.numbers.items result.0.files.items result.0.spares.items
        (D.past result.0.marker) set.marker_number payloads }
    ensures fault { D.tells → IfErr result.1
        (IsUpgradeFault D.past 2000 set.numbers.items set.spares.items) }
    ensures cause { IsErrOf result.1 UpgradeFault.Failed
        → OneRose D.faults set.files.items result.0.files.items
        ⊎ (OneRose D.faults set.spares.items result.0.spares.items
        ⊎ Rose (D.faults set.marker) (D.faults result.0.marker)) }
    ensures marks { SameMarks D.mark set.files.items result.0.files.items
        × SameMarks D.mark set.spares.items result.0.spares.items
        × (D.mark result.0.marker ≡ D.mark set.marker) }
{
    let (set, written) = overwrite_files(alloc, set);
    match written {
        Ok(()) => {
            let (set, unmarked) = unmark(set);
            match unmarked {
                Ok(()) => (set, Ok(done)),
                Err(fault) => (set, Err(fault)),
            }
        }
        Err(fault) => (set, Err(fault)),
    }
}

// The last three calls.
fn mark_and_finish<D: Disk>(
    alloc: Global,
    set: UpgradeSet<D>,
    done: Upgraded,
) -> (UpgradeSet<D>, Result<Upgraded, UpgradeFault>)
    requires set { IsSet set.files.items set.spares.items set.numbers.items }
    requires nothing { D.tells
        → EveryImage (D.past set.marker) (λ image. HoldsNothing image set.marker_number) }
    requires copied { D.tells
        → AreCopied D.past set.numbers.items set.files.items set.spares.items }
    ensures same { (result.0.numbers ≡ set.numbers)
        × (result.0.marker_number ≡ set.marker_number) }
    ensures set { IsSet result.0.files.items result.0.spares.items result.0.numbers.items }
    ensures done { IfOk result.1 (λ told. told ≡ done) }
    ensures brought { D.tells → OnOk result.1 ((forms : List FormOf)
        × AreBrought D.past 2000 0 set.numbers.items set.spares.items forms
        result.0.files.items) }
    ensures nothing { D.tells → OnOk result.1 (EveryImage (D.past result.0.marker)
        (λ image. HoldsNothing image set.marker_number)) }
    ensures safe { D.tells → (payloads : ℕ → List (List ℕ))
        → AreHeld D.past 0 set.numbers.items set.files.items payloads
        → AreHeld D.past 2000 set.numbers.items set.spares.items payloads
        → AreSafe D.past set.numbers.items result.0.files.items result.0.spares.items
        (D.past result.0.marker) set.marker_number payloads }
    ensures fault { D.tells → IfErr result.1
        (IsUpgradeFault D.past 2000 set.numbers.items set.spares.items) }
    ensures cause { IsErrOf result.1 UpgradeFault.Failed
        → OneRose D.faults set.files.items result.0.files.items
        ⊎ (OneRose D.faults set.spares.items result.0.spares.items
        ⊎ Rose (D.faults set.marker) (D.faults result.0.marker)) }
    ensures marks { SameMarks D.mark set.files.items result.0.files.items
        × SameMarks D.mark set.spares.items result.0.spares.items
        × (D.mark result.0.marker ≡ D.mark set.marker) }
{
    let (set, marked) = mark(alloc, set);
    match marked {
        Ok(()) => finish(alloc, set, done),
        Err(fault) => (set, Err(fault)),
    }
}

// The four calls in their order, or the first alone where each file has the new form.
fn upgrade_unmarked<D: Disk>(
    alloc: Global,
    set: UpgradeSet<D>,
) -> (UpgradeSet<D>, Result<Upgraded, UpgradeFault>)
    requires set { IsSet set.files.items set.spares.items set.numbers.items }
    requires nothing { D.tells
        → EveryImage (D.past set.marker) (λ image. HoldsNothing image set.marker_number) }
    ensures same { (result.0.numbers ≡ set.numbers)
        × (result.0.marker_number ≡ set.marker_number) }
    ensures set { IsSet result.0.files.items result.0.spares.items result.0.numbers.items }
    ensures ok { D.tells → IfOk result.1 (IsUpgraded D.past set.numbers.items
        set.files.items set.spares.items result.0.files.items) }
    ensures counts { IfOk result.1 (λ done. (count : ℕ) × (done ≡ Upgraded.Files count)) }
    ensures nothing { D.tells → OnOk result.1 (EveryImage (D.past result.0.marker)
        (λ image. HoldsNothing image set.marker_number)) }
    ensures none { IfOk result.1 (λ done. done ≡ Upgraded.Files 0
        → (result.0.spares.items ≡ set.spares.items) × (result.0.marker ≡ set.marker)) }
    ensures kept { D.tells → IfOk result.1 (λ done. done ≡ Upgraded.Files 0
        → AreKept D.past set.files.items result.0.files.items) }
    ensures safe { D.tells → (payloads : ℕ → List (List ℕ))
        → AreHeld D.past 0 set.numbers.items set.files.items payloads
        → AreSafe D.past set.numbers.items result.0.files.items result.0.spares.items
        (D.past result.0.marker) set.marker_number payloads }
    ensures fault { D.tells → IfErr result.1
        (IsUpgradeFault D.past 0 set.numbers.items set.files.items) }
    ensures cause { IsErrOf result.1 UpgradeFault.Failed
        → OneRose D.faults set.files.items result.0.files.items
        ⊎ (OneRose D.faults set.spares.items result.0.spares.items
        ⊎ Rose (D.faults set.marker) (D.faults result.0.marker)) }
    ensures marks { SameMarks D.mark set.files.items result.0.files.items
        × SameMarks D.mark set.spares.items result.0.spares.items
        × (D.mark result.0.marker ≡ D.mark set.marker) }
{
    let (set, filled) = fill_spares(alloc, set);
    match filled {
        Ok(0) => (set, Ok(Upgraded::Files(0))),
        Ok(count) => mark_and_finish(alloc, set, Upgraded::Files(count)),
        Err(fault) => (set, Err(fault)),
    }
}

/// Brings the files of a set to the new form. Where the marker stands an upgrade was broken off
/// with its spares whole, and the files are written from them.
pub fn upgrade_files<D: Disk>(
    alloc: Global,
    set: UpgradeSet<D>,
) -> (UpgradeSet<D>, Result<Upgraded, UpgradeFault>)
    requires { IsSet set.files.items set.spares.items set.numbers.items }
    ensures same { (result.0.numbers ≡ set.numbers)
        × (result.0.marker_number ≡ set.marker_number) }
    ensures set { IsSet result.0.files.items result.0.spares.items result.0.numbers.items }

    // The marker says which files are read: those of the set or their spares.
    ensures found { D.tells → IfOk result.1
        (λ done. IsFoundBy done (reads (D.past set.marker)) set.marker_number) }

    // Then each file holds the payloads that were read, whatever a crash leaves, and nothing
    // stands in the marker.
    ensures ok { D.tells → IfOk result.1 (IsUpgraded D.past set.numbers.items
        set.files.items set.spares.items result.0.files.items) }
    ensures nothing { D.tells → OnOk result.1 (EveryImage (D.past result.0.marker)
        (λ image. HoldsNothing image set.marker_number)) }

    // At whichever call of a disk it breaks off, no payload is lost, and it can be made again.
    ensures safe { D.tells → (payloads : ℕ → List (List ℕ))
        → AreSafe D.past set.numbers.items set.files.items set.spares.items (D.past set.marker)
        set.marker_number payloads
        → AreSafe D.past set.numbers.items result.0.files.items result.0.spares.items
        (D.past result.0.marker) set.marker_number payloads }

    // Where each file had the new form nothing is written.
    ensures none { IfOk result.1 (λ done. done ≡ Upgraded.Files 0
        → result.0.spares.items ≡ set.spares.items) }
    ensures kept { D.tells → IfOk result.1 (λ done. done ≡ Upgraded.Files 0
        → AreKept D.past set.files.items result.0.files.items
        × Keeps (D.past set.marker) (D.past result.0.marker)) }

    // The fault is that of the marker, or of a file that is read.
    ensures fault { D.tells → IfErr result.1 (λ fault.
        IsMarkerFault (reads (D.past set.marker)) set.marker_number fault
        ⊎ IsSetFault D.past set.numbers.items set.files.items set.spares.items
        (reads (D.past set.marker)) set.marker_number fault) }
    ensures cause { IsErrOf result.1 UpgradeFault.Failed
        → OneRose D.faults set.files.items result.0.files.items
        ⊎ (OneRose D.faults set.spares.items result.0.spares.items
        ⊎ Rose (D.faults set.marker) (D.faults result.0.marker)) }
    ensures marks { SameMarks D.mark set.files.items result.0.files.items
        × SameMarks D.mark set.spares.items result.0.spares.items
        × (D.mark result.0.marker ≡ D.mark set.marker) }
{
    let mut set = set;
    match front(alloc, &mut set.marker, set.marker_number) {
        Ok(Front::Nothing) => upgrade_unmarked(alloc, set),
        Ok(Front::First { .. }) => finish(alloc, set, Upgraded::Finished),
        Err(fault) => {
            let told = marker_fault(fault, set.marker_number);
            (set, Err(told))
        }
    }
}
