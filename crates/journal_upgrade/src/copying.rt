//! Copies the payloads of files.
ghost use Rattle.std.specs.Prelude.{◌≡◌, ◌⊎◌, ℕ, ◌+◌, ◌-◌, ◌^◌, ◌≤◌, min, List, [], ◌∷◌, length};
ghost use Rattle.std.specs.Prelude.{◌↔◌, All, IfOk, IfErr, OnOk, IsErrOf};
ghost use Rattle.delta_base.specs.Outside.{Rose};
ghost use Rattle.disk_model.specs.Past.{reads, synced, Keeps};
ghost use Rattle.log_journal.specs.File.{HoldsIn};
ghost use Rattle.log_journal.specs.Reading.{length_in, limit_for};
ghost use Rattle.log_journal.specs.Written.{DiskWent};
ghost use Rattle.log_journal.specs.declared.form.Form.{Form as FormOf};
ghost use Rattle.journal_upgrade.specs.Numbers.{IsFileNumber, limits_of};
ghost use Rattle.journal_upgrade.specs.Copies.{AreKept, AreCopies, IsCopy, AreWell, IsBrought};
ghost use Rattle.journal_upgrade.specs.Copies.{AreBrought, AreSynced, count_old};
ghost use Rattle.journal_upgrade.specs.Copies.{OneRose, SameFaults, SameMarks};
ghost use Rattle.journal_upgrade.specs.Faults.{IsFaulty, IsFileFault, IsUpgradeFault};

use crate::fault::UpgradeFault;
use delta_base::{Bytes, OutOfMemory};
use disk_model::Disk;
use log_base::{
    LOG_BYTES, OLD_LOG_BYTES, OLD_REGISTRY_LIMIT, OLD_ZONE_FILE_LIMIT, REGISTRY_LIMIT,
    ZONE_FILE_LIMIT,
};
use log_journal::{Form, FormLimits, JournalFault, Payloads, Receiver, read_either, write_anew};
use std::alloc::Global;

// How long the journal of a file with this number may be.
fn limits_of_file(number: u32) -> FormLimits
    ensures { result ≡ limits_of number }
{
    if number == 0 {
        return FormLimits {
            old: OLD_REGISTRY_LIMIT,
            new: REGISTRY_LIMIT,
        };
    }
    if number <= 16 {
        return FormLimits {
            old: OLD_LOG_BYTES,
            new: LOG_BYTES,
        };
    }
    FormLimits {
        old: OLD_ZONE_FILE_LIMIT,
        new: ZONE_FILE_LIMIT,
    }
}

// A journal's fault, told of the file with this number in its header. Reading either form never
// tells of the old one.
fn fault_of(fault: JournalFault, header: u32) -> UpgradeFault
    ensures failed { (result ≡ UpgradeFault.Failed) ↔ (fault ≡ JournalFault.Failed) }
    ensures faulty { (number : ℕ) (file : List ℕ) → IsFaulty number file header fault
        → IsFileFault number header file result }
{
    match fault {
        JournalFault::Failed => UpgradeFault::Failed,
        JournalFault::Damaged { at } => UpgradeFault::Damaged { file: header, at },
        JournalFault::OldFormat => UpgradeFault::Damaged {
            file: header,
            at: 0,
        },
        JournalFault::WrongNumber { found } => UpgradeFault::WrongNumber {
            file: header,
            found,
        },
        JournalFault::OverLimit { length, limit } => UpgradeFault::OverLimit {
            file: header,
            length,
            limit,
        },
        JournalFault::OutOfMemory => UpgradeFault::OutOfMemory,
    }
}

/// Lets payloads go as they come.
#[derive(Drop)]
struct Passing;

impl Receiver for Passing {
    ghost received = { λ first payloads passing. Unit {0} };

    fn receive(&mut self, payload: Bytes) -> Result<(), OutOfMemory> {
        drop(payload);
        Ok(())
    }
}

// Hands on the payloads of a file with this number in its header, which may be as long as the file
// of another number. Answers its form.
fn read_file<D: Disk, R: Receiver>(
    alloc: Global,
    disk: &mut D,
    header: u32,
    number: u32,
    receiver: &mut R,
) -> Result<Form, UpgradeFault>
    requires { R.received receiver.old [] receiver.old }
    ensures received { IfOk result (λ form. (payloads : List (List ℕ))
        × R.received receiver.old payloads receiver.new
        × (length_in form payloads ≤ limit_for form (limits_of number))
        × (D.tells → HoldsIn form (reads (D.past disk.old)) header payloads)) }
    ensures kept { D.tells → Keeps (D.past disk.old) (D.past disk.new) }
    ensures synced { D.tells → OnOk result (D.past disk.new ≡ synced (D.past disk.old)) }
    ensures fault { D.tells → IfErr result (IsFileFault number header (reads (D.past disk.old))) }
    ensures went { DiskWent D.Disk (IsErrOf result UpgradeFault.Failed) disk.old disk.new }
{
    match read_either(alloc, disk, header, limits_of_file(number), receiver) {
        Ok(form) => Ok(form),
        Err(fault) => Err(fault_of(fault, header)),
    }
}

// Adds a file of this form to the count of those of the old form.
fn counted(count: u32, form: Form) -> u32
    ensures { result ≡ min (count + count_old (form ∷ [])) (2 ^ 32 - 1) }
{
    match form {
        Form::Old => count.saturating_add(1),
        Form::New => count,
    }
}

/// Counts the files of the old form, and reads all.
pub fn count_old_files<D: Disk>(
    alloc: Global,
    files: &mut [D],
    numbers: &[u64],
) -> Result<u32, UpgradeFault>
    requires as_many { length files.old ≡ length numbers.now }
    requires known { All IsFileNumber numbers.now }
    ensures as_many { length files.new ≡ length files.old }
    ensures kept { D.tells → AreKept D.past files.old files.new }
    ensures ok { D.tells → IfOk result (λ count. (forms : List FormOf)
        × AreWell D.past 0 numbers.now files.old forms
        × (count ≡ min (count_old forms) (2 ^ 32 - 1))) }
    ensures synced { D.tells → OnOk result (AreSynced D.past files.new) }
    ensures fault { D.tells → IfErr result (IsUpgradeFault D.past 0 numbers.now files.old) }
    ensures cause { IsErrOf result UpgradeFault.Failed → OneRose D.faults files.old files.new }
    ensures well { OnOk result (SameFaults D.faults files.old files.new) }
    ensures marks { SameMarks D.mark files.old files.new }
{
    let mut passing = Passing;
    let mut count = 0;
    for (i, number) in numbers.iter().enumerate() {
        let number = *number as u32;
        let form = read_file(alloc, &mut files[i], number, number, &mut passing)?;
        count = counted(count, form);
    }
    Ok(count)
}

// Writes the payloads of one file, in whichever form, over another one in the new form. They may
// be as long as the file of a third number.
fn copy_to<D: Disk>(
    alloc: Global,
    from: &mut D,
    from_number: u32,
    to: &mut D,
    to_number: u32,
    number: u32,
) -> Result<(), UpgradeFault>
    ensures kept { D.tells → Keeps (D.past from.old) (D.past from.new) }
    ensures ok { D.tells
        → OnOk result (IsCopy from_number to_number (D.past from.new) (D.past to.new)) }
    ensures brought { D.tells → OnOk result ((form : FormOf) × IsBrought form number from_number
        to_number (reads (D.past from.old)) (D.past to.new)) }
    ensures fault { D.tells
        → IfErr result (IsFileFault number from_number (reads (D.past from.old))) }
    ensures cause { IsErrOf result UpgradeFault.Failed
        → Rose (D.faults from.old) (D.faults from.new) ⊎ Rose (D.faults to.old) (D.faults to.new) }
    ensures faults { OnOk result ((D.faults from.new ≡ D.faults from.old)
        × (D.faults to.new ≡ D.faults to.old)) }
    ensures marks { (D.mark from.new ≡ D.mark from.old) × (D.mark to.new ≡ D.mark to.old) }
{
    let mut payloads = Payloads::new(alloc);
    read_file(alloc, from, from_number, number, &mut payloads)?;
    write_anew(to, to_number, payloads.as_slice())?;
    Ok(())
}

/// Writes the payloads of the files on one side over those on the other, in the new form. On
/// either side so much is added to the numbers.
pub fn copy_all<D: Disk>(
    alloc: Global,
    from: &mut [D],
    from_more: u32,
    to: &mut [D],
    to_more: u32,
    numbers: &[u64],
) -> Result<(), UpgradeFault>
    requires as_many { (length from.old ≡ length numbers.now)
        × (length to.old ≡ length numbers.now) }
    requires known { All IsFileNumber numbers.now }
    requires more { (from_more ≤ 2000) × (to_more ≤ 2000) }
    ensures as_many { (length from.new ≡ length from.old) × (length to.new ≡ length to.old) }
    ensures kept { D.tells → AreKept D.past from.old from.new }
    ensures ok { D.tells
        → OnOk result (AreCopies D.past from_more to_more numbers.now from.new to.new) }
    ensures brought { D.tells → OnOk result ((forms : List FormOf)
        × AreBrought D.past from_more to_more numbers.now from.old forms to.new) }
    ensures fault { D.tells
        → IfErr result (IsUpgradeFault D.past from_more numbers.now from.old) }
    ensures cause { IsErrOf result UpgradeFault.Failed
        → OneRose D.faults from.old from.new ⊎ OneRose D.faults to.old to.new }
    ensures faults { OnOk result (SameFaults D.faults from.old from.new
        × SameFaults D.faults to.old to.new) }
    ensures marks { SameMarks D.mark from.old from.new × SameMarks D.mark to.old to.new }
{
    for (i, number) in numbers.iter().enumerate() {
        let number = *number as u32;
        let from_number = number + from_more;
        let to_number = number + to_more;
        copy_to(
            alloc,
            &mut from[i],
            from_number,
            &mut to[i],
            to_number,
            number,
        )?;
    }
    Ok(())
}
