//! Reads a file of either form, and writes one anew.
ghost use Rattle.std.specs.Prelude.{◌≡◌, ◌⊎◌, ◌^◌, ◌<◌, ◌≤◌, ℕ, List, [], length};
ghost use Rattle.std.specs.Prelude.{IfOk, IfErr, OnOk, IsErr, IsErrOf};
ghost use Rattle.disk_model.specs.Past.{reads, synced};
ghost use Rattle.log_base.specs.Journals.{payloads_length};
ghost use Rattle.log_journal.specs.File.{HoldsIn, AreSized};
ghost use Rattle.log_journal.specs.Journal.{HoldsAll};
ghost use Rattle.log_journal.specs.Reading.{HasFaultIn, length_in, limit_for};
ghost use Rattle.log_journal.specs.Written.{DiskWent};
ghost use Rattle.log_journal.specs.declared.form.Form.{Form as FormOf};

use crate::fault::JournalFault;
use crate::filling::fill_behind;
use crate::form::Form;
use crate::open::read_payloads;
use crate::reading::read_header;
use crate::receiver::Receiver;
use crate::restarting::write_empty;
use delta_base::{Bytes, Failed};
use disk_model::Disk;
use std::alloc::Global;

/// How long a journal may be in each form.
#[derive(Clone, Copy, Debug, PartialEq, Eq)]
pub struct FormLimits {
    pub old: u64,
    pub new: u64,
}

// How long a journal of this form may be.
fn limit_of_form(form: Form, limits: FormLimits) -> u64
    ensures { result ≡ limit_for form limits }
{
    match form {
        Form::Old => limits.old,
        Form::New => limits.new,
    }
}

/// Hands on the payloads of a file in either form. Answers its form.
pub fn read_either<D: Disk, R: Receiver>(
    alloc: Global,
    disk: &mut D,
    number: u32,
    limits: FormLimits,
    receiver: &mut R,
) -> Result<Form, JournalFault>
    requires { R.received receiver.old [] receiver.old }
    ensures received { IfOk result (λ form. (payloads : List (List ℕ))
        × R.received receiver.old payloads receiver.new
        × (length_in form payloads ≤ limit_for form limits)
        × (D.tells → HoldsIn form (reads (D.past disk.old)) number payloads)) }

    // The fault is one in the form that the file has.
    ensures fault { D.tells → IfErr result (λ fault. (form : FormOf)
        × HasFaultIn form (reads (D.past disk.old)) number (limit_for form limits) fault) }
    ensures synced { D.tells → OnOk result (D.past disk.new ≡ synced (D.past disk.old)) }
    ensures past { D.tells → (D.past disk.new ≡ D.past disk.old)
        ⊎ (D.past disk.new ≡ synced (D.past disk.old)) }
    ensures went { DiskWent D.Disk (IsErrOf result JournalFault.Failed) disk.old disk.new }
{
    disk.sync()?;
    let file_length = disk.len()?;
    let (form, found) = read_header(disk, file_length)?;
    if found != number {
        return Err(JournalFault::WrongNumber { found });
    }
    let length = read_payloads(alloc, disk, file_length, form, number, receiver)?.length;
    let limit = limit_of_form(form, limits);
    if limit < length {
        return Err(JournalFault::OverLimit { length, limit });
    }
    Ok(form)
}

/// Writes a journal of these payloads over whatever a disk has. Of what a crash leaves in between
/// nothing is said.
pub fn write_anew<D: Disk>(disk: &mut D, number: u32, payloads: &[Bytes]) -> Result<(), Failed>
    requires few { length payloads.now < 2 ^ 32 }
    requires sized { AreSized payloads.now }
    requires fits { payloads_length payloads.now < 2 ^ 64 }
    ensures ok { D.tells → OnOk result (HoldsAll (D.past disk.new)
        (payloads_length payloads.now) number payloads.now) }
    ensures went { DiskWent D.Disk (IsErr result) disk.old disk.new }
    ensures long { D.plans → OnOk result (D.short disk.new ≡ D.short disk.old) }
{
    write_empty(disk, number)?;
    if payloads.is_empty() {
        return Ok(());
    }
    fill_behind(disk, payloads)
}
