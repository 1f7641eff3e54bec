//! Reads a journal's file: the header, and then payload by payload up to a gate that is shut.
ghost use Rattle.std.specs.Prelude.{◌≡◌, ◌≢◌, ℕ, ◌+◌, ◌^◌, ◌<◌, ◌≤◌, length, take};
ghost use Rattle.std.specs.Prelude.{drop, IsTrue, not, IfOk, IfErr, IfSome};
ghost use Rattle.std.specs.Prelude.{IfNone, OnOk, IsErr, IsErrOf};
ghost use Rattle.disk_model.specs.Past.{reads};
ghost use Rattle.disk_model.specs.Calls.{KeepsPlan};
ghost use Rattle.std.specs.Int.{w32, to_be_bytes};
ghost use Rattle.log_journal.specs.File.{magic, header, head_size, AreFew, IsForeign};
ghost use Rattle.log_journal.specs.Reading.{ReadsHeader, ReadsHead, ReadsPayload};
ghost use Rattle.log_journal.specs.Reading.{HasByte, ShortWhere};
ghost use Rattle.log_journal.specs.Written.{DiskWent};

use crate::fault::JournalFault;
use crate::form::Form;
use delta_base::Failed;
use disk_model::Disk;
use std::alloc::Global;

// Fills the buffer. `false` where the file ends before.
pub fn fetch<D: Disk>(
    disk: &mut D,
    file_length: u64,
    at: u64,
    into: &mut [u8],
) -> Result<bool, Failed>
    requires { D.tells → file_length ≡ length (reads (D.past disk.old)) }
    ensures within { IfOk result (λ whole. IsTrue whole → at + length into.old ≤ file_length) }
    ensures bytes { D.tells
        → IfOk result (λ whole. IsTrue whole
        → into.new ≡ take (length into.old) (drop at (reads (D.past disk.old)))) }
    ensures short { D.tells
        → IfOk result (λ whole. IsTrue (not whole)
        → length (reads (D.past disk.old)) < at + length into.old) }
    ensures past { D.past disk.new ≡ D.past disk.old }
    ensures went { DiskWent D.Disk (IsErr result) disk.old disk.new }
    ensures planned { D.plans → KeepsPlan (D.short disk.old) (D.short disk.new)
        (D.next_failure disk.old) (D.next_failure disk.new) result }
    ensures few { D.tells → D.read_bytes disk.new ≤ D.read_bytes disk.old + length into.old }
{
    if file_length < at || file_length - at < into.len() as u64 {
        return Ok(false);
    }
    let count = disk.read_at(at, into)?;
    Ok(count == into.len())
}

/// A number, as four bytes spell it. `None` where the file ends before.
pub fn fetch_number<D: Disk>(disk: &mut D, file_length: u64, at: u64) -> Result<Option<u32>, Failed>
    requires { D.tells → file_length ≡ length (reads (D.past disk.old)) }
    ensures within { IfOk result (λ found. IfSome found (λ size. (size < 2 ^ 32)
        × (at + 4 ≤ file_length))) }
    ensures bytes { D.tells
        → IfOk result (λ found. IfSome found
        (λ size. to_be_bytes w32 size ≡ take 4 (drop at (reads (D.past disk.old))))) }
    ensures short { D.tells
        → IfOk result (λ found. IfNone found (length (reads (D.past disk.old)) < at + 4)) }
    ensures past { D.past disk.new ≡ D.past disk.old }
    ensures went { DiskWent D.Disk (IsErr result) disk.old disk.new }
    ensures planned { D.plans → KeepsPlan (D.short disk.old) (D.short disk.new)
        (D.next_failure disk.old) (D.next_failure disk.new) result }
    ensures few { D.tells → D.read_bytes disk.new ≤ D.read_bytes disk.old + 4 }
{
    let mut bytes = [0u8; 4];
    if !fetch(disk, file_length, at, &mut bytes)? {
        return Ok(None);
    }
    let [high, middle, low, lowest] = bytes;
    Ok(Some(u32::from_be_bytes([high, middle, low, lowest])))
}

// The form that a header's first bytes name.
fn form_of(head: [u8; 8]) -> Option<Form>
    ensures found { IfSome result (λ form. take 4 head ≡ magic form) }
    ensures foreign { IfNone result (IsForeign head) }
{
    let [r, d, j, version, _, _, _, _] = head;
    if [r, d, j, version] == *b"RDJ1" {
        return Some(Form::Old);
    }
    if [r, d, j, version] == *b"RDJ2" {
        return Some(Form::New);
    }
    None
}

// The number that four bytes spell.
fn number_of(bytes: [u8; 4]) -> u32
    ensures { to_be_bytes w32 result ≡ bytes }
{
    let [high, middle, low, lowest] = bytes;
    u32::from_be_bytes([high, middle, low, lowest])
}

// The form and the number of a header.
fn split_header(head: [u8; 8]) -> Result<(Form, u32), JournalFault>
    ensures found { IfOk result (λ found. (found.1 < 2 ^ 32) × (head ≡ header found.0 found.1)) }
    ensures foreign { IfErr result (λ fault. (fault ≡ JournalFault.Damaged 0) × IsForeign head) }
{
    let [_, _, _, _, high, middle, low, lowest] = head;
    match form_of(head) {
        Some(form) => Ok((form, number_of([high, middle, low, lowest]))),
        None => Err(JournalFault::Damaged { at: 0 }),
    }
}

/// The form and the number that a file's header names.
pub fn read_header<D: Disk>(disk: &mut D, file_length: u64) -> Result<(Form, u32), JournalFault>
    requires { D.tells → file_length ≡ length (reads (D.past disk.old)) }
    ensures found { D.tells → ReadsHeader (reads (D.past disk.old)) result }
    ensures never_over { (length limit : ℕ) → IsErrOf result (JournalFault.OverLimit length limit)
        → ⊥ }
    ensures past { D.past disk.new ≡ D.past disk.old }
    ensures went { DiskWent D.Disk (IsErrOf result JournalFault.Failed) disk.old disk.new }
    ensures planned { D.plans → ShortWhere (IsErrOf result JournalFault.Failed)
        (D.short disk.old) (D.short disk.new) }
    ensures few { D.tells → D.read_bytes disk.new ≤ D.read_bytes disk.old + 8 }
{
    let mut head = [0u8; 8];
    if !fetch(disk, file_length, 0, &mut head)? {
        return Err(JournalFault::Damaged { at: 0 });
    }
    split_header(head)
}

/// The byte of the gate at a place.
pub fn read_gate<D: Disk>(disk: &mut D, file_length: u64, at: u64) -> Result<u8, JournalFault>
    requires { D.tells → file_length ≡ length (reads (D.past disk.old)) }
    ensures found { D.tells → IfOk result (HasByte (reads (D.past disk.old)) at) }
    ensures never_over { (length limit : ℕ) → IsErrOf result (JournalFault.OverLimit length limit)
        → ⊥ }
    ensures within { OnOk result (at < file_length) }
    ensures missing { D.tells → IfErr result (λ fault. fault ≢ JournalFault.Failed
        → (fault ≡ JournalFault.Damaged at) × (length (reads (D.past disk.old)) ≤ at)) }
    ensures past { D.past disk.new ≡ D.past disk.old }
    ensures went { DiskWent D.Disk (IsErrOf result JournalFault.Failed) disk.old disk.new }
    ensures planned { D.plans → ShortWhere (IsErrOf result JournalFault.Failed)
        (D.short disk.old) (D.short disk.new) }
    ensures few { D.tells → D.read_bytes disk.new ≤ D.read_bytes disk.old + 1 }
{
    let mut gate = [0u8; 1];
    if !fetch(disk, file_length, at, &mut gate)? {
        return Err(JournalFault::Damaged { at });
    }
    Ok(gate[0])
}

// The length that stands at a place.
fn read_size<D: Disk>(disk: &mut D, file_length: u64, at: u64) -> Result<u32, JournalFault>
    requires { D.tells → file_length ≡ length (reads (D.past disk.old)) }
    ensures never_over { (length limit : ℕ) → IsErrOf result (JournalFault.OverLimit length limit)
        → ⊥ }
    ensures found { D.tells → IfOk result (λ size. (size < 2 ^ 32)
        × (to_be_bytes w32 size ≡ take 4 (drop at (reads (D.past disk.old))))) }
    ensures within { OnOk result (at + 4 ≤ file_length) }
    ensures missing { D.tells → IfErr result (λ fault. fault ≢ JournalFault.Failed
        → (fault ≡ JournalFault.Damaged at) × (length (reads (D.past disk.old)) < at + 4)) }
    ensures past { D.past disk.new ≡ D.past disk.old }
    ensures went { DiskWent D.Disk (IsErrOf result JournalFault.Failed) disk.old disk.new }
    ensures planned { D.plans → ShortWhere (IsErrOf result JournalFault.Failed)
        (D.short disk.old) (D.short disk.new) }
    ensures few { D.tells → D.read_bytes disk.new ≤ D.read_bytes disk.old + 4 }
{
    match fetch_number(disk, file_length, at)? {
        Some(size) => Ok(size),
        None => Err(JournalFault::Damaged { at }),
    }
}

/// The length of the payload behind the open gate at a place, with so many payloads before it.
pub fn read_head<D: Disk>(
    disk: &mut D,
    file_length: u64,
    form: Form,
    at: u64,
    before: u64,
) -> Result<u32, JournalFault>
    requires length { D.tells → file_length ≡ length (reads (D.past disk.old)) }
    requires open { D.tells → HasByte (reads (D.past disk.old)) at 1 }
    requires gate_within { at < file_length }
    requires counted { before ≤ at }
    ensures found { D.tells → ReadsHead form (reads (D.past disk.old)) at before result }
    ensures never_over { (length limit : ℕ) → IsErrOf result (JournalFault.OverLimit length limit)
        → ⊥ }
    ensures within { OnOk result (at + 1 + head_size form ≤ file_length) }
    ensures numbered { OnOk result (AreFew form (before + 1)) }
    ensures past { D.past disk.new ≡ D.past disk.old }
    ensures went { DiskWent D.Disk (IsErrOf result JournalFault.Failed) disk.old disk.new }
    ensures planned { D.plans → ShortWhere (IsErrOf result JournalFault.Failed)
        (D.short disk.old) (D.short disk.new) }
    ensures few { D.tells → D.read_bytes disk.new ≤ D.read_bytes disk.old + head_size form }
{
    match form {
        Form::Old => read_size(disk, file_length, at + 1),
        Form::New => match fetch_number(disk, file_length, at + 1)? {
            Some(number) if u64::from(number) == before + 1 => {
                read_size(disk, file_length, at + 5)
            }
            _ => Err(JournalFault::Damaged { at: at + 1 }),
        },
    }
}

/// How many bytes stand between a gate and its payload.
pub fn head_length(form: Form) -> u64
    ensures { result ≡ head_size form }
{
    match form {
        Form::Old => 4,
        Form::New => 8,
    }
}

/// The payload behind the open gate at a place, with so many payloads before it, and the byte of
/// the gate behind it. The two are read at once, since the gate behind a payload always belongs
/// to the journal.
pub fn read_payload<D: Disk>(
    alloc: Global,
    disk: &mut D,
    file_length: u64,
    form: Form,
    at: u64,
    before: u64,
) -> Result<(Vec<u8>, u8), JournalFault>
    requires length { D.tells → file_length ≡ length (reads (D.past disk.old)) }
    requires open { D.tells → HasByte (reads (D.past disk.old)) at 1 }
    requires gate_within { at < file_length }
    requires counted { before ≤ at }
    ensures found { D.tells → ReadsPayload form (reads (D.past disk.old)) at before result }
    ensures within { IfOk result (λ found.
        at + 1 + head_size form + length found.0.items < file_length) }
    ensures numbered { OnOk result (AreFew form (before + 1)) }
    ensures past { D.past disk.new ≡ D.past disk.old }
    ensures went { DiskWent D.Disk (IsErrOf result JournalFault.Failed) disk.old disk.new }
    ensures planned { D.plans → ShortWhere (IsErrOf result JournalFault.Failed)
        (D.short disk.old) (D.short disk.new) }
    ensures few { D.tells → IfOk result (λ found. D.read_bytes disk.new
        ≤ D.read_bytes disk.old + 1 + head_size form + length found.0.items) }
{
    let size = read_head(disk, file_length, form, at, before)?;
    let start = at + 1 + head_length(form);
    let left = file_length - start;
    if left < u64::from(size) {
        return Err(JournalFault::Damaged { at: start });
    }
    if left == u64::from(size) {
        return Err(JournalFault::Damaged { at: file_length });
    }
    let mut bytes = Vec::from_elem(alloc, 0, size as usize + 1)?;
    if !fetch(disk, file_length, start, &mut bytes)? {
        return Err(JournalFault::Damaged { at: start });
    }
    let Some(gate) = bytes.pop() else {
        unreachable!()
    };
    Ok((bytes, gate))
}
