//! Files that are read in either form.
use crate::tables::{Place, is};
use disk_model::MemDisk;
use log_journal::{Form, FormLimits, JournalFault, Payloads, read_either};
use std::alloc::Global;
use std::process::Abort;
use std::test::Fail;
use worked_rows::disk_of;

/// What is read of a file of number 1: its form and its payloads.
pub type Found = Result<(Form, &'static [&'static [u8]]), JournalFault>;

/// Limits that no file here reaches.
pub const WIDE: FormLimits = FormLimits {
    old: 1000,
    new: 1000,
};

/// A file of `abc` and `de`, and the same in the form before.
pub const TWO: &[u8] = b"RDJ2\0\0\0\x01\x01\0\0\0\x01\0\0\0\x03abc\x01\0\0\0\x02\0\0\0\x02de\0";

pub const OLD_TWO: &[u8] = b"RDJ1\0\0\0\x01\x01\0\0\0\x03abc\x01\0\0\0\x02de\0";

/// A file, how long it may be in each form, and what is read of it.
static FILES: [(&[u8], FormLimits, Found); 21] = [
    // Each form has its limit.
    (
        OLD_TWO,
        FormLimits { old: 24, new: 0 },
        Ok((Form::Old, &[b"abc", b"de"])),
    ),
    (
        TWO,
        FormLimits { old: 0, new: 32 },
        Ok((Form::New, &[b"abc", b"de"])),
    ),
    (
        OLD_TWO,
        FormLimits { old: 23, new: 1000 },
        Err(JournalFault::OverLimit {
            length: 24,
            limit: 23,
        }),
    ),
    (
        TWO,
        FormLimits { old: 1000, new: 31 },
        Err(JournalFault::OverLimit {
            length: 32,
            limit: 31,
        }),
    ),
    (b"RDJ1\0\0\0\x01\x07", WIDE, Ok((Form::Old, &[]))),
    (b"RDJ2\0\0\0\x01\x07", WIDE, Ok((Form::New, &[]))),
    (
        b"RDJ1\0\0\0\x02\0",
        WIDE,
        Err(JournalFault::WrongNumber { found: 2 }),
    ),
    (
        b"RDJ2\0\0\0\x02\0",
        WIDE,
        Err(JournalFault::WrongNumber { found: 2 }),
    ),
    // A file of neither form, or without a gate.
    (b"", WIDE, Err(JournalFault::Damaged { at: 0 })),
    (b"RDJ1\0\0\0", WIDE, Err(JournalFault::Damaged { at: 0 })),
    (
        b"RDJ3\0\0\0\x01\0",
        WIDE,
        Err(JournalFault::Damaged { at: 0 }),
    ),
    (
        b"RDJ1\0\0\0\x01",
        WIDE,
        Err(JournalFault::Damaged { at: 8 }),
    ),
    (
        b"RDJ2\0\0\0\x01",
        WIDE,
        Err(JournalFault::Damaged { at: 8 }),
    ),
    // In the form before: a length that breaks off, a payload that does, and no gate behind it.
    (
        b"RDJ1\0\0\0\x01\x01\0\0\0",
        WIDE,
        Err(JournalFault::Damaged { at: 9 }),
    ),
    (
        b"RDJ1\0\0\0\x01\x01\0\0\0\x02a",
        WIDE,
        Err(JournalFault::Damaged { at: 13 }),
    ),
    (
        b"RDJ1\0\0\0\x01\x01\0\0\0\x02ab",
        WIDE,
        Err(JournalFault::Damaged { at: 15 }),
    ),
    // In this one: a wrong running number comes first.
    (
        b"RDJ2\0\0\0\x01\x01\0\0\0\x02\0\0\0\x02ab\0",
        WIDE,
        Err(JournalFault::Damaged { at: 9 }),
    ),
    (
        b"RDJ2\0\0\0\x01\x01\0\0\0",
        WIDE,
        Err(JournalFault::Damaged { at: 9 }),
    ),
    (
        b"RDJ2\0\0\0\x01\x01\0\0\0\x01\0\0\0",
        WIDE,
        Err(JournalFault::Damaged { at: 13 }),
    ),
    (
        b"RDJ2\0\0\0\x01\x01\0\0\0\x01\0\0\0\x02a",
        WIDE,
        Err(JournalFault::Damaged { at: 17 }),
    ),
    (
        b"RDJ2\0\0\0\x01\x01\0\0\0\x01\0\0\0\x02ab",
        WIDE,
        Err(JournalFault::Damaged { at: 19 }),
    ),
];

/// How many calls the reading of a file makes: a sync, the length, the header and the gate, and for
/// each payload two in the form before and three in this one.
static CALLS: [(&[u8], usize, Form); 2] = [(OLD_TWO, 8, Form::Old), (TWO, 10, Form::New)];

fn read(
    alloc: Global,
    disk: MemDisk,
    limits: FormLimits,
) -> (Result<Form, JournalFault>, Payloads) {
    let mut disk = disk;
    let mut payloads = Payloads::new(alloc);
    let found = read_either(alloc, &mut disk, 1, limits, &mut payloads);
    drop(disk);
    (found, payloads)
}

fn are(payloads: &Payloads, texts: &[&[u8]]) -> bool {
    payloads.len() == texts.len()
        && payloads
            .as_slice()
            .iter()
            .zip(texts)
            .all(|(payload, text)| payload.as_slice() == *text)
}

/// This is read of a disk.
pub fn reads(
    rt: &impl Abort,
    alloc: Global,
    at: Place,
    disk: MemDisk,
    limits: FormLimits,
    wanted: &Found,
) {
    let (found, payloads) = read(alloc, disk, limits);
    let same = match (&found, wanted) {
        (Ok(form), Ok((other, texts))) => form == other && are(&payloads, texts),
        (Err(fault), Err(other)) => fault == other,
        _ => false,
    };
    drop(payloads);
    is(rt, at, &same, &true);
}

#[test]
fn a_file_is_read_in_its_form(rt: HostRuntime) -> Result<(), Fail> {
    let alloc = rt.alloc();
    let shows = "a file in either form";
    for (step, (file, limits, wanted)) in FILES.iter().enumerate() {
        let disk = disk_of(alloc, file, &[])?;
        reads(&rt, alloc, Place { shows, step }, disk, *limits, wanted);
    }
    let shows = "each call of a reading may fail";
    for (file, calls, form) in &CALLS {
        for step in 0..*calls {
            let disk = disk_of(alloc, file, &[step as u64])?;
            let failed = Err(JournalFault::Failed);
            reads(&rt, alloc, Place { shows, step }, disk, WIDE, &failed);
        }
        let disk = disk_of(alloc, file, &[*calls as u64])?;
        let at = Place {
            shows,
            step: *calls,
        };
        reads(&rt, alloc, at, disk, WIDE, &Ok((*form, &[b"abc", b"de"])));
    }
    Ok(())
}
