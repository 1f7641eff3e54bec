//! What is wrong with the files of a hall.
use case_scripts::Answer;
use delta_session::{HallFault, HallRefusal};
use disk_model::MemDisk;
use std::fmt::Write;

// Whether the disks came back with the bytes that they had.
fn are_back(disks: &[MemDisk], files: &[Vec<u8>]) -> bool {
    disks.len() == files.len()
        && disks
            .iter()
            .zip(files)
            .all(|(disk, bytes)| has(disk, bytes))
}

fn has(disk: &MemDisk, bytes: &[u8]) -> bool {
    match disk.image(1) {
        Ok(image) => image.as_slice() == bytes,
        Err(_) => false,
    }
}

// Writes words and a number.
fn tell(words: &[u8], number: u64, answer: &mut Answer) {
    answer.push(words);
    let _ = write!(answer, "{number}");
}

// Writes what is wrong with files.
fn tell_fault(fault: HallFault, answer: &mut Answer) {
    match fault {
        HallFault::DiskFault => answer.push(b"disk fault"),
        HallFault::Damaged { file, at } => {
            tell(b"file ", u64::from(file), answer);
            tell(b": damaged at ", at, answer);
        }
        HallFault::OldFormat { file } => {
            tell(b"file ", u64::from(file), answer);
            answer.push(b": old format");
        }
        HallFault::WrongNumber { file, found } => {
            tell(b"file ", u64::from(file), answer);
            tell(b": wrong number ", u64::from(found), answer);
        }
        HallFault::OverLimit {
            file,
            length,
            limit,
        } => {
            tell(b"file ", u64::from(file), answer);
            tell(b": length ", length, answer);
            tell(b" over ", limit, answer);
        }
        HallFault::BrokenChain { file, version } => {
            tell(b"file ", u64::from(file), answer);
            tell(b": broken chain at version ", version, answer);
        }
        HallFault::BrokenEvent { place } => tell(b"broken event ", place, answer),
        HallFault::WrongCount { disks, slots } => {
            tell(b"", disks, answer);
            tell(b" files for ", u64::from(slots), answer);
            answer.push(b" slots");
        }
        HallFault::OutOfMemory => answer.push(b"out of memory"),
    }
}

/// Writes why no hall was opened over these files.
pub(crate) fn tell_refusal(refusal: &HallRefusal<MemDisk>, files: &[Vec<u8>], answer: &mut Answer) {
    if !are_back(&refusal.disks, files) {
        answer.push(b"other files than before, ");
    }
    tell_fault(refusal.fault, answer);
}
