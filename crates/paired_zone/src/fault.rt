//! Why a zone on two files can't be opened.
ghost use Rattle.std.specs.Prelude.{◌≡◌};
ghost use Rattle.paired_zone.specs.Fault.{at_front, of_finding, of_journal, of_payloads};

use disk_model::Disk;
use log_journal::{FrontFault, JournalFault};
use paired_reading::PayloadsFault;
use zone_beside::{Beside, FindFault, file_number};

/// A fault names the number of the file that has it.
#[derive(Clone, Copy, Debug, PartialEq, Eq)]
pub enum PairFault {
    Failed { file: u32 },
    Damaged { file: u32, at: u64 },
    /// The file is of the form before this one.
    OldFormat { file: u32 },
    WrongNumber { file: u32, found: u32 },
    OverLimit { file: u32, length: u64, limit: u64 },
    /// The first payload begins as a checkpoint, and is none or too long for one.
    BrokenCheckpoint { file: u32 },
    /// So many first patches are no chain, or more than there may be, and fewer are one. Those of
    /// the checkpoint count.
    BrokenChain { file: u32, version: u64 },
    /// There are not numbers enough for the terms.
    TermsFull,
    OutOfMemory,
}

/// A zone on two files that couldn't be opened, with its disks.
#[derive(Drop)]
pub struct PairRefusal<D: Disk> {
    pub first: D,
    pub second: D,
    pub fault: PairFault,
}

impl PairFault {
    /// A fault of what stands at the front of a file.
    fn at_front(file: u32, fault: FrontFault) -> PairFault
        ensures { result ≡ at_front file fault }
    {
        match fault {
            FrontFault::Failed => PairFault::Failed { file },
            FrontFault::Damaged { at } => PairFault::Damaged { file, at },
            FrontFault::OldFormat => PairFault::OldFormat { file },
            FrontFault::WrongNumber { found } => PairFault::WrongNumber { file, found },
            FrontFault::OutOfMemory => PairFault::OutOfMemory,
        }
    }

    /// Why none of the two files is current.
    pub fn of_finding(fault: FindFault) -> PairFault
        ensures { result ≡ of_finding fault }
    {
        match fault {
            FindFault::AtFront { second, fault } => {
                PairFault::at_front(file_number(second), fault)
            }
            FindFault::BrokenCheckpoint { second } => PairFault::BrokenCheckpoint {
                file: file_number(second),
            },
        }
    }

    /// A fault of the current file's journal.
    pub fn of_journal(file: u32, fault: JournalFault) -> PairFault
        ensures { result ≡ of_journal file fault }
    {
        match fault {
            JournalFault::Failed => PairFault::Failed { file },
            JournalFault::Damaged { at } => PairFault::Damaged { file, at },
            JournalFault::OldFormat => PairFault::OldFormat { file },
            JournalFault::WrongNumber { found } => PairFault::WrongNumber { file, found },
            JournalFault::OverLimit { length, limit } => PairFault::OverLimit {
                file,
                length,
                limit,
            },
            JournalFault::OutOfMemory => PairFault::OutOfMemory,
        }
    }

    /// A fault of the current file's payloads.
    pub fn of_payloads(file: u32, fault: PayloadsFault) -> PairFault
        ensures { result ≡ of_payloads file fault }
    {
        match fault {
            PayloadsFault::BrokenCheckpoint => PairFault::BrokenCheckpoint { file },
            PayloadsFault::BrokenChain { version } => PairFault::BrokenChain { file, version },
            PayloadsFault::OverLimit { length, limit } => PairFault::OverLimit {
                file,
                length,
                limit,
            },
            PayloadsFault::TermsFull => PairFault::TermsFull,
        }
    }
}

/// The current file and the one beside it, which are no zone.
#[derive(Drop)]
pub struct CurrentRefusal<D: Disk> {
    pub current: D,
    pub beside: Beside<D>,
    pub fault: PairFault,
}
