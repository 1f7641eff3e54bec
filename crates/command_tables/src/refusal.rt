//! How a command ends without its result, and the line that tells it.
ghost use Rattle.std.specs.Prelude.{◌≡◌};
ghost use Rattle.command_tables.specs.Lines.{exit_status};
ghost use Rattle.command_tables.specs.Refusals.{ReportsRefusal};
ghost use Rattle.command_tables.specs.Views.{output_view};

use crate::lines::{fixed_line, made_line};
use crate::name::Name;
use chain_core::ChainFault;
use delta_base::{Bytes, OutOfMemory, Sink};
use nquads_text::TextKind;
use paired_zone::PairFault;
use patch_meaning::{PatchFault, PatchKind};
use sink_writing::write_all;
use slot_checks::CheckFault;
use slot_files::InitFault;
use std::alloc::Global;

/// How a command ends without its result.
#[derive(Debug, Drop)]
pub enum Refusal {
    /// The first word names no command, or there is none.
    UnknownCommand,
    /// The words behind the command's name aren't those that it takes.
    Usage(Name),
    /// The input is no stream of patches: the line, the place and the kind of its first fault.
    Stream {
        line: u64,
        at: u64,
        kind: PatchKind,
    },
    /// The input is no stream of patches: its first fault is that a patch is too long.
    LongPatch {
        length: u64,
        limit: u64,
    },
    /// The input is no document: the line, the place and the kind of its first fault.
    Document {
        line: usize,
        at: usize,
        kind: TextKind,
    },
    /// The input is a stream of patches, and they are no run.
    BadRun,
    /// The input has more bytes than it may have.
    TooLong {
        limit: u64,
    },
    /// The input is a stream of fewer patches than this version.
    FewPatches {
        version: u32,
    },
    /// The patch that was to be made has more bytes than a patch may have.
    NetTooLong {
        length: u64,
        limit: u64,
    },
    InputFailed,
    OutputFailed,
    /// A file that was to be made has bytes.
    NotEmpty {
        file: u32,
        length: u64,
    },
    /// There are not numbers enough for the terms of a zone.
    ZoneTermsFull,
    /// A zone takes no patch more: what it has of what is limited, and the limit.
    ZoneFull {
        have: u64,
        limit: u64,
    },
    /// The checkpoint of a zone that was to be written has more bytes than it may have with its file.
    CheckpointTooLarge {
        length: u64,
        limit: u64,
    },
    /// A file isn't in its form.
    File(CheckFault),
    /// A file of a zone begins as a checkpoint, and is none or too long for one.
    BrokenCheckpoint {
        file: u32,
    },
    /// There are not as many files as the registry's file says.
    WrongCount {
        disks: u64,
        slots: u32,
    },
    DiskFailed,
    LinkFailed,
    /// The server's answer has another status than 200.
    Refused {
        status: u16,
        body: Bytes,
    },
    /// The server's bytes are no answer to the call.
    NotUnderstood {
        at: u64,
    },
    /// The server's bytes end before an answer does.
    CutShort,
    /// The text that the server has for this version is no patch.
    BadPatch {
        version: u32,
        fault: PatchFault,
    },
    /// The server's log is shorter than the zone.
    PeerBehind {
        mine: u32,
        theirs: u32,
    },
    /// The server's log has no patch of this version, which it told.
    NoPatch {
        version: u32,
    },
    /// The patches of the stream, or of a zone and the next one, are no chain.
    Chain(ChainFault),
    OutOfMemory,
}

impl Refusal {
    ghost use Rattle.std.specs.Prelude.{◌≡◌};
    ghost use Rattle.command_tables.specs.Refusals.{check_refusal, init_refusal};
    ghost use Rattle.command_tables.specs.Refusals.{pair_refusal};

    /// The end of a command that finds this fault of a file.
    pub fn of_check(fault: CheckFault) -> Refusal
        ensures { result ≡ check_refusal fault }
    {
        match fault {
            CheckFault::Failed => Refusal::DiskFailed,
            CheckFault::OutOfMemory => Refusal::OutOfMemory,
            fault => Refusal::File(fault),
        }
    }

    /// The end of a command that makes a file where this is why it couldn't.
    pub fn of_init(fault: InitFault) -> Refusal
        ensures { result ≡ init_refusal fault }
    {
        match fault {
            InitFault::NotEmpty { number, length } => Refusal::NotEmpty {
                file: number,
                length,
            },
            InitFault::Failed => Refusal::DiskFailed,
            InitFault::OutOfMemory => Refusal::OutOfMemory,
        }
    }

    /// The end of a command that finds this fault of the two files of a zone.
    pub fn of_pair(fault: PairFault) -> Refusal
        ensures { result ≡ pair_refusal fault }
    {
        match fault {
            PairFault::Failed { .. } => Refusal::DiskFailed,
            PairFault::OutOfMemory => Refusal::OutOfMemory,
            PairFault::TermsFull => Refusal::ZoneTermsFull,
            PairFault::BrokenCheckpoint { file } => Refusal::BrokenCheckpoint { file },
            PairFault::Damaged { file, at } => Refusal::File(CheckFault::Damaged { file, at }),
            PairFault::OldFormat { file } => Refusal::File(CheckFault::OldFormat { file }),
            PairFault::WrongNumber { file, found } => {
                Refusal::File(CheckFault::WrongNumber { file, found })
            }
            PairFault::OverLimit {
                file,
                length,
                limit,
            } => Refusal::File(CheckFault::OverLimit {
                file,
                length,
                limit,
            }),
            PairFault::BrokenChain { file, version } => {
                Refusal::File(CheckFault::BrokenChain { file, version })
            }
        }
    }
}

impl From<OutOfMemory> for Refusal {
    ghost use Rattle.std.specs.Prelude.{◌≡◌};
    ghost use Rattle.command_tables.specs.declared.refusal.Refusal.TheVariants as refusals;

    ghost from_gives = { λ _ e. e ≡ refusals.OutOfMemory };

    fn from(_error: OutOfMemory) -> Refusal {
        Refusal::OutOfMemory
    }
}

/// Writes the line of a refusal on `err`, and gives its status. Where a line is to be made and no
/// memory is found for it, that is told in its place, with status 8.
pub fn report<E: Sink>(alloc: Global, refusal: Refusal, err: &mut E) -> u8
    ensures { ReportsRefusal refusal
        (output_view E.Sink err.old) (output_view E.Sink err.new) result }
{
    let status = status_of(&refusal);
    if let Some(line) = fixed_line(&refusal) {
        drop(refusal);
        let _ = write_all(err, line);
        return status;
    }
    let line = made_line(alloc, &refusal);
    drop(refusal);
    match line {
        Ok(line) => {
            let _ = write_all(err, line.as_slice());
            status
        }
        Err(_) => {
            let _ = write_all(err, b"rdfdelta: out of memory\n");
            8
        }
    }
}

fn status_of(refusal: &Refusal) -> u8
    ensures { result ≡ exit_status refusal.now }
{
    match refusal {
        Refusal::NotEmpty { .. } | Refusal::ZoneTermsFull | Refusal::ZoneFull { .. } => 1,
        Refusal::NetTooLong { .. } | Refusal::CheckpointTooLarge { .. } => 1,
        Refusal::Refused { .. } => 1,
        Refusal::UnknownCommand | Refusal::Usage(_) => 2,
        Refusal::Stream { .. }
        | Refusal::LongPatch { .. }
        | Refusal::Document { .. }
        | Refusal::BadRun
        | Refusal::FewPatches { .. }
        | Refusal::TooLong { .. } => 3,
        Refusal::InputFailed | Refusal::OutputFailed => 4,
        Refusal::DiskFailed => 5,
        Refusal::LinkFailed => 6,
        Refusal::NotUnderstood { .. } | Refusal::CutShort | Refusal::BadPatch { .. } => 7,
        Refusal::OutOfMemory => 8,
        Refusal::File(_) | Refusal::BrokenCheckpoint { .. } | Refusal::WrongCount { .. } => 9,
        Refusal::Chain(_) | Refusal::PeerBehind { .. } | Refusal::NoPatch { .. } => 10,
    }
}
