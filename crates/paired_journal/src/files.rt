//! The two files together: the journal of the current one, and the file beside it.
ghost use Rattle.std.specs.Prelude.{◌≡◌, ℕ, ◌+◌, ◌-◌, ◌^◌, ◌<◌, ◌≤◌, min, List, Option, Some};
ghost use Rattle.std.specs.Prelude.{length, IsSome, if◌then◌else◌};
ghost use Rattle.log_base.specs.declared.limits.TheConstants.{EMPTY_JOURNAL, PAYLOAD_FRAME};
ghost use Rattle.log_base.specs.declared.limits.TheConstants.{ZONE_FILE_LIMIT};
ghost use Rattle.log_journal.specs.Payload.{payload_of};
ghost use Rattle.log_journal.specs.StandsFor.{length_of, limit_of, count_of, disk_of};
ghost use Rattle.log_journal.specs.Writing.{failing};

use crate::appending::append;
use crate::renewing::renew;
use disk_model::Disk;
use log_base::Phase;
use log_journal::{Block, Journal};
use std::mem::replace;
use zone_beside::{Beside, OnePayload, WriteFault};

#[derive(Drop)]
pub struct Files<D: Disk> {
    pub current: Journal<D>,
    // It is there but while the files are written to.
    beside: Option<Beside<D>>,
    ghost there: { IsSome beside },
}

impl<D: Disk> Files<D> {
    ghost use Rattle.paired_journal.specs.Files.{generation_of, disk_beside, first_disk, second_disk};
    ghost use Rattle.paired_journal.specs.Files.{OtherStands, HasAppended, HasRenewed};

    pub fn new(current: Journal<D>, beside: Beside<D>) -> Files<D>
        ensures current { result.current ≡ current }
        ensures beside { result.beside ≡ Some beside }
    {
        Files {
            current,
            beside: Some(beside),
        }
    }

    /// In which generation the current file is.
    pub fn generation(&self) -> u64
        ensures { result ≡ generation_of self.now.beside }
    {
        match &self.beside {
            Some(beside) => beside.generation,
            None => unreachable!(),
        }
    }

    /// How often the disks have failed; the count stops at the last number of 64 bits.
    pub fn faults(&self) -> u64
        ensures { result
            ≡ min (D.faults (disk_of self.now.current) + D.faults (disk_beside self.now)) (2 ^ 64 - 1) }
    {
        match &self.beside {
            Some(beside) => self.current.faults().saturating_add(beside.disk.faults()),
            None => unreachable!(),
        }
    }

    /// Settles both files, and appends to the current one. Says which phase failed.
    pub fn append(&mut self, block: &Block) -> Result<(), Phase>
        requires room { (length_of self.old.current) + PAYLOAD_FRAME
            + length (payload_of block.now) ≤ (limit_of self.old.current) }
        requires few { (count_of self.old.current) < 2 ^ 32 - 1 }
        requires beside { (doubt : Option (List ℕ))
            × OtherStands (disk_of self.old.current) self.old.beside doubt }
        ensures { HasAppended self.old.current self.new.current self.old.beside self.new.beside
            (payload_of block.now) (failing result) }
    {
        let Some(beside) = self.beside.take() else {
            unreachable!()
        };
        let (beside, written) = append(&mut self.current, beside, block);
        match replace(&mut self.beside, Some(beside)) {
            None => written,
            Some(_) => unreachable!(),
        }
    }

    /// Settles both files, empties the other one and writes a payload there, which is current then.
    pub fn renew(&mut self, payload: &OnePayload) -> Result<(), WriteFault>
        requires room { EMPTY_JOURNAL + PAYLOAD_FRAME + length payload.now ≤ ZONE_FILE_LIMIT }
        requires next { (generation_of self.old.beside) < 2 ^ 64 - 1 }
        requires beside { (doubt : Option (List ℕ))
            × OtherStands (disk_of self.old.current) self.old.beside doubt }
        ensures { HasRenewed self.old.current self.new.current self.old.beside self.new.beside
            payload.now result }
    {
        let Some(beside) = self.beside.take() else {
            unreachable!()
        };
        let (beside, written) = renew(&mut self.current, beside, payload);
        match replace(&mut self.beside, Some(beside)) {
            None => written,
            Some(_) => unreachable!(),
        }
    }

    /// The disk of the first file and that of the second.
    pub fn close(self) -> (D, D)
        ensures first { result.0 ≡ first_disk self }
        ensures second { result.1 ≡ second_disk self }
    {
        let Files { current, beside } = self;
        match beside {
            Some(beside) => in_order(beside, current.close()),
            None => unreachable!(),
        }
    }
}

/// The disks of the first file and the second.
pub fn in_order<D: Disk>(beside: Beside<D>, current: D) -> (D, D)
    ensures { result ≡ (if beside.on_second then (beside.disk, current)
        else (current, beside.disk)) }
{
    let Beside {
        on_second,
        disk,
        ..
    } = beside;
    if on_second {
        (disk, current)
    } else {
        (current, disk)
    }
}
