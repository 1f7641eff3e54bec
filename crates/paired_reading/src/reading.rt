//! Reads the payloads of the current file, one by one.
ghost use Rattle.std.specs.Prelude.{◌≡◌, ℕ, ◌+◌, ◌^◌, ◌<◌, ◌≤◌, ◌↔◌, List, [], ◌∷◌, length, Some, None};
ghost use Rattle.std.specs.Prelude.{true, false, IsTrue, IfOk, IfErr, OnOk};
ghost use Rattle.log_base.specs.declared.limits.TheConstants.{LOG_BYTES};
ghost use Rattle.chain_core.specs.Breaks.{BreaksAt};
ghost use Rattle.zone_files.specs.Generation.{IsMarked};
ghost use Rattle.paired_reading.specs.Payloads.{AreNew};
ghost use Rattle.paired_reading.specs.Unread.{IsUnread};

use crate::fault::PayloadsFault;
use crate::ids::take_ids;
use crate::limit::CHECKPOINT_FILE_LIMIT;
use checkpoint_line::behind_mark;
use checkpoint_reading::{Checkpoint, CheckpointFault, read_checkpoint};
use delta_base::{Bytes, OutOfMemory};
use log_base::{EMPTY_JOURNAL, PAYLOAD_FRAME};
use log_journal::Receiver;
use patch_log::NextFault;
use std::alloc::Global;
use zone_state::{Kept, Reading};

/// What was found of a zone.
#[derive(Drop)]
pub struct FoundZone {
    /// That of the checkpoint, if there is one.
    pub generation: Option<u64>,
    pub kept: Kept,
}

/// What is kept of the payloads that were read. A checkpoint may stand first.
#[derive(Drop)]
pub struct PairReading {
    alloc: Global,
    reading: Reading,
    /// That of the checkpoint, if there is one.
    generation: Option<u64>,
    /// No payload was received.
    begins: bool,
    /// The first payload begins as a checkpoint, and is none.
    no_checkpoint: bool,
    ghost fresh: { begins ≡ true → IsUnread reading generation no_checkpoint },
}

// Whether a payload begins as a checkpoint.
fn is_marked(payload: &[u8]) -> bool
    ensures { IsTrue result ↔ IsMarked payload.now }
{
    behind_mark(payload).is_some()
}

impl PairReading {
    ghost use Rattle.paired_reading.specs.Fault.{HasPayloadsFault};
    ghost use Rattle.paired_reading.specs.Received.{HasReceivedPair, HasReadPair, GoesOnWith, HoldsZone};

    /// Of no payloads. There may be so many patches.
    pub fn new(alloc: Global, most: u32) -> PairReading
        ensures received { HasReceivedPair result [] result }
        ensures most { result.reading.most ≡ most }
        ensures countable { most < 2 ^ 32 }
    {
        PairReading {
            alloc,
            reading: Reading::new(alloc, most),
            generation: None,
            begins: true,
            no_checkpoint: false,
        }
    }

    // Begins with what a checkpoint has. Behind an id that another has nothing more is kept.
    fn take_over(&mut self, checkpoint: Checkpoint) -> Result<(), OutOfMemory>
        requires begun { self.old.begins ≡ false }
        requires none { self.old.reading.kept.ids.items ≡ [] }
        requires unstaged { checkpoint.contents.staged ≡ None }
        ensures whole { OnOk result (self.new.reading.broken ≡ false
            → (self.new.reading.kept.ids.items ≡ checkpoint.ids.items)
            × AreNew self.old.reading.most checkpoint.ids.items) }
        ensures breaks { OnOk result (self.new.reading.broken ≡ true
            → BreaksAt (AreNew self.old.reading.most) checkpoint.ids.items
            (length self.new.reading.kept.ids.items + 1)) }
        ensures bytes { self.new.reading.kept.bytes ≡ checkpoint.bytes }
        ensures contents { self.new.reading.kept.contents ≡ checkpoint.contents }
        ensures most { self.new.reading.most ≡ self.old.reading.most }
        ensures full { self.new.reading.full ≡ self.old.reading.full }
        ensures generation { self.new.generation ≡ Some checkpoint.generation }
        ensures begins { self.new.begins ≡ self.old.begins }
        ensures checkpoint { self.new.no_checkpoint ≡ self.old.no_checkpoint }
    {
        let Checkpoint {
            generation,
            ids,
            bytes,
            contents,
        } = checkpoint;
        self.generation = Some(generation);
        self.reading.kept.bytes = bytes;
        self.reading.kept.contents = contents;
        let most = self.reading.most;
        let taken = take_ids(&mut self.reading.kept.ids, ids.as_slice(), most);
        drop(ids);
        match taken {
            Ok(whole) => {
                self.reading.broken = !whole;
                Ok(())
            }
            Err(_) => Err(OutOfMemory),
        }
    }

    // Begins with a payload that begins as a checkpoint.
    fn begin(&mut self, payload: &Bytes) -> Result<(), OutOfMemory>
        requires marked { IsMarked payload.now }
        requires begun { self.old.begins ≡ false }
        requires may { self.old.no_checkpoint ≡ false }
        requires whole { self.old.reading.broken ≡ false }
        requires none { self.old.reading.kept.ids.items ≡ [] }
        requires room { self.old.reading.full ≡ false }
        ensures ok { OnOk result ((first : PairReading)
            → self.old.reading.most ≡ first.reading.most
            → HasReceivedPair first (payload.now ∷ []) self.new) }
    {
        let length = EMPTY_JOURNAL + PAYLOAD_FRAME + payload.as_slice().len() as u64;
        if length > CHECKPOINT_FILE_LIMIT {
            self.no_checkpoint = true;
            return Ok(());
        }
        match read_checkpoint(self.alloc, payload.as_slice()) {
            Ok(checkpoint) => self.take_over(checkpoint),
            Err(CheckpointFault::Broken) => {
                self.no_checkpoint = true;
                Ok(())
            }
            Err(CheckpointFault::OutOfMemory) => Err(OutOfMemory),
        }
    }

    // Goes on with a payload behind those that were read.
    fn go_on(&mut self, payload: &Bytes) -> Result<(), OutOfMemory>
        requires begun { self.old.begins ≡ false }
        ensures ok { OnOk result (GoesOnWith self.old self.new payload.now) }
    {
        if self.reading.broken {
            return Ok(());
        }
        match self.reading.add_next(payload) {
            Ok(()) => Ok(()),
            Err(NextFault::Broken) => {
                self.reading.broken = true;
                Ok(())
            }
            Err(NextFault::OutOfMemory) => Err(OutOfMemory),
        }
    }

    // Begins with the first payload.
    fn receive_first(&mut self, payload: &Bytes) -> Result<(), OutOfMemory>
        requires begun { self.old.begins ≡ false }
        requires fresh { IsUnread self.old.reading self.old.generation self.old.no_checkpoint }
        ensures ok { OnOk result ((first : PairReading)
            → self.old.reading.most ≡ first.reading.most
            → HasReadPair [] first.reading.most self.old.generation self.old.reading
            → HasReceivedPair first (payload.now ∷ []) self.new) }
    {
        if is_marked(payload.as_slice()) {
            self.begin(payload)
        } else {
            self.go_on(payload)
        }
    }

    /// What is kept of the payloads, if they are those of a zone within the limit of bytes.
    pub fn finish(self, limit: u64) -> Result<FoundZone, PayloadsFault>
        requires small { limit ≤ LOG_BYTES }
        ensures ok { (first : PairReading) (payloads : List (List ℕ))
            → HasReceivedPair first payloads self
            → IfOk result (HoldsZone payloads first.reading.most limit) }
        ensures unstaged { IfOk result (λ found. found.kept.contents.staged ≡ None) }
        ensures fault { (first : PairReading) (payloads : List (List ℕ))
            → HasReceivedPair first payloads self
            → IfErr result (HasPayloadsFault payloads first.reading.most limit) }
    {
        let PairReading {
            reading,
            generation,
            no_checkpoint,
            ..
        } = self;
        let Reading {
            kept,
            full,
            broken,
            ..
        } = reading;
        if no_checkpoint {
            drop(kept);
            return Err(PayloadsFault::BrokenCheckpoint);
        }
        if broken {
            let version = u64::from(kept.ids.len()) + 1;
            drop(kept);
            return Err(PayloadsFault::BrokenChain { version });
        }
        let length = kept.journal_length();
        if length > limit {
            drop(kept);
            return Err(PayloadsFault::OverLimit { length, limit });
        }
        if full {
            drop(kept);
            return Err(PayloadsFault::TermsFull);
        }
        Ok(FoundZone { generation, kept })
    }
}

impl Receiver for PairReading {
    ghost use Rattle.paired_reading.specs.Received.{HasReceivedPair};

    ghost received = { λ first payloads reading. HasReceivedPair first payloads reading };

    fn receive(&mut self, payload: Bytes) -> Result<(), OutOfMemory> {
        if self.no_checkpoint {
            return Ok(());
        }
        if self.begins {
            self.begins = false;
            self.receive_first(&payload)
        } else {
            self.go_on(&payload)
        }
    }
}
