//! A zone on two files, and what it keeps of the patches that it took.
ghost use Rattle.std.specs.Prelude.{◌≡◌, ◌↔◌, ℕ, ◌+◌, ◌-◌, ◌^◌, ◌<◌, ◌≤◌, min, Some, None};
ghost use Rattle.std.specs.Prelude.{is_none, true, false, length, map, IsTrue, IfOk, IfErr, if◌then◌else◌};
ghost use Rattle.std.specs.List.{filter};
ghost use Rattle.std.specs.List.Sorted.{IsPermutation, IsSorted};
ghost use Rattle.log_base.specs.declared.limits.TheConstants.{LOG_BYTES};
ghost use Rattle.disk_model.specs.Past.{reads};
ghost use Rattle.log_journal.specs.StandsFor.{is_settled};
ghost use Rattle.rdf_terms.specs.Line.{line};
ghost use Rattle.dataset_tx.specs.Pattern.{matches};
ghost use Rattle.dataset_tx.specs.Prefixes.{prefix_change};
ghost use Rattle.dataset_tx.specs.Rows.{change_cmp, rows_in_order};
ghost use Rattle.chain_core.specs.Ids.{last_of};
ghost use Rattle.zone_files.specs.Generation.{number_of, IsInGeneration};
ghost use Rattle.zone_beside.specs.Finding.{IsCurrent};
ghost use Rattle.zone_beside.specs.StandsBehind.{StandsBehind};
ghost use Rattle.zone_pairs.specs.Pair.{PairPoint, ZoneHolds};
ghost use Rattle.paired_zone.specs.Fault.{HasPairFault};
ghost use Rattle.paired_zone.specs.Opening.{FailsAtOne, IsInFile, IsOpened, RefusedDisk};
ghost use Rattle.paired_zone.specs.Opening.{OpensCurrent, RefusesCurrent};
ghost use Rattle.paired_zone.specs.Takes.{TakesPatch};
ghost use Rattle.paired_zone.specs.Checkpointing.{MakesCheckpoint, doubt_by, end_by};
ghost use Rattle.paired_zone.specs.Zone.{StandsAt, first_in, second_in};

use crate::answer::CheckEnd;
use crate::fault::{CurrentRefusal, PairFault, PairRefusal};
use crate::making::{MakeFault, make_checkpoint};
use dataset_tx::{DataFault, Pattern};
use delta_base::{Id, OutOfMemory};
use disk_model::Disk;
use line_log::MadeLines;
use log_base::{LogLimits, ZONE_FILE_LIMIT};
use log_journal::{Journal, OpenRefusal};
use paired_journal::{Files, in_order};
use paired_reading::{CHECKPOINT_FILE_LIMIT, FoundZone, PairReading};
use patch_meaning::Checked;
use quad_index::Steps;
use rdf_terms::{Changes, Quads};
use std::alloc::Global;
use std::marker::Model;
use std::sync::ledger::Ledger;
use zone_beside::{Beside, FindRefusal, Found, WriteFault, file_number, find_current};
use zone_state::{Doubtful, Kept, TakeAnswer};

/// Patches taken in order. Those that a checkpoint has stand in it alone, and the texts of the later
/// ones behind it.
#[derive(Drop)]
pub struct PairedZone<D: Disk> {
    alloc: Global,
    kept: Kept,
    files: Files<D>,
    limits: LogLimits,
    doubt: Doubtful,
}

impl<D: Disk> Model for PairedZone<D> {
    ghost use Rattle.paired_zone.specs.Zone.{PairedView};
    ghost use Rattle.paired_zone.specs.State.{view_of, IsPairKept};

    ghost Value = { PairedView D };

    ghost view = { λ z. view_of z.files z.kept z.limits z.doubt.patch };

    ghost invariant = { λ z. IsPairKept z.files z.kept z.limits z.doubt.patch };
}

// Whether the current file is in the generation that its front showed.
fn is_beside<D: Disk>(beside: &Beside<D>, generation: Option<u64>) -> bool
    ensures { IsTrue result ↔ IsInFile generation beside.now.on_second beside.now.generation }
{
    match generation {
        Some(generation) => generation == beside.generation,
        None => !beside.on_second && beside.generation == 0,
    }
}

// No patch is in doubt once the journal is settled.
fn settle_where<D: Disk>(doubt: &mut Doubtful, files: &Files<D>)
    ensures { doubt.new.patch ≡ doubt_by (is_settled files.now.current) doubt.old.patch }
{
    if files.current.is_settled() {
        doubt.settle();
    }
}

// What is answered where a checkpoint was written, or wasn't.
fn end_of(written: Result<(), WriteFault>, version: u32) -> CheckEnd
    ensures { result ≡ end_by written version }
{
    match written {
        Ok(()) => CheckEnd::Done { version },
        Err(WriteFault::Failed) => CheckEnd::DiskFault,
        Err(WriteFault::OutOfMemory) => CheckEnd::OutOfMemory,
    }
}

impl<D: Disk> PairedZone<D> {
    /// Opens the two files of a zone, which a crash may have left. A refusal hands the disks back.
    pub fn open_pair(
        alloc: Global,
        first: D,
        second: D,
        limits: LogLimits,
    ) -> Result<PairedZone<D>, PairRefusal<D>>
        requires small { limits.bytes ≤ LOG_BYTES }

        // It is of the payloads of the current file, and no patch is in doubt.
        ensures opened { IfOk result (λ zone. IsOpened D.Disk (if zone.second then second else first)
            (if zone.second then first else second) zone) }

        // It is the zone that the two files hold together.
        ensures held { D.tells → IfOk result (λ zone.
            ZoneHolds (reads (D.past first)) (reads (D.past second)) zone.brief) }
        ensures current { D.tells → IfOk result (λ zone. IsCurrent
            (reads (D.past first)) (reads (D.past second)) zone.second zone.generation) }
        ensures limits { IfOk result (λ zone. zone.limits ≡ limits) }
        ensures fault { D.tells → IfErr result (λ refusal.
            HasPairFault (reads (D.past first)) (reads (D.past second)) limits refusal.fault) }

        // What becomes of the disks that are handed back.
        ensures failed { IfErr result (λ refusal. FailsAtOne refusal.fault) }
        ensures first_refused { IfErr result (λ refusal. RefusedDisk D.Disk
            (refusal.fault ≡ PairFault.Failed (number_of false)) first refusal.first) }
        ensures second_refused { IfErr result (λ refusal. RefusedDisk D.Disk
            (refusal.fault ≡ PairFault.Failed (number_of true)) second refusal.second) }
    {
        match find_current(alloc, first, second) {
            Ok(Found { current, beside }) => {
                match PairedZone::open_current(alloc, current, beside, limits) {
                    Ok(zone) => Ok(zone),
                    Err(
                        CurrentRefusal {
                            current,
                            beside,
                            fault,
                        },
                    ) => {
                        let (first, second) = in_order(beside, current);
                        Err(PairRefusal {
                            first,
                            second,
                            fault,
                        })
                    }
                }
            }
            Err(
                FindRefusal {
                    first,
                    second,
                    fault,
                },
            ) => Err(PairRefusal {
                first,
                second,
                fault: PairFault::of_finding(fault),
            }),
        }
    }

    // Opens the current file, beside which the other one stands.
    fn open_current(
        alloc: Global,
        current: D,
        beside: Beside<D>,
        limits: LogLimits,
    ) -> Result<PairedZone<D>, CurrentRefusal<D>>
        requires small { limits.bytes ≤ LOG_BYTES }
        requires behind { StandsBehind beside None }
        requires in_generation { D.tells → IsInGeneration (reads (D.past current))
            beside.on_second (Some beside.generation) }
        ensures opened { IfOk result (OpensCurrent D.Disk current beside.on_second
            beside.generation beside.disk limits) }
        ensures beside { IfErr result (λ refusal. refusal.beside ≡ beside) }
        ensures refused { IfErr result (λ refusal. RefusesCurrent D.Disk current
            beside.on_second limits refusal.fault refusal.current) }
    {
        let number = file_number(beside.on_second);
        let mut reading = PairReading::new(alloc, limits.patches);
        match Journal::open_with(alloc, current, number, ZONE_FILE_LIMIT, &mut reading) {
            Ok(journal) => match reading.finish(limits.bytes) {
                Ok(FoundZone { generation, kept }) if is_beside(&beside, generation) => {
                    Ok(PairedZone {
                        alloc,
                        kept,
                        files: Files::new(journal, beside),
                        limits,
                        doubt: Doubtful::none(),
                    })
                }
                // The file isn't what it was when its front was read.
                Ok(found) => {
                    drop(found);
                    Err(CurrentRefusal {
                        current: journal.close(),
                        beside,
                        fault: PairFault::BrokenCheckpoint { file: number },
                    })
                }
                Err(fault) => Err(CurrentRefusal {
                    current: journal.close(),
                    beside,
                    fault: PairFault::of_payloads(number, fault),
                }),
            },
            Err(OpenRefusal { disk, fault }) => {
                drop(reading);
                Err(CurrentRefusal {
                    current: disk,
                    beside,
                    fault: PairFault::of_journal(number, fault),
                })
            }
        }
    }

    /// How many patches it took.
    pub fn version(&self) -> u32
        ensures version { result ≡ length self.now.brief.ids }
        ensures stands { (point : PairPoint) × StandsAt D.Disk self.now point }
    {
        self.kept.ids.len()
    }

    /// The id of the last one.
    pub fn head(&self) -> Option<Id>
        ensures { result ≡ last_of self.now.brief.ids }
    {
        self.kept.ids.last()
    }

    /// No patch is in doubt.
    pub fn is_settled(&self) -> bool
        ensures { result ≡ is_none self.now.doubt }
    {
        self.files.current.is_settled()
    }

    /// How often its disks have failed; the count stops at the last number of 64 bits.
    pub fn faults(&self) -> u64
        ensures { result
            ≡ min (D.faults self.now.current + D.faults self.now.other) (2 ^ 64 - 1) }
    {
        self.files.faults()
    }

    /// The quads, in the order of their lines.
    pub fn dump(&self) -> Result<Quads, OutOfMemory>
        ensures { IfOk result (λ quads. quads.items ≡ self.now.brief.contents.quads) }
    {
        self.kept.contents.quads()
    }

    /// The lines of the quads, in the order of their bytes. No quad is copied.
    pub fn lines(&self) -> Result<MadeLines, OutOfMemory>
        ensures { IfOk result (λ lines. lines ≡ map line self.now.brief.contents.quads) }
    {
        self.kept.contents.lines()
    }

    /// The changes that set the prefixes, in the order of their rows.
    pub fn prefixes(&self) -> Result<Changes, OutOfMemory>
        ensures each { IfOk result (λ changes. IsPermutation
            (map prefix_change self.now.brief.contents.prefixes) changes.items) }
        ensures in_order { IfOk result (λ changes. IsSorted change_cmp changes.items) }
    {
        self.kept.contents.prefixes()
    }

    /// The rows of these changes, in the order of their bytes.
    pub fn prefix_rows(&self) -> Result<MadeLines, OutOfMemory>
        ensures { IfOk result (λ rows.
            rows ≡ rows_in_order (map prefix_change self.now.brief.contents.prefixes)) }
    {
        self.kept.contents.prefix_rows()
    }

    /// The quads that match, in the order of their lines. A step is a key looked at. All stays as
    /// it was, an `Err` or not.
    pub fn matching<L: Ledger>(
        &mut self,
        pattern: &Pattern,
        steps: &mut Steps<L>,
    ) -> Result<Quads, OutOfMemory>
        ensures found { IfOk result (λ quads.
            quads.items ≡ filter (matches pattern.now) self.old.brief.contents.quads) }
        ensures cost { IfOk result (λ quads. steps.new ≤ steps.old + length quads.items + 1) }
        ensures counted { IfOk result (λ quads. steps.old + length quads.items ≤ steps.new) }
        ensures same { self.new ≡ self.old }
    {
        self.kept.contents.matching(pattern, steps)
    }

    /// The lines of the quads that match, in the order of their bytes, where no quad is copied. A
    /// step is a key looked at. All stays as it was, an `Err` or not.
    pub fn matching_lines<L: Ledger>(
        &mut self,
        pattern: &Pattern,
        steps: &mut Steps<L>,
    ) -> Result<MadeLines, OutOfMemory>
        ensures found { IfOk result (λ lines.
            lines ≡ map line (filter (matches pattern.now) self.old.brief.contents.quads)) }
        ensures cost { IfOk result (λ lines. steps.new ≤ steps.old + length lines + 1) }
        ensures counted { IfOk result (λ lines. steps.old + length lines ≤ steps.new) }
        ensures same { self.new ≡ self.old }
    {
        self.kept.contents.matching_lines(pattern, steps)
    }

    /// Takes the next patch, or says why not. It diverges, its id is repeated, a limit is reached,
    /// memory is wanted or numbers for its terms are, or a disk failed: in this order, but that
    /// want of memory may come before the numbers. Both files are settled before it is written.
    pub fn take_next(&mut self, patch: &Checked) -> TakeAnswer
        ensures { TakesPatch D.Disk self.old self.new patch.now result }
    {
        let decided = self.kept.taking(patch, &self.limits);
        match decided {
            TakeAnswer::Applied { version } => match self.kept.prepare(self.alloc, patch) {
                Ok(block) => {
                    let written = self.files.append(&block);
                    self.doubt.follow(written, patch);
                    match written {
                        Ok(()) => {
                            let size = patch.text().len() as u64;
                            self.kept.commit_staged(patch.id(), size);
                            TakeAnswer::Applied { version }
                        }
                        Err(_) => {
                            self.kept.drop_staged();
                            TakeAnswer::DiskFault
                        }
                    }
                }
                Err(DataFault::TermsFull) => TakeAnswer::TermsFull,
                Err(DataFault::OutOfMemory) => TakeAnswer::OutOfMemory,
            },
            refused => refused,
        }
    }

    /// Writes a checkpoint of what it keeps into the other file, where it stands alone, and which is
    /// current then. Both files are settled before. The patches taken needn't be read again; what
    /// is kept stays as it was, whatever is answered.
    pub fn checkpoint(&mut self) -> CheckEnd
        ensures { MakesCheckpoint D.Disk self.old self.new result }
    {
        let generation = self.files.generation();
        if generation == u64::MAX {
            return CheckEnd::TooLarge {
                length: generation,
                limit: generation,
            };
        }
        match make_checkpoint(self.alloc, generation + 1, &self.kept) {
            Ok(payload) => {
                let written = self.files.renew(&payload);
                settle_where(&mut self.doubt, &self.files);
                end_of(written, self.kept.ids.len())
            }
            Err(MakeFault::TooLong { length }) => CheckEnd::TooLarge {
                length,
                limit: CHECKPOINT_FILE_LIMIT,
            },
            Err(MakeFault::OutOfMemory) => CheckEnd::OutOfMemory,
        }
    }

    /// Gives both disks back, the first and the second.
    pub fn close(self) -> (D, D)
        ensures first { result.0 ≡ first_in self }
        ensures second { result.1 ≡ second_in self }
        ensures stands { (point : PairPoint) × StandsAt D.Disk self point }
    {
        let PairedZone { files, .. } = self;
        files.close()
    }
}
