//! A zone: its journal on a disk, and what it keeps of the patches that it took.
ghost use Rattle.std.specs.Prelude.{◌≡◌, ◌+◌, ◌≤◌, [], List, None, is_none};
ghost use Rattle.std.specs.Prelude.{length, map, IfOk, IfErr};
ghost use Rattle.std.specs.List.{filter};
ghost use Rattle.std.specs.List.Sorted.{IsPermutation, IsSorted};
ghost use Rattle.disk_model.specs.Past.{reads};
ghost use Rattle.log_journal.specs.File.{Holds};
ghost use Rattle.log_journal.specs.Written.{Reopened, RefusedOpening};
ghost use Rattle.rdf_terms.specs.Line.{line};
ghost use Rattle.term_table.specs.Table.{most};
ghost use Rattle.dataset_tx.specs.Held.{AreMet, AreMore};
ghost use Rattle.dataset_tx.specs.Pattern.{matches};
ghost use Rattle.dataset_tx.specs.Prefixes.{prefix_change};
ghost use Rattle.dataset_tx.specs.Rows.{change_cmp, rows_in_order};
ghost use Rattle.patch_meaning.specs.Checked.{CheckedPatch, checked_texts};
ghost use Rattle.chain_core.specs.Ids.{last_of};
ghost use Rattle.zone_state.specs.Brief.{file_length, changes_taken};
ghost use Rattle.zone_state.specs.Zone.{zone_number, AreTakenPatches, StandsForZone};
ghost use Rattle.zone_state.specs.Takes.{TakesPatch};
ghost use Rattle.zone_state.specs.Fault.{HasZoneFault};

use crate::answer::TakeAnswer;
use crate::doubt::Doubtful;
use crate::fault::{ZoneFault, ZoneRefusal};
use crate::file::ZONE_NUMBER;
use crate::kept::Kept;
use crate::opening::Reading;
use dataset_tx::{DataFault, Pattern};
use delta_base::{Id, OutOfMemory};
use disk_model::{Disk, Planned};
use line_log::MadeLines;
use log_base::LogLimits;
use log_journal::{Journal, OpenRefusal, write};
use patch_meaning::Checked;
use quad_index::Steps;
use rdf_terms::{Changes, Quads};
use std::alloc::Global;
use std::marker::Model;
use std::sync::ledger::Ledger;

/// Patches taken in order, whose texts stand on the disk alone.
#[derive(Drop)]
pub struct Zone<D: Disk> {
    alloc: Global,
    kept: Kept,
    journal: Journal<D>,
    limits: LogLimits,
    doubt: Doubtful,
}

impl<D: Disk> Model for Zone<D> {
    ghost use Rattle.zone_state.specs.Zone.{ZoneView};
    ghost use Rattle.zone_state.specs.State.{view_of, IsZoneKept};

    ghost Value = { ZoneView D };

    ghost view = { λ z. view_of z.journal z.kept z.limits z.doubt.patch };

    ghost invariant = { λ z. IsZoneKept z.journal z.kept z.limits z.doubt.patch };
}

impl<D: Disk> Zone<D> {
    /// Opens a file that a crash may have left. A refusal hands the disk back.
    pub fn open_on(alloc: Global, disk: D, limits: LogLimits) -> Result<Zone<D>, ZoneRefusal<D>>
        // The patches taken are those of the journal's payloads, and none is in doubt.
        ensures taken { IfOk result (λ zone. (taken : List CheckedPatch)
            × StandsForZone D.tells (D.past zone.disk) zone taken None
            × AreMet (changes_taken taken) [] zone.terms
            × (D.tells → Holds (reads (D.past disk)) zone_number (checked_texts taken))) }
        ensures limits { IfOk result (λ zone. zone.limits ≡ limits) }
        ensures fault { D.tells → IfErr result (λ refusal.
            HasZoneFault (reads (D.past disk)) limits refusal.fault) }
        ensures terms_full { IfErr result (λ refusal. refusal.fault ≡ ZoneFault.TermsFull
            → (taken : List CheckedPatch) × AreTakenPatches limits taken
            × AreMore most (changes_taken taken) []) }

        // What becomes of its disk.
        ensures reopened { IfOk result (λ zone. Reopened D.Disk disk zone.disk
            (file_length zone.brief.ids zone.brief.bytes)) }
        ensures refused { IfErr result (λ refusal. RefusedOpening D.Disk
            (refusal.fault ≡ ZoneFault.Failed) disk refusal.disk) }
    {
        let mut reading = Reading::new(alloc, limits.patches);
        match Journal::open_with(alloc, disk, ZONE_NUMBER, limits.bytes, &mut reading) {
            Ok(journal) => match reading.finish() {
                Ok(kept) => Ok(Zone {
                    alloc,
                    kept,
                    journal,
                    limits,
                    doubt: Doubtful::none(),
                }),
                Err(fault) => Err(ZoneRefusal {
                    disk: journal.close(),
                    fault,
                }),
            },
            Err(OpenRefusal { disk, fault }) => {
                drop(reading);
                Err(ZoneRefusal {
                    disk,
                    fault: ZoneFault::from(fault),
                })
            }
        }
    }

    /// How many patches it took.
    pub fn version(&self) -> u32
        ensures version { result ≡ length self.now.brief.ids }
        ensures stands { (taken : List CheckedPatch)
            × StandsForZone D.tells (D.past self.now.disk) self.now taken self.now.doubt }
    {
        self.kept.ids.len()
    }

    /// The id of the last one.
    pub fn head(&self) -> Option<Id>
        ensures { result ≡ last_of self.now.brief.ids }
    {
        self.kept.ids.last()
    }

    /// No patch is in doubt.
    pub fn is_settled(&self) -> bool
        ensures { result ≡ is_none self.now.doubt }
    {
        self.journal.is_settled()
    }

    /// How often its disk has failed.
    pub fn faults(&self) -> u64
        ensures { result ≡ D.faults self.now.disk }
    {
        self.journal.faults()
    }

    /// The quads, in the order of their lines.
    pub fn dump(&self) -> Result<Quads, OutOfMemory>
        ensures { IfOk result (λ quads. quads.items ≡ self.now.brief.contents.quads) }
    {
        self.kept.contents.quads()
    }

    /// The lines of the quads, in the order of their bytes. No quad is copied.
    pub fn lines(&self) -> Result<MadeLines, OutOfMemory>
        ensures { IfOk result (λ lines. lines ≡ map line self.now.brief.contents.quads) }
    {
        self.kept.contents.lines()
    }

    /// The changes that set the prefixes, in the order of their rows.
    pub fn prefixes(&self) -> Result<Changes, OutOfMemory>
        ensures each { IfOk result (λ changes. IsPermutation
            (map prefix_change self.now.brief.contents.prefixes) changes.items) }
        ensures in_order { IfOk result (λ changes. IsSorted change_cmp changes.items) }
    {
        self.kept.contents.prefixes()
    }

    /// The rows of these changes, in the order of their bytes.
    pub fn prefix_rows(&self) -> Result<MadeLines, OutOfMemory>
        ensures { IfOk result (λ rows.
            rows ≡ rows_in_order (map prefix_change self.now.brief.contents.prefixes)) }
    {
        self.kept.contents.prefix_rows()
    }

    /// The quads that match, in the order of their lines. A step is a key looked at. All stays as
    /// it was, an `Err` or not.
    pub fn matching<L: Ledger>(
        &mut self,
        pattern: &Pattern,
        steps: &mut Steps<L>,
    ) -> Result<Quads, OutOfMemory>
        ensures found { IfOk result (λ quads.
            quads.items ≡ filter (matches pattern.now) self.old.brief.contents.quads) }
        ensures cost { IfOk result (λ quads. steps.new ≤ steps.old + length quads.items + 1) }
        ensures counted { IfOk result (λ quads. steps.old + length quads.items ≤ steps.new) }
        ensures same { self.new ≡ self.old }
    {
        self.kept.contents.matching(pattern, steps)
    }

    /// The lines of the quads that match, in the order of their bytes, where no quad is copied. A
    /// step is a key looked at. All stays as it was, an `Err` or not.
    pub fn matching_lines<L: Ledger>(
        &mut self,
        pattern: &Pattern,
        steps: &mut Steps<L>,
    ) -> Result<MadeLines, OutOfMemory>
        ensures found { IfOk result (λ lines.
            lines ≡ map line (filter (matches pattern.now) self.old.brief.contents.quads)) }
        ensures cost { IfOk result (λ lines. steps.new ≤ steps.old + length lines + 1) }
        ensures counted { IfOk result (λ lines. steps.old + length lines ≤ steps.new) }
        ensures same { self.new ≡ self.old }
    {
        self.kept.contents.matching_lines(pattern, steps)
    }

    /// Takes the next patch, or says why not. It diverges, its id is repeated, a limit is reached,
    /// memory is wanted or numbers for its terms are, or the disk failed: in this order, but that
    /// want of memory may come before the numbers.
    pub fn take_next(&mut self, patch: &Checked) -> TakeAnswer
        ensures { TakesPatch D.Disk self.old self.new patch.now result }
    {
        let decided = self.kept.taking(patch, &self.limits);
        match decided {
            TakeAnswer::Applied { version } => match self.kept.prepare(self.alloc, patch) {
                Ok(block) => {
                    let written = write(&mut self.journal, &block);
                    self.doubt.follow(written, patch);
                    match written {
                        Ok(()) => {
                            let size = patch.text().len() as u64;
                            self.kept.commit_staged(patch.id(), size);
                            TakeAnswer::Applied { version }
                        }
                        Err(_) => {
                            self.kept.drop_staged();
                            TakeAnswer::DiskFault
                        }
                    }
                }
                Err(DataFault::TermsFull) => TakeAnswer::TermsFull,
                Err(DataFault::OutOfMemory) => TakeAnswer::OutOfMemory,
            },
            refused => refused,
        }
    }

    /// Gives the disk back.
    pub fn close(self) -> D
        ensures disk { result ≡ self.disk }
        ensures stands { (taken : List CheckedPatch)
            × StandsForZone D.tells (D.past result) self taken self.doubt }
    {
        let Zone { journal, .. } = self;
        journal.close()
    }
}

impl<D: Planned> Zone<D> {
    /// Plans which sync of its disk fails.
    pub fn plan(&mut self, next: Option<u64>)
        ensures same { self.new ≡ record self.old { disk = self.new.disk } }
        ensures next { D.next_failure self.new.disk ≡ next }
        ensures past { D.past self.new.disk ≡ D.past self.old.disk }
        ensures short { D.short self.new.disk ≡ D.short self.old.disk }
        ensures faults { D.faults self.new.disk ≡ D.faults self.old.disk }
        ensures mark { D.mark self.new.disk ≡ D.mark self.old.disk }
    {
        self.journal.plan(next);
    }

    /// Whether a call of its disk has failed for want of memory.
    pub fn is_short(&self) -> bool
        ensures { result ≡ D.short self.now.disk }
    {
        self.journal.is_short()
    }
}
