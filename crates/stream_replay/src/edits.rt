//! What the changes of patches do to the lines of a dataset.
ghost use Rattle.std.specs.Prelude.{◌≡◌, ◌≤◌, ◌+◌, ◌*◌, ◌++◌, ◌∷◌, [], List, IfOk, OnOk, length};
ghost use Rattle.std.specs.List.{flat_map};
ghost use Rattle.rdf_terms.specs.declared.change.Change.{Change as Changed};
ghost use Rattle.rdf_terms.specs.declared.change.Change.TheVariants as change;
ghost use Rattle.rdf_terms.specs.Dataset.{Dataset, apply, empty};
ghost use Rattle.rdf_terms.specs.Line.{line, lines};
ghost use Rattle.rdf_terms.specs.Quad.{Statement};
ghost use Rattle.row_scan.specs.Found.{change_by};
ghost use Rattle.stream_replay.specs.Edits.{GrowsBy, HasEdits, IsEnoughFor, IsSettledOrShort};
ghost use Rattle.stream_replay.specs.Edits.{IsShort, MakesLines, edits_by};

use delta_base::OutOfMemory;
use line_log::{LineLog, MadeLines};
use nquads_documents::print_line;
use rdf_terms::{Change, Quad};
use std::alloc::Global;

/// How many edits a log may have beyond twice those that its lines need.
pub(crate) const SPARE_EDITS: usize = 65_536;
/// How many bytes their lines may have beyond twice those of the lines that stand.
pub(crate) const SPARE_BYTES: usize = 8_388_608;

/// What all changes so far do, also those of the patch that may go on. Of a block that TA ended
/// nothing is left.
#[derive(Drop)]
pub struct Edits {
    log: LineLog,
    /// How many of them stand before the block that is open, if one is.
    before_block: Option<usize>,
    /// With more edits, or more bytes of them, the log is settled, so that it grows with the
    /// dataset and not with the stream.
    enough_edits: usize,
    enough_bytes: usize,
}

// Twice so many and some more.
fn twice(count: usize, spare: usize) -> usize
    ensures least { count ≤ result }
    ensures most { result ≤ 2 * count + spare }
{
    count.saturating_mul(2).saturating_add(spare)
}

impl Edits {
    /// No change so far.
    pub fn new(alloc: Global) -> Edits
        ensures edits { HasEdits [] empty result }
        ensures none { result.log ≡ [] }
        ensures enough { IsEnoughFor empty result }
    {
        Edits {
            log: LineLog::new(alloc),
            before_block: None,
            enough_edits: SPARE_EDITS,
            enough_bytes: SPARE_BYTES,
        }
    }

    /// Holds what one more change does.
    pub fn take(&mut self, alloc: Global, change: &Change) -> Result<(), OutOfMemory>
        ensures edits { OnOk result ((changes : List Changed) (d : Dataset)
            → HasEdits changes d self.old → HasEdits (changes ++ change.now ∷ []) d self.new) }
        ensures grows { OnOk result (GrowsBy (edits_by change.now) self.old self.new) }
    {
        match change {
            Change::Add(quad) => self.print(alloc, true, quad),
            Change::Delete(quad) => self.print(alloc, false, quad),
            Change::PrefixAdd { .. } | Change::PrefixDelete { .. } => Ok(()),
            Change::Begin => {
                self.begin();
                Ok(())
            }
            Change::Commit => {
                self.before_block = None;
                Ok(())
            }
            Change::Abort => {
                self.abort();
                Ok(())
            }
        }
    }

    // A quad is added or deleted.
    fn print(&mut self, alloc: Global, adds: bool, quad: &Quad) -> Result<(), OutOfMemory>
        ensures edits { OnOk result ((changes : List Changed) (d : Dataset)
            → HasEdits changes d self.old
            → HasEdits (changes ++ change_by adds quad.now ∷ []) d self.new) }
        ensures grows { OnOk result
            (GrowsBy ((adds, line quad.now) ∷ []) self.old self.new) }
    {
        let line = print_line(alloc, quad)?;
        self.put(adds, line.as_bytes())
    }

    /// The quad of a line is added or deleted.
    #[inline]
    pub fn put(&mut self, adds: bool, bytes: &[u8]) -> Result<(), OutOfMemory>
        ensures edits { OnOk result ((quad : Statement) → bytes.now ≡ line quad
            → (changes : List Changed) (d : Dataset) → HasEdits changes d self.old
            → HasEdits (changes ++ change_by adds quad ∷ []) d self.new) }
        ensures grows { OnOk result (GrowsBy ((adds, bytes.now) ∷ []) self.old self.new) }
    {
        self.log.push(adds, bytes)
    }

    // A block begins here, if none is open.
    fn begin(&mut self)
        ensures edits { (changes : List Changed) (d : Dataset) → HasEdits changes d self.old
            → HasEdits (changes ++ change.Begin ∷ []) d self.new }
        ensures grows { GrowsBy [] self.old self.new }
    {
        if self.before_block.is_some() {
            return;
        }
        self.before_block = Some(self.log.len());
    }

    // Lets go what the open block does, if one is.
    fn abort(&mut self)
        ensures edits { (changes : List Changed) (d : Dataset) → HasEdits changes d self.old
            → HasEdits (changes ++ change.Abort ∷ []) d self.new }
        ensures grows { GrowsBy [] self.old self.new }
    {
        if let Some(count) = self.before_block {
            self.log.truncate(count);
            self.before_block = None;
        }
    }

    /// The patch is complete, and the next one begins. Between patches the edits have no more than
    /// twice what the lines had that stood when they were settled last, and the spare.
    pub fn complete(&mut self) -> Result<(), OutOfMemory>
        ensures edits { OnOk result ((changes : List Changed) (d : Dataset)
            → HasEdits changes d self.old → HasEdits [] (apply changes d) self.new) }
        ensures short { OnOk result (IsShort self.new) }
        ensures settled { OnOk result (IsSettledOrShort self.old self.new) }
    {
        self.before_block = None;
        if self.log.len() > self.enough_edits || self.log.bytes() > self.enough_bytes {
            self.log.settle()?;
            self.enough_edits = twice(self.log.len(), SPARE_EDITS);
            self.enough_bytes = twice(self.log.bytes(), SPARE_BYTES);
        }
        Ok(())
    }

    /// The lines of the dataset.
    pub fn into_lines(self) -> Result<MadeLines, OutOfMemory>
        ensures text { IfOk result (λ made. (d : Dataset) → MakesLines self.log d
            → flat_map (λ l. l) made ≡ lines d.quads) }
        ensures count { IfOk result (λ made. (d : Dataset) → MakesLines self.log d
            → length made ≡ length d.quads) }
    {
        self.log.into_lines()
    }
}
