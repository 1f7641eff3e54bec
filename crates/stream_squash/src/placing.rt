//! The one reading of a stream: its first fault, its chain, and how many bytes each patch has.
ghost use Rattle.std.specs.Prelude.{◌≡◌, ◌+◌, ◌-◌, ◌<◌, ◌≤◌, ◌^◌, ◌++◌, ℕ, List};
ghost use Rattle.std.specs.Prelude.{◌∷◌, [], IfOk, IfErr, OnOk, drop, length};
ghost use Rattle.std.specs.List.{slice_range};
ghost use Rattle.nquads_text.specs.Grammar.{StartsWith};
ghost use Rattle.log_base.specs.declared.chain_link.ChainLink.{ChainLink as Links};
ghost use Rattle.patch_meaning.specs.Checked.{CheckedPatch};
ghost use Rattle.patch_meaning.specs.Cutting.{RefusesStream, StopsCutting, linked_of};
ghost use Rattle.patch_meaning.specs.declared.stream.Linked.{Linked};
ghost use Rattle.patch_reader.specs.Places.{line_number};
ghost use Rattle.patch_reader.specs.Rows.{Gap};
ghost use Rattle.patch_rows.specs.Grammar.{begins_space};
ghost use Rattle.stream_squash.specs.Faults.{StopsChain};
ghost use Rattle.stream_squash.specs.Placing.{HasChain, HasPlaced, HasPlacedAll, IsFoundToPlace};
ghost use Rattle.stream_squash.specs.Placing.{IsNextToPlace, IsPlaced, IsRowOrEnd, KeepsPlaces};
ghost use Rattle.stream_squash.specs.Placing.{AreTested, PlacesNext};

use crate::fault::SquashFault;
use chain_core::{ChainFault, ChainTest};
use delta_base::OutOfMemory;
use log_base::ChainLink;
use patch_meaning::{Part, PatchFault, Role, found_role, role_of};
use patch_reader::read_row;
use patch_rows::{RowFault, skip_space};
use row_scan::{ScannedRow, scan_row};
use std::alloc::Global;

/// A stream whose patches are a chain.
#[derive(Drop)]
pub struct Chained {
    /// How many bytes each patch has.
    pub lengths: Vec<usize>,
    /// The test of a patch behind them.
    pub chain: ChainTest,
}

/// A stream of which some rows were read: the patches that are complete, and the one to which the
/// next row may belong.
#[derive(Drop)]
pub struct Placing {
    lengths: Vec<usize>,
    chain: ChainTest,
    /// The first fault of the chain. Behind it no id is taken.
    broken: Option<ChainFault>,
    part: Part,
}

/// What a row says, its first byte, and the place behind its dot.
#[derive(Drop)]
pub struct NextRow {
    role: Role,
    at: usize,
    end: usize,
}

/// Reads a stream whose patches are to be a chain. Of a row in canonical form no term is made.
pub fn read_chain(alloc: Global, text: &[u8]) -> Result<Chained, SquashFault>
    requires { length text.now ≤ 2 ^ 31 }
    ensures ok { IfOk result (λ chained. (ps : List CheckedPatch) × HasChain text.now ps chained) }
    ensures fault { IfErr result (StopsChain text.now) }
{
    match read_patches(alloc, text) {
        Ok(placing) => placing.chained(),
        Err(fault) => Err(told(text, fault)),
    }
}

// Reads all patches.
fn read_patches(alloc: Global, text: &[u8]) -> Result<Placing, PatchFault>
    requires { length text.now ≤ 2 ^ 31 }
    ensures ok { IfOk result (IsPlaced text.now) }
    ensures fault { IfErr result (RefusesStream text.now) }
{
    let mut placing = Placing {
        lengths: Vec::new(alloc),
        chain: ChainTest::new(alloc),
        broken: None,
        part: Part::new(0),
    };
    let mut at = 0;
    while let Some(end) = placing.take_next(alloc, text, at)? {
        at = end;
    }
    placing.finish(text)
}

// The fault with the line of its place.
fn told(text: &[u8], fault: PatchFault) -> SquashFault
    requires { RefusesStream text.now fault }
    ensures { StopsChain text.now result }
{
    match fault {
        PatchFault::At { at, kind } => SquashFault::Stream {
            line: line_at(text, at),
            at,
            kind,
        },
        PatchFault::TooLong { length, limit } => SquashFault::LongPatch { length, limit },
        PatchFault::OutOfMemory => SquashFault::OutOfMemory,
    }
}

// The line of a place, counted from 1.
fn line_at(text: &[u8], place: u64) -> u64
    ensures { result ≡ line_number text.now place }
{
    let end = place.min(text.len() as u64) as usize;
    let feeds = text[..end].iter().filter(|byte| **byte == b'\n').count();
    feeds as u64 + 1
}

// The row that begins at a place behind white space, by its reading; where none stands there, the
// fault of the patch.
fn row_of(alloc: Global, text: &[u8], at: usize, part: &Part) -> Result<Option<NextRow>, PatchFault>
    requires within { at ≤ length text.now }
    requires begins { StartsWith begins_space (drop at text.now) → ⊥ }
    ensures ok { IfOk result (λ row. (from : ℕ) → Gap text.now from at
        → IsRowOrEnd text.now from row) }
    ensures fault { IfErr result (λ fault. (from : ℕ) → Gap text.now from at
        → StopsCutting text.now from part.now fault) }
{
    if at == text.len() {
        return Ok(None);
    }
    match read_row(alloc, text, at) {
        Ok((row, end)) => Ok(Some(NextRow {
            role: role_of(row),
            at,
            end,
        })),
        Err(RowFault::At { at: place, kind }) => Err(part.break_stream(place, kind)),
        Err(RowFault::OutOfMemory) => Err(PatchFault::OutOfMemory),
    }
}

impl Placing {
    // Takes the next row behind a place, if there is one, and answers the place behind it.
    #[inline(always)]
    fn take_next(
        &mut self,
        alloc: Global,
        text: &[u8],
        from: usize,
    ) -> Result<Option<usize>, PatchFault>
        requires room { length text.now ≤ 2 ^ 31 }
        requires placed { HasPlaced text.now from self.old }
        ensures { PlacesNext text.now from self.new result }
    {
        let at = skip_space(text, from);
        if let Some(found) = scan_row(text, at) {
            return Ok(Some(self.take_found(text, at, found)?));
        }
        match row_of(alloc, text, at, &self.part)? {
            Some(row) => Ok(Some(self.take(text, row)?)),
            None => Ok(None),
        }
    }

    // Takes a row that the scan found at a place, and answers the place behind it. Of a quad no
    // term is made.
    #[inline(always)]
    fn take_found(&mut self, text: &[u8], at: usize, found: ScannedRow) -> Result<usize, PatchFault>
        requires room { length text.now ≤ 2 ^ 31 }
        requires found { IsFoundToPlace text.now at found self.old }
        ensures ok { OnOk result (HasPlaced text.now found.end self.new) }
        ensures end { IfOk result (λ end. end ≡ found.end) }
        ensures fault { IfErr result (RefusesStream text.now) }
    {
        let end = found.end;
        match found_role(found.says) {
            Some(role) => self.take(text, NextRow { role, at, end }),
            None => {
                self.part.take_quad();
                Ok(end)
            }
        }
    }

    // Takes the next row, and answers the place behind it.
    fn take(&mut self, text: &[u8], row: NextRow) -> Result<usize, PatchFault>
        requires room { length text.now ≤ 2 ^ 31 }
        requires next { IsNextToPlace text.now row self.old }
        ensures ok { OnOk result (HasPlaced text.now row.end self.new) }
        ensures end { IfOk result (λ end. end ≡ row.end) }
        ensures fault { IfErr result (RefusesStream text.now) }
    {
        let NextRow { role, at, end } = row;
        let piece = piece(text, self.part.from, at);
        let taken = self.part.take_next(&role, at as u64);
        drop(role);
        match taken {
            Ok(done) => {
                self.put(done, piece)?;
                Ok(end)
            }
            Err(fault) => Err(fault),
        }
    }

    // Takes a patch that is complete and has this text, if there is one.
    fn put(&mut self, done: Option<ChainLink>, text: &[u8]) -> Result<(), OutOfMemory>
        requires room { self.old.chain.version < 2 ^ 32 - 1 }
        ensures places { OnOk result ((links : List Linked) → KeepsPlaces links self.old
            → KeepsPlaces (links ++ linked_of text.now done) self.new) }
        ensures version { OnOk result (self.new.chain.version ≤ self.old.chain.version + 1) }
        ensures part { self.new.part ≡ self.old.part }
    {
        let Some(link) = done else {
            return Ok(());
        };
        self.lengths.push(text.len())?;
        self.test(link)
    }

    // Tests the ids of a patch against the chain, as long as that has no fault.
    fn test(&mut self, link: ChainLink) -> Result<(), OutOfMemory>
        requires room { self.old.chain.version < 2 ^ 32 - 1 }
        ensures tested { OnOk result ((links : List Links)
            → AreTested self.old.broken links self.old.chain
            → AreTested self.new.broken (links ++ link ∷ []) self.new.chain) }
        ensures version { OnOk result (self.new.chain.version ≤ self.old.chain.version + 1) }
        ensures lengths { self.new.lengths ≡ self.old.lengths }
        ensures part { self.new.part ≡ self.old.part }
    {
        if self.broken.is_some() {
            return Ok(());
        }
        match self.chain.fault_of(link) {
            Some(fault) => self.broken = Some(fault),
            None => self.chain.push(link)?,
        }
        Ok(())
    }

    // Takes the last patch of a text of which all rows were taken, if it has one.
    fn finish(mut self, text: &[u8]) -> Result<Placing, PatchFault>
        requires room { length text.now ≤ 2 ^ 31 }
        requires all { HasPlacedAll text.now self }
        ensures ok { IfOk result (IsPlaced text.now) }
        ensures fault { IfErr result (RefusesStream text.now) }
    {
        let stop = text.len();
        let piece = piece(text, self.part.from, stop);
        let done = self.part.finish_stream(stop as u64)?;
        self.put(done, piece)?;
        Ok(self)
    }

    // The patches, where they are a chain.
    fn chained(self) -> Result<Chained, SquashFault>
        ensures ok { IfOk result (λ chained. (text : List ℕ) → IsPlaced text self
            → (ps : List CheckedPatch) × HasChain text ps chained) }
        ensures fault { IfErr result (λ fault. (text : List ℕ) → IsPlaced text self
            → StopsChain text fault) }
    {
        match self.broken {
            Some(fault) => Err(SquashFault::Chain(fault)),
            None => Ok(Chained {
                lengths: self.lengths,
                chain: self.chain,
            }),
        }
    }
}

// The bytes of a text from one place to another.
fn piece(text: &[u8], from: u64, stop: usize) -> &[u8]
    requires order { from ≤ stop }
    requires within { stop ≤ length text.now }
    ensures { result.now ≡ slice_range text.now from stop }
{
    &text[from as usize..stop]
}
