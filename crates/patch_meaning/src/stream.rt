//! Streams of patches.

ghost use Rattle.std.specs.Prelude.{◌≡◌, ◌≤◌, ◌++◌, ℕ, List, IfOk, IfErr, OnOk, drop, length, map};
ghost use Rattle.std.specs.List.{slice_range};
ghost use Rattle.nquads_text.specs.Grammar.{StartsWith};
ghost use Rattle.patch_meaning.specs.Checked.{CheckedPatch};
ghost use Rattle.patch_meaning.specs.Cutting.{CutsNext, HasCut, HasCutAll, IsFoundToCut};
ghost use Rattle.patch_meaning.specs.Cutting.{IsNextOrEnd, IsNextToCut, RefusesStream};
ghost use Rattle.patch_meaning.specs.Cutting.{StopsCutting, linked_of};
ghost use Rattle.patch_meaning.specs.Stream.{IsSplit, linked};
ghost use Rattle.patch_reader.specs.Rows.{Gap};
ghost use Rattle.patch_rows.specs.Grammar.{begins_space};

use crate::checked::refuse;
use crate::fault::PatchFault;
use crate::part::Part;
use crate::role::found_role;
use crate::rows::{Next, row_from};
use delta_base::{Bytes, Listing, OutOfMemory};
use log_base::{ChainLink, Sent};
use patch_rows::{RowFault, skip_space};
use row_scan::{ScannedRow, scan_row};
use std::alloc::Global;

/// A patch of a stream without its changes: its ids and its own text.
#[derive(Drop)]
pub struct Linked {
    pub link: ChainLink,
    pub text: Bytes,
}

impl Sent for Linked {
    ghost link_sent = { λ patch. patch.link };

    ghost text_sent = { λ patch. patch.text };

    fn link(&self) -> ChainLink {
        self.link
    }

    fn text(&self) -> &[u8] {
        self.text.as_slice()
    }
}

/// A stream of which some rows were read: patches that are complete, and the one to which the next
/// row may belong.
#[derive(Drop)]
pub struct Cutting {
    patches: Listing<Linked>,
    part: Part,
}

/// The patches of a stream in their order, without their changes. A fault is that of the first
/// patch that has one, with its place from the stream's front.
pub fn split_links(alloc: Global, text: &[u8]) -> Result<Listing<Linked>, PatchFault>
    ensures split { IfOk result (λ links. (patches : List CheckedPatch)
        × IsSplit text.now patches × (links.items ≡ map linked patches)) }
    ensures fault { IfErr result (RefusesStream text.now) }
{
    let mut cutting = Cutting {
        patches: Listing::new(alloc),
        part: Part::new(0),
    };
    let mut at = 0;
    while let Some(end) = cutting.take_next(alloc, text, at)? {
        at = end;
    }
    cutting.finish(alloc, text)
}

// The row that begins at a place behind white space; where none stands there, the fault of the
// patch.
fn row_of(alloc: Global, text: &[u8], at: usize, part: &Part) -> Result<Option<Next>, PatchFault>
    requires within { at ≤ length text.now }
    requires begins { StartsWith begins_space (drop at text.now) → ⊥ }
    ensures ok { IfOk result (λ next. (from : ℕ) → Gap text.now from at
        → IsNextOrEnd text.now from next) }
    ensures fault { IfErr result (λ fault. (from : ℕ) → Gap text.now from at
        → StopsCutting text.now from part.now fault) }
{
    match row_from(alloc, text, at) {
        Ok(next) => Ok(next),
        Err(RowFault::At { at: place, kind }) => Err(part.break_stream(place, kind)),
        Err(RowFault::OutOfMemory) => Err(PatchFault::OutOfMemory),
    }
}

impl Cutting {
    // Takes the next row behind a place, if there is one, and answers the place behind it.
    #[inline(always)]
    fn take_next(
        &mut self,
        alloc: Global,
        text: &[u8],
        from: usize,
    ) -> Result<Option<usize>, PatchFault>
        requires { HasCut text.now from self.old }
        ensures { CutsNext text.now from self.new result }
    {
        let at = skip_space(text, from);
        if let Some(found) = scan_row(text, at) {
            return Ok(Some(self.take_found(alloc, text, at, found)?));
        }
        match row_of(alloc, text, at, &self.part)? {
            Some(next) => Ok(Some(self.take(alloc, text, next)?)),
            None => Ok(None),
        }
    }

    // Takes a row that the scan found at a place, and answers the place behind it. Of a quad no
    // term is made.
    #[inline(always)]
    fn take_found(
        &mut self,
        alloc: Global,
        text: &[u8],
        at: usize,
        found: ScannedRow,
    ) -> Result<usize, PatchFault>
        requires { IsFoundToCut text.now at found self.old }
        ensures ok { OnOk result (HasCut text.now found.end self.new) }
        ensures end { IfOk result (λ end. end ≡ found.end) }
        ensures fault { IfErr result (RefusesStream text.now) }
    {
        let end = found.end;
        match found_role(found.says) {
            Some(role) => self.take(alloc, text, Next { role, at, end }),
            None => {
                self.part.take_quad();
                Ok(end)
            }
        }
    }

    // Takes the next row, and answers the place behind it.
    fn take(&mut self, alloc: Global, text: &[u8], next: Next) -> Result<usize, PatchFault>
        requires { IsNextToCut text.now next self.old }
        ensures ok { OnOk result (HasCut text.now next.end self.new) }
        ensures end { IfOk result (λ end. end ≡ next.end) }
        ensures fault { IfErr result (RefusesStream text.now) }
    {
        let Next { role, at, end } = next;
        let text = piece(text, self.part.from, at);
        match self.part.take_next(&role, at as u64) {
            Ok(done) => {
                drop(role);
                self.put(alloc, text, done)?;
                Ok(end)
            }
            Err(fault) => refuse(role, fault),
        }
    }

    // Puts a patch with its text behind those that are complete, if there is one.
    fn put(
        &mut self,
        alloc: Global,
        text: &[u8],
        done: Option<ChainLink>,
    ) -> Result<(), OutOfMemory>
        ensures patches { OnOk result (self.new.patches.items
            ≡ self.old.patches.items ++ linked_of text.now done) }
        ensures part { self.new.part ≡ self.old.part }
    {
        match done {
            Some(link) => {
                let text = Bytes::from_slice(alloc, text)?;
                self.patches.push(Linked { link, text })?;
                Ok(())
            }
            None => Ok(()),
        }
    }

    fn finish(mut self, alloc: Global, text: &[u8]) -> Result<Listing<Linked>, PatchFault>
        requires { HasCutAll text.now self }
        ensures split { IfOk result (λ links. (patches : List CheckedPatch)
            × IsSplit text.now patches × (links.items ≡ map linked patches)) }
        ensures fault { IfErr result (RefusesStream text.now) }
    {
        let stop = text.len();
        let text = piece(text, self.part.from, stop);
        let done = self.part.finish_stream(stop as u64)?;
        self.put(alloc, text, done)?;
        Ok(self.patches)
    }
}

// The bytes of a text from one place to another.
fn piece(text: &[u8], from: u64, stop: usize) -> &[u8]
    requires order { from ≤ stop }
    requires within { stop ≤ length text.now }
    ensures { result.now ≡ slice_range text.now from stop }
{
    &text[from as usize..stop]
}
