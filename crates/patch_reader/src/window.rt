//! A text that comes in pieces, and its rows.

ghost use Rattle.std.specs.Prelude.{◌≡◌, ◌+◌, ◌++◌, ◌≤◌, [], true, false, None};
ghost use Rattle.std.specs.Prelude.{length, drop, Ok, IfSome, OnOk, OnErr};
ghost use Rattle.patch_rows.specs.declared.cut.TextEnd.TheVariants as ends;
ghost use Rattle.patch_reader.specs.Places.{IsNotBefore, line_number};
ghost use Rattle.patch_reader.specs.Rows.{GivesNext, StopsRows};

use crate::front::{Region, follow_open, follow_rest, is_new, note_unfinished, pass_front};
use crate::lines::feeds_in;
use crate::next::next_row;
use crate::past::Fed;
use crate::placed::PlacedRow;
use delta_base::OutOfMemory;
use patch_rows::{RowFault, TextEnd};
use std::alloc::Global;
use std::marker::Model;

/// The bytes that a text may have, so that each place and each line of it has a number.
const TEXT_LIMIT: u64 = u64::MAX - 1;

/// Lets the first bytes go.
fn drop_front(bytes: &mut Vec<u8>, size: usize)
    requires { size ≤ length bytes.old.items }
    ensures { bytes.new.items ≡ drop size bytes.old.items }
{
    bytes.drain(..size);
}

/// The bytes of a text that comes in pieces, from a place on, and how far its rows were read.
#[derive(Drop)]
pub struct RowWindow {
    alloc: Global,
    fed: Fed,
    kept: Vec<u8>,
    /// The place of the first byte that is kept.
    from: u64,
    /// The line feeds before it.
    feeds: u64,
    /// How many of the bytes were read.
    at: usize,
    /// What stands behind them.
    region: Region,
    /// The place behind the last row.
    passed: u64,
}

impl Model for RowWindow {
    ghost use Rattle.std.specs.Prelude.{◌+◌};
    ghost use Rattle.patch_reader.specs.Held.{HoldsText, row_place};
    ghost use Rattle.patch_reader.specs.Window.{Window};

    ghost Value = { Window };

    ghost view = { λ r. record {
      fed = r.fed.text;
      passed = r.passed;
      front = row_place (r.from + r.at) r.region;
      kept = r.from;
    } };

    ghost invariant = { λ r. HoldsText r.fed.text r.passed r.from r.kept.items r.feeds
        r.at r.region };
}

impl RowWindow {
    ghost use Rattle.patch_reader.specs.Window.{ReadsOn, LetsGo, RowBegins, front_text};

    /// Nothing was fed.
    pub fn new(alloc: Global) -> RowWindow
        ensures { result ≡ record { fed = []; passed = 0; front = None; kept = 0 } }
    {
        RowWindow {
            alloc,
            fed: Fed::new(),
            kept: Vec::new(alloc),
            from: 0,
            feeds: 0,
            at: 0,
            region: Region::Gap { comment: false },
            passed: 0,
        }
    }

    /// The text goes on with a piece. Where no memory is left for it, or no number for its places,
    /// all is as before.
    pub fn push(&mut self, piece: &[u8]) -> Result<(), OutOfMemory>
        ensures ok { OnOk result (self.new
            ≡ record self.old { fed = self.old.fed ++ piece.now; front = self.new.front }) }
        ensures err { OnErr result (self.new ≡ self.old) }
    {
        if piece.len() as u64 > TEXT_LIMIT - (self.from + self.kept.len() as u64) {
            return Err(OutOfMemory);
        }
        self.kept.extend_from_slice(piece)?;
        self.fed.feed(piece);
        self.at += pass_front(&self.kept[self.at..], &mut self.region);
        Ok(())
    }

    /// The place where the next row begins, as far as that is known. None where it was read and
    /// found unfinished: `next` follows it then.
    pub fn row_place(&self) -> Option<u64>
        ensures value { result ≡ self.now.front }
        ensures begins { IfSome result (RowBegins self.now) }
    {
        if is_new(self.region) {
            return Some(self.from + self.at as u64);
        }
        None
    }

    /// What stands there.
    pub fn row_front(&self) -> &[u8]
        ensures { result.now ≡ front_text self.now }
    {
        if is_new(self.region) {
            return &self.kept[self.at..];
        }
        &[]
    }

    /// Whether nothing more is decided. Where a row begins that wasn't read yet, that isn't known,
    /// and the answer is false. It costs less than to ask for the next row.
    pub fn is_quiet(&mut self) -> Result<bool, OutOfMemory>
        ensures quiet { result ≡ Ok true → StopsRows ends.Open self.old.fed self.old.passed None }
        ensures decided { result ≡ Ok false → self.old.front ≡ None
            → StopsRows ends.Open self.old.fed self.old.passed None → ⊥ }
        ensures same { self.new ≡ record self.old { front = self.new.front } }
    {
        let rest = &self.kept[self.at..];
        follow_open(self.alloc, rest, &mut self.region)
    }

    /// The next row, with its places: of a text that may go on one that is decided. None where
    /// more text decides, or where a whole text ends; a fault where it is the text's first
    /// one, whatever follows.
    pub fn next(&mut self, end: TextEnd) -> Result<Option<PlacedRow>, RowFault>
        ensures gives { GivesNext end self.old.fed self.old.passed result }
        ensures kept { IsNotBefore self.old.kept result }
        ensures goes_on { ReadsOn self.old result self.new }
    {
        let is_quiet = follow_rest(self.alloc, &self.kept[self.at..], &mut self.region, end)?;
        if is_quiet {
            return Ok(None);
        }
        match next_row(self.alloc, &self.kept, self.at, self.from, end) {
            Ok(Some(row)) => {
                self.pass_row(row.end);
                Ok(Some(row))
            }
            Ok(None) => {
                note_unfinished(&mut self.region);
                Ok(None)
            }
            Err(fault) => Err(fault),
        }
    }

    /// Goes on behind a row that ends at this place, as a caller found it at the front.
    pub fn pass_row(&mut self, end: u64)
        requires low { self.old.kept ≤ end }
        requires high { end ≤ length self.old.fed }
        ensures { self.new ≡ record self.old { passed = end; front = self.new.front } }
    {
        let at = (end - self.from) as usize;
        self.region = Region::Gap { comment: false };
        self.at = at + pass_front(&self.kept[at..], &mut self.region);
        self.passed = end;
    }

    /// Lets go what was read, and white space and comments behind it.
    pub fn settle(&mut self)
        ensures { LetsGo self.old self.new }
    {
        if self.at == 0 {
            return;
        }
        self.feeds += feeds_in(&self.kept[..self.at]);
        drop_front(&mut self.kept, self.at);
        self.from += self.at as u64;
        self.at = 0;
    }

    /// The place behind the last byte that was fed.
    pub fn end(&self) -> u64
        ensures value { result ≡ length self.now.fed }
        ensures kept { self.now.kept ≤ result }
    {
        self.from + self.kept.len() as u64
    }

    /// The line of a place that is kept, or of the text's end, counted from 1.
    pub fn line_at(&self, place: u64) -> u64
        requires low { self.now.kept ≤ place }
        requires high { place ≤ length self.now.fed }
        ensures { result ≡ line_number self.now.fed place }
    {
        self.feeds + feeds_in(&self.kept[..(place - self.from) as usize]) + 1
    }
}
