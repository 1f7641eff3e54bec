//! A reader of rows from a stream that comes in any pieces.

ghost use Rattle.std.specs.Prelude.{◌≡◌, ◌++◌, [], None, OnOk};
ghost use Rattle.std.specs.Result.{result_err};
ghost use Rattle.patch_rows.specs.declared.cut.TextEnd.TheVariants as ends;
ghost use Rattle.patch_reader.specs.Pieces.{HasAllRows, TellsMetFault, FaultStays, Takes, TakesRow};
ghost use Rattle.patch_reader.specs.Rows.{AddsRows, StopsRows, StayReady};

use crate::past::{Fed, Taken};
use crate::placed::PlacedRow;
use crate::window::RowWindow;
use patch_rows::{Row, RowFault, TextEnd};
use std::alloc::Global;
use std::collections::VecDeque;
use std::marker::Model;

/// Puts the rows that are known behind those that are ready. There is room for each before it is
/// read, so none is lost.
#[inline(never)]
fn take_rows(
    window: &mut RowWindow,
    end: TextEnd,
    ready: &mut VecDeque<PlacedRow>,
) -> Result<(), RowFault>
    ensures fed { window.new.fed ≡ window.old.fed }
    ensures adds { AddsRows end window.old.fed window.old.passed ready.old.items
        ready.new.items window.new.passed }
    ensures stops { StopsRows end window.old.fed window.new.passed (result_err result) }
{
    'rows: loop {
        ready.reserve(1)?;
        match window.next(end)? {
            Some(row) => ready.push_back_reserved(row),
            None => return Ok(()),
        }
    }
}

/// The same of a further piece. What was read is let go.
fn take_piece(
    window: &mut RowWindow,
    piece: &[u8],
    ready: &mut VecDeque<PlacedRow>,
) -> Result<(), RowFault>
    ensures fed { OnOk result (window.new.fed ≡ window.old.fed ++ piece.now) }
    ensures adds { AddsRows ends.Open (window.old.fed ++ piece.now) window.old.passed
        ready.old.items ready.new.items window.new.passed }
    ensures stops { StopsRows ends.Open (window.old.fed ++ piece.now) window.new.passed
        (result_err result) }
{
    window.push(piece)?;
    let is_quiet = window.is_quiet()?;
    if is_quiet {
        window.settle();
        return Ok(());
    }
    take_rows(window, TextEnd::Open, ready)?;
    window.settle();
    Ok(())
}

/// A reader of rows. It keeps the bytes of an unfinished row, and the rows that were not taken yet.
///
/// A fault stays: once one was answered, `feed` and `finish` answer it again, and what was decided
/// before can be taken. Behind `finish` nothing more is fed.
#[derive(Drop)]
pub struct PatchReader {
    window: RowWindow,
    ready: VecDeque<PlacedRow>,
    fault: Option<RowFault>,
    /// Whether the text's end is known.
    end: TextEnd,
    fed: Fed,
    taken: Taken,
}

impl Model for PatchReader {
    ghost use Rattle.std.specs.Prelude.{◌++◌};
    ghost use Rattle.patch_reader.specs.Pieces.{Reader, HasRead};

    ghost Value = { Reader };

    ghost view = { λ r. record {
      fed = r.fed.text;
      end = r.end;
      taken = r.taken.rows;
      ready = r.ready.items;
      fault = r.fault;
    } };

    ghost invariant = { λ r.
        HasRead r.end r.fed.text (r.taken.rows ++ r.ready.items) r.fault r.window };
}

impl PatchReader {
    pub fn new(alloc: Global) -> PatchReader
        ensures none { (result.fed ≡ []) × (result.taken ≡ []) × (result.ready ≡ []) }
        ensures open { result.end ≡ ends.Open }
        ensures fault { result.fault ≡ None }
    {
        PatchReader {
            window: RowWindow::new(alloc),
            ready: VecDeque::new(alloc),
            fault: None,
            end: TextEnd::Open,
            fed: Fed::new(),
            taken: Taken::new(),
        }
    }

    /// Takes a further piece of the text. A fault is answered where the text so far has it as its
    /// first one whatever follows.
    pub fn feed(&mut self, piece: &[u8]) -> Result<(), RowFault>
        requires { self.old.end ≡ ends.Open }
        ensures fed { self.new.fed ≡ self.old.fed ++ piece.now }
        ensures same { (self.new.end ≡ ends.Open) × (self.new.taken ≡ self.old.taken) }
        ensures rows { HasAllRows self.new }
        ensures ready { StayReady self.old.ready self.new.ready }
        ensures answer { TellsMetFault self.new.fault result }
        ensures stays { FaultStays self.old self.new }
    {
        self.fed.feed(piece);
        if self.fault.is_some() {
            return self.answer();
        }
        let told = take_piece(&mut self.window, piece, &mut self.ready);
        self.fault = told.err();
        self.answer()
    }

    /// Reads what is left of the text, which ends here. A fault is answered where the text has it
    /// as its first one.
    pub fn finish(&mut self) -> Result<(), RowFault>
        ensures end { self.new.end ≡ ends.Known }
        ensures same { (self.new.fed ≡ self.old.fed) × (self.new.taken ≡ self.old.taken) }
        ensures rows { HasAllRows self.new }
        ensures ready { StayReady self.old.ready self.new.ready }
        ensures answer { TellsMetFault self.new.fault result }
        ensures stays { FaultStays self.old self.new }
        ensures again { self.old.end ≡ ends.Known → self.new ≡ self.old }
    {
        if let TextEnd::Known = self.end {
            return self.answer();
        }
        self.end = TextEnd::Known;
        if self.fault.is_some() {
            return self.answer();
        }
        let told = take_rows(&mut self.window, TextEnd::Known, &mut self.ready);
        self.fault = told.err();
        self.answer()
    }

    /// What is answered.
    fn answer(&self) -> Result<(), RowFault>
        ensures answer { TellsMetFault self.now.fault result }
        ensures rows { HasAllRows self.now }
    {
        match self.fault {
            None => Ok(()),
            Some(fault) => Err(fault),
        }
    }

    /// The next row with its places; none where no row is ready.
    pub fn take_placed(&mut self) -> Option<PlacedRow>
        ensures takes { Takes self.old result self.new }
        ensures rows { HasAllRows self.new }
    {
        let found = self.ready.pop_front();
        if let Some(row) = &found {
            self.taken.take(row);
        }
        found
    }

    /// The next row; none where no row is ready.
    pub fn take_row(&mut self) -> Option<Row>
        ensures takes { TakesRow self.old result self.new }
        ensures rows { HasAllRows self.new }
    {
        match self.take_placed() {
            Some(PlacedRow { row, .. }) => Some(row),
            None => None,
        }
    }
}
