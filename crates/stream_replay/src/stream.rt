//! A stream that is read in pieces.
ghost use Rattle.std.specs.Prelude.{◌≡◌, ◌+◌, ◌-◌, ◌<◌, ◌≤◌, ◌^◌, ◌++◌, ◌∷◌, ℕ, List, []};
ghost use Rattle.std.specs.Prelude.{None, Some, Ok, Err, IfSome, IfOk, IfErr, OnOk, drop, length};
ghost use Rattle.patch_meaning.specs.Cutting.{EndsStream, IsLastPatch};
ghost use Rattle.patch_meaning.specs.PartRead.{IsToldAt};
ghost use Rattle.patch_rows.specs.declared.cut.TextEnd.{TextEnd as End};
ghost use Rattle.patch_rows.specs.declared.cut.TextEnd.TheVariants as ends;
ghost use Rattle.patch_reader.specs.Places.{IsNotBefore};
ghost use Rattle.patch_reader.specs.Rows.{Gap, RowsStand, StopsRows};
ghost use Rattle.patch_reader.specs.Window.{RowBegins};
ghost use Rattle.row_scan.specs.Rows.{HasRow};

use crate::fault::ReplayFault;
use crate::progress::StreamProgress;
use crate::replay::Replayed;
use delta_base::OutOfMemory;
use log_base::ChainLink;
use patch_meaning::{PatchFault, Role, found_role, role_of};
use patch_reader::{PlacedRow, RowWindow};
use patch_rows::{RowFault, TextEnd};
use row_lines::write_row;
use row_scan::{Says, ScannedRow, scan_row};
use std::alloc::Global;

/// A stream of which some pieces were read.
#[derive(Drop)]
pub struct Streaming {
    window: RowWindow,
    progress: StreamProgress,
    /// The first fault. Behind it nothing is read.
    fault: Option<ReplayFault>,
}

impl Streaming {
    ghost use Rattle.stream_replay.specs.Source.{EndsText, IsReplayed};
    ghost use Rattle.patch_meaning.specs.Patch.{Meaning};
    ghost use Rattle.stream_replay.specs.Streaming.{AwaitsRow, HasBoundedLog, HasFed};
    ghost use Rattle.stream_replay.specs.Streaming.{HasStreamed, IsFew, IsRefusedStream};
    ghost use Rattle.stream_replay.specs.Streaming.{IsStreamRead, IsToldEnd};

    /// No byte so far.
    pub fn new(alloc: Global) -> Streaming
        ensures fed { HasFed [] result }
        ensures few { IsFew result }
        ensures end { result.window.fed ≡ [] }
    {
        Streaming {
            window: RowWindow::new(alloc),
            progress: StreamProgress::new(alloc),
            fault: None,
        }
    }

    /// The text goes on with a piece. Behind it the window keeps nothing of the rows that were
    /// read, and the log of edits goes with the dataset, whatever the stream.
    pub fn feed(&mut self, alloc: Global, piece: &[u8]) -> Result<(), OutOfMemory>
        requires room { length self.old.window.fed + length piece.now ≤ 2 ^ 31 }
        requires few { IsFew self.old }
        ensures fed { OnOk result ((text : List ℕ) → HasFed text self.old
            → HasFed (text ++ piece.now) self.new) }
        ensures few { OnOk result (IsFew self.new) }
        ensures end { OnOk result (length self.new.window.fed
            ≤ length self.old.window.fed + length piece.now) }
        ensures kept { OnOk result
            (self.new.fault ≡ None → self.new.window.passed ≤ self.new.window.kept) }
        ensures memory { OnOk result ((text : List ℕ) → HasFed text self.old
            → self.new.fault ≡ None
            → (ms : List Meaning) × HasBoundedLog ms self.new.progress) }
    {
        if let Some(_) = self.fault {
            return Ok(());
        }
        self.window.push(piece)?;
        match self.advance(alloc, TextEnd::Open) {
            Ok(()) => {
                self.window.settle();
                Ok(())
            }
            Err(told) => self.stop(told),
        }
    }

    // Keeps the fault.
    fn stop(&mut self, told: ReplayFault) -> Result<(), OutOfMemory>
        ensures window { self.new.window ≡ self.old.window }
        ensures fault { OnOk result (self.new.fault ≡ Some told) }
    {
        if matches!(told, ReplayFault::OutOfMemory) {
            return Err(OutOfMemory);
        }
        self.fault = Some(told);
        Ok(())
    }

    // Takes all rows that are known. Each piece begins with the row that was unfinished, which the
    // window follows; behind it come those that the reader of rows needn't read.
    fn advance(&mut self, alloc: Global, end: TextEnd) -> Result<(), ReplayFault>
        requires room { length self.old.window.fed ≤ 2 ^ 31 }
        requires few { self.old.progress.replay.chain.version ≤ self.old.window.passed }
        ensures ok { OnOk result (IsStreamRead end self.old → IsStreamRead end self.new) }
        ensures stops { OnOk result
            (StopsRows end self.new.window.fed self.new.window.passed None) }
        ensures fault { IfErr result (λ told. IsStreamRead end self.old
            → IsToldEnd end self.old.window.fed told) }
        ensures few { OnOk result (self.new.progress.replay.chain.version
            ≤ self.new.window.passed) }
        ensures fed { self.new.window.fed ≡ self.old.window.fed }
        ensures same { self.new.fault ≡ self.old.fault }
    {
        'rows: loop {
            match self.window.next(end) {
                Ok(Some(row)) => self.take_row(alloc, row)?,
                Ok(None) => return Ok(()),
                Err(fault) => return Err(self.break_off(fault)),
            }
            self.take_found_rows(alloc)?;
        }
    }

    // Takes the rows that come next, up to one that the reader of rows is to read.
    fn take_found_rows(&mut self, alloc: Global) -> Result<(), ReplayFault>
        requires room { length self.old.window.fed ≤ 2 ^ 31 }
        requires few { self.old.progress.replay.chain.version ≤ self.old.window.passed }
        ensures ok { OnOk result
            ((end : End) → IsStreamRead end self.old → IsStreamRead end self.new) }
        ensures fault { IfErr result (λ told. (end : End) → IsStreamRead end self.old
            → IsToldEnd end self.old.window.fed told) }
        ensures few { OnOk result (self.new.progress.replay.chain.version
            ≤ self.new.window.passed) }
        ensures further { self.old.window.passed ≤ self.new.window.passed }
        ensures fed { self.new.window.fed ≡ self.old.window.fed }
        ensures same { self.new.fault ≡ self.old.fault }
    {
        let mut line = Vec::new(alloc);
        'rows: while let Some(place) = self.window.row_place() {
            match self.take_front(alloc, place, &mut line)? {
                Some(size) => self.window.pass_row(place + size as u64),
                None => return Ok(()),
            }
        }
        Ok(())
    }

    // Takes the row that stands where the next one begins, if it is canonical, or adds or deletes a
    // quad in any form, and gives how many bytes it has. The quad's line is written into `line`.
    #[inline]
    fn take_front(
        &mut self,
        alloc: Global,
        place: u64,
        line: &mut Vec<u8>,
    ) -> Result<Option<usize>, ReplayFault>
        requires room { self.old.progress.replay.chain.version < 2 ^ 32 - 1 }
        requires begins { RowBegins self.old.window place }
        requires front { self.old.window.front ≡ Some place }
        ensures ok { IfOk result (λ taken. IfSome taken (λ size. (end : End)
            → IsStreamRead end self.old
            → HasStreamed end self.old.window.fed (place + size) self.new.progress)) }
        ensures further { IfOk result (λ taken. IfSome taken (λ size. 0 < size)) }
        ensures within { IfOk result (λ taken. IfSome taken (λ size.
            place + size ≤ length self.old.window.fed)) }
        ensures none { result ≡ Ok None → self.new.progress ≡ self.old.progress }
        ensures fault { IfErr result (λ told. (end : End) → IsStreamRead end self.old
            → IsToldEnd end self.old.window.fed told) }
        ensures version { OnOk result (self.new.progress.replay.chain.version
            ≤ self.old.progress.replay.chain.version + 1) }
        ensures window { self.new.window ≡ self.old.window }
        ensures same { self.new.fault ≡ self.old.fault }
    {
        if let Some(found) = scan_row(self.window.row_front(), 0) {
            self.take_found(alloc, found, place)?;
            return Ok(Some(found.end));
        }
        match write_row(alloc, self.window.row_front(), 0, line)? {
            Some(row) => {
                self.progress.take_quad(row.adds, line, place)?;
                Ok(Some(row.end))
            }
            None => Ok(None),
        }
    }

    // Takes a canonical row that was found where the next one begins.
    #[inline]
    fn take_found(
        &mut self,
        alloc: Global,
        found: ScannedRow,
        place: u64,
    ) -> Result<(), ReplayFault>
        requires room { self.old.progress.replay.chain.version < 2 ^ 32 - 1 }
        requires begins { RowBegins self.old.window place }
        requires front { self.old.window.front ≡ Some place }
        requires found { HasRow (drop place self.old.window.fed) 0 found }
        ensures ok { OnOk result ((end : End) → IsStreamRead end self.old
            → HasStreamed end self.old.window.fed (place + found.end) self.new.progress) }
        ensures fault { IfErr result (λ told. (end : End) → IsStreamRead end self.old
            → IsToldEnd end self.old.window.fed told) }
        ensures version { OnOk result (self.new.progress.replay.chain.version
            ≤ self.old.progress.replay.chain.version + 1) }
        ensures window { self.new.window ≡ self.old.window }
        ensures same { self.new.fault ≡ self.old.fault }
    {
        if let Says::Quad { adds, line } = found.says {
            let bytes = &self.window.row_front()[line..found.end + 1];
            self.progress.take_quad(adds, bytes, place)?;
            return Ok(());
        }
        match found_role(found.says) {
            Some(says) => {
                let taken = self.take(alloc, &says, place);
                drop(says);
                taken
            }
            None => Ok(()),
        }
    }

    // Takes the row that was passed last.
    fn take_row(&mut self, alloc: Global, row: PlacedRow) -> Result<(), ReplayFault>
        requires room { self.old.progress.replay.chain.version < 2 ^ 32 - 1 }
        requires low { self.old.window.kept ≤ row.at }
        requires high { row.at ≤ length self.old.window.fed }
        ensures ok { OnOk result ((end : End) (passed : ℕ)
            → RowsStand end self.old.window.fed passed (row ∷ []) row.end
            → HasStreamed end self.old.window.fed passed self.old.progress
            → HasStreamed end self.old.window.fed row.end self.new.progress) }
        ensures fault { IfErr result (λ told. (end : End) (passed : ℕ)
            → RowsStand end self.old.window.fed passed (row ∷ []) row.end
            → HasStreamed end self.old.window.fed passed self.old.progress
            → IsToldEnd end self.old.window.fed told) }
        ensures version { OnOk result (self.new.progress.replay.chain.version
            ≤ self.old.progress.replay.chain.version + 1) }
        ensures window { self.new.window ≡ self.old.window }
        ensures same { self.new.fault ≡ self.old.fault }
    {
        let PlacedRow { row, at, .. } = row;
        let says = role_of(row);
        let taken = self.take(alloc, &says, at);
        drop(says);
        taken
    }

    // Takes what the row at a place says.
    fn take(&mut self, alloc: Global, says: &Role, at: u64) -> Result<(), ReplayFault>
        requires room { self.old.progress.replay.chain.version < 2 ^ 32 - 1 }
        requires low { self.old.window.kept ≤ at }
        requires high { at ≤ length self.old.window.fed }
        ensures ok { OnOk result ((end : End) (stop : ℕ)
            → AwaitsRow end self.old.window.fed self.old.progress says.now at stop
            → HasStreamed end self.old.window.fed stop self.new.progress) }
        ensures fault { IfErr result (λ told. (end : End) (stop : ℕ)
            → AwaitsRow end self.old.window.fed self.old.progress says.now at stop
            → IsToldEnd end self.old.window.fed told) }
        ensures version { OnOk result (self.new.progress.replay.chain.version
            ≤ self.old.progress.replay.chain.version + 1) }
        ensures window { self.new.window ≡ self.old.window }
        ensures same { self.new.fault ≡ self.old.fault }
    {
        match self.progress.take(alloc, says, at) {
            Ok(()) => Ok(()),
            Err(fault) => Err(Streaming::tell(&self.window, fault, at)),
        }
    }

    // The fault at this place of the window with its line; that a patch is too long has none.
    fn tell(window: &RowWindow, fault: PatchFault, at: u64) -> ReplayFault
        requires low { window.now.kept ≤ at }
        requires high { at ≤ length window.now.fed }
        requires told { IsToldAt at fault }
        ensures { (end : End) → IsRefusedStream end window.now.fed fault
            → IsToldEnd end window.now.fed result }
    {
        match fault {
            PatchFault::At { at, kind } => ReplayFault::Stream {
                line: window.line_at(at),
                at,
                kind,
            },
            PatchFault::TooLong { length, limit } => ReplayFault::LongPatch { length, limit },
            PatchFault::OutOfMemory => ReplayFault::OutOfMemory,
        }
    }

    // The fault where no row stands.
    fn break_off(&self, fault: RowFault) -> ReplayFault
        requires there { (end : End) × (passed : ℕ)
            × StopsRows end self.now.window.fed passed (Some fault) }
        requires kept { IsNotBefore self.now.window.kept (Err fault) }
        ensures { (end : End) → StopsRows end self.now.window.fed self.now.window.passed
            (Some fault)
            → IsStreamRead end self.now → IsToldEnd end self.now.window.fed result }
    {
        match fault {
            RowFault::At { at, kind } => {
                Streaming::tell(&self.window, self.progress.part.break_stream(at, kind), at)
            }
            RowFault::OutOfMemory => ReplayFault::OutOfMemory,
        }
    }

    // The ids of the last patch of a stream that ends with what was fed.
    fn last_patch(&self) -> Result<Option<ChainLink>, ReplayFault>
        ensures ok { IfOk result (EndsStream self.now.progress.part (length self.now.window.fed)) }
        ensures last { IfOk result
            (IsLastPatch self.now.progress.part (length self.now.window.fed)) }
        ensures fault { IfErr result (λ told. IsStreamRead ends.Known self.now
            → Gap self.now.window.fed self.now.window.passed (length self.now.window.fed)
            → EndsText told self.now.window.fed) }
    {
        let stop = self.window.end();
        match self.progress.part.finish_stream(stop) {
            Ok(done) => Ok(done),
            Err(fault) => Err(Streaming::tell(&self.window, fault, stop)),
        }
    }

    /// The replay of the whole text.
    pub fn finish(mut self, alloc: Global) -> Result<Replayed, ReplayFault>
        requires room { length self.window.fed ≤ 2 ^ 31 }
        requires few { IsFew self }
        ensures ok { IfOk result (λ replayed. (text : List ℕ) → HasFed text self
            → IsReplayed replayed text) }
        ensures fault { IfErr result (λ fault. (text : List ℕ) → HasFed text self
            → EndsText fault text) }
    {
        if let Some(told) = self.fault {
            return Err(told);
        }
        self.advance(alloc, TextEnd::Known)?;
        let done = self.last_patch()?;
        let Streaming { progress, .. } = self;
        progress.finish(done)
    }
}
