//! A log of edits of lines.
ghost use Rattle.std.specs.Prelude.{◌≡◌, ◌<◌, ◌≤◌, ◌++◌, ◌∷◌, ◌↔◌, []};
ghost use Rattle.std.specs.Prelude.{length, take, drop, cond, IfOk, OnOk, OnErr, IsTrue};
ghost use Rattle.std.specs.List.{AllByRecursion};
ghost use Rattle.line_log.specs.Edits.{bytes_of, made};
ghost use Rattle.line_log.specs.Sorting.{FrontRises, HasLinesOf, IsRowBehind, LineRises, additions};
ghost use Rattle.line_log.specs.Sorting.{adds_at, edits_at, first_cmp, front_rows, keep, line_at};
ghost use Rattle.line_log.specs.Sorting.{lines_at, lines_numbered, merged, numbered, stands_at};

use crate::edits::{Edit, start_of};
use crate::lines::MadeLines;
use crate::sorting::{Row, ends};
use delta_base::OutOfMemory;
use line_order::{Keyed, sort_keyed};
use std::alloc::Global;
use std::cmp::Ordering;
use std::marker::Model;

/// Edits in their order, which contracts see as a list: whether a line is put among the others or
/// taken out, and the line. Their lines take at most 4 GiB together.
#[derive(Drop)]
pub struct LineLog {
    text: Vec<u8>,
    edits: Vec<Edit>,
}

impl Model for LineLog {
    ghost use Rattle.std.specs.Prelude.{List, Bool, ℕ, length};
    ghost use Rattle.line_log.specs.Held.{Fill, cut_edits};

    ghost Value = { List (Bool × List ℕ) };

    ghost view = { λ l. cut_edits 0 l.edits.items l.text.items };

    ghost invariant = { λ l. Fill 0 l.edits.items (length l.text.items) };
}

impl LineLog {
    /// No edit so far.
    pub fn new(alloc: Global) -> LineLog
        ensures { result ≡ [] }
    {
        LineLog {
            text: Vec::new(alloc),
            edits: Vec::new(alloc),
        }
    }

    // No edit so far, with room for so many bytes of lines.
    fn with_room(alloc: Global, bytes: usize) -> Result<LineLog, OutOfMemory>
        ensures { IfOk result (λ log. log ≡ []) }
    {
        Ok(LineLog {
            text: Vec::with_capacity(alloc, bytes)?,
            edits: Vec::new(alloc),
        })
    }

    /// How many edits there are.
    pub fn len(&self) -> usize
        ensures { result ≡ length self.now }
    {
        self.edits.len()
    }

    pub fn is_empty(&self) -> bool
        ensures { IsTrue result ↔ (self.now ≡ []) }
    {
        self.edits.is_empty()
    }

    /// The line of an edit.
    #[inline]
    pub fn line(&self, number: usize) -> &[u8]
        requires { number < length self.now }
        ensures { result.now ≡ line_at self.now number }
    {
        let start = start_of(self.edits.as_slice(), number);
        let end = self.edits[number].end as usize;
        &self.text[start..end]
    }

    /// One more edit: the line comes among the others, or goes.
    pub fn push(&mut self, adds: bool, line: &[u8]) -> Result<(), OutOfMemory>
        ensures ok { OnOk result (self.new ≡ self.old ++ (adds, line.now) ∷ []) }
        ensures err { OnErr result (self.new ≡ self.old) }
    {
        let before = self.text.len();
        self.text.extend_from_slice(line)?;
        if let Ok(end) = u32::try_from(self.text.len()) {
            if let Ok(()) = self.edits.push(Edit { adds, end }) {
                return Ok(());
            }
        }
        self.text.truncate(before);
        Err(OutOfMemory)
    }

    /// Lets go all edits but the first ones.
    pub fn truncate(&mut self, count: usize)
        ensures { self.new ≡ take count self.old }
    {
        if count < self.edits.len() {
            self.text.truncate(start_of(self.edits.as_slice(), count));
            self.edits.truncate(count);
        }
    }

    /// How many bytes the lines of the edits have together.
    pub fn bytes(&self) -> usize
        ensures { result ≡ bytes_of self.now }
    {
        self.text.len()
    }

    /// Keeps one edit a line that stands, in the order of the lines' bytes, and nothing else. Where
    /// memory is wanting, all stays as it was.
    pub fn settle(&mut self) -> Result<(), OutOfMemory>
        ensures ok { OnOk result (self.new ≡ additions (made self.old)) }
        ensures err { OnErr result (self.new ≡ self.old) }
    {
        let settled = self.settled()?;
        *self = settled;
        Ok(())
    }

    /// The lines that the edits make of none. No line is copied.
    pub fn into_lines(self) -> Result<MadeLines, OutOfMemory>
        ensures { IfOk result (λ lines. lines ≡ made self) }
    {
        let order = self.order()?;
        Ok(MadeLines { log: self, order })
    }

    // Edits that add each of the lines, in the order of their bytes.
    fn settled(&self) -> Result<LineLog, OutOfMemory>
        ensures { IfOk result (λ log. log ≡ additions (made self.now)) }
    {
        let order = self.order()?;
        self.log_of(&order)
    }

    // Edits that add the lines of these edits.
    fn log_of(&self, order: &[u32]) -> Result<LineLog, OutOfMemory>
        requires { AllByRecursion (λ n. n < length self.now) order.now }
        ensures { IfOk result (λ log. log ≡ additions (lines_at self.now order.now)) }
    {
        let mut log = LineLog::with_room(*self.edits.allocator(), self.text.len())?;
        for number in order {
            log.push(true, self.line(*number as usize))?;
        }
        Ok(log)
    }

    // The numbers of the edits whose lines stay, in the order of the lines' bytes. Those that were
    // settled stand in order at the front, so only the others are sorted.
    fn order(&self) -> Result<Vec<u32>, OutOfMemory>
        ensures { IfOk result (λ order. HasLinesOf self.now order.items (made self.now)) }
    {
        let front = self.rising();
        let mut rows = self.rows(front)?;
        self.order_of(front, &mut rows)
    }

    // How many edits at the front have lines that rise.
    fn rising(&self) -> usize
        ensures within { result ≤ length self.now }
        ensures rise { FrontRises self.now result }
    {
        let mut front = 0;
        while front < self.len() && self.rises_at(front) {
            front += 1;
        }
        front
    }

    // Whether the line of an edit is behind that of the one before it, if there is one.
    #[inline]
    fn rises_at(&self, number: usize) -> bool
        requires { number < length self.now }
        ensures { IsTrue result → LineRises self.now number }
    {
        number == 0 || self.line(number - 1).cmp(self.line(number)).is_lt()
    }

    // The lines of the edits behind those at the front.
    fn rows(&self, front: usize) -> Result<Vec<Row<'_>>, OutOfMemory>
        requires { front ≤ length self.now }
        ensures { IfOk result (λ rows. lines_numbered rows.items
            ≡ numbered front (drop front self.now)) }
    {
        let mut rows = Vec::with_capacity(*self.edits.allocator(), self.len() - front)?;
        for number in front..self.len() {
            rows.push(Keyed::new((self.line(number), number)))?;
        }
        Ok(rows)
    }

    // The same as `order`, where these are the rows behind the front.
    fn order_of(&self, front: usize, rows: &mut [Row]) -> Result<Vec<u32>, OutOfMemory>
        requires within { front ≤ length self.now }
        requires rise { FrontRises self.now front }
        requires rows { lines_numbered rows.old ≡ numbered front (drop front self.now) }
        ensures { IfOk result (λ order. HasLinesOf self.now order.items (made self.now)) }
    {
        sort_keyed(rows);
        self.kept(front, rows)
    }

    // The numbers of the lines that stay of the front and of rows behind it, merged.
    fn kept(&self, front: usize, rows: &[Row]) -> Result<Vec<u32>, OutOfMemory>
        requires within { front ≤ length self.now }
        requires rise { FrontRises self.now front }
        requires rows { AllByRecursion (IsRowBehind self.now front) (lines_numbered rows.now) }
        ensures { IfOk result (λ order. HasLinesOf self.now order.items
            (keep (edits_at self.now (merged self.now front 0 (lines_numbered rows.now))))) }
    {
        let mut kept = Vec::new(*self.edits.allocator());
        let mut next = 0;
        let mut rest = rows;
        loop {
            match self.compares(front, next, rest) {
                Ordering::Less => {
                    push_if(next, self.adds(next), &mut kept)?;
                    next += 1;
                }
                Ordering::Equal => next += 1,
                Ordering::Greater => match rest {
                    [] => return Ok(kept),
                    [row, behind @ ..] => {
                        push_if(row.line.1, self.stays(row, behind), &mut kept)?;
                        rest = behind;
                    }
                },
            }
        }
    }

    // How the line of an edit at the front compares with that of the next row, if there are such.
    #[inline]
    fn compares(&self, front: usize, number: usize, rows: &[Row]) -> Ordering
        requires { front ≤ length self.now }
        ensures { result ≡ first_cmp (front_rows self.now front number) (lines_numbered rows.now) }
    {
        if number >= front {
            return Ordering::Greater;
        }
        match rows {
            [] => Ordering::Less,
            [row, ..] => self.line(number).cmp(row.line.0),
        }
    }

    // Whether a row's edit is the last of its line, and adds it.
    #[inline]
    fn stays(&self, row: &Row, behind: &[Row]) -> bool
        requires { row.now.line.1 < length self.now }
        ensures { result ≡ stands_at self.now row.now behind.now }
    {
        let (line, number) = row.line;
        self.adds(number) && ends(line, behind)
    }

    // Whether an edit adds its line.
    #[inline]
    fn adds(&self, number: usize) -> bool
        requires { number < length self.now }
        ensures { result ≡ adds_at self.now number }
    {
        self.edits[number].adds
    }
}

// Puts a number behind others, if it stays.
#[inline]
fn push_if(number: usize, stays: bool, kept: &mut Vec<u32>) -> Result<(), OutOfMemory>
    ensures { OnOk result (kept.new.items
        ≡ cond stays (kept.old.items ++ number ∷ []) kept.old.items) }
{
    if stays {
        let Ok(number) = u32::try_from(number) else {
            return Err(OutOfMemory);
        };
        kept.push(number)?;
    }
    Ok(())
}
