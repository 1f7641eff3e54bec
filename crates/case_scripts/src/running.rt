//! Runs a script over a layer, and tells what differs.
use crate::answer::Answer;
use crate::texts::Texts;
use crate::words::{Words, read_number};
use bstr::ByteSlice;
use csv::{ByteRecord, Error, ReaderBuilder};
use std::alloc::{AllocError, Global};
use std::fmt::Write;
use std::io;
use std::io::{Input, Print, Read};

/// What is shown by a script.
pub trait Layer {
    /// Lets go what is open, at the head of a case.
    fn clear(&mut self);

    /// Runs a command, and writes what it answers.
    fn answer(&mut self, words: &Words, answer: &mut Answer);
}

/// What has been run of a script: how many cases and lines, how many of these hold, and which don't.
#[derive(Drop)]
struct Run {
    alloc: Global,
    texts: Texts,
    cases: u64,
    lines: u64,
    held: u64,
    told: Answer,
}

impl Run {
    fn new(alloc: Global) -> Run {
        Run {
            alloc,
            texts: Texts::new(alloc),
            cases: 0,
            lines: 0,
            held: 0,
            told: Answer::new(alloc),
        }
    }

    // What the words from a place on stand for, without a break.
    fn join(&self, row: &ByteRecord, place: usize) -> Result<Vec<u8>, AllocError> {
        let mut text = Vec::new(self.alloc);
        for word in row.iter().skip(place) {
            text.extend_from_slice(self.texts.expand(word)?.as_slice())?;
        }
        Ok(text)
    }

    // `text NAME PART ..` names the parts one behind another, `times NAME N PART ..` so often.
    fn name_text(&mut self, row: &ByteRecord, place: usize, count: u64) -> Result<(), AllocError> {
        let once = self.join(row, place)?;
        let mut text = Vec::new(self.alloc);
        for _ in 0..count {
            text.extend_from_slice(once.as_slice())?;
        }
        self.texts.name(row.get(1).unwrap_or(b""), text)
    }

    // The words of a command, and what it must answer: `ok` where nothing is said.
    fn read(&self, row: &ByteRecord) -> Result<(Words, Vec<u8>), AllocError> {
        let mut words = ByteRecord::new(self.alloc);
        let mut wanted = Vec::new(self.alloc);
        let mut is_behind = false;
        for word in row.iter() {
            if word == b"=>".as_slice() {
                is_behind = true;
            } else if is_behind {
                push_word(&mut wanted, self.texts.expand(word)?.as_slice())?;
            } else {
                words.push_field(self.texts.expand(word)?.as_slice())?;
            }
        }
        if !is_behind {
            wanted.extend_from_slice(b"ok")?;
        }
        Ok((Words { words }, wanted))
    }

    // Runs a command, and tells its line where it answers otherwise.
    fn compare<L: Layer>(&mut self, layer: &mut L, row: &ByteRecord) -> Result<(), AllocError> {
        let (words, wanted) = self.read(row)?;
        let mut answer = Answer::new(self.alloc);
        layer.answer(&words, &mut answer);
        self.lines = self.lines.saturating_add(1);
        if answer.is(wanted.as_slice()) {
            self.held = self.held.saturating_add(1);
        } else {
            let _ = writeln!(
                self.told,
                "line {}: {} => {}",
                row.position().map_or(0, |place| place.line()),
                words.name().escape_bytes(),
                answer.bytes().escape_bytes()
            );
        }
        Ok(())
    }

    fn run_row<L: Layer>(&mut self, layer: &mut L, row: &ByteRecord) -> Result<(), AllocError> {
        match row.get(0).unwrap_or(b"") {
            b"text" => self.name_text(row, 2, 1),
            b"times" => self.name_text(row, 3, read_number(row.get(2).unwrap_or(b"")).unwrap_or(0)),
            b"case" => {
                layer.clear();
                self.cases = self.cases.saturating_add(1);
                Ok(())
            }
            _ => self.compare(layer, row),
        }
    }

    fn finish(mut self) -> Vec<u8> {
        let _ = writeln!(
            self.told,
            "{} of {} lines hold, {} cases",
            self.held, self.lines, self.cases
        );
        self.told.into_bytes()
    }
}

// Adds a word behind a blank.
fn push_word(text: &mut Vec<u8>, word: &[u8]) -> Result<(), AllocError> {
    if !text.is_empty() {
        text.push(b' ')?;
    }
    text.extend_from_slice(word)
}

// What is to be printed of a script.
fn report<S: Read + Drop, L: Layer>(
    alloc: Global,
    script: S,
    layer: &mut L,
) -> Result<Vec<u8>, Error> {
    let mut reader = ReaderBuilder::new()
        .has_headers(false)
        .flexible(true)
        .delimiter(b' ')
        .quote(b'\'')
        .comment(Some(b'#'))
        .from_reader(alloc, script);
    let mut row = ByteRecord::new(alloc);
    let mut run = Run::new(alloc);
    for _ in 0..u64::MAX {
        if !reader.read_byte_record(&mut row)? {
            break;
        }
        if run.run_row(layer, &row).is_err() {
            return Err(Error::out_of_memory());
        }
    }
    Ok(run.finish())
}

/// Runs the script on standard input, and prints each line that answers otherwise with what it answers, and then how
/// many lines hold and how many cases there are.
pub fn run_script<R: Input + Print + AllocGlobal, L: Layer>(
    rt: &R,
    layer: &mut L,
) -> io::Result<()> {
    match report(rt.alloc(), rt.reader(), layer) {
        Ok(told) => rt.write_all(told.as_slice()),
        Err(_) => Err(io::Error::from(io::ErrorKind::InvalidData)),
    }
}
