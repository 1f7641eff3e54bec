//! Halls that are opened over files.
ghost use Rattle.std.specs.Prelude.{◌<◌, IfOk, vec_len};

use crate::arguments::number_at;
use crate::hall_faults::tell_refusal;
use crate::journals::generated;
use crate::links::{bytes_of, calls};
use crate::opened::Opened;
use case_scripts::{Answer, Words};
use delta_base::OutOfMemory;
use disk_model::MemDisk;
use std::alloc::Global;
use std::fmt::Write;
use std::sync::Wait;

/// A hall that is open, and the files over which it was opened.
#[derive(Drop)]
pub(crate) struct Stage<'a, R: Wait> {
    pub(crate) rt: &'a R,
    pub(crate) alloc: Global,
    files: Vec<Vec<u8>>,
    /// The number of a file, and that of the call of its disk that fails.
    failing: Option<(u64, u64)>,
    pub(crate) hall: Option<Opened<MemDisk>>,
}

impl<'a, R: Wait> Stage<'a, R> {
    /// No hall and no files.
    pub(crate) fn new(rt: &'a R, alloc: Global) -> Stage<'a, R> {
        Stage {
            rt,
            alloc,
            files: Vec::new(alloc),
            failing: None,
            hall: None,
        }
    }

    pub(crate) fn clear(&mut self) {
        self.files.clear();
        self.failing = None;
        self.put_away();
    }

    // Lets the hall go.
    fn put_away(&mut self) {
        if let Some(hall) = self.hall.take() {
            drop(hall);
        }
    }

    /// `hall-fail FILE CALL`: where a hall is opened next, this call of the file's disk fails, counted from 0.
    pub(crate) fn set_failing(&mut self, words: &Words, answer: &mut Answer) {
        self.failing = match (words.number(1), words.number(2)) {
            (Some(file), Some(call)) => Some((file, call)),
            _ => None,
        };
        answer.push(b"ok");
    }

    fn add_file(&mut self, bytes: &[u8]) -> Result<(), OutOfMemory> {
        self.files.push(Vec::from_slice(self.alloc, bytes)?)?;
        Ok(())
    }

    /// `hall FILE ..`: opens a hall over these files, or tells their first fault.
    pub(crate) fn open_over(&mut self, words: &Words, answer: &mut Answer) {
        self.files.clear();
        for place in 0..words.count() {
            if self.add_file(words.bytes(place.saturating_add(1))).is_err() {
                return answer.push(b"out of memory");
            }
        }
        self.tell_opened(answer);
    }

    /// `filled COUNT FILE`: opens a hall over the file of a registry and that of the first log, which has so many
    /// patches of the generator.
    pub(crate) fn open_filled(&mut self, words: &Words, answer: &mut Answer) {
        self.files.clear();
        if self
            .add_filled(words.bytes(2), number_at(words, 1))
            .is_err()
        {
            return answer.push(b"out of memory");
        }
        self.tell_opened(answer);
    }

    fn add_filled(&mut self, registry: &[u8], count: u32) -> Result<(), OutOfMemory> {
        self.add_file(registry)?;
        self.files.push(generated(self.alloc, 1, count)?)?;
        Ok(())
    }

    fn tell_opened(&mut self, answer: &mut Answer) {
        if self.open(answer) {
            answer.push(b"ok");
        }
    }

    /// Opens a hall over the files, in the place of the one that is open. It says whether it did, and else tells why
    /// not.
    pub(crate) fn open(&mut self, answer: &mut Answer) -> bool {
        self.put_away();
        match disks_of(self.alloc, &self.files, self.failing) {
            Ok(disks) => self.open_on(disks, answer),
            Err(_) => {
                answer.push(b"no disks");
                false
            }
        }
    }

    fn open_on(&mut self, disks: Vec<MemDisk>, answer: &mut Answer) -> bool
        requires { 0 < vec_len disks }
    {
        match Opened::new(self.alloc, disks) {
            Ok(hall) => {
                self.hall = Some(hall);
                true
            }
            Err(refusal) => {
                tell_refusal(&refusal, &self.files, answer);
                drop(refusal);
                false
            }
        }
    }

    /// `crash CHOICE`: closes the hall, and opens one over what a crash leaves of each file: 0 is what was synced,
    /// and 1 what a read gives.
    pub(crate) fn crash(&mut self, words: &Words, answer: &mut Answer) {
        let Some(hall) = self.hall.take() else {
            return answer.push(b"no hall");
        };
        let disks = hall.close();
        let left = images_of(self.alloc, &disks, words.number(1).unwrap_or(0));
        drop(disks);
        match left {
            Ok(files) => {
                self.files = files;
                self.failing = None;
                self.tell_opened(answer);
            }
            Err(_) => answer.push(b"out of memory"),
        }
    }

    /// `hall-file NUMBER`: the bytes of a file over which the hall was opened.
    pub(crate) fn tell_file(&self, words: &Words, answer: &mut Answer) {
        match self.files.get(number_at(words, 1) as usize) {
            Some(bytes) => answer.push(bytes),
            None => answer.push(b"no such file"),
        }
    }

    /// `pass PLACE`: the number of a pass, and how often a disk has failed in its calls.
    pub(crate) fn tell_pass(&self, words: &Words, answer: &mut Answer) {
        let place = number_at(words, 1) as usize % 2;
        if let Some(hall) = &self.hall {
            let _ = write!(
                answer,
                "number {} faults {}",
                hall.number(place),
                hall.own_faults(place)
            );
        }
    }
}

// A disk with these bytes, of which a call may fail.
fn disk_of(alloc: Global, bytes: &[u8], failing: Option<u64>) -> Result<MemDisk, OutOfMemory> {
    MemDisk::from_image(alloc, bytes_of(alloc, bytes), calls(alloc, failing))
}

fn add_disks(
    alloc: Global,
    disks: &mut Vec<MemDisk>,
    files: &[Vec<u8>],
    failing: Option<(u64, u64)>,
) -> Result<(), OutOfMemory> {
    for (place, bytes) in files.iter().enumerate() {
        let call = match failing {
            Some((file, call)) if file == place as u64 => Some(call),
            _ => None,
        };
        disks.push(disk_of(alloc, bytes, call)?)?;
    }
    Ok(())
}

// A disk for each file, of which there is one.
fn disks_of(
    alloc: Global,
    files: &[Vec<u8>],
    failing: Option<(u64, u64)>,
) -> Result<Vec<MemDisk>, OutOfMemory>
    ensures { IfOk result (λ disks. 0 < vec_len disks) }
{
    let mut disks = Vec::new(alloc);
    let added = add_disks(alloc, &mut disks, files, failing);
    if added.is_ok() && !disks.is_empty() {
        return Ok(disks);
    }
    drop(disks);
    Err(OutOfMemory)
}

// What a crash leaves of each disk.
fn images_of(alloc: Global, disks: &[MemDisk], choice: u64) -> Result<Vec<Vec<u8>>, OutOfMemory> {
    let mut files = Vec::new(alloc);
    for disk in disks {
        files.push(disk.image(choice)?.into_vec())?;
    }
    Ok(files)
}
