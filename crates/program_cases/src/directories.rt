//! The files of directories.
use crate::arguments::number_at;
use crate::journals::generated;
use crate::tool::Tool;
use case_scripts::{Answer, Words};
use delta_base::{OutOfMemory, Text};
use disk_model::{Disk, MemShelf, Shelf};
use std::alloc::Global;

// The name of a directory.
fn dir_of(alloc: Global, name: &[u8]) -> Result<Text, OutOfMemory> {
    Text::from_str(alloc, str::from_utf8(name).unwrap_or(""))
}

// Writes these bytes at a file's front. It says whether it did.
fn write(shelf: &mut MemShelf, dir: &Text, number: u32, bytes: &[u8]) -> bool {
    let Ok(mut disk) = shelf.disk(dir, number) else {
        return false;
    };
    let wrote = disk.write_at(0, bytes);
    shelf.put_back(disk);
    wrote.is_ok()
}

impl Tool {
    // Writes a file of the directory and the number that the words name.
    fn write(&mut self, words: &Words, bytes: &[u8], answer: &mut Answer) {
        let Ok(dir) = dir_of(self.alloc, words.bytes(1)) else {
            return answer.push(b"out of memory");
        };
        let wrote = write(&mut self.shelf, &dir, number_at(words, 2), bytes);
        answer.push(if wrote { b"ok" } else { b"disk failed" });
    }

    /// `put DIR NUMBER PART ..`: writes a new file.
    pub(crate) fn put(&mut self, words: &Words, answer: &mut Answer) {
        self.write(words, words.bytes_from(3), answer);
    }

    /// `put-generated DIR NUMBER COUNT`: writes a new journal of so many patches of the generator.
    pub(crate) fn put_generated(&mut self, words: &Words, answer: &mut Answer) {
        match generated(self.alloc, number_at(words, 2), number_at(words, 3)) {
            Ok(bytes) => self.write(words, &bytes, answer),
            Err(_) => answer.push(b"out of memory"),
        }
    }

    /// `file DIR NUMBER`: the bytes of a file, where there is one.
    pub(crate) fn tell_file(&self, words: &Words, answer: &mut Answer) {
        let number = number_at(words, 2);
        let Ok(dir) = dir_of(self.alloc, words.bytes(1)) else {
            return answer.push(b"out of memory");
        };
        match self.shelf.file(&dir, number) {
            Some(bytes) => answer.push(bytes),
            None => answer.push(b"no file"),
        }
    }
}
