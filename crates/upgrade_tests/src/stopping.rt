//! Files of one directory, of which one's disk stops behind so many calls.
ghost use Rattle.std.specs.Prelude.{◌≡◌, None, IfOk, IsErrOf};
ghost use Rattle.disk_model.specs.Memory.{bytes_read, faults_of, memory_past, memory_reads_left};

use delta_base::{Bytes, Failed, Listing, Text};
use disk_model::{Disk, MemDisk, Shelf, ShelfFault};
use std::alloc::Global;

/// A disk that knows the number of its file.
#[derive(Drop)]
pub struct NumberedDisk {
    number: u32,
    disk: MemDisk,
}

impl Disk for NumberedDisk {
    ghost tells = { Unit };

    ghost past = { λ numbered. memory_past numbered.disk };

    ghost read_bytes = { λ numbered. bytes_read numbered.disk };

    ghost faults = { λ numbered. faults_of numbered.disk };

    ghost mark = { λ numbered. None };

    ghost reads_may_be_left = { λ numbered tells. memory_reads_left numbered.disk };

    fn faults(&self) -> u64 {
        self.disk.faults()
    }

    fn len(&mut self) -> Result<u64, Failed> {
        self.disk.len()
    }

    fn read_at(&mut self, at: u64, into: &mut [u8]) -> Result<usize, Failed> {
        self.disk.read_at(at, into)
    }

    fn write_at(&mut self, at: u64, bytes: &[u8]) -> Result<(), Failed> {
        self.disk.write_at(at, bytes)
    }

    fn sync(&mut self) -> Result<(), Failed> {
        self.disk.sync()
    }
}

/// Which file's disk stops, and behind how many calls.
#[derive(Clone, Copy)]
pub struct Stop {
    pub number: u32,
    pub calls: u64,
}

/// A file by its number.
#[derive(Drop)]
pub struct Image {
    pub number: u32,
    pub bytes: Bytes,
}

/// Files, and what a crash leaves of each disk that is put back.
#[derive(Drop)]
pub struct StoppingShelf {
    alloc: Global,
    images: Listing<Image>,
    stop: Stop,
    choice: u64,
    faults: u64,
}

impl StoppingShelf {
    /// A shelf with these files, one of which stops. A crash leaves of each the image of this
    /// choice.
    pub fn new(alloc: Global, images: Listing<Image>, stop: Stop, choice: u64) -> StoppingShelf {
        StoppingShelf {
            alloc,
            images,
            stop,
            choice,
            faults: 0,
        }
    }

    /// The files.
    pub fn into_images(self) -> Listing<Image> {
        self.images
    }

    // The bytes of a file, and none where there is no file.
    fn bytes_of(&self, number: u32) -> &[u8] {
        for image in self.images.as_slice() {
            if image.number == number {
                return image.bytes.as_slice();
            }
        }
        b""
    }

    fn open(&self, number: u32) -> Result<NumberedDisk, ShelfFault>
        ensures fresh { IfOk result (λ opened. faults_of opened.disk ≡ 0) }
        ensures memory { IsErrOf result ShelfFault.Failed → ⊥ }
    {
        let bytes = Bytes::from_slice(self.alloc, self.bytes_of(number))?;
        let disk = if number == self.stop.number {
            MemDisk::with_fuse(self.alloc, bytes, self.stop.calls)?
        } else {
            MemDisk::from_image(self.alloc, bytes, Listing::new(self.alloc))?
        };
        Ok(NumberedDisk { number, disk })
    }
}

// These files, of which one has these bytes from now on.
fn with_bytes(alloc: Global, images: Listing<Image>, number: u32, bytes: Bytes) -> Listing<Image> {
    let mut kept = Listing::new(alloc);
    for image in images.into_vec() {
        if image.number != number {
            let _ = kept.push(image);
        }
    }
    let _ = kept.push(Image { number, bytes });
    kept
}

impl Shelf for StoppingShelf {
    type D = NumberedDisk;

    ghost tells = { ⊥ };

    ghost files = { λ shelf dir number. None };

    ghost faults = { λ shelf. shelf.faults };

    ghost disks_tell = { λ told. tt };

    fn faults(&self) -> u64 {
        self.faults
    }

    fn disk(&mut self, _dir: &Text, number: u32) -> Result<NumberedDisk, ShelfFault> {
        self.open(number)
    }

    fn put_back(&mut self, disk: NumberedDisk) {
        if disk.faults() > 0 {
            self.faults = self.faults.saturating_add(1);
        }
        if let Ok(bytes) = disk.disk.image(self.choice) {
            let images = std::mem::replace(&mut self.images, Listing::new(self.alloc));
            self.images = with_bytes(self.alloc, images, disk.number, bytes);
        }
    }
}
