//! Each adapter once over real files.
use delta_base::{Failed, Text};
use disk_model::{Disk, HostDisk, HostShelf, Shelf};
use std::alloc::Global;
use std::fs::{self, File, OpenOptions};
use std::process::Abort;
use std::rt::{Env, Files};
use std::test::Fail;
use std::{env, process};

fn is_long(rt: &impl Abort, disk: &mut impl Disk, length: u64) {
    assert!(rt; disk.len() == Ok(length));
}

/// Takes a file of a shelf, and puts it back.
pub fn takes<S: Shelf>(shelf: &mut S, dir: &Text, number: u32) -> Result<(), Failed> {
    let disk = shelf.disk(dir, number).map_err(|_| Failed)?;
    shelf.put_back(disk);
    Ok(())
}

/// Writes a file of the shelf, and reads past its end.
fn write_and_read(rt: &impl Abort, disk: &mut impl Disk) {
    is_long(rt, disk, 0);
    assert!(rt; disk.write_at(0, b"abc").is_ok());
    assert!(rt; disk.sync().is_ok());
    let mut into = [b'.'; 4];
    assert!(rt; disk.read_at(1, &mut into) == Ok(2));
    assert!(rt; into == *b"bc..");
    is_long(rt, disk, 3);
}

/// A file is one disk's alone until that is put back.
fn is_one_disk<S: Shelf>(
    rt: &impl Abort,
    shelf: &mut S,
    dir: &Text,
    number: u32,
) -> Result<(), Failed> {
    let mut disk = shelf.disk(dir, number).map_err(|_| Failed)?;
    write_and_read(rt, &mut disk);
    assert!(rt; takes(shelf, dir, number).is_err());
    assert!(rt; shelf.faults() == 1);
    shelf.put_back(disk);
    takes(shelf, dir, number)
}

/// The same of a file of the system.
fn is_one_file<R: Abort + Files<File = File>>(
    rt: &R,
    alloc: Global,
    dir: &Text,
    number: u32,
) -> Result<(), Failed> {
    let mut shelf = HostShelf::new(rt, alloc);
    let read = is_one_disk(rt, &mut shelf, dir, number);
    assert!(rt; shelf.faults() == 1);
    drop(shelf);
    read
}

/// The system's folder for what doesn't last.
fn temp_folder(rt: &HostRuntime) -> Result<String, Fail> {
    let folder = env::temp_dir(rt)?;
    let text = folder.as_path().to_str().ok_or("the folder is no text")?;
    Ok(format!(in rt.alloc(); "{text}")?)
}

/// A path there that is this process's alone.
fn temp_path(rt: &HostRuntime, name: &str) -> Result<String, Fail> {
    let process = process::id(rt.process());
    let folder = temp_folder(rt)?;
    Ok(format!(in rt.alloc(); "{folder}/{name}-{process}")?)
}

/// The bytes of a file, which goes.
fn taken(rt: &HostRuntime, path: &str) -> Result<Vec<u8>, Fail> {
    let bytes = fs::read(rt, path)?;
    fs::remove_file(rt, path)?;
    Ok(bytes)
}

#[test]
fn a_file_of_the_system_is_read_past_its_end(rt: HostRuntime) -> Result<(), Fail> {
    let number = 1000 + process::id(rt.process()) % 8000;
    let folder = temp_folder(&rt)?;
    let dir = Text::from_str(rt.alloc(), folder.as_str())?;
    let read = is_one_file(&rt, rt.alloc(), &dir, number);
    drop(dir);
    read?;
    let path = format!(in rt.alloc(); "{folder}/rdj-{number:04}")?;
    let bytes = taken(&rt, path.as_str())?;
    assert!(rt; bytes.as_slice() == b"abc".as_slice());
    Ok(())
}

/// A read of some bytes gives these.
fn reads(rt: &impl Abort, disk: &mut impl Disk, at: u64, bytes: &[u8; 2]) {
    let mut into = *b"..";
    assert!(rt; disk.read_at(at, &mut into) == Ok(2));
    assert!(rt; into == *bytes);
}

fn reads_what_was_written(rt: &impl Abort, disk: &mut HostDisk) {
    for (at, bytes) in [(2, b"cd"), (4, b"ef"), (0, b"ab"), (3, b"de")] {
        reads(rt, disk, at, bytes);
    }
    assert!(rt; disk.write_at(3, b"XYZ!").is_ok());
    for (at, bytes) in [(2, b"cX"), (4, b"YZ"), (5, b"Z!")] {
        reads(rt, disk, at, bytes);
    }
}

#[test]
fn a_read_gives_what_was_written_since_the_one_before(rt: HostRuntime) -> Result<(), Fail> {
    let path = temp_path(&rt, "delta-again")?;
    fs::write(&rt, path.as_str(), b"abcdef")?;
    let file = OpenOptions::new()
        .read(true)
        .write(true)
        .open(&rt, path.as_str())?;
    let mut disk = HostDisk::new(rt.alloc(), file);
    reads_what_was_written(&rt, &mut disk);
    drop(disk);
    fs::remove_file(&rt, path.as_str())?;
    Ok(())
}

#[test]
fn a_path_that_is_no_folder_fails(rt: HostRuntime) -> Result<(), Fail> {
    let mut shelf = HostShelf::new(&rt, rt.alloc());
    for (path, faults) in [("/nowhere/at/all", 1), ("", 2)] {
        let dir = Text::from_str(rt.alloc(), path)?;
        assert!(rt; takes(&mut shelf, &dir, 1).is_err());
        assert!(rt; shelf.faults() == faults);
    }
    drop(shelf);
    Ok(())
}

fn refuses_write(rt: &impl Abort, disk: &mut HostDisk) {
    assert!(rt;
        disk.write_at(0, b"x") == Err(Failed),
        "the file is opened for reading alone"
    );
    assert!(rt; disk.faults() == 1);
    assert!(rt; disk.len() == Ok(3));
}

// What is written before a sync that fails is well, and nothing behind it.
fn loses_what_was_written(rt: &impl Abort, disk: &mut HostDisk) {
    assert!(rt; disk.write_at(0, b"x").is_ok());
    assert!(rt; disk.sync() == Err(Failed), "the system syncs no device");
    assert!(rt; disk.faults() == 1);
    assert!(rt; disk.write_at(0, b"x") == Err(Failed));
    assert!(rt; disk.sync() == Err(Failed));
    assert!(rt; disk.faults() == 3);
}

#[test]
fn behind_a_failed_sync_no_call_is_well(rt: HostRuntime) -> Result<(), Fail> {
    let file = OpenOptions::new()
        .read(true)
        .write(true)
        .open(&rt, "/dev/null")?;
    let mut disk = HostDisk::new(rt.alloc(), file);
    loses_what_was_written(&rt, &mut disk);
    drop(disk);
    Ok(())
}

#[test]
fn a_refused_write_is_counted(rt: HostRuntime) -> Result<(), Fail> {
    let path = temp_path(&rt, "delta")?;
    fs::write(&rt, path.as_str(), b"abc")?;
    let mut disk = HostDisk::new(rt.alloc(), File::open(&rt, path.as_str())?);
    refuses_write(&rt, &mut disk);
    drop(disk);
    fs::remove_file(&rt, path.as_str())?;
    Ok(())
}
