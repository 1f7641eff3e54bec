//! Words that ask for no server, and files that can't be opened.
use crate::runs::{TWO, add_gate, ends, fill, no_links, run, shelf};
use delta_base::{Calls, MemLink, OutOfMemory, Text};
use disk_model::{MemShelf, Shelf};
use std::alloc::Global;
use std::process::Abort;
use std::sync::Wait;
use std::test::Fail;
use std::thread::Threads;
use std::time::Clock;
use worker_pool::{Door, MemGate, TcpGate};

const USAGE: &str = "rdfdelta: usage: serve DIR ADDR WORKERS\n";

// These words get status 2 and this line, and nothing is asked of the shelf.
fn refuses<R: Abort + Threads + Wait + Sync>(
    rt: &R,
    alloc: Global,
    words: &[&str],
    line: &str,
) -> Result<(), Fail> {
    let gates = no_links(alloc)?;
    let mut shelf = MemShelf::new(alloc, Calls::new(alloc));
    let ran = leaves(rt, alloc, words, &mut shelf, gates, line);
    drop(shelf);
    ran
}

// All gates come back, and the shelf has no files.
fn leaves<R: Abort + Threads + Wait + Sync>(
    rt: &R,
    alloc: Global,
    words: &[&str],
    shelf: &mut MemShelf,
    gates: Vec<MemGate<MemLink>>,
    line: &str,
) -> Result<(), Fail> {
    let gates = run(rt, alloc, words, shelf, gates, 2, line)?;
    let count = gates.len();
    drop(gates);
    assert!(rt; count == 16);
    let dir = Text::from_str(alloc, "d")?;
    assert!(rt; shelf.file(&dir, 0).is_none());
    Ok(())
}

const UNKNOWN: &str = "rdfdelta: unknown command\n";

/// Words that ask for no server, and what is told of them.
const REFUSED: &[(&[&str], &str)] = &[
    (&[], UNKNOWN),
    (&["replay"], UNKNOWN),
    (&["serve"], USAGE),
    (&["serve", "d", "a:1", "2", "x"], USAGE),
    (&["serve", "d", "a:1", "0"], USAGE),
    (&["serve", "d", "a:1", "17"], USAGE),
    (&["serve", "d", "a:1", "02"], USAGE),
    (&["serve", "-d", "a:1", "2"], USAGE),
    (&["serve", "d", "a", "2"], USAGE),
    (&["serve", "d", "a:", "2"], USAGE),
    (&["serve", "d", "a:123456", "2"], USAGE),
    (&["serve", "d", "a:1x", "2"], USAGE),
    (&["serve", "d", "a b:1", "2"], USAGE),
];

#[test]
fn other_words_are_refused(rt: HostRuntime) -> Result<(), Fail> {
    for (words, line) in REFUSED {
        refuses(&rt, rt.alloc(), words, line)?;
    }
    Ok(())
}

#[test]
fn an_address_may_have_colons(rt: HostRuntime) -> Result<(), Fail> {
    let alloc = rt.alloc();
    let mut shelf = shelf(alloc, &[])?;
    let words = ["serve", "d", "[::1]:10660", "16"];
    let ran = ends_without_links(&rt, alloc, &words, &mut shelf, 0, "");
    drop(shelf);
    ran
}

const FAILED: &str = "rdfdelta: link failed\n";

// Sixteen gates over a door that has no port.
fn tcp_gates<'a, C: Clock + Drop>(
    alloc: Global,
    door: &'a Door<C>,
) -> Result<Vec<TcpGate<'a, C>>, Fail> {
    let mut gates = Vec::new(alloc);
    for place in 0..16 {
        gates.push(TcpGate::new(door, 0, place))?;
    }
    Ok(gates)
}

#[test]
fn a_port_in_use_is_a_failed_link(rt: HostRuntime) -> Result<(), Fail> {
    let alloc = rt.alloc();
    let door = Door::new(&rt, None);
    let gates = tcp_gates(alloc, &door)?;
    let mut shelf = shelf(alloc, &[])?;
    let ran = ends(&rt, alloc, TWO, &mut shelf, gates, 6, FAILED);
    drop(shelf);
    ran
}

// Adds sixteen gates, of which the second and the third fail.
fn add_failing(alloc: Global, gates: &mut Vec<MemGate<MemLink>>) -> Result<(), OutOfMemory> {
    add_gate(alloc, gates, Vec::new(alloc), &[])?;
    add_gate(alloc, gates, Vec::new(alloc), &[0])?;
    // The gate of no worker isn't asked.
    add_gate(alloc, gates, Vec::new(alloc), &[0])?;
    fill(alloc, gates)
}

// Those gates.
fn failing_gates(alloc: Global) -> Result<Vec<MemGate<MemLink>>, OutOfMemory> {
    let mut gates = Vec::new(alloc);
    match add_failing(alloc, &mut gates) {
        Ok(()) => Ok(gates),
        Err(OutOfMemory) => {
            drop(gates);
            Err(OutOfMemory)
        }
    }
}

#[test]
fn a_gate_that_fails_is_a_failed_link(rt: HostRuntime) -> Result<(), Fail> {
    let alloc = rt.alloc();
    let gates = failing_gates(alloc)?;
    let mut shelf = shelf(alloc, &[])?;
    let ran = ends(&rt, alloc, TWO, &mut shelf, gates, 6, FAILED);
    drop(shelf);
    ran
}

// A server over this shelf, to which nobody connects, ends with this status and line.
fn ends_without_links<R: Abort + Threads + Wait + Sync>(
    rt: &R,
    alloc: Global,
    words: &[&str],
    shelf: &mut MemShelf,
    status: u8,
    line: &str,
) -> Result<(), Fail> {
    let gates = no_links(alloc)?;
    ends(rt, alloc, words, shelf, gates, status, line)
}

// A server whose shelf fails at this call ends with this status and line.
fn ends_failing<R: Abort + Threads + Wait + Sync>(
    rt: &R,
    alloc: Global,
    number: u64,
    status: u8,
    line: &str,
) -> Result<(), Fail> {
    let mut shelf = shelf(alloc, &[number])?;
    let ran = ends_without_links(rt, alloc, TWO, &mut shelf, status, line);
    drop(shelf);
    ran
}

#[test]
fn a_shelf_that_fails_is_a_failed_disk(rt: HostRuntime) -> Result<(), Fail> {
    let alloc = rt.alloc();
    let line = "rdfdelta: disk failed\n";
    for number in 0..4u64 {
        ends_failing(&rt, alloc, number, 5, line)?;
    }
    ends_failing(&rt, alloc, 4, 0, "")
}

// A file is made this.
fn write(alloc: Global, shelf: &mut MemShelf, number: u32, bytes: &[u8]) -> Result<(), Fail> {
    let dir = Text::from_str(alloc, "d")?;
    match shelf.disk(&dir, number) {
        Ok(mut disk) => {
            let written = disk_model::Disk::write_at(&mut disk, 0, bytes).is_ok();
            shelf.put_back(disk);
            if written {
                Ok(())
            } else {
                Err(Fail::from("not written"))
            }
        }
        Err(_) => Err(Fail::from("no disk")),
    }
}

// A server over a shelf without files tells so.
fn tells_of_none<R: Abort + Threads + Wait + Sync>(rt: &R, alloc: Global) -> Result<(), Fail> {
    let mut none = MemShelf::new(alloc, Calls::new(alloc));
    let line = "rdfdelta: file 0: byte 0: damaged\n";
    let ran = ends_without_links(rt, alloc, TWO, &mut none, 9, line);
    drop(none);
    ran
}

// A server over this shelf, once the file of this number has these bytes, tells this line.
fn tells_of<R: Abort + Threads + Wait + Sync>(
    rt: &R,
    alloc: Global,
    shelf: &mut MemShelf,
    number: u32,
    bytes: &[u8],
    line: &str,
) -> Result<(), Fail> {
    write(alloc, shelf, number, bytes)?;
    ends_without_links(rt, alloc, TWO, shelf, 9, line)
}

/// Bytes that files of these numbers have, and what is told of them.
const BROKEN: &[(u32, &[u8], &str)] = &[
    (0, b"RDJ1\0\0\0\0", "rdfdelta: file 0: old format\n"),
    (2, b"RDJ2\0\0\0\x03\0", "rdfdelta: file 2: wrong number 3\n"),
    (
        1,
        b"RDJ2\0\0\0\x01\x01",
        "rdfdelta: file 1: byte 9: damaged\n",
    ),
    (
        0,
        b"RDJ2\0\0\0\0\x01\0\0\0\x01\0\0\0\x03S 0\0",
        "rdfdelta: file 0: broken event at 0\n",
    ),
    (
        2099,
        b"RDJ2\0\0\x08\x33\x01\0\0\0\x01\0\0\0\x01U\0",
        "rdfdelta: file 2099: upgrade pending\n",
    ),
    (
        2099,
        b"RDJ2\0\0\x08\x33\x01\0",
        "rdfdelta: file 2099: byte 9: damaged\n",
    ),
];

#[test]
fn broken_files_are_told(rt: HostRuntime) -> Result<(), Fail> {
    let alloc = rt.alloc();
    tells_of_none(&rt, alloc)?;
    for (number, bytes, line) in BROKEN {
        let mut shelf = shelf(alloc, &[])?;
        let ran = tells_of(&rt, alloc, &mut shelf, *number, bytes, line);
        drop(shelf);
        ran?;
    }
    Ok(())
}
