//! A run of the server over files and gates in memory.
use delta_base::{Bytes, Calls, Link, Listing, MemLink, MemSink, OutOfMemory, Sink, Text};
use delta_server::{Served, run_server};
use disk_model::MemShelf;
use slot_files::init_slots;
use std::alloc::Global;
use std::process::Abort;
use std::sync::Wait;
use std::test::Fail;
use std::thread::Threads;
use worker_pool::{Gate, MemGate};

/// Words that ask for a server of two workers.
pub(crate) const TWO: &[&str] = &["serve", "d", "127.0.0.1:1066", "2"];

pub(crate) fn words_of(alloc: Global, words: &[&str]) -> Result<Vec<String>, OutOfMemory> {
    let mut made = Vec::new(alloc);
    for word in words {
        made.push(String::from_str(alloc, word)?)?;
    }
    Ok(made)
}

/// A shelf with the files of two slots in the directory `d`. The calls of these numbers
/// behind that fail.
pub(crate) fn shelf(alloc: Global, failing: &[u64]) -> Result<MemShelf, Fail> {
    let dir = Text::from_str(alloc, "d")?;
    let mut calls = Calls::new(alloc);
    for number in failing {
        // Three calls make the files.
        calls.push(number.saturating_add(3))?;
    }
    let mut shelf = MemShelf::new(alloc, calls);
    match init_slots(alloc, &mut shelf, &dir, 2) {
        Ok(()) => Ok(shelf),
        Err(_) => {
            drop(shelf);
            Err(Fail::from("no files"))
        }
    }
}

// A link that gives this text.
fn link_of(alloc: Global, text: &[u8]) -> Result<MemLink, OutOfMemory> {
    let content = Bytes::from_slice(alloc, text)?;
    Ok(MemLink::new(alloc, content, 8_192, Calls::new(alloc)))
}

/// Adds a gate with these links, whose calls of these numbers fail.
pub(crate) fn add_gate<L: Drop>(
    alloc: Global,
    gates: &mut Vec<MemGate<L>>,
    links: Vec<L>,
    failing: &[u64],
) -> Result<(), OutOfMemory> {
    let calls: Calls = Listing::from_vec(Vec::from_slice(alloc, failing)?);
    gates.push(MemGate::new(alloc, links, calls)?)?;
    Ok(())
}

/// Adds a gate of one connection with this text.
pub(crate) fn add_connection(
    alloc: Global,
    gates: &mut Vec<MemGate<MemLink>>,
    text: &[u8],
) -> Result<(), OutOfMemory> {
    let mut links = Vec::new(alloc);
    links.push(link_of(alloc, text)?)?;
    add_gate(alloc, gates, links, &[])
}

/// Adds gates without links, up to sixteen.
pub(crate) fn fill<L: Drop>(alloc: Global, gates: &mut Vec<MemGate<L>>) -> Result<(), OutOfMemory> {
    for _ in gates.len()..16 {
        gates.push(MemGate::new(alloc, Vec::new(alloc), Calls::new(alloc))?)?;
    }
    Ok(())
}

/// Sixteen gates without links.
pub(crate) fn no_links(alloc: Global) -> Result<Vec<MemGate<MemLink>>, OutOfMemory> {
    let mut gates = Vec::new(alloc);
    match fill(alloc, &mut gates) {
        Ok(()) => Ok(gates),
        Err(OutOfMemory) => {
            drop(gates);
            Err(OutOfMemory)
        }
    }
}

/// Runs the server with sixteen gates, and looks at its status and its line.
pub(crate) fn run<R: Abort + Threads + Wait + Sync, G: Drop + Gate + Send>(
    rt: &R,
    alloc: Global,
    words: &[&str],
    shelf: &mut MemShelf,
    gates: Vec<G>,
    status: u8,
    line: &str,
) -> Result<Vec<G>, Fail>
where
    G::L: Link + Send,
{
    if gates.len() != 16 {
        return Err(Fail::from("sixteen gates"));
    }
    let words = words_of(alloc, words)?;
    let mut err = MemSink::new(alloc, Calls::new(alloc));
    let Served {
        status: found,
        gates,
    } = run_server(rt, alloc, &words, shelf, gates, &mut err);
    is_told(rt, found, err.written(), status, line);
    Ok(gates)
}

/// A server that ended with a status and wrote this ended with that status and that line.
fn is_told<R: Abort>(rt: &R, found: u8, written: &[u8], status: u8, line: &str) {
    let said = str::from_utf8(written).unwrap_or("no text");
    assert!(rt; found == status, "status {found}, {said}");
    assert!(rt; said == line, "said {said}");
}

/// Runs the server likewise, and lets its gates go.
pub(crate) fn ends<R: Abort + Threads + Wait + Sync, G: Drop + Gate + Send>(
    rt: &R,
    alloc: Global,
    words: &[&str],
    shelf: &mut MemShelf,
    gates: Vec<G>,
    status: u8,
    line: &str,
) -> Result<(), Fail>
where
    G::L: Link + Send,
{
    let gates = run(rt, alloc, words, shelf, gates, status, line)?;
    drop(gates);
    Ok(())
}
